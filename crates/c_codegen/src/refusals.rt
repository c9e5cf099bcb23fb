// The entry of a unit, and whether it has too many nodes.

ghost use Rattle.std.specs.Prelude.{◌≡◌, ◌<◌, ◌↔◌, ◌&&◌, IsTrue, bytes_eq};
ghost use Rattle.core_unit.specs.Layout.{told};
ghost use Rattle.core_unit.specs.Nodes as count;
ghost use Rattle.mcode.specs.Words.{is_defined};
ghost use Rattle.src_model.specs.Runs.{function_from};
ghost use Rattle.c_codegen.specs.Refusals.{unit_nodes, node_limit};

use crate::sizes::sum;
use core_unit::{FunctionInfo, Unit, function_nodes};

/// How many nodes a unit may have that is compiled (this project's own limit).
pub const NODE_LIMIT: u32 = 262_144;

// Whether the function is defined and has the name.
fn is_entry(function: &FunctionInfo, name: &str) -> bool
    ensures { result ≡ (is_defined function.now.body && bytes_eq function.now.name name.now) }
{
    function.body.is_some() && function.name.as_str() == name
}

// The first function that is defined and has the name.
#[tactic(auto, using(crate::proofs::Refused::entry_rules))]
pub fn entry_function(unit: &Unit, name: &str) -> Option<u32>
    ensures { result ≡ function_from 0 unit.now.functions name.now }
{
    'each: for id in 0..unit.functions() {
        if is_entry(unit.function(id), name) {
            return Some(id);
        }
    }
    None
}

// The nodes of functions, or 2^32 - 1 where there are more.
fn functions_nodes(functions: &[FunctionInfo]) -> u32
    ensures { result ≡ told (count.unit_nodes functions.now) }
{
    let mut total = 0;
    'each: for function in functions {
        total = sum(total, function_nodes(function));
    }
    total
}

// Whether the unit has more nodes than the limit.
#[tactic(auto, using(crate::proofs::Refused::told_over, crate::proofs::Refused::told_under))]
pub fn is_long(unit: &Unit) -> bool
    ensures { IsTrue result ↔ (node_limit < unit_nodes unit.now) }
{
    functions_nodes(unit.parts().functions.as_slice()) > NODE_LIMIT
}
