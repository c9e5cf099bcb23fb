//! The typed unit of a tree.

ghost use Rattle.std.specs.Prelude.{[]};
ghost use Rattle.tree_order.specs.Stands.{StandsInOrder};
ghost use Rattle.type_rules.specs.Units as units;
ghost use Rattle.type_units.specs.Answers.{AnswersUnit};

use crate::ending::type_parts;
use crate::refusal::TypeRefusal;
use c_tree::Tree;
use core_unit::Unit;
use sqlite_items::Items;
use std::alloc::Global;
use type_rules::TypeWarning;

/// A typed unit, and what its typing warns of, in order of place.
#[derive(Drop)]
pub struct Typed {
    pub unit: Unit,
    pub warnings: Items<TypeWarning>,
}

/// The typed unit of a tree whose nodes stand in order in the source, and what its typing warns of (C17 6.2 to 6.9; Clang's manual
/// 'Function Effect Analysis'): Ok exactly where the tree is typed inside the limits, Bad exactly with its first fault, and Limit
/// exactly with the first limit that it passes, where it has no fault. Want of memory alone is free.
pub fn type_unit(alloc: Global, source: &[u8], tree: &Tree) -> Result<Typed, TypeRefusal>
    requires { StandsInOrder tree.now }
    ensures { AnswersUnit (units.outcome source.now [] tree.now) result }
{
    let typed = match type_parts(alloc, source, &[], tree) {
        Ok(typed) => typed,
        Err(refusal) => return Err(refusal),
    };
    if typed.parts.structures.as_slice().len() > u32::MAX as usize {
        return Err(TypeRefusal::NoMemory);
    }
    Ok(Typed {
        unit: Unit::new(typed.parts),
        warnings: typed.warnings,
    })
}
