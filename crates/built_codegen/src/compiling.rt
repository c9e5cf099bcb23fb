ghost use Rattle.std.specs.Prelude.{◌≡◌, ◌<◌, ◌≤◌, ◌↔◌, ℕ, ◌⊎◌, Some, None, IfOk, IfErr, OnOk};
ghost use Rattle.built_codegen.specs.Unit.{HasNoEntry, IsEntry, IsFirstMissing, unit_nodes, node_limit};
ghost use Rattle.built_model.specs.Follows.{Behaves};

use crate::emission::emit_unit;
use crate::unit::{entry_function, first_missing, is_long};
use built_code::Code;
use built_unit::Unit;
use std::alloc::{AllocError, Global};

/// Why a unit isn't compiled.
#[derive(Drop)]
pub enum CompileRefusal {
    /// no defined function has the name of the entry
    NoEntry,
    /// a called function has no definition; the first by number
    Undefined(u32),
    /// the unit has more than 262,144 nodes
    Long,
    /// memory was refused
    NoMemory,
}

/// The code of a unit, which does what the source thread does, event by event, for each number,
/// function and list of answers. Its entry is the least number of a defined function of this name.
/// Of the refusals but NoMemory the first that holds is answered, in their order.
pub fn compile(alloc: Global, unit: &Unit, entry: &str) -> Result<Code, CompileRefusal>
    ensures behaves { IfOk result (λ code. Behaves unit.now code) }
    ensures entry { IfOk result (λ code. IsEntry unit.now entry.now code.entry) }
    ensures linked { OnOk result (IsFirstMissing unit.now None) }
    ensures short { OnOk result (unit_nodes unit.now ≤ node_limit) }
    ensures no_entry { (result ≡ Err CompileRefusal.NoEntry) ↔ HasNoEntry unit.now entry.now }
    ensures undefined { (n : ℕ) → (result ≡ Err (CompileRefusal.Undefined n)) ↔ ((HasNoEntry unit.now entry.now → ⊥) × IsFirstMissing unit.now (Some n)) }
    ensures long { (result ≡ Err CompileRefusal.Long) ↔ ((HasNoEntry unit.now entry.now → ⊥) × IsFirstMissing unit.now None × (node_limit < unit_nodes unit.now)) }
{
    let Some(number) = entry_function(unit, entry) else {
        return Err(CompileRefusal::NoEntry);
    };
    match first_missing(unit) {
        Some(function) => Err(CompileRefusal::Undefined(function)),
        None => compile_defined(alloc, unit, number),
    }
}

// The code of a unit in which each called function has a definition.
fn compile_defined(alloc: Global, unit: &Unit, entry: u32) -> Result<Code, CompileRefusal>
    ensures behaves { IfOk result (λ code. Behaves unit.now code) }
    ensures entry { IfOk result (λ code. code.entry ≡ entry) }
    ensures short { OnOk result (unit_nodes unit.now ≤ node_limit) }
    ensures long { (result ≡ Err CompileRefusal.Long) ↔ (node_limit < unit_nodes unit.now) }
    ensures refusal { IfErr result (λ refusal. (refusal ≡ CompileRefusal.Long) ⊎ (refusal ≡ CompileRefusal.NoMemory)) }
{
    if is_long(unit) {
        return Err(CompileRefusal::Long);
    }
    match emit_unit(alloc, unit, entry) {
        Ok(code) => Ok(code),
        Err(AllocError) => Err(CompileRefusal::NoMemory),
    }
}
