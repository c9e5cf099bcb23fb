// From a unit to its code.

ghost use Rattle.std.specs.Prelude.{◌≡◌, ◌<◌, ◌≤◌, ◌↔◌, ℕ, ◌⊎◌, Some, None, IfOk, IfErr, OnOk};
ghost use Rattle.src_model.specs.Follows.{Behaves, IsCompiled};
ghost use Rattle.c_codegen.specs.Refusals.{HasNoEntry, IsFirstMissing, unit_nodes, node_limit};

use crate::draft::Draft;
use crate::functions::emit_functions;
use crate::names::first_undefined;
use crate::refusals::{entry_function, is_long};
use core_unit::Unit;
use machine_code::{Code, CodeList};
use std::alloc::{AllocError, Global};

/// Why a unit isn't compiled.
#[derive(Drop)]
pub enum CompileRefusal {
    /// No defined function has the name of the entry.
    NoEntry,
    /// A function is named in a definition or an initializer, outside `sizeof`, and has no definition; the first by number.
    Undefined(u32),
    /// The unit has more than 262,144 nodes.
    Long,
    /// Memory was refused.
    NoMemory,
}

/// The code of a unit, which does what the source thread does, event by event, for each number, function, argument words and answers.
/// Its entry is the first function by number that is defined and has the name. Of the refusals but NoMemory the first that holds is
/// answered, in their order; NoMemory comes in place of the code alone.
pub fn compile(alloc: Global, unit: &Unit, entry: &str) -> Result<Code, CompileRefusal>
    ensures compiled { IfOk result (λ code. IsCompiled unit.now entry.now code) }
    ensures linked { OnOk result (IsFirstMissing unit.now None) }
    ensures short { OnOk result (unit_nodes unit.now ≤ node_limit) }
    ensures no_entry { (result ≡ Err CompileRefusal.NoEntry) ↔ HasNoEntry unit.now entry.now }
    ensures undefined { (n : ℕ) → (result ≡ Err (CompileRefusal.Undefined n)) ↔ ((HasNoEntry unit.now entry.now → ⊥) × IsFirstMissing unit.now (Some n)) }
    ensures long { (result ≡ Err CompileRefusal.Long) ↔ ((HasNoEntry unit.now entry.now → ⊥) × IsFirstMissing unit.now None × (node_limit < unit_nodes unit.now)) }
{
    let Some(number) = entry_function(unit, entry) else {
        return Err(CompileRefusal::NoEntry);
    };
    match first_undefined(unit) {
        Some(function) => Err(CompileRefusal::Undefined(function)),
        None => compile_defined(alloc, unit, number),
    }
}

// The code of a unit in which each used function has a definition.
#[tactic(auto, using(crate::proofs::Composed::short_where))]
fn compile_defined(alloc: Global, unit: &Unit, entry: u32) -> Result<Code, CompileRefusal>
    ensures behaves { IfOk result (λ code. Behaves unit.now code) }
    ensures entry { IfOk result (λ code. code.entry ≡ entry) }
    ensures short { OnOk result (unit_nodes unit.now ≤ node_limit) }
    ensures long { (result ≡ Err CompileRefusal.Long) ↔ (node_limit < unit_nodes unit.now) }
    ensures refusal { IfErr result (λ refusal. (refusal ≡ CompileRefusal.Long) ⊎ (refusal ≡ CompileRefusal.NoMemory)) }
{
    if is_long(unit) {
        return Err(CompileRefusal::Long);
    }
    match emit_unit(alloc, unit, entry) {
        Ok(code) => Ok(code),
        Err(AllocError) => Err(CompileRefusal::NoMemory),
    }
}

// The code of a unit that isn't too long.
#[tactic(auto, using(crate::proofs::Composed::room_for_all))]
fn emit_unit(alloc: Global, unit: &Unit, entry: u32) -> Result<Code, AllocError>
    requires short { unit_nodes unit.now ≤ node_limit }
    ensures behaves { IfOk result (λ code. Behaves unit.now code) }
    ensures entry { IfOk result (λ code. code.entry ≡ entry) }
{
    let _ = unit.parts();
    let mut draft = Draft::new(alloc);
    let mut entries = CodeList::new(alloc);
    emit_functions(alloc, unit, &mut draft, &mut entries)?;
    let words = unit.static_words();
    Ok(Code::new(draft.instructions, draft.texts, entries, entry, words))
}
