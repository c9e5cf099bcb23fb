// How places stand to a level.
ghost use Rattle.std.specs.Prelude.{◌≡◌, ◌≤◌, Some, length, map, IfOk, slice_get};
ghost use Rattle.core_unit.specs.Library.{rows, seen as row_seen};
ghost use Rattle.eff_types.specs.Effects.{is_below as below};
ghost use Rattle.unit_marks.specs.Marks as spec;
ghost use Rattle.unit_spots.specs.Spots.{spots_of};

use chains::{Chains, Mark, MarkList};
use core_unit::{FunctionInfo, LibRow, library};
use eff_types::Level;
use sqlite_items::at;
use std::alloc::{AllocError, Global};
use unit_spots::{Action, Spot, SpotList};

// Whether the first level promises less than the second.
fn is_below(low: Level, high: Level) -> bool
    ensures { result ≡ below low high }
{
    low < high
}

// How a call of this function stands to a level.
fn function_mark(level: Level, number: u32, function: &FunctionInfo) -> Mark
    ensures { result ≡ spec.function_mark level number (Some function.now) }
{
    let effects = function.kind.effects;
    if function.noreturn || !is_below(effects.level, level) {
        Mark::Passes
    } else if function.body.is_some() && !effects.forbids(level) {
        Mark::StepsTo(number)
    } else {
        Mark::Violates
    }
}

// Whether the library table says that a function keeps the level.
fn is_safe(level: Level, row: &LibRow) -> bool
    ensures { result ≡ spec.is_safe level (row_seen row.now) }
{
    match level {
        Level::Plain => true,
        Level::NonAllocating => row.nonallocating_safe,
        Level::NonBlocking => row.nonblocking_safe,
    }
}

fn library_mark(level: Level, row: u32) -> Mark
    ensures { result ≡ spec.row_mark level (slice_get rows row) }
{
    match at(library(), row as usize) {
        Some(row) => row_mark(level, row),
        None => Mark::Passes,
    }
}

fn row_mark(level: Level, row: &LibRow) -> Mark
    ensures { result ≡ spec.row_mark level (Some (row_seen row.now)) }
{
    if row.noreturn || is_safe(level, row) {
        Mark::Passes
    } else {
        Mark::Violates
    }
}

fn promise_mark(level: Level, promised: Level) -> Mark
    ensures { result ≡ spec.promise_mark level promised }
{
    if is_below(promised, level) {
        Mark::Violates
    } else {
        Mark::Passes
    }
}

fn static_mark(level: Level) -> Mark
    ensures { result ≡ spec.static_mark level }
{
    match level {
        Level::Plain => Mark::Passes,
        Level::NonAllocating => Mark::Passes,
        Level::NonBlocking => Mark::Violates,
    }
}

fn call_mark(functions: &[FunctionInfo], level: Level, callee: u32) -> Mark
    ensures { result ≡ spec.function_mark level callee (slice_get functions.now callee) }
{
    match at(functions, callee as usize) {
        Some(function) => function_mark(level, callee, function),
        None => Mark::Passes,
    }
}

// How a place where this stands is to a level.
fn mark(functions: &[FunctionInfo], level: Level, action: Action) -> Mark
    ensures { result ≡ spec.mark functions.now level action }
{
    match action {
        Action::Calls(callee) => call_mark(functions, level, callee),
        Action::CallsLibrary(row) => library_mark(level, row),
        Action::CallsThrough(promised) => promise_mark(level, promised),
        Action::UsesThreadLocal => Mark::Violates,
        Action::DeclaresStatic => static_mark(level),
    }
}

// The marks of the places of a body.
#[tactic(auto, using(unit_spots::proofs::Rows::one_more))]
fn marks(
    alloc: Global,
    functions: &[FunctionInfo],
    level: Level,
    spots: &[Spot],
) -> Result<MarkList, AllocError>
    ensures { IfOk result (λ row. row ≡ spec.marks functions.now level spots.now) }
{
    let mut row = MarkList::new(alloc);
    'each: for spot in spots {
        row.push(mark(functions, level, spot.action))?;
    }
    Ok(row)
}

// The marks of all functions, of which the places are given.
#[tactic(auto, using(unit_spots::proofs::Rows::one_more))]
fn mark_rows(
    alloc: Global,
    functions: &[FunctionInfo],
    level: Level,
    spots: &[SpotList],
) -> Result<Vec<MarkList>, AllocError>
    ensures { IfOk result (λ rows. rows.items ≡ map (spec.marks functions.now level) spots.now) }
{
    let mut rows = Vec::new(alloc);
    'each: for list in spots {
        rows.push(marks(alloc, functions, level, list.as_slice())?)?;
    }
    Ok(rows)
}

/// The chains for a level, of functions whose places are given. The one error is that no memory is left.
#[tactic(auto, using(crate::proofs::Marked::rows_are, crate::proofs::Marked::calls_below, crate::proofs::Marked::rows_long))]
pub fn chains_for(
    alloc: Global,
    functions: &[FunctionInfo],
    level: Level,
    spots: &[SpotList],
) -> Result<Chains, AllocError>
    requires few { length functions.now ≤ 4096 }
    requires places { spots.now ≡ map (λ f. spots_of f.body) functions.now }
    ensures { IfOk result (λ chains. chains.rows ≡ spec.mark_rows functions.now level) }
{
    let rows = mark_rows(alloc, functions, level, spots)?;
    Chains::new(alloc, rows)
}
