// The check of a unit.
ghost use Rattle.std.specs.Prelude.{◌≡◌, ◌<◌, ◌≤◌, ◌↔◌, length, map, IfOk, IsTrue, slice_get, slice_index_or, false, Some};
ghost use Rattle.unit_check.specs.Findings.{AreFound, KeepsLevel, step_at};
ghost use Rattle.unit_marks.specs.Marks as spec;
ghost use Rattle.unit_check.specs.Verdicts.{AreVerdicts, Verifies, step_with};
ghost use Rattle.unit_spots.specs.Spots.{spots_of};

use crate::findings::{Found, Search, kind_of};
use crate::positions::{Position, positions};
use crate::verdicts::{ChainStep, Verdicts, ViolationKind};
use chains::Chains;
use core_unit::{FunctionInfo, Unit};
use eff_types::Level;
use sqlite_items::at;
use std::alloc::{AllocError, Global};
use unit_marks::chains_for;
use unit_spots::{Spot, SpotList, all_spots};

/// Checks the marked functions of a unit, and infers which levels the others keep (Clang's manual 'Function Effect Analysis'). The one error is
/// that no memory is left.
pub fn check(alloc: Global, unit: &Unit) -> Result<Verdicts, AllocError>
    ensures { IfOk result (AreVerdicts unit.now) }
{
    let parts = unit.parts();
    let functions = parts.functions.as_slice();
    let spots = all_spots(alloc, functions)?;
    let places = positions(alloc, spots.as_slice(), parts.definitions.as_slice())?;
    let search = searched(alloc, functions, spots.as_slice(), places.as_slice())?;
    let nonallocating = verified(alloc, functions, &search.allocation, Level::NonAllocating)?;
    let nonblocking = verified(alloc, functions, &search.blocking, Level::NonBlocking)?;
    let Search {
        allocation,
        blocking,
        found,
    } = search;
    let Found { warnings, spans } = found;
    let allocation = allocation.into_steps();
    let blocking = blocking.into_steps();
    Ok(Verdicts {
        warnings,
        spans,
        allocation: placed_steps(alloc, spots.as_slice(), allocation.as_slice())?,
        blocking: placed_steps(alloc, spots.as_slice(), blocking.as_slice())?,
        nonallocating,
        nonblocking,
    })
}

// Looks at all these places.
#[tactic(auto, using(crate::proofs::Turns::nothing_found, crate::proofs::Turns::found_more))]
fn searched(
    alloc: Global,
    functions: &[FunctionInfo],
    spots: &[SpotList],
    places: &[Position],
) -> Result<Search, AllocError>
    requires few { length functions.now ≤ 4096 }
    requires places { spots.now ≡ map (λ f. spots_of f.body) functions.now }
    ensures { IfOk result (λ search. AreFound functions.now places.now search.allocation search.blocking search.found) }
{
    let mut search = Search {
        allocation: chains_for(alloc, functions, Level::NonAllocating, spots)?,
        blocking: chains_for(alloc, functions, Level::NonBlocking, spots)?,
        found: Found {
            warnings: Vec::new(alloc),
            spans: Vec::new(alloc),
        },
    };
    'each: for place in places {
        search.look_at(functions, *place)?;
    }
    Ok(search)
}

// Whether the function keeps the level, marked or not.
fn keeps(chains: &Chains, number: u32, function: &FunctionInfo, level: Level) -> bool
    requires { number < length chains.now.rows }
    ensures { IsTrue result ↔ KeepsLevel chains.now.rows number function.now level }
{
    function.body.is_some() && !function.kind.effects.forbids(level) && !chains.has_chain(number)
}

// Which functions keep the level, whether they are marked or not.
fn verified(
    alloc: Global,
    functions: &[FunctionInfo],
    chains: &Chains,
    level: Level,
) -> Result<Vec<bool>, AllocError>
    requires rows { chains.now.rows ≡ spec.mark_rows functions.now level }
    requires few { length functions.now ≤ 4096 }
    ensures { IfOk result (λ all. Verifies functions.now level (λ f. slice_index_or all.items f false)) }
{
    let mut all = Vec::new(alloc);
    'each: for (number, function) in functions.iter().enumerate() {
        all.push(keeps(chains, number as u32, function, level))?;
    }
    Ok(all)
}

fn step(function: u32, spot: &Spot) -> ChainStep
    ensures { result ≡ step_with function (Some spot.now) }
{
    ChainStep {
        function,
        place: spot.place,
        kind: kind_of(spot.action),
    }
}

fn step_in_body(function: u32, spots: &[Spot], index: usize) -> ChainStep
    ensures { result ≡ step_with function (slice_get spots.now index) }
{
    match at(spots, index) {
        Some(spot) => step(function, spot),
        None => ChainStep {
            function,
            place: 0,
            kind: ViolationKind::StaticLocal,
        },
    }
}

// A step, by the place that it stands for.
fn placed(spots: &[SpotList], step: chains::ChainStep) -> ChainStep
    ensures { result ≡ step_at spots.now step }
{
    match at(spots, step.function as usize) {
        Some(list) => step_in_body(step.function, list.as_slice(), step.place),
        None => step_in_body(step.function, &[], step.place),
    }
}

// The steps of chains, by the places that they stand for.
#[tactic(auto, using(unit_spots::proofs::Rows::one_more))]
fn placed_steps(
    alloc: Global,
    spots: &[SpotList],
    steps: &[chains::ChainStep],
) -> Result<Vec<ChainStep>, AllocError>
    ensures { IfOk result (λ all. all.items ≡ map (step_at spots.now) steps.now) }
{
    let mut all = Vec::new(alloc);
    'each: for step in steps {
        all.push(placed(spots, *step))?;
    }
    Ok(all)
}
