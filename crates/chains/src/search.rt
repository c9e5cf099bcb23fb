// The search for distances: a queue of functions, over the calls turned round.
ghost use Rattle.std.specs.Prelude.{◌≡◌, ◌^◌, ◌<◌, ◌↔◌, [], ◌∷◌, ◌++◌, length, map, IsTrue, IfOk, OnOk, Contains};
ghost use Rattle.chains.specs.Look.{look, CallsBelow};
ghost use Rattle.chains.specs.Measures.{Measures, distance_in};
ghost use Rattle.chains.specs.Queue.{RowCallsBelow, AddsCalls, Reverses, IsSeeded, distances_with, queue_with};

use crate::{Mark, MarkList};
use std::alloc::{AllocError, Global};
use std::marker::Model;

/// For each function how many places its shortest chain has: 0 exactly where no chain starts in its body. The only error
/// is want of memory. It takes time in proportion to the marks.
pub fn distances(alloc: Global, rows: &[MarkList]) -> Result<Vec<u32>, AllocError>
    requires short { length rows.now < 2 ^ 31 }
    requires calls { CallsBelow (length rows.now) rows.now }
    ensures sized { IfOk result (λ found. length found.items ≡ length rows.now) }
    ensures exact { IfOk result (λ found. Measures (look rows.now) (distance_in found.items)) }
{
    let callers = callers_of(alloc, rows)?;
    let mut search = seeded(alloc, rows)?;
    let mut head = 0;
    'queued: while head < search.queue.len() {
        let callee = search.queue[head];
        let distance = search.distances[callee as usize] + 1;
        'callers: for caller in callers[callee as usize].as_slice() {
            search.reach(*caller, distance)?;
        }
        head += 1;
    }
    Ok(search.distances)
}

// The distances found so far, 0 where none is, and the functions that have one, the nearest first.
#[derive(Drop)]
struct Search {
    distances: Vec<u32>,
    queue: Vec<u32>,
}

impl Search {
    // Gives the function this distance and the last place of the queue, where it has no distance yet.
    fn reach(&mut self, function: u32, distance: u32) -> Result<(), AllocError>
        requires { function < length self.old.distances.items }
        ensures distances { OnOk result (self.new.distances.items ≡ distances_with self.old.distances.items function distance) }
        ensures queue { OnOk result (self.new.queue.items ≡ queue_with self.old.distances.items self.old.queue.items function) }
    {
        if self.distances[function as usize] == 0 {
            self.queue.push(function)?;
            self.distances[function as usize] = distance;
        }
        Ok(())
    }
}

// The search at its start: the functions with a violation in their own body are one place from it.
fn seeded(alloc: Global, rows: &[MarkList]) -> Result<Search, AllocError>
    requires { length rows.now < 2 ^ 31 }
    ensures { IfOk result (λ search. IsSeeded rows.now search.distances.items search.queue.items) }
{
    let mut search = Search {
        distances: vec![in alloc; 0u32; rows.len()]?,
        queue: Vec::new(alloc),
    };
    'rows: for (function, row) in rows.iter().enumerate() {
        if has_violation(row) {
            search.reach(function as u32, 1)?;
        }
    }
    Ok(search)
}

// Whether a place of the row is a violation.
fn has_violation(row: &MarkList) -> bool
    ensures { IsTrue result ↔ Contains row.now Mark.Violates }
{
    row.as_slice()
        .iter()
        .any(|mark| matches!(mark, Mark::Violates))
}

// The functions that call one function.
#[derive(Drop)]
struct CallerList {
    functions: Vec<u32>,
}

impl Model for CallerList {
    ghost use Rattle.std.specs.Prelude.{List, ℕ};

    ghost Value = { List ℕ };

    ghost view = { λ l. l.functions.items };
}

impl CallerList {
    fn new(alloc: Global) -> CallerList
        ensures { result ≡ [] }
    {
        CallerList {
            functions: Vec::new(alloc),
        }
    }

    fn push(&mut self, function: u32) -> Result<(), AllocError>
        ensures { OnOk result (self.new ≡ self.old ++ function ∷ []) }
    {
        self.functions.push(function)?;
        Ok(())
    }

    fn as_slice(&self) -> &[u32]
        ensures { result.now ≡ self.now }
    {
        self.functions.as_slice()
    }
}

// The callers of each function, one entry for each call.
fn callers_of(alloc: Global, rows: &[MarkList]) -> Result<Vec<CallerList>, AllocError>
    requires short { length rows.now < 2 ^ 31 }
    requires calls { CallsBelow (length rows.now) rows.now }
    ensures { IfOk result (λ callers. Reverses rows.now (length rows.now) callers.items) }
{
    let mut callers = without_callers(alloc, rows)?;
    'rows: for (function, row) in rows.iter().enumerate() {
        add_calls(&mut callers, function as u32, row.as_slice())?;
    }
    Ok(callers)
}

// An empty list of callers for each function.
fn without_callers(alloc: Global, rows: &[MarkList]) -> Result<Vec<CallerList>, AllocError>
    ensures { IfOk result (λ callers. callers.items ≡ map (λ _. []) rows.now) }
{
    rows.iter().map(|_| CallerList::new(alloc)).collect(alloc)
}

// Enters the function as a caller of each function that its row steps to.
fn add_calls(callers: &mut Vec<CallerList>, function: u32, row: &[Mark]) -> Result<(), AllocError>
    requires { RowCallsBelow (length callers.old.items) row.now }
    ensures { OnOk result (AddsCalls row.now (length row.now) function callers.old.items callers.new.items) }
{
    'marks: for mark in row {
        if let Mark::StepsTo(callee) = mark {
            callers[*callee as usize].push(function)?;
        }
    }
    Ok(())
}
