//! The counted stacks of a board, at its end.
ghost use Rattle.std.specs.Prelude.{◌≡◌, ◌<◌, ◌≤◌, ◌^◌, ◌++◌, All, length, IfOk};
ghost use Rattle.std.specs.List.{flat_map};
ghost use Rattle.reports.specs.Passes.{IsWhole, all_reports};
ghost use Rattle.stack_counts.specs.Totals.{AreTotals, sum_of};
ghost use Rattle.set_board.specs.Tallies.{stacks_of, IsShort};

use crate::board::{SetBoard, SetPass};
use context_set::PathCount;
use reports::{Board, StackList};
use stack_counts::{add_stack, sort_stacks};
use std::alloc::{AllocError, Global};

// Adds the stack of a path, if it was counted.
fn add_counted(alloc: Global, stacks: &mut StackList, entry: &PathCount) -> Result<(), AllocError>
    requires { IsShort entry.now }
    ensures { IfOk result (λ _. stacks.new ≡ stacks.old ++ stacks_of entry.now) }
{
    if entry.count == 0 {
        return Ok(());
    }
    add_stack(alloc, stacks, entry.path.as_slice(), entry.count)
}

// The stacks of the paths that were counted.
fn counted_stacks(alloc: Global, paths: &[PathCount]) -> Result<StackList, AllocError>
    requires { All IsShort paths.now }
    ensures { IfOk result (λ stacks. stacks ≡ flat_map stacks_of paths.now) }
{
    let mut stacks = StackList::new(alloc);
    'each: for entry in paths {
        add_counted(alloc, &mut stacks, entry)?;
    }
    Ok(stacks)
}

impl SetBoard {
    /// The stacks that were counted, in order, each with how many reports counted it. The counts add up to less than 2^64.
    pub fn collect(self, pass: SetPass) -> Result<StackList, AllocError>
        requires belongs { ⟦<SetBoard as Board>⟧.belongs (⟦<SetBoard as Board>⟧.place self) pass }
        requires whole { IsWhole (⟦<SetBoard as Board>⟧.held pass) }
        requires few { length (all_reports (⟦<SetBoard as Board>⟧.held pass)) < 2 ^ 64 }
        ensures totals { IfOk result (λ stacks. AreTotals (all_reports (⟦<SetBoard as Board>⟧.held pass)) stacks) }
        ensures few { IfOk result (λ stacks. sum_of stacks < 2 ^ 64) }
    {
        let SetBoard { alloc, set } = self;
        let SetPass { ctx, past: _ } = pass;
        let paths = set.close(ctx)?;
        let mut stacks = counted_stacks(alloc, paths.as_slice())?;
        sort_stacks(&mut stacks);
        Ok(stacks)
    }
}
