//! Stacks with their counts, from the first that is found to the list in order.

ghost use Rattle.std.specs.Prelude.{◌≡◌, ◌<◌, ◌≤◌, ◌^◌, ◌++◌, ◌∷◌, [], List, length, OnOk, OnErr, IfOk};
ghost use Rattle.reports.specs.Passes.{Report};
ghost use Rattle.stack_counts.specs.Totals.{AreCounts, AreTotals, entry_of, sum_of, all_counted};

use ctx_set::{StackStep, StepList};
use reports::{StackCount, StackList};
use std::alloc::{AllocError, Global};

// The stack of these steps.
fn step_list(alloc: Global, steps: &[StackStep]) -> Result<StepList, AllocError>
    requires { length steps.now ≤ 257 }
    ensures { IfOk result (λ list. list ≡ steps.now) }
{
    let mut list = StepList::new(alloc)?;
    'each: for step in steps {
        list.push(*step);
    }
    Ok(list)
}

/// Adds a stack of at most 257 steps with its count at the end; where memory is refused, the list stays as it was.
pub fn add_stack(
    alloc: Global,
    stacks: &mut StackList,
    steps: &[StackStep],
    count: u64,
) -> Result<(), AllocError>
    requires { length steps.now ≤ 257 }
    ensures ok { OnOk result (stacks.new ≡ stacks.old ++ entry_of steps.now count ∷ []) }
    ensures err { OnErr result (stacks.new ≡ stacks.old) }
{
    let stack = step_list(alloc, steps)?;
    stacks.push(StackCount { stack, count })
}

/// Puts stacks in order, without memory. Where they are the counts of some reports, they are then the totals of those.
pub fn sort_stacks(stacks: &mut StackList)
    ensures { (reports : List Report) → AreCounts reports stacks.old → AreTotals reports stacks.new }
{
    stacks.sort();
}

/// The sum of the counts, which is below 2^64: of totals, how many reports were counted.
pub fn total_count(stacks: &StackList) -> u64
    requires { sum_of stacks.now < 2 ^ 64 }
    ensures sum { result ≡ sum_of stacks.now }
    ensures counted { (reports : List Report) → AreTotals reports stacks.now → result ≡ all_counted reports }
{
    let mut total = 0;
    'each: for entry in stacks.as_slice() {
        total += entry.count;
    }
    total
}
