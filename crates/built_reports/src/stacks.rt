//! Stacks with their counts.

ghost use Rattle.std.specs.Prelude.{◌≡◌, ◌∷◌, [], ◌++◌, length, option_to_list, IfOk, OnOk, OnErr};
ghost use Rattle.built_reports.specs.Totals.{counted};

use ctx_set::StepList;
use std::alloc::{AllocError, Global};
use std::marker::Model;

/// A stack, and how many reports had it.
#[derive(Drop)]
pub struct StackCount {
    pub stack: StepList,
    pub count: u64,
}

/// A list of stacks with their counts.
#[derive(Drop)]
pub struct StackList {
    items: Vec<StackCount>,
}

impl Model for StackList {
    ghost use Rattle.std.specs.Prelude.{List};
    ghost use Rattle.built_reports.specs.declared.stacks.StackCount.{StackCount};

    ghost Value = { List StackCount };

    ghost view = { λ l. l.items.items };
}

impl StackList {
    /// The list without stacks; it takes no memory.
    pub fn new(alloc: Global) -> StackList
        ensures { result ≡ [] }
    {
        StackList {
            items: Vec::new(alloc),
        }
    }

    /// How many stacks there are.
    pub fn len(&self) -> usize
        ensures { result ≡ length self.now }
    {
        self.items.len()
    }

    /// Adds a stack at the end; where memory is refused, the list stays as it was.
    pub fn push(&mut self, stack: StackCount) -> Result<(), AllocError>
        ensures ok { OnOk result (self.new ≡ self.old ++ stack ∷ []) }
        ensures err { OnErr result (self.new ≡ self.old) }
    {
        self.items.push(stack)?;
        Ok(())
    }

    /// The stacks in order.
    pub fn as_slice(&self) -> &[StackCount]
        ensures { result.now ≡ self.now }
    {
        self.items.as_slice()
    }
}

/// The stacks of the reports of a run that made at most one, with their counts.
pub fn collect_one(alloc: Global, report: Option<StepList>) -> Result<StackList, AllocError>
    ensures { IfOk result (λ stacks. stacks ≡ counted (option_to_list report)) }
{
    let mut stacks = StackList::new(alloc);
    if let Some(stack) = report {
        stacks.push(StackCount { stack, count: 1 })?;
    }
    Ok(stacks)
}
