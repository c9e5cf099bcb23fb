//! Stacks with their counts.

ghost use Rattle.std.specs.Prelude.{◌≡◌, ◌∷◌, [], ◌++◌, length, OnOk, OnErr};
ghost use Rattle.std.specs.List.Sorted.{IsPermutation, IsSortedByKey};
ghost use Rattle.reports.specs.Stacks.{stack_cmp};

use ctx_set::StepList;
use std::alloc::{AllocError, Global};
use std::cmp::Ordering;
use std::marker::Model;

/// A stack, and how many reports had it.
#[derive(Drop)]
pub struct StackCount {
    pub stack: StepList,
    pub count: u64,
}

// The order of two entries is that of their stacks.
fn compare(a: &StackCount, b: &StackCount) -> Ordering
    ensures { result ≡ stack_cmp a.now.stack b.now.stack }
{
    a.stack.as_slice().cmp(&b.stack.as_slice())
}

/// A list of stacks with their counts.
#[derive(Drop)]
pub struct StackList {
    items: Vec<StackCount>,
}

impl Model for StackList {
    ghost use Rattle.std.specs.Prelude.{List};
    ghost use Rattle.reports.specs.declared.stacks.StackCount.{StackCount};

    ghost Value = { List StackCount };

    ghost view = { λ l. l.items.items };
}

impl StackList {
    /// The list without stacks; it takes no memory.
    pub fn new(alloc: Global) -> StackList
        ensures { result ≡ [] }
    {
        StackList {
            items: Vec::new(alloc),
        }
    }

    /// How many stacks there are.
    pub fn len(&self) -> usize
        ensures { result ≡ length self.now }
    {
        self.items.len()
    }

    /// Adds a stack at the end; where memory is refused, the list stays as it was.
    pub fn push(&mut self, stack: StackCount) -> Result<(), AllocError>
        ensures ok { OnOk result (self.new ≡ self.old ++ stack ∷ []) }
        ensures err { OnErr result (self.new ≡ self.old) }
    {
        self.items.push(stack)?;
        Ok(())
    }

    /// Puts the entries in the order of their stacks; it takes no memory.
    pub fn sort(&mut self)
        ensures same { IsPermutation self.old self.new }
        ensures sorted { IsSortedByKey (λ entry. entry.stack) stack_cmp self.new }
    {
        self.items.sort_unstable_by(compare);
    }

    /// The entries as they stand.
    pub fn as_slice(&self) -> &[StackCount]
        ensures { result.now ≡ self.now }
    {
        self.items.as_slice()
    }
}
