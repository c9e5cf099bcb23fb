//! Stacks in memory that is taken once.

ghost use Rattle.std.specs.Prelude.{◌≡◌, ◌∷◌, [], ◌<◌, length, drop, IfOk, MatchOption, slice_get, slice_index_or};

use std::alloc::{AllocError, Global};
use std::marker::Model;

/// At most so many items; contracts see them as a list, the latest first.
#[derive(Drop)]
pub struct Stack<T: Copy, const LIMIT: usize> {
    items: Vec<T>,
}

impl<T: Copy, const LIMIT: usize> Model for Stack<T, LIMIT> {
    ghost use Rattle.std.specs.Prelude.{List, reverse, ◌≤◌, vec_capacity};
    ghost use Rattle.std.specs.Coded.{coded_list};

    ghost Value = { List T };

    ghost coded = { coded_list T.code };

    ghost view = { λ s. reverse s.items.items };

    ghost invariant = { λ s. LIMIT ≤ vec_capacity s.items };
}

impl<T: Copy + Drop, const LIMIT: usize> Stack<T, LIMIT> {
    /// No item, with the memory for all that can stand.
    pub fn blank(alloc: Global) -> Result<Stack<T, LIMIT>, AllocError>
        ensures { IfOk result (λ stack. stack ≡ []) }
    {
        let items = Vec::with_capacity(alloc, LIMIT)?;
        Ok(Stack { items })
    }

    /// How many items stand.
    pub fn len(&self) -> usize
        ensures { result ≡ length self.now }
    {
        self.items.len()
    }

    /// The latest item.
    pub fn top(&self) -> Option<T>
        ensures { MatchOption result (self.now ≡ []) (λ item. slice_get self.now 0 ≡ Some item) }
    {
        self.items.last().copied()
    }

    /// The item below so many others, or this one where there is none.
    pub fn get_or(&self, place: usize, missing: T) -> T
        ensures { result ≡ slice_index_or self.now place missing }
    {
        if place < self.items.len() {
            self.items[self.items.len() - 1 - place]
        } else {
            missing
        }
    }

    /// Puts one more item on top; fewer than the limit stand.
    pub fn push(&mut self, item: T)
        requires { length self.old < LIMIT }
        ensures { self.new ≡ item ∷ self.old }
    {
        match self.items.push(item) {
            Ok(()) => {}
            Err(_) => unreachable!(),
        }
    }

    /// Takes the latest item away.
    pub fn pop(&mut self) -> Option<T>
        ensures { MatchOption result ((self.old ≡ []) × (self.new ≡ [])) (λ item. self.old ≡ item ∷ self.new) }
    {
        self.items.pop()
    }

    /// Takes so many items away, the latest ones, or all where there are fewer.
    #[tactic(auto, using(crate::proofs::Stacks::drop_reverse))]
    pub fn forget(&mut self, count: usize)
        ensures { self.new ≡ drop count self.old }
    {
        let rest = self.items.len().saturating_sub(count);
        self.items.truncate(rest);
    }

    /// Takes all items away, and keeps the memory.
    pub fn clear(&mut self)
        ensures { self.new ≡ [] }
    {
        self.items.clear();
    }
}
