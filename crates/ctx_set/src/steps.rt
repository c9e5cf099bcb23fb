//! Steps of a stack, and stacks in memory that is taken once.

ghost use Rattle.std.specs.Prelude.{◌≡◌, ◌∷◌, [], ◌++◌, ◌<◌, ◌≤◌, length, IfOk, MatchOption};

use std::alloc::{AllocError, Global};
use std::marker::Model;

/// The most steps of a stack: 256 functions, and one library function that they call.
pub const MAX_STEPS: usize = 257;

/// A step of a stack: a function, and the call that led to it. Steps are in order of their functions, and then of their calls.
#[derive(Clone, Copy, PartialEq, Eq, PartialOrd, Ord, Hash)]
pub struct StackStep {
    /// the number of the function
    pub target: u32,
    /// the number of the call site; 0 for the first function of a thread
    pub site: u32,
}

/// A stack: its steps from the first function of the thread on, in memory for 257 steps.
#[derive(Drop)]
pub struct StepList {
    items: Vec<StackStep>,
}

impl Model for StepList {
    ghost use Rattle.std.specs.Prelude.{List, ◌≤◌, length, vec_capacity};
    ghost use Rattle.ctx_set.specs.declared.steps.StackStep.{StackStep};

    ghost Value = { List StackStep };

    ghost view = { λ l. l.items.items };

    ghost invariant = { λ l. 257 ≤ vec_capacity l.items };
}

impl StepList {
    /// The stack without steps, with the memory for 257.
    pub fn new(alloc: Global) -> Result<StepList, AllocError>
        ensures { IfOk result (λ steps. steps ≡ []) }
    {
        let items = Vec::with_capacity(alloc, MAX_STEPS)?;
        Ok(StepList { items })
    }

    /// How many steps there are.
    pub fn len(&self) -> usize
        ensures { result ≡ length self.now }
    {
        self.items.len()
    }

    /// Adds the step of the function that is called next; fewer than 257 stand.
    pub fn push(&mut self, step: StackStep)
        requires { length self.old < 257 }
        ensures { self.new ≡ self.old ++ step ∷ [] }
    {
        match self.items.push(step) {
            Ok(()) => {}
            Err(_) => unreachable!(),
        }
    }

    /// Takes the last step away.
    pub fn pop(&mut self) -> Option<StackStep>
        ensures { MatchOption result ((self.old ≡ []) × (self.new ≡ [])) (λ step. self.old ≡ self.new ++ step ∷ []) }
    {
        self.items.pop()
    }

    /// The steps from the first function of the thread on.
    pub fn as_slice(&self) -> &[StackStep]
        ensures { result.now ≡ self.now }
    {
        self.items.as_slice()
    }
}
