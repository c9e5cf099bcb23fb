//! The stack of a report, as contracts see it.

ghost use Rattle.std.specs.Prelude.{◌≡◌, ◌++◌, ◌∷◌, []};

use ctx_set::StackStep;
use std::marker::Model;
use std::mem;
use std::snapshot::Snapshot;

/// The steps of a stack, of which each holds those before it; nothing of them stands in memory.
#[derive(Drop)]
pub enum Steps {
    Start,
    Then(Snapshot<Steps>, StackStep),
}

/// A stack, as contracts see it. It takes no bytes.
#[derive(Drop)]
pub struct Walk {
    pub(crate) steps: Snapshot<Steps>,
}

impl Model for Walk {
    ghost use Rattle.std.specs.Prelude.{List};
    ghost use Rattle.ctx_set.specs.declared.steps.StackStep.{StackStep};
    ghost use Rattle.board_past.specs.Walks.{steps_of};

    ghost Value = { List StackStep };

    ghost view = { λ w. steps_of w.steps.value };
}

impl Walk {
    /// The stack without steps.
    pub fn new() -> Walk
        ensures { result ≡ [] }
    {
        Walk {
            steps: Snapshot::of(&Steps::Start),
        }
    }

    /// Adds a step at the end.
    pub fn push(&mut self, step: StackStep)
        ensures { self.new ≡ self.old ++ step ∷ [] }
    {
        let before = mem::replace(&mut self.steps, Snapshot::of(&Steps::Start));
        let steps = Steps::Then(before, step);
        self.steps = Snapshot::of(&steps);
    }
}

/// The stack of these steps.
pub fn walked(stack: &[StackStep]) -> Walk
    ensures { result ≡ stack.now }
{
    let mut walk = Walk::new();
    'each: for step in stack {
        walk.push(*step);
    }
    walk
}
