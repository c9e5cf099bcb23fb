//! Traces as contracts see them.

ghost use Rattle.std.specs.Prelude.{◌≡◌, ◌∷◌, []};

use crate::runs::Made;
use std::marker::Model;
use std::mem::{self, size_of};
use std::snapshot::Snapshot;

/// The events before, of which each holds those before it; nothing of them stands in memory.
#[derive(Drop)]
pub enum Chain {
    Start,
    More(Snapshot<Chain>, Made),
    /// The same events as another one.
    Same(Snapshot<Snapshot<Chain>>),
}

/// A trace: all events that a thread made with what answered them, seen by contracts as a list, the latest first. It takes no bytes.
#[derive(Drop)]
pub struct Trace {
    last: Snapshot<Chain>,
}

const _: () = prove!(size_of::<Trace>() == 0);

impl Model for Trace {
    ghost use Rattle.std.specs.Prelude.{List};
    ghost use Rattle.src_model.specs.declared.runs.Made.{Made};
    ghost use Rattle.src_model.specs.Chains.{items_of};

    ghost Value = { List Made };

    ghost view = { λ t. items_of t.last.value };
}

impl Trace {
    /// The trace without events.
    pub fn new() -> Trace
        ensures { result ≡ [] }
    {
        Trace {
            last: Snapshot::of(&Chain::Start),
        }
    }

    /// Adds the event that was made last.
    pub fn push(&mut self, made: Made)
        ensures { self.new ≡ made ∷ self.old }
    {
        let before = mem::replace(&mut self.last, Snapshot::of(&Chain::Start));
        let chain = Chain::More(before, made);
        self.last = Snapshot::of(&chain);
    }

    /// The same trace once more.
    pub fn copy(&self) -> Trace
        ensures { result ≡ self.now }
    {
        let chain = Chain::Same(Snapshot::of(&self.last));
        Trace {
            last: Snapshot::of(&chain),
        }
    }
}
