//! What a run leaves of a thread: its trace and its ending.

ghost use Rattle.std.specs.Prelude.{◌≡◌, ◌∷◌, []};

use built_code::{Ask, TrapKind};
use std::marker::Model;
use std::mem;
use std::snapshot::Snapshot;

/// How a thread ended.
#[derive(Clone, Copy)]
pub enum End {
    /// a thread other than thread 0 left its first function
    Returned,
    /// thread 0 left its first function with this number
    Exited(i32),
    /// it was trapped
    Trapped(TrapKind),
    /// it saw that all threads are to halt, or it made its first report
    Halted,
    /// it made as many events as the event limit says
    Stopped,
    /// it made as many failed tries in a row as the wait limit says
    Waiting,
    /// the board had no room for its report
    Full,
}

/// An event that a thread made, with the word that answered it; the word is 0 where nothing answers.
#[derive(Clone, Copy)]
pub struct Made {
    pub ask: Ask,
    pub word: u64,
}

/// The events before, of which each holds the events before it; nothing of them stands in memory.
#[derive(Drop)]
pub enum Chain {
    Start,
    More(Snapshot<Chain>, Made),
}

/// A trace: all events that a thread made, seen by contracts as a list, the latest first. It takes no bytes.
#[derive(Drop)]
pub struct Trace {
    last: Snapshot<Chain>,
}

impl Model for Trace {
    ghost use Rattle.std.specs.Prelude.{List};
    ghost use Rattle.built_model.specs.declared.runs.Made.{Made};
    ghost use Rattle.built_model.specs.Chains.{items_of};

    ghost Value = { List Made };

    ghost view = { λ t. items_of t.last.value };
}

impl Trace {
    /// The trace without events.
    pub fn new() -> Trace
        ensures { result ≡ [] }
    {
        Trace {
            last: Snapshot::of(&Chain::Start),
        }
    }

    /// Adds the event that was made last.
    pub fn push(&mut self, made: Made)
        ensures { self.new ≡ made ∷ self.old }
    {
        let before = mem::replace(&mut self.last, Snapshot::of(&Chain::Start));
        let chain = Chain::More(before, made);
        self.last = Snapshot::of(&chain);
    }
}
