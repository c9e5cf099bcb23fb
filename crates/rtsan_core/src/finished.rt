//! What a run leaves.

ghost use Rattle.std.specs.Prelude.{◌≡◌, ◌∷◌, [], ◌++◌, OnOk, OnErr};

use built_code::{Code, Thread};
use built_model::{End, Trace};
use built_reports::StackList;
use std::alloc::{AllocError, Global};
use std::marker::Model;

/// What is left of a C thread that has ended.
#[derive(Drop)]
pub struct Ended {
    /// its number; the first thread has number 0
    pub number: u32,
    pub end: End,
    /// how many events it made, those of its ending too
    pub events: u64,
    /// how many reports it made
    pub reports: u64,
    /// how many reports were suppressed
    pub suppressed: u64,
    /// its events with their answers; it takes no bytes
    pub trace: Trace,
    /// its machine as the last event left it
    pub machine: Thread,
}

/// A list of ended threads.
#[derive(Drop)]
pub struct EndedList {
    items: Vec<Ended>,
}

impl Model for EndedList {
    ghost use Rattle.std.specs.Prelude.{List};
    ghost use Rattle.rtsan_core.specs.declared.finished.Ended.{Ended};

    ghost Value = { List Ended };

    ghost view = { λ l. l.items.items };
}

impl EndedList {
    /// The list without threads; it takes no memory.
    pub fn new(alloc: Global) -> EndedList
        ensures { result ≡ [] }
    {
        EndedList {
            items: Vec::new(alloc),
        }
    }

    /// Adds a thread at the end; where memory is refused, the list stays as it was.
    pub fn push(&mut self, ended: Ended) -> Result<(), AllocError>
        ensures ok { OnOk result (self.new ≡ self.old ++ ended ∷ []) }
        ensures err { OnErr result (self.new ≡ self.old) }
    {
        self.items.push(ended)?;
        Ok(())
    }

    /// The threads in order of number.
    pub fn as_slice(&self) -> &[Ended]
        ensures { result.now ≡ self.now }
    {
        self.items.as_slice()
    }
}

/// What a finished run leaves.
#[derive(Drop)]
pub struct Finished {
    /// the code that was run
    pub code: Code,
    /// its threads in order of number
    pub threads: EndedList,
    /// the stacks of the reports, sorted, each with how many reports had it
    pub stacks: StackList,
    /// how many reports there were
    pub total: u64,
    /// how many different stacks they had
    pub unique: u64,
    /// how many reports were suppressed
    pub suppressed: u64,
}
