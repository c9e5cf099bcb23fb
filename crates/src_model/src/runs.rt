//! What runs are told with: events with their answers, endings, and options.

use mcode::{Ask, TrapKind};

/// An event that a thread made, with the word that answered it; the word is 0 where nothing answers.
#[derive(Clone, Copy)]
pub struct Made {
    pub ask: Ask,
    pub word: u64,
}

/// How a thread ended.
#[derive(Clone, Copy)]
pub enum End {
    /// A thread other than thread 0 left its first function.
    Returned,
    /// Thread 0 left its first function, or the thread called `exit`, with this status.
    Exited(i32),
    Trapped(TrapKind),
    /// It saw that all threads are to halt, or it made its first report under `halt_on_error`.
    Halted,
    /// It made as many events as the event limit says, and no other ending has begun.
    Stopped,
    /// It made as many failed tries in a row, of one call, as the wait limit says.
    Waiting,
    /// The board refused its report.
    Full,
}

/// How a unit is run.
#[derive(Clone, Copy)]
pub struct Options {
    /// Whether a thread ends at its first report.
    pub halt_on_error: bool,
    /// Whether the statistics are printed.
    pub print_stats: bool,
    /// How many events a thread makes at most, those of its ending aside.
    pub events: u32,
    /// How many failed tries in a row a thread makes of one call at most: it ends `Waiting` then.
    pub wait_limit: u32,
}
