//! What a thread does that others can see: its events, the answers to them, and how it finishes.

use arithmetic::TrapKind;

/// How a thread is finished.
#[derive(Clone, Copy)]
pub enum Finish {
    /// A thread other than thread 0 left its first function.
    Returned,
    /// Thread 0 left its first function, or the thread called `exit`, with this status.
    Exited(i32),
    Trapped(TrapKind),
    /// It saw that all threads are to halt, or it was cut short.
    Halted,
}

/// The next event of a thread, or its finish. The first five are word events.
#[derive(Clone, Copy)]
pub enum Ask {
    /// Reads the word at an address, which answers.
    Load(u32),
    /// Writes a word at an address.
    Store(u32, u64),
    /// Writes the second word at an address where the first one stands; the word before answers.
    Exchange(u32, u64, u64),
    /// Adds to the word at an address; the word before answers.
    FetchAdd(u32, u64),
    /// Subtracts from the word at an address; the word before answers.
    FetchSub(u32, u64),
    /// Enters a function from a call site; site 0 is the start of the thread.
    Enter(u32, u32),
    /// Leaves a function.
    Leave,
    /// Reaches a function that is marked `blocking`, or a library function, at a call site.
    Reach(u32, u32),
    /// Starts a thread at a function with an argument; its number answers, or 0 for none.
    Create(u32, u64),
    /// Writes a byte.
    Out(u8),
    /// Is trapped.
    Trap(TrapKind),
    /// Nothing is left.
    Over(Finish),
}

/// What an answer did.
#[derive(Clone, Copy)]
pub enum Turned {
    /// The thread went on.
    Went,
    /// The event was a try that failed, and that is made again.
    FailedTry,
}
