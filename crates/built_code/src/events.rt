//! What a thread does that others can see: its events, the answers to them, and how it ends.

/// Why a thread is trapped (undefined behavior that is caught; this project's own list).
#[derive(Clone, Copy)]
pub enum TrapKind {
    /// an access through a null pointer
    NullAccess,
    /// an access at an address that no object has
    BadAccess,
    /// arithmetic on a null pointer, or with a result outside the addresses
    BadPointer,
    /// a word that doesn't serve the type of its load
    BadWord,
    /// signed overflow
    Overflow,
    /// a division by 0, or of the least number by -1
    Division,
    /// a shift by a count outside 0 to 31, or one that doesn't fit
    Shift,
    /// a call through a null pointer
    NullCall,
    /// no room for one more frame
    StackOverflow,
    /// a free of what malloc didn't give
    BadFree,
    /// an unlock of a mutex that the thread doesn't hold
    BadUnlock,
    /// a return from a function that never returns
    NoreturnReturned,
    /// the end of a function that returns a value, without one
    NoValue,
    /// a call of abort
    Abort,
}

/// How a thread is finished.
#[derive(Clone, Copy)]
pub enum Finish {
    /// a thread other than thread 0 left its first function
    Returned,
    /// thread 0 left its first function with this number
    Exited(i32),
    /// the thread was trapped
    Trapped(TrapKind),
    /// the thread saw that all threads are to halt
    Halted,
}

/// The next event of a thread, or its finish.
#[derive(Clone, Copy)]
pub enum Ask {
    /// reads the word at an address; answered by that word
    Load(u32),
    /// writes a word at an address
    Store(u32, u64),
    /// puts the second word at an address where the first stands; answered by the word before
    Exchange(u32, u64, u64),
    /// adds to the word at an address; answered by the word before
    FetchAdd(u32, u64),
    /// subtracts from the word at an address; answered by the word before
    FetchSub(u32, u64),
    /// enters a function from a call site; site 0 is the start of the thread
    Enter(u32, u32),
    /// leaves a function
    Leave,
    /// reaches a blocking function at a call site
    Reach(u32, u32),
    /// starts a thread at a function with an argument; answered by its number, or 0 for none
    Create(u32, u64),
    /// writes a byte
    Out(u8),
    /// is trapped
    Trap(TrapKind),
    /// nothing is left
    Over(Finish),
}

/// What an answer did.
#[derive(Clone, Copy)]
pub enum Turned {
    /// the thread went on
    Went,
    /// the event was a try that failed and will be made again
    FailedTry,
}
