//! The kinds of traps.

/// Why a thread is trapped: behavior that C leaves undefined and that is caught (this project's own list).
#[derive(Clone, Copy)]
pub enum TrapKind {
    /// An access through a null pointer.
    NullAccess,
    /// An access at the address behind the last word of objects.
    BadAccess,
    /// Arithmetic on a null pointer, or with a result outside 1 to 2^20.
    BadPointer,
    /// A word that doesn't serve the type of its load, or a mutex that is none.
    BadWord,
    /// A signed result that doesn't fit.
    Overflow,
    /// A division by 0, or of the least number by -1.
    Division,
    /// A shift by a count outside 0 to 31, or to the left of a negative number, or of one that doesn't fit then.
    Shift,
    /// A call of a null pointer.
    NullCall,
    /// No room for one more frame, or for one more held operand.
    StackOverflow,
    /// `free` of a pointer that isn't at a live piece of the heap.
    BadFree,
    /// The unlocking of a mutex that the thread doesn't hold.
    BadUnlock,
    /// A function that never returns returned.
    NoreturnReturned,
    /// The end of a function that owes a value was reached.
    NoValue,
    /// `abort` was called.
    Abort,
}
