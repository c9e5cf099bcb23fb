//! What a slice answers.

/// Why a slice stopped.
#[derive(Clone, Copy)]
pub enum Turn {
    /// It made as many events as it was to make.
    More,
    /// Its last event was a failed try.
    Tried,
    /// The next event starts a thread at this function with this argument.
    Create(u32, u64),
    /// The thread has ended.
    Ended,
}
