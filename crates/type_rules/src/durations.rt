//! How long objects are kept.

/// How long an object is kept (C17 6.2.4).
#[derive(Clone, Copy)]
pub enum Duration {
    /// As long as its function runs.
    Automatic,
    /// As long as the program runs.
    Static,
    /// As long as a thread runs, for each thread.
    ThreadLocal,
}
