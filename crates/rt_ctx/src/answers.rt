//! What the detector answers.

/// Why a call is reported.
#[derive(Clone, Copy)]
pub enum Kind {
    /// A function of the library that is intercepted.
    UnsafeLibraryCall,
    /// A function of the unit that is declared `blocking`.
    BlockingCall,
}

/// What the detector says of a reached function.
#[derive(Clone, Copy)]
pub enum Verdict {
    /// It blocks nothing, the thread isn't real-time, or the detector is disabled.
    Pass,
    Report(Kind),
    /// It would be reported, and a suppression matches.
    Suppressed,
}
