//! What became of an event at the detector.

/// What the detector and the board say of an event.
#[derive(Clone, Copy)]
pub enum Judged {
    /// It is no place of a report.
    Passed,
    /// A suppression matches.
    Suppressed,
    /// The board counts it.
    Reported,
    /// The board has no room for it.
    Refused,
}
