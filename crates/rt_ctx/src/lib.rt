//! The real-time context of a thread, and the detector's verdict on what it reaches.
#![tactic(auto)]

mod answers;
mod context;
mod detector;
mod names;

pub use answers::{Kind, Verdict};
pub use context::Context;
pub use detector::{kind_of, verdict};
pub use names::name_of;
