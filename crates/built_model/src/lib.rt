//! The source thread: what one C thread of a unit does, event by event, its runs, and laws about it.
#![tactic(auto)]

mod laws;
mod runs;

pub use laws::law_one_event;
pub use runs::{End, Made, Trace};
