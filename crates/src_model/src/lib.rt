//! The source thread: what one C thread of a unit does, event by event; and runs of up to 64 threads.
#![tactic(auto)]

mod laws;
mod runs;
mod traces;

pub use laws::{law_one_event, law_scheduled, law_totals};
pub use runs::{End, Made, Options};
pub use traces::{Chain, Trace};
