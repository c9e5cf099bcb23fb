//! What a pass to a board did, as contracts see it. It takes no bytes.
#![tactic(auto)]

mod past;
mod walk;

pub use past::{Life, Past};
pub use walk::{Steps, Walk, walked};
