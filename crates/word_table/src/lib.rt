//! A memory of words that threads share: each call is one atomic operation on its word.
#![tactic(auto)]

mod memory;
mod rule;

pub use memory::{TablePass, TableSpare, TableWords};
pub use rule::OneHistory;
