//! The printed text of a thread: how it ended, and what it wrote.
#![tactic(auto)]

mod ending;
mod output;
mod thread;

pub use thread::{gather_thread, write_thread};
