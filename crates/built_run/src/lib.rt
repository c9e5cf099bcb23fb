//! A C thread as it runs: the plain machine over the memory of the run, up to its ending.
#![tactic(auto)]

mod context;
mod memory;
mod running;

pub use running::{Ran, run_thread};
