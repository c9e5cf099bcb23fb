//! Stacks of a thread: the functions that it is in, each with the call that led to it.
#![tactic(auto)]

mod steps;

pub use steps::{MAX_STEPS, StackStep, StepList};
