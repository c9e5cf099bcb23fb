//! A board for one thread, whose table stands in its first pass.
#![tactic(auto)]

mod board;
mod counts;

pub use board::{PlainBoard, PlainPass};
