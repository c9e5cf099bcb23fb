//! A board over the lock-free set of calling contexts: threads report to it without a lock.
#![tactic(auto)]

mod board;
mod collect;
mod past;

pub use board::{SetBoard, SetPass};
