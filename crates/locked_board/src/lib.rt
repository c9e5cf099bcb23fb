//! A board under one lock, for threads.
#![tactic(auto)]

mod board;
mod book;
mod rule;

pub use board::{LockedBoard, LockedPass};
pub use book::{Book, LockView};
pub use rule::OneBook;
