//! Boards, which count the stacks of reports, and the printed text of reports and totals.
#![tactic(auto)]

mod board;
mod pieces;
mod stacks;
mod text;

pub use board::{Board, Noted, law_fair};
pub use stacks::{StackCount, StackList};
pub use text::{write_reports, write_stats};
