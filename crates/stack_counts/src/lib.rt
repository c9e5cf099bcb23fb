//! Stacks with their counts, gathered and put in order: the totals of a board.
#![tactic(auto)]

mod totals;

pub use totals::{add_stack, sort_stacks, total_count};
