//! The reports of a run: their stacks with their counts, and the printed text of reports and endings.
#![tactic(auto)]

mod stacks;
mod text;

pub use stacks::{StackCount, StackList, collect_one};
pub use text::{write_ending, write_reports};
