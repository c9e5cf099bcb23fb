//! The first 65,536 different prefixes of stacks, in order, in memory that is taken once.
#![tactic(auto)]

mod table;

pub use table::PrefixTable;
