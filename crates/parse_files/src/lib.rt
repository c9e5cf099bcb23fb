//! Blocks, function definitions and files of C (C17 6.8.2 and 6.9), read by descent.
#![tactic(auto)]

mod begins;
mod blocks;
mod body;
mod externals;
mod parser;
mod statements;
mod values;

pub use externals::unit;
