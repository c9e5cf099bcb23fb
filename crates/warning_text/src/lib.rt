//! The printed text of warnings, after Clang's: violations with the notes of their chains, conversions and redeclarations.
#![tactic(auto)]

mod lines;
mod merging;
mod messages;
mod names;

pub use merging::write_warnings;
