//! Statements of C (C17 6.8) but for blocks, read by descent.
#![tactic(auto)]

mod branches;
mod for_statements;
mod jumps;
mod parser;
mod parts;
mod values;

pub use jumps::{expression_statement, jump_end, return_statement, whole};
pub use parser::Statements;
pub use values::Statement;
