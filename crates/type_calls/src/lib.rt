//! Calls (C17 6.5.2.2), once callee and arguments were read, and how many calls begin at the first token of an expression.
#![tactic(auto)]

mod arguments;
mod callees;
mod spines;

pub use arguments::called;
pub use callees::callee;
pub use spines::spine;
