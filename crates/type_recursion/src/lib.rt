//! Expressions, type names, specifiers and declarators, which lead to one another. The rule of each form stands in the crates below; here the tree
//! is followed.
#![tactic(auto)]

mod operators;
mod reading;

pub use reading::{declarator, expression, specifiers};
