//! Expressions of C (C17 6.5.5 to 6.5.17): what stands between operators, read by precedence climbing and by descent.
#![tactic(auto)]

mod binary;
mod choice;
mod expression;
mod parser;

pub use parser::Expressions;
