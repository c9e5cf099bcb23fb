//! Operands of C's expressions (C17 6.5.1 to 6.5.4): primary, postfix and unary expressions, and casts, read by descent.
#![tactic(auto)]

mod parser;
mod postfix;
mod prefix;
mod primary;
mod wanted;

pub use parser::Operands;
pub use wanted::Wanted;
