//! Initializers and declarations of C (C17 6.7), read by descent.
#![tactic(auto)]

mod declarations;
mod initializers;
mod specs;

pub use declarations::{declaration, declare, declared, more_declarators, with_value};
pub use initializers::initializer;
pub use specs::has_typedef;
