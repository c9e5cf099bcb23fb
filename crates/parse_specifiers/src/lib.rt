//! Specifiers of C (C17 6.7), with attributes, structures and enumerations, read by descent.
#![tactic(auto)]

mod attribute;
mod enumerators;
mod parser;
mod specifiers;
mod state;
mod trailing;

pub use attribute::{attributes, clang_words};
pub use parser::SpecifierRules;
pub use trailing::{Attributes, Specifiers};
