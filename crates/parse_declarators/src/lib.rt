//! Declarators of C (C17 6.7.6), and abstract ones (6.7.7), read by descent.
#![tactic(auto)]

mod direct;
mod groups;
mod parser;
mod pointers;

pub use parser::Declarators;
