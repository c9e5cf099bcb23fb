//! Scopes of names, the inner ones hiding the outer ones, and the numbers by which names are known.
#![tactic(auto)]

mod names;
mod stack;

pub use names::Names;
pub use stack::Scopes;
