//! Initializers (C17 6.7.9): what they store, how many elements they give an array without a size, and what the words of objects of static
//! storage hold at first.
#![tactic(auto)]

mod fixed;
mod kinds;
mod lists;
mod objects;
mod scalars;
mod sizes;
mod texts;
mod values;
mod words;

pub use lists::initialized;
pub use sizes::{init_place, initial_size};
pub use values::initially;
