//! Chains of calls that lead to a violation.
//!
//! Each function has a row of marks, one for each place of its body in order: a place passes, is a violation, or steps to
//! the body of another function. A chain is a list of places, the first in the body of one function, each next one in the
//! body that the place before steps to, and the last a violation. The crate finds which functions have a chain, how many
//! places the shortest has, and, for those that are asked for, the one chain that is shown: of the shortest the first.
#![tactic(auto)]

mod marks;
mod search;
mod written;

pub use marks::{Mark, MarkList};
pub use search::distances;
pub use written::{ChainStep, Chains, Span};
