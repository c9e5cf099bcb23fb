//! The typing of a whole unit: what is known before the first declaration, both readings of a tree, its limits, the parts of the
//! unit and the warnings. Each function reads by the rule of `type_rules` that its contract names.
#![tactic(auto)]

mod ending;
mod limits;
mod opening;
mod reading;
mod refusal;
mod sites;
mod typed;
mod warnings;
mod words;

pub use ending::{TypedParts, type_parts};
pub use refusal::TypeRefusal;
pub use typed::{Typed, type_unit};
