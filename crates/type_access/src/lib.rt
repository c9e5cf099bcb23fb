//! Assignments, steps, members, elements, addresses and indirections, once their parts were read (C17 6.5.2, 6.5.3 and 6.5.16). Each function
//! reads by the rule of `type_rules` that its contract names; an error is the first rule that fails, or want of memory.
#![tactic(auto)]

mod assignments;
mod indirections;
mod members;
mod prefixes;
mod steps;
mod updates;

pub use assignments::{assigned_by, left_side};
pub use indirections::element_by;
pub use members::access;
pub use prefixes::{postfix, unary};
