//! Statements, definitions of functions and the external declarations of a source (C17 6.8 and 6.9). Each function reads by the rule of `type_rules`
//! that its contract names.
#![tactic(auto)]

mod bodies;
mod conditions;
mod definitions;
mod loops;
mod results;
mod sources;
mod statements;

pub use sources::externals;
