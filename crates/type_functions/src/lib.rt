//! Functions of a unit: their declarations with their effects, and their definitions. Each function reads by the rule of `type_rules` that
//! its contract names.
#![tactic(auto)]

mod definitions;
mod functions;

pub use definitions::{body_opened, function_defined};
pub use functions::function_declared;
