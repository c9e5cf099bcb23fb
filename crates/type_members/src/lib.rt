//! Members of a structure while they are read. Each function reads by the rule of `type_rules` that its contract names.
#![tactic(auto)]

mod members;

pub use members::{Members, member, no_members};
