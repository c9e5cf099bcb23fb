//! Declarators: the types that they make of the types that specifiers say, parameters and type names. Each function reads by
//! the rule of `type_rules` that its contract names.
#![tactic(auto)]

mod making;
mod parameters;
mod parts;
mod shapes;

pub use making::{faults, made};
pub use parameters::{parameter, type_name};
pub use shapes::{anchor, array_part, array_size, bare, function_part, pointer_part};
