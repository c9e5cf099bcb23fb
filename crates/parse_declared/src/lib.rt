//! Declarators, as far as nothing of them is read by another rule: what they tell beside their trees, what may begin them,
//! their qualifiers, and what stands behind a parameter list.
#![tactic(auto)]

mod begins;
mod declared;
mod parameters;
mod qualifying;
mod rest;

pub use begins::{begins_array, begins_name, begins_params, begins_step, may_lack, opened_at};
pub use declared::{Declared, ParameterList};
pub use parameters::{NamedParam, after, hide, join, one_more, parameter, type_name_of};
pub use qualifying::qualifiers;
pub use rest::{bracketed, function_rest, tree_of};
