//! Operations on values whose operands were read (C17 6.5.3.3 and 6.5.5 to 6.5.17). Each function reads by the rule of `type_rules` that
//! its contract names; an error is the first rule that fails, or want of memory.
#![tactic(auto)]

mod choices;
mod comparisons;
mod numbers;
mod operations;
mod pairs;
mod pointers;
mod sums;

pub use choices::chosen;
pub use numbers::{negation_on, sign_operation_on};
pub use operations::operation_on;
pub use pairs::{pair_of, stride};
