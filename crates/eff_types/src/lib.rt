//! Function effects of C, the types that carry them, and the conversions between such types.
#![tactic(auto)]

mod comparison;
mod conversions;
mod laws;
mod levels;
mod types;

pub use comparison::{equal, equal_signatures, equal_up_to_outer_effects};
pub use conversions::{Conversion, Mismatch, convert};
pub use laws::{
    law_of_added_levels, law_of_conflicts, law_of_conversions, law_of_outer_equality,
    law_of_refusals, law_of_unions,
};
pub use levels::{Conflict, Effects, Level, adds, common, merge};
pub use types::{CType, FnType, TypeList, copy};
