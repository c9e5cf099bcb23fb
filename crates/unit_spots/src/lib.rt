//! The places of bodies at which a level may be broken: calls, uses of thread-local variables, and declarations of static and thread-local block
//! variables (Clang's manual 'Function Effect Analysis'), in order of place, each with what stands there.
#![tactic(auto)]

mod callees;
mod spots;
mod walk;

pub use callees::type_of;
pub use spots::{Action, Spot, SpotList, all_spots, body_spots, function_spots};
