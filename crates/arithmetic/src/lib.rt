//! C's arithmetic on numbers and pointers of 32 bits: what an operator gives, or the kind of its trap.
#![tactic(auto)]

mod numbers;
mod operations;
mod pointers;
mod traps;
mod values;

pub use numbers::{absolute, complement, compute, negate};
pub use operations::{Direction, Operation};
pub use traps::TrapKind;
pub use values::{address_in, apply_unary, bits_in, is_true, member_address, number};
