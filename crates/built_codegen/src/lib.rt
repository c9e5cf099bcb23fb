//! The compiler: from a typed unit to the code of the plain machine.
#![tactic(auto)]

mod compiling;
mod emission;
mod unit;

pub use compiling::{CompileRefusal, compile};
