//! The compiler: from a typed unit to the code of the plain machine.
#![tactic(auto)]

mod callees;
mod compiling;
mod draft;
mod functions;
mod initializers;
mod kinds;
mod names;
mod refusals;
mod sizes;
mod statements;
mod types;
mod values;

pub use compiling::{CompileRefusal, compile};
