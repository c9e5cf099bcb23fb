//! The check of marked functions (Clang's manual 'Function Effect Analysis'): which places of their bodies are warned of, with the chains of calls
//! that lead to a violation, and which functions keep a level though they aren't marked with it.
#![tactic(auto)]

mod checking;
mod findings;
mod positions;
mod verdicts;

pub use checking::check;
pub use verdicts::{ChainStep, Verdicts, ViolationKind, Warning};
