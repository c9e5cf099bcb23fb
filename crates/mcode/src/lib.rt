//! The machine of a C thread: its events, the calls of library functions stage by stage, and the plain machine over numbered
//! instructions.
#![tactic(auto)]

mod code;
mod events;
mod laws;
mod stages;
mod thread;

pub use arithmetic::TrapKind;
pub use code::{Entry, Instruction, Served};
pub use events::{Ask, Finish, Turned};
pub use laws::law_unanswered;
pub use stages::Stage;
pub use thread::{Caller, Mode};
