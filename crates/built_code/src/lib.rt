//! The plain machine: numbered instructions, and threads that move over them one event at a time.
#![tactic(auto)]

pub mod code;
pub mod events;
pub mod frames;
pub mod thread;
pub mod words;

pub use code::{Code, EntryList, Instruction, InstructionList};
pub use events::{Ask, Finish, TrapKind, Turned};
pub use frames::Frame;
pub use thread::{Mode, Thread};
