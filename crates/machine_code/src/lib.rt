//! The plain machine: code, and threads that move over it one event at a time. What they do is defined in `mcode`.
#![tactic(auto)]

mod accesses;
mod calls;
mod code;
mod entries;
mod fills;
mod lists;
mod moves;
mod next;
mod rows;
mod serving;
mod stack;
mod staged;
mod stages;
mod steps;
mod thread;
mod words;

pub use code::Code;
pub use lists::CodeList;
pub use mcode::{Ask, Caller, Entry, Finish, Instruction, Mode, Served, Stage, TrapKind, Turned};
pub use thread::Thread;
