//! The state of a thread of the plain machine.

use crate::events::Finish;
use crate::stages::Stage;
use arithmetic::TrapKind;

/// A function that was entered and not yet left.
#[derive(Clone, Copy)]
pub struct Caller {
    pub function: u32,
    pub site: u32,
    /// The place where its caller goes on.
    pub back: u32,
    /// Where the caller's frame stands on the stack.
    pub base: u32,
    /// How many values the call holds beside the arguments.
    pub more: u32,
}

/// What a thread is at.
#[derive(Clone, Copy)]
pub enum Mode {
    /// It loads the halt word, before it enters its first function, this one.
    Starting(u32),
    /// It enters its first function.
    Entering(u32),
    /// It does the instruction at its place.
    Running,
    /// It stores a word at an offset of the frame, so many times from there on.
    Filling(u32, u64, u32),
    /// It stores characters of the code's texts at an offset of the frame, from an index on, so many from there on.
    Spelling(u32, u32, u32),
    /// It is at a stage of a library call.
    Calling(Stage),
    /// It is trapped.
    Failing(TrapKind),
    /// It stores the result of its first function, this one.
    Delivering(u32),
    /// It tells that it has returned.
    Telling,
    /// It tells all threads to halt.
    Stopping(Finish),
    Done(Finish),
}
