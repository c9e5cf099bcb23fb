//! The frames of a thread: the functions that it has entered and not yet left.

ghost use Rattle.std.specs.Prelude.{◌≡◌, ◌∷◌, [], ◌++◌, ◌<◌, ◌≤◌, ◌+◌, length, IfOk, IfSome, IfNone, MatchOption, slice_get};

use std::alloc::{AllocError, Global};
use std::marker::Model;

/// How many frames can stand.
pub const FRAMES: usize = 256;

/// A function that was entered and not yet left.
#[derive(Clone, Copy)]
pub struct Frame {
    /// the pc of the instruction to go back to
    pub back: u32,
    /// the call site from which it was entered; 0 for the first function of the thread
    pub site: u32,
}

/// At most 256 frames, the latest first, in memory that is taken once.
#[derive(Drop)]
pub struct FrameStack {
    items: Vec<Frame>,
}

impl Model for FrameStack {
    ghost use Rattle.std.specs.Prelude.{List, reverse, ◌≤◌, length, vec_capacity};
    ghost use Rattle.built_code.specs.declared.frames.Frame.{Frame};

    ghost Value = { List Frame };

    ghost view = { λ f. reverse f.items.items };

    ghost invariant = { λ f. 256 ≤ vec_capacity f.items };
}

impl FrameStack {
    /// No frame, with the memory for 256.
    pub fn blank(alloc: Global) -> Result<FrameStack, AllocError>
        ensures { IfOk result (λ frames. frames ≡ []) }
    {
        let items = Vec::with_capacity(alloc, FRAMES)?;
        Ok(FrameStack { items })
    }

    /// How many frames stand.
    pub fn len(&self) -> usize
        ensures { result ≡ length self.now }
    {
        self.items.len()
    }

    /// The latest frame.
    pub fn top(&self) -> Option<Frame>
        ensures { MatchOption result (self.now ≡ []) (λ frame. slice_get self.now 0 ≡ Some frame) }
    {
        self.items.last().copied()
    }

    /// Puts one more frame on top; fewer than 256 stand.
    pub fn push(&mut self, frame: Frame)
        requires { length self.old < 256 }
        ensures { self.new ≡ frame ∷ self.old }
    {
        match self.items.push(frame) {
            Ok(()) => {}
            Err(_) => unreachable!(),
        }
    }

    /// Takes the latest frame away.
    pub fn pop(&mut self) -> Option<Frame>
        ensures { MatchOption result ((self.old ≡ []) × (self.new ≡ [])) (λ frame. self.old ≡ frame ∷ self.new) }
    {
        self.items.pop()
    }

    /// Takes all frames away, and keeps the memory.
    pub fn clear(&mut self)
        ensures { self.new ≡ [] }
    {
        self.items.clear();
    }
}
