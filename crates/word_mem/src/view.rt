//! What a seat of a shared memory knows. No value of it is made.

use crate::past::Past;
use std::collections::LinkedList;

/// The numbers of passes that a seat may still give.
pub enum Fresh {
    Nothing,
    One(u32),
    /// All numbers from this one on.
    From(u32),
}

/// The view of a seat.
pub struct View {
    /// The seat is a pass; it is a spare, or spent, otherwise.
    pub alive: bool,
    pub held: Past,
    pub fresh: Fresh,
    /// The opening words of the memory.
    pub opening: LinkedList<u64>,
}
