//! Nodes, and what calls on a set answer.

/// A calling context of a set: it stands for one path.
#[derive(Clone, Copy)]
pub struct Node {
    /// its number, below the number of slots of the set
    pub number: u32,
}

/// The set has no node for the path, and no slot is left.
#[derive(Clone, Copy)]
pub struct CtxFull;

/// Whether a count was the first of its node, or of its node's count word once that has wrapped at 2^64.
#[derive(Clone, Copy)]
pub enum Counted {
    First,
    Again,
}
