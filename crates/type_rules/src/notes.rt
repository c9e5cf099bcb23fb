//! What is noted while a unit is typed.

use core_unit::Word;
use eff_types::Level;

/// A warning of the typing (Clang's manual 'Function Effect Analysis'): its place as a byte offset, and the level.
#[derive(Clone, Copy)]
pub enum TypeWarning {
    /// A conversion adds this level.
    Conversion { place: u32, level: Level },
    /// A declaration has a level below this one, which the declarations before it have.
    Redeclaration { place: u32, level: Level },
}

/// What a word of an object holds at first.
#[derive(Clone, Copy)]
pub struct Initial {
    /// Its address, or its offset in the region of a thread.
    pub at: u32,
    pub word: Word,
}
