//! What names mean.

use core_unit::Storage;
use eff_types::CType;

/// What an ordinary name means (C17 6.2.3).
#[derive(Drop)]
pub enum Entity {
    /// A variable or a parameter: its type, where it is kept, and its number among the variables of file scope, if it is one.
    Variable(CType, Storage, Option<u32>),
    /// A function of the unit, by its number.
    Function(u32),
    TypeName(CType),
    /// By the bits of its value, which is an `int`.
    Enumerator(u32),
    /// A function of the library, by its row.
    Library(u32),
    /// `NULL`.
    NullPointer,
    /// `PTHREAD_MUTEX_INITIALIZER`.
    MutexInitializer,
}

/// What a tag means (C17 6.7.2.3), and whether a definition of it was begun.
#[derive(Clone, Copy)]
pub enum Tag {
    /// A structure, by its number.
    Structure(u32, bool),
    Enumeration(bool),
}
