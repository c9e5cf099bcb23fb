//! What an expression is found to be.

use core_unit::{Expr, Place, Sign, Word};
use eff_types::CType;
use sqlite_items::Boxed;

/// Whether an expression designates an object (C17 6.3.2.1).
#[derive(Drop)]
pub enum Form {
    /// An object.
    Lvalue(Boxed<Place>),
    /// A value, a function or nothing.
    Value(Boxed<Expr>),
}

/// An expression, as it is found.
#[derive(Drop)]
pub struct Found {
    /// The byte offset of its first token.
    pub place: u32,
    /// Its type, before an array or a function becomes a pointer.
    pub kind: Boxed<CType>,
    pub form: Form,
}

/// An expression that is used for its value. Arrays and functions have become pointers (C17 6.3.2.1).
#[derive(Drop)]
pub struct Operand {
    /// The byte offset of its first token.
    pub place: u32,
    pub kind: Boxed<CType>,
    pub node: Boxed<Expr>,
}

/// A constant number (C17 6.6).
#[derive(Clone, Copy)]
pub struct Constant {
    /// The byte offset of the first token of its expression.
    pub place: u32,
    pub sign: Sign,
    pub bits: u32,
}

/// What two operands are together (C17 6.5.6 and 6.5.8).
#[derive(Clone, Copy)]
pub enum Pair {
    /// Two numbers.
    Numbers,
    /// A data pointer, and a number.
    PointerFirst,
    /// A number, and a data pointer.
    PointerSecond,
    /// Two data pointers of one type.
    Pointers,
    /// Another pair.
    Others,
}

/// What an expression is worth before the program runs (C17 6.6).
#[derive(Clone, Copy)]
pub enum Worth {
    /// A constant, by its word.
    Known(Word),
    /// A constant expression whose evaluation traps.
    Trapped,
    /// What only the running program tells.
    Varying,
}
