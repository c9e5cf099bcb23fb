//! Bodies of functions: statements, block variables and their initializers.

use crate::expressions::{Expr, Storage};
use eff_types::CType;
use sqlite_items::{Boxed, Items};

/// Whether the expression that initializes a scalar stands in braces (C17 6.7.9).
#[derive(Clone, Copy)]
pub enum Braces {
    Bare,
    Braced,
}

/// An initializer (C17 6.7.9).
#[derive(Drop)]
pub enum Initializer {
    /// None is written. This many words are undefined where the variable is automatic.
    Absent(u32),
    /// An expression, which has the type of the scalar.
    Value(Braces, Expr),
    /// Those of the first members or elements, in order, and how many zero words follow.
    List(Items<Initializer>, u32),
    /// The bytes of a string that a `char` array takes, and how many zero words follow.
    Text(Items<u8>, u32),
    /// `{0}`, which zeroes any object, of this many words.
    Zeros(u32),
    /// `PTHREAD_MUTEX_INITIALIZER`.
    Mutex,
}

/// A block variable.
#[derive(Drop)]
pub struct LocalVariable {
    /// The byte offset of the declared name.
    pub place: u32,
    pub storage: Storage,
    pub kind: CType,
    pub initializer: Initializer,
}

/// A loop with a condition alone (C17 6.8.5).
#[derive(Clone, Copy)]
pub enum LoopKind {
    While,
    DoWhile,
}

/// A statement (C17 6.8), or a declared variable among those of a block.
#[derive(Drop)]
pub enum Stmt {
    Block(Items<Stmt>),
    Variable(LocalVariable),
    Empty,
    Expression(Expr),
    /// The condition, the statement behind it, and at most one behind `else`.
    If(Expr, Boxed<Stmt>, Items<Stmt>),
    Loop(LoopKind, Expr, Boxed<Stmt>),
    /// What it begins with, which is declared variables or at most one expression; its condition; what ends each turn; its body.
    For(Items<Stmt>, Option<Expr>, Option<Expr>, Boxed<Stmt>),
    Break,
    Continue,
    /// Without a value, or with one of the function's result type.
    Return(Option<Expr>),
}

/// The body of a function: what stands in its outermost block.
#[derive(Drop)]
pub struct Body {
    pub items: Items<Stmt>,
}
