//! Declarations, initializers and function definitions.

use crate::expressions::{Declarator, Expr, Spec};
use crate::statements::BlockItem;
use sqlite_items::{Boxed, Items};

/// An initializer (C17 6.7.9).
#[derive(Drop)]
pub enum Init {
    Value(Boxed<Expr>),
    /// The place of the `{`, and the initializers in it, one or more.
    List(u32, Items<Init>),
}

/// A declarator with its initializer, where it has one.
#[derive(Drop)]
pub struct InitDeclarator {
    pub declarator: Boxed<Declarator>,
    pub init: Option<Boxed<Init>>,
}

/// A declaration (C17 6.7); its place is the byte offset of its first token.
#[derive(Drop)]
pub struct Decl {
    pub place: u32,
    pub specs: Items<Spec>,
    pub declarators: Items<InitDeclarator>,
}

/// A function definition (C17 6.9.1); its places are the byte offsets of its first token and of the body's `{`.
#[derive(Drop)]
pub struct FunctionDefinition {
    pub place: u32,
    pub specs: Items<Spec>,
    pub declarator: Boxed<Declarator>,
    pub body_place: u32,
    pub body: Items<BlockItem>,
}
