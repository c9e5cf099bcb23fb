//! What declarators say, and what they make of a name together with specifiers.

use c_tree::{Attr, Span};
use eff_types::{CType, FnType};
use sqlite_items::{Boxed, Items};

/// A parameter: its name by number, if it has one, and its adjusted type (C17 6.7.6.3).
#[derive(Drop)]
pub struct Parameter {
    pub name: Option<u32>,
    pub kind: Boxed<CType>,
}

/// What stands around a declared name (C17 6.7.6).
#[derive(Drop)]
pub enum Part {
    PointerTo,
    /// Of this many elements, 0 where no size is written.
    ArrayOf(u32),
    /// With the attributes behind its parameter list.
    FunctionOf(Items<Parameter>, Items<Attr>),
}

/// A declarator as read: its name, if it has one, and its parts from the name outwards.
#[derive(Drop)]
pub struct Shape {
    pub name: Option<Span>,
    pub parts: Items<Part>,
}

/// What specifiers and a declarator make of a name together.
#[derive(Drop)]
pub struct Made {
    /// The byte offset at which its faults are named.
    pub place: u32,
    /// An array without a size has size 0.
    pub kind: Boxed<CType>,
    /// Whether it is said not to return.
    pub noreturn: bool,
    /// The parameters of the name's own list, where the declarator makes the name a function by one.
    pub parameters: Option<Items<Parameter>>,
    /// Whether it breaks a rule on types.
    pub mistyped: bool,
    /// Whether its effects conflict.
    pub conflicting: bool,
    /// Whether a part of it has an incomplete type.
    pub incomplete: bool,
}

/// What one declaration says of a function.
#[derive(Drop)]
pub struct FunctionDeclaration {
    pub name: Span,
    /// The number of its name.
    pub number: u32,
    pub made: Made,
    pub kind: FnType,
    /// Whether it says `static`.
    pub internal: bool,
    pub has_body: bool,
    /// Whether it breaks a rule on types that only this declaration tells.
    pub mistyped: bool,
}
