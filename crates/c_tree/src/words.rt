//! The words of declarations: storage classes, qualifiers, type words and attributes.

use sqlite_items::Items;

/// Where a name or a literal stands: the byte offsets from 0 of its first byte and of the byte after its last.
#[derive(Clone, Copy)]
pub struct Span {
    pub start: u32,
    pub end: u32,
}

/// A storage-class specifier (C17 6.7.1).
#[derive(Clone, Copy)]
pub enum StorageWord {
    Typedef,
    Static,
    Extern,
    ThreadLocal,
}

/// A function specifier (C17 6.7.4).
#[derive(Clone, Copy)]
pub enum FunctionWord {
    Inline,
    NoReturn,
}

/// A type qualifier (C17 6.7.3).
#[derive(Clone, Copy)]
pub enum Qualifier {
    Const,
    Volatile,
    Restrict,
}

/// A type specifier of one word (C17 6.7.2; this subset has no others).
#[derive(Clone, Copy)]
pub enum TypeWord {
    Void,
    Char,
    Int,
    Signed,
    Unsigned,
}

/// The two spellings of attributes (Clang's manual 'Function Effect Analysis').
#[derive(Clone, Copy)]
pub enum AttrSpelling {
    /// `[[clang::..]]`
    Brackets,
    /// `__attribute__((..))`
    Gnu,
}

/// What one word of an attribute says.
#[derive(Clone, Copy)]
pub enum Effect {
    /// With its argument `true` or `false`, where it is written.
    NonBlocking(Option<bool>),
    /// With its argument `true` or `false`, where it is written.
    NonAllocating(Option<bool>),
    Blocking,
    Allocating,
    NoReturn,
}

/// One word of an attribute; its place is the byte offset of the word itself, after `clang::`.
#[derive(Clone, Copy)]
pub struct AttrWord {
    pub place: u32,
    pub effect: Effect,
}

/// An attribute as written, its words in order; its place is the byte offset of its first token.
#[derive(Drop)]
pub struct Attr {
    pub place: u32,
    pub spelling: AttrSpelling,
    pub words: Items<AttrWord>,
}
