//! The tables of a unit.

use crate::body::Body;
use crate::names::Name;
use eff_types::{CType, FnType};
use sqlite_items::Items;

/// A list of numbers.
pub type NumberList = Items<u32>;
/// A list of words.
pub type WordList = Items<u64>;
/// A list of members.
pub type MemberList = Items<MemberInfo>;
/// A list of objects.
pub type ObjectList = Items<Object>;

/// A function of the unit.
#[derive(Drop)]
pub struct FunctionInfo {
    pub name: Name,
    /// Its type, with the union of the effects of all its declarations.
    pub kind: FnType,
    /// Whether a declaration says `_Noreturn` or `noreturn`.
    pub noreturn: bool,
    /// Whether a declaration says `static`.
    pub internal: bool,
    /// The byte offset of its name in its first declaration.
    pub place: u32,
    /// None where it is only declared.
    pub body: Option<Body>,
    /// The words of its parameters and of its automatic variables; 0 where it is only declared.
    pub frame_words: u32,
}

/// A call in the body of a function.
#[derive(Clone, Copy)]
pub struct SiteInfo {
    /// The number of the function in whose body it stands.
    pub function: u32,
    /// The byte offset of its first token.
    pub place: u32,
    /// The target that it names: the number of a function of the unit, or `FIRST_ROW` and the index of a library row.
    pub direct: Option<u32>,
}

/// A variable of file scope.
#[derive(Drop)]
pub struct VariableInfo {
    pub name: Name,
    pub kind: CType,
    /// Whether a declaration says `static`.
    pub internal: bool,
    pub thread_local: bool,
    /// Whether a declaration has an initializer.
    pub initialized: bool,
}

/// A member of a structure.
#[derive(Drop)]
pub struct MemberInfo {
    pub name: Name,
    pub kind: CType,
}

/// A structure.
#[derive(Drop)]
pub struct StructInfo {
    pub tag: Option<Name>,
    /// None where it is incomplete.
    pub members: Option<MemberList>,
    /// Its words, or 2^32 - 1 where there are more; 0 where it is incomplete.
    pub words: u32,
}

/// An object that is kept as long as the program or a thread runs: a variable or a string literal.
#[derive(Clone, Copy)]
pub struct Object {
    /// Its address, or its offset in the region of a thread.
    pub at: u32,
    pub words: u32,
    /// The number of the variable of file scope that it is, if it is one.
    pub variable: Option<u32>,
}

/// The parts of a unit.
#[derive(Drop)]
pub struct UnitParts {
    /// In order of first declaration.
    pub functions: Items<FunctionInfo>,
    /// The numbers of the defined functions, in order of definition.
    pub definitions: NumberList,
    /// Definition after definition, those of one in order of place, the inner one first at one place.
    pub sites: Items<SiteInfo>,
    /// In order of first declaration.
    pub variables: Items<VariableInfo>,
    /// In order of first appearance.
    pub structures: Items<StructInfo>,
    /// The objects of static storage, in order of appearance.
    pub statics: ObjectList,
    /// The thread-local variables, in order of appearance.
    pub thread_locals: ObjectList,
    /// What the objects of static storage hold at first, from address 1 on.
    pub static_words: WordList,
    /// What the thread-local variables hold at first, from offset 0 on.
    pub thread_words: WordList,
}

/// The target number of the first library row; smaller ones are functions of the unit.
pub const FIRST_ROW: u32 = 4096;
