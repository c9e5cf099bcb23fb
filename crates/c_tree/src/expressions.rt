//! Expressions, and what leads back to them: type names, specifiers and declarators.

use crate::words::{Attr, FunctionWord, Qualifier, Span, StorageWord, TypeWord};
use sqlite_items::{Boxed, Items};

/// A unary operator before its operand (C17 6.5.3).
#[derive(Clone, Copy)]
pub enum UnaryOperator {
    Increment,
    Decrement,
    Address,
    Indirection,
    Plus,
    Minus,
    Complement,
    Not,
    Sizeof,
}

/// An operator after its operand (C17 6.5.2.4).
#[derive(Clone, Copy)]
pub enum StepOperator {
    Increment,
    Decrement,
}

/// The access of a member (C17 6.5.2.3).
#[derive(Clone, Copy)]
pub enum AccessOperator {
    Dot,
    Arrow,
}

/// A binary operator, the comma included (C17 6.5.5 to 6.5.14 and 6.5.17).
#[derive(Clone, Copy)]
pub enum BinaryOperator {
    Comma,
    LogicalOr,
    LogicalAnd,
    Or,
    ExclusiveOr,
    And,
    Equal,
    NotEqual,
    Less,
    Greater,
    LessOrEqual,
    GreaterOrEqual,
    LeftShift,
    RightShift,
    Add,
    Subtract,
    Multiply,
    Divide,
    Remainder,
}

/// An assignment operator (C17 6.5.16).
#[derive(Clone, Copy)]
pub enum AssignmentOperator {
    Plain,
    Multiply,
    Divide,
    Remainder,
    Add,
    Subtract,
    LeftShift,
    RightShift,
    And,
    ExclusiveOr,
    Or,
}

/// An expression (C17 6.5). A place is the byte offset of the first token of the whole expression.
#[derive(Drop)]
#[cycle(expression)]
pub enum Expr {
    Name(Span),
    Number(Span),
    Character(Span),
    /// Adjacent string literals, one or more.
    Text(Items<Span>),
    Parenthesised(u32, Boxed<Expr>),
    /// Place, array and index.
    Index(u32, Boxed<Expr>, Boxed<Expr>),
    /// Place, callee and arguments.
    Call(u32, Boxed<Expr>, Items<Expr>),
    /// Place, structure, how it is accessed, and the member's name.
    Access(u32, Boxed<Expr>, AccessOperator, Span),
    Step(u32, Boxed<Expr>, StepOperator),
    Unary(u32, UnaryOperator, Boxed<Expr>),
    SizeofType(u32, Boxed<TypeName>),
    Cast(u32, Boxed<TypeName>, Boxed<Expr>),
    /// Place, left operand, operator, place of the operator, and right operand.
    Binary(u32, Boxed<Expr>, BinaryOperator, u32, Boxed<Expr>),
    /// Place, condition, and what stands after `?` and after `:`.
    Conditional(u32, Boxed<Expr>, Boxed<Expr>, Boxed<Expr>),
    /// Place, left side, operator, place of the operator, and right side.
    Assignment(u32, Boxed<Expr>, AssignmentOperator, u32, Boxed<Expr>),
}

/// A type name (C17 6.7.7).
#[derive(Drop)]
#[cycle(expression)]
pub struct TypeName {
    pub place: u32,
    pub specs: Items<Spec>,
    pub declarator: Boxed<Declarator>,
}

/// A declaration specifier (C17 6.7) or an attribute among them, with the place of its first token.
#[derive(Drop)]
#[cycle(expression)]
pub enum Spec {
    Storage(u32, StorageWord),
    Function(u32, FunctionWord),
    Qualifier(u32, Qualifier),
    Type(u32, TypeWord),
    TypedefName(Span),
    Attribute(Attr),
    /// A structure by its tag.
    StructName(u32, Span),
    /// A structure with its members, and its tag where it has one.
    Struct(u32, Option<Span>, Items<Member>),
    /// An enumeration by its tag.
    EnumName(u32, Span),
    /// An enumeration with its enumerators, and its tag where it has one.
    Enum(u32, Option<Span>, Items<Enumerator>),
}

/// A line of members (C17 6.7.2.1).
#[derive(Drop)]
#[cycle(expression)]
pub struct Member {
    pub place: u32,
    pub specs: Items<Spec>,
    pub declarators: Items<Declarator>,
}

/// An enumerator (C17 6.7.2.2), with its value where it is written.
#[derive(Drop)]
#[cycle(expression)]
pub struct Enumerator {
    pub name: Span,
    pub value: Option<Boxed<Expr>>,
}

/// A qualifier after a `*`, with its place.
#[derive(Clone, Copy)]
pub struct PointerQualifier {
    pub place: u32,
    pub qualifier: Qualifier,
}

/// A declarator (C17 6.7.6), or an abstract one (6.7.7): that one has no name at its inmost.
#[derive(Drop)]
#[cycle(expression)]
pub enum Declarator {
    Name(Span),
    Absent,
    /// The place of the `*`, its qualifiers, and what follows it.
    Pointer(u32, Items<PointerQualifier>, Boxed<Declarator>),
    /// The place of the `(`, and what it holds.
    Parenthesised(u32, Boxed<Declarator>),
    /// What is an array, the place of the `[`, and the size where it is written.
    Array(Boxed<Declarator>, u32, Option<Boxed<Expr>>),
    /// What is a function, the place of the `(`, the parameters, and the attributes after the `)`.
    Function(Boxed<Declarator>, u32, Parameters, Items<Attr>),
}

/// What stands between the parentheses of a function declarator (C17 6.7.6.3).
#[derive(Drop)]
#[cycle(expression)]
pub enum Parameters {
    Empty,
    /// The one word `void`, with its place.
    Void(u32),
    List(Items<Param>),
}

/// A parameter.
#[derive(Drop)]
#[cycle(expression)]
pub struct Param {
    pub place: u32,
    pub specs: Items<Spec>,
    pub declarator: Boxed<Declarator>,
}
