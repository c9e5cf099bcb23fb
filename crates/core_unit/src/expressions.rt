//! Typed expressions: places, which are lvalues, and values. Operands stand in source order, and every conversion is a node.

ghost use Rattle.std.specs.Prelude.{◌≡◌, true, MatchOption};
ghost use Rattle.core_unit.specs.Typing.{place_type};
ghost use Rattle.core_unit.specs.Shapes.{is_aggregate};

use crate::operators::{
    BinaryOperator, Cause, LogicalOperator, PointerSide, Sign, StepValue, UnaryOperator, Update,
};
use eff_types::CType;
use sqlite_items::{Boxed, Items};

/// Where a variable is kept (C17 6.2.4).
#[derive(Clone, Copy)]
pub enum Storage {
    /// A parameter or an automatic variable: at this offset of the frame.
    Automatic(u32),
    /// At this address.
    Static(u32),
    /// In the region of each thread, at this offset.
    ThreadLocal(u32),
}

/// An expression that designates an object (C17 6.3.2.1): an lvalue.
#[derive(Drop)]
#[cycle(expression)]
pub enum Place {
    /// A variable: the byte offset of its name in the source, where it is kept, and its type.
    Variable(u32, Storage, CType),
    /// A string literal: its address, and how many words it has, the last one zero.
    Text(u32, u32),
    /// `*p`, of a pointer to an object, and the type of the object.
    Indirection(Boxed<Expr>, CType),
    /// What the pointer before `->` points to; the number of that structure. It stands in a member
    /// alone, and `->` is the operator there.
    Arrow(Boxed<Expr>, u32),
    /// `a[i]`: both operands, which of them is the pointer, and the words and the type of an element.
    Element(Boxed<Expr>, Boxed<Expr>, PointerSide, u32, CType),
    /// A member of a structure: its offset, and its type.
    Member(Boxed<Place>, u32, CType),
}

/// An expression that has a value, that is a function, or that is of type `void`. Its type is told by its form.
#[derive(Drop)]
#[cycle(expression)]
pub enum Expr {
    /// A constant or an enumerator, by its bits.
    Number(Sign, u32),
    /// `NULL`.
    Null,
    /// `sizeof` with its operand, by its value: the words of the operand's type modulo 2^32, which the typing counts, since the words
    /// of larger types are kept nowhere.
    Sizeof(u32),
    /// The name of a function of the unit: its number, and its static type.
    Function(u32, CType),
    /// The name of a library function, the callee of a call: the index of its row.
    LibraryFunction(u32),
    /// `*p`, of a pointer to a function: a function again.
    TargetFunction(Boxed<Expr>),
    /// A function that becomes a pointer to itself, by `&` or without.
    FunctionPointer(Boxed<Expr>),
    /// An array that becomes a pointer to its first element.
    ArrayPointer(Boxed<Place>),
    /// `&` of a place.
    AddressOf(Boxed<Place>),
    /// The value of a scalar object.
    Load(Boxed<Place>),
    /// `=`: the place, and the value, which has its type.
    Assign(Boxed<Place>, Boxed<Expr>),
    /// `op=`: the place, what is done to its value, and the operand. That the old value takes the type of the operation, and the new
    /// one that of the place, are no nodes of their own.
    Compound(Boxed<Place>, Update, Boxed<Expr>),
    /// `++` or `--`: the place, what is done to its value, by 1, and on which side of it the operator stands.
    Step(Boxed<Place>, Update, StepValue),
    Unary(UnaryOperator, Boxed<Expr>),
    Binary(BinaryOperator, Boxed<Expr>, Boxed<Expr>),
    Logical(LogicalOperator, Boxed<Expr>, Boxed<Expr>),
    /// `?:`: the condition, and what stands behind `?` and behind `:`, both of its type.
    Conditional(Boxed<Expr>, Boxed<Expr>, Boxed<Expr>),
    Comma(Boxed<Expr>, Boxed<Expr>),
    /// The byte offset of its first token, its site, the callee, which is a function or a pointer to one, and the arguments, which have
    /// the types of the parameters. A callee that is the name of a function is called directly.
    Call(u32, u32, Boxed<Expr>, Items<Expr>),
    /// A value that takes this type.
    Convert(Cause, CType, Boxed<Expr>),
    /// A cast to `void`.
    Discard(Boxed<Expr>),
}

impl Place {
    /// Its type, as it is kept in the tree. None for a string and for what stands before `->`, which are an array and a structure.
    #[tactic(auto, using(crate::proofs::Equations::type_rules))]
    pub fn kept_type(&self) -> Option<&CType>
        ensures { MatchOption result (is_aggregate (place_type self.now) ≡ true) (λ t. place_type self.now ≡ t.now) }
    {
        match self {
            Place::Variable(_, _, kind) => Some(kind),
            Place::Text(_, _) => None,
            Place::Indirection(_, kind) => Some(kind),
            Place::Arrow(_, _) => None,
            Place::Element(_, _, _, _, kind) => Some(kind),
            Place::Member(_, _, kind) => Some(kind),
        }
    }
}
