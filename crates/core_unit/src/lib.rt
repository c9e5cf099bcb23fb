//! The typed unit: its trees, its tables, and what is always true of it.
#![tactic(auto)]

mod body;
mod counts;
mod expressions;
mod memory;
mod names;
mod operators;
mod readers;
mod rows;
mod signatures;
mod statement_counts;
mod tables;
mod units;
mod words;

pub use body::{Body, Braces, Initializer, LocalVariable, LoopKind, Stmt};
pub use counts::nodes;
pub use expressions::{Expr, Place, Storage};
pub use names::Name;
pub use operators::{
    ArithmeticOperator, BinaryOperator, Cause, Comparands, ComparisonOperator, LogicalOperator,
    PointerSide, Sign, StepValue, UnaryOperator, Update,
};
pub use readers::{callee_of, level_of};
pub use rows::{LibRow, library};
pub use signatures::row_type;
pub use statement_counts::{function_nodes, initializer_nodes, statement_nodes};
pub use tables::{
    FIRST_ROW, FunctionInfo, MemberInfo, MemberList, NumberList, Object, ObjectList, SiteInfo,
    StructInfo, UnitParts, VariableInfo, WordList,
};
pub use units::{Unit, Which};
pub use words::{Word, pack, unpack};
