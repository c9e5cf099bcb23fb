//! The syntax trees of a C source, and how deep they are.
#![tactic(auto)]

pub mod declarations;
mod depth;
pub mod expressions;
mod statement_depth;
pub mod statements;
mod words;

pub use declarations::{Decl, FunctionDefinition, Init, InitDeclarator};
pub use expressions::{
    AccessOperator, AssignmentOperator, BinaryOperator, Declarator, Enumerator, Expr, Member,
    Param, Parameters, PointerQualifier, Spec, StepOperator, TypeName, UnaryOperator,
};
pub use statements::{BlockItem, External, ForStart, Stmt, Tree};
pub use words::{
    Attr, AttrSpelling, AttrWord, Effect, FunctionWord, Qualifier, Span, StorageWord, TypeWord,
};
