//! Statements, and the tree of a whole source.

ghost use Rattle.std.specs.Prelude.{◌≡◌};
ghost use Rattle.c_tree.specs.Depth.{saturated, tree_depth};

use crate::declarations::{Decl, FunctionDefinition};
use crate::expressions::Expr;
use crate::statement_depth::external;
use sqlite_items::{Boxed, Items};

/// A statement (C17 6.8); its place is the byte offset of its first token.
#[derive(Drop)]
#[cycle(statement)]
pub enum Stmt {
    Block(u32, Items<BlockItem>),
    /// An expression and `;`, or `;` alone.
    Expression(u32, Option<Boxed<Expr>>),
    /// Place, condition, and what stands after it and after `else`.
    If(u32, Boxed<Expr>, Boxed<Stmt>, Option<Boxed<Stmt>>),
    While(u32, Boxed<Expr>, Boxed<Stmt>),
    DoWhile(u32, Boxed<Stmt>, Boxed<Expr>),
    /// Place, start, condition, step and body.
    For(u32, ForStart, Option<Boxed<Expr>>, Option<Boxed<Expr>>, Boxed<Stmt>),
    Break(u32),
    Continue(u32),
    Return(u32, Option<Boxed<Expr>>),
}

/// What stands in a block.
#[derive(Drop)]
#[cycle(statement)]
pub enum BlockItem {
    Declaration(Boxed<Decl>),
    Statement(Boxed<Stmt>),
}

/// What stands before the first `;` of a `for`.
#[derive(Drop)]
pub enum ForStart {
    Declaration(Boxed<Decl>),
    Expression(Option<Boxed<Expr>>),
}

/// An external declaration (C17 6.9).
#[derive(Drop)]
pub enum External {
    Declaration(Boxed<Decl>),
    Function(Boxed<FunctionDefinition>),
}

/// The tree of a source: its external declarations in order.
#[derive(Drop)]
pub struct Tree {
    pub externals: Items<External>,
}

impl Tree {
    /// The depth of the tree, the length of its longest path of nodes, in at most 2^32 - 1 (this project's own rule). It
    /// takes no memory.
    #[tactic(auto, using(crate::proofs::StatementEquations::statement_rules))]
    pub fn depth(&self) -> u32
        ensures { result ≡ saturated (tree_depth self.now) }
    {
        let mut depth = 0;
        for one in self.externals.as_slice() {
            depth = depth.max(external(one));
        }
        depth
    }
}
