//! What statements tell beside their trees.

use c_tree::Stmt;
use sqlite_items::Boxed;
use std::marker::Model;

/// A statement, and whether it ends in an `if` without `else`.
#[derive(Drop)]
pub struct Statement {
    /// In a box, so that little is let go where a rule ends early.
    pub tree: Boxed<Stmt>,
    pub is_open: bool,
}

impl Model for Statement {
    ghost use Rattle.c_grammar.specs.Rules.{StatementRead};
    ghost use Rattle.c_tree.specs.contracts.statements.Stmt as trees;
    ghost use Rattle.std.specs.Coded.{codes};

    ghost Value = { StatementRead };

    ghost coded = { Prim.hlevel (codes, trees.the_row.coded) };

    ghost view = { λ s. record { tree = s.tree; is_open = s.is_open } };
}
