//! What was read of specifiers, and behind a parameter list, where a `[` may have been taken that belongs to neither.

use c_tree::{Attr, Spec};
use sqlite_items::Items;
use std::marker::Model;

/// Attributes behind a parameter list, and the place of a `[` behind them that began none of them.
#[derive(Drop)]
pub struct Attributes {
    pub attributes: Items<Attr>,
    pub bracket: Option<u32>,
}

impl Model for Attributes {
    ghost use Rattle.c_grammar.specs.Rules.{AttributesRead};

    ghost Value = { AttributesRead };

    ghost view = { λ a. record { attributes = a.attributes; bracket = a.bracket } };
}

/// Specifiers, and the place of a `[` behind them that began none of them.
#[derive(Drop)]
pub struct Specifiers {
    pub specs: Items<Spec>,
    pub bracket: Option<u32>,
}

impl Model for Specifiers {
    ghost use Rattle.c_grammar.specs.Rules.{SpecsRead};
    ghost use Rattle.c_tree.specs.contracts.expressions.Spec as trees;
    ghost use Rattle.std.specs.Coded.{codes};

    ghost Value = { SpecsRead };

    ghost coded = { Prim.hlevel (codes, trees.the_row.coded) };

    ghost view = { λ s. record { specs = s.specs; bracket = s.bracket } };
}
