//! What blocks are read as.

use c_tree::BlockItem;
use sqlite_items::Items;
use std::marker::Model;

/// A block with the place of its `{`.
#[derive(Drop)]
pub struct Block {
    pub place: u32,
    pub items: Items<BlockItem>,
}

impl Model for Block {
    ghost use Rattle.c_grammar.specs.Rules.{BlockRead};
    ghost use Rattle.c_tree.specs.contracts.statements.BlockItem as trees;
    ghost use Rattle.std.specs.Coded.{codes};

    ghost Value = { BlockRead };

    ghost coded = { Prim.hlevel (codes, trees.the_row.coded) };

    ghost view = { λ b. record { place = b.place; items = b.items } };
}
