//! Statements (C17 6.8).

ghost use Rattle.std.specs.Prelude.{◌≡◌};
ghost use Rattle.type_rules.specs.Statements as spec;
ghost use Rattle.type_statements.specs.Read as read;
ghost use Rattle.typing_state.specs.Answers.{Gives};

use crate::conditions::{condition, expression_statement};
use crate::loops::{alone, blocked, for_head, joined, jump, looping, pushed, selected, turning};
use crate::results::returned;
use c_tree::{BlockItem, Stmt as Written};
use core_unit::{LoopKind, Stmt};
use sqlite_items::{Boxed, Items};
use std::alloc::Global;
use type_declarations::block_declaration;
use typing_state::{Stop, Typing};

/// A statement, inside a loop or not.
#[cycle(stating)]
#[tactic(auto, using(crate::proofs::Forms::statement_rules))]
fn statement(
    alloc: Global,
    typing: &mut Typing,
    looped: bool,
    s: &Written,
) -> Result<Boxed<Stmt>, Stop>
    ensures { Gives (spec.statement looped s.now typing.old) result typing.new }
{
    match s {
        Written::Block(_, items) => {
            typing.enter()?;
            let inner = block_items(alloc, typing, looped, items.as_slice())?;
            typing.leave();
            Ok(blocked(alloc, inner)?)
        }
        Written::Expression(_, e) => expression_statement(alloc, typing, e),
        Written::If(_, test, then, other) => {
            let test = condition(alloc, typing, test.get())?;
            let then = statement(alloc, typing, looped, then.get())?;
            let other = otherwise(alloc, typing, looped, other)?;
            Ok(selected(alloc, test, then, other)?)
        }
        Written::While(_, test, inner) => {
            let test = condition(alloc, typing, test.get())?;
            let inner = statement(alloc, typing, true, inner.get())?;
            Ok(looping(alloc, LoopKind::While, test, inner)?)
        }
        Written::DoWhile(_, inner, test) => {
            let inner = statement(alloc, typing, true, inner.get())?;
            let test = condition(alloc, typing, test.get())?;
            Ok(looping(alloc, LoopKind::DoWhile, test, inner)?)
        }
        Written::For(_, start, test, turn, inner) => {
            let head = for_head(alloc, typing, start, test, turn)?;
            let inner = statement(alloc, typing, true, inner.get())?;
            typing.leave();
            Ok(turning(alloc, head, inner)?)
        }
        Written::Break(place) => {
            let made = Boxed::new(alloc, Stmt::Break)?;
            jump(typing, looped, *place, made)
        }
        Written::Continue(place) => {
            let made = Boxed::new(alloc, Stmt::Continue)?;
            jump(typing, looped, *place, made)
        }
        Written::Return(place, e) => returned(alloc, typing, *place, e),
    }
}

/// At most one statement behind `else`.
#[cycle(stating)]
#[tactic(auto, using(crate::proofs::Forms::statement_rules))]
fn otherwise(
    alloc: Global,
    typing: &mut Typing,
    looped: bool,
    s: &Option<Boxed<Written>>,
) -> Result<Items<Stmt>, Stop>
    ensures { Gives (read.otherwise looped s.now typing.old) result typing.new }
{
    match s {
        Some(s) => {
            let one = statement(alloc, typing, looped, s.get())?;
            Ok(alone(alloc, one)?)
        }
        None => Ok(Items::new(alloc)),
    }
}

/// What stands in a block, in order, inside a loop or not.
#[cycle(stating)]
pub(crate) fn block_items(
    alloc: Global,
    typing: &mut Typing,
    looped: bool,
    items: &[BlockItem],
) -> Result<Items<Stmt>, Stop>
    ensures { Gives (read.item_list looped items.now typing.old) result typing.new }
{
    let mut before = Items::new(alloc);
    'each: for item in items {
        before = one_item(alloc, typing, looped, item, before)?;
    }
    Ok(before)
}

/// One item more, behind those before it.
#[cycle(stating)]
#[tactic(auto, using(crate::proofs::Forms::statement_rules))]
fn one_item(
    alloc: Global,
    typing: &mut Typing,
    looped: bool,
    item: &BlockItem,
    before: Items<Stmt>,
) -> Result<Items<Stmt>, Stop>
    ensures { Gives (read.one_item looped item.now before typing.old) result typing.new }
{
    match item {
        BlockItem::Declaration(d) => {
            let some = block_declaration(alloc, typing, d.get())?;
            Ok(joined(before, some)?)
        }
        BlockItem::Statement(s) => {
            let one = statement(alloc, typing, looped, s.get())?;
            Ok(pushed(before, one)?)
        }
    }
}
