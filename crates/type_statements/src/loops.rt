//! What statements are made of once their parts are read: loops, jumps, choices and blocks (C17 6.8).

ghost use Rattle.std.specs.Prelude.{◌≡◌, ◌∷◌, ◌++◌, [], IfOk, IfErr};
ghost use Rattle.core_unit.specs.declared.body.Stmt.TheVariants as stmt;
ghost use Rattle.type_rules.specs.Statements as spec;
ghost use Rattle.type_statements.specs.Read as read;
ghost use Rattle.typing_state.specs.Answers.{Gives};

use crate::conditions::{condition_where_written, evaluated_where_written};
use c_tree::{Expr as Written, ForStart};
use core_unit::{Expr, LoopKind, Stmt};
use sqlite_items::{Boxed, Items};
use std::alloc::{AllocError, Global};
use type_declarations::block_declaration;
use typing_state::{Stop, Typing};

/// What a `for` reads before its body.
#[derive(Drop)]
pub(crate) struct ForHead {
    pub first: Items<Stmt>,
    pub test: Option<Boxed<Expr>>,
    pub turn: Option<Boxed<Expr>>,
}

/// A list of this statement alone. The one error is that no memory is left.
pub(crate) fn alone(alloc: Global, statement: Boxed<Stmt>) -> Result<Items<Stmt>, AllocError>
    ensures { IfOk result (λ list. list ≡ statement ∷ []) }
{
    let mut list = Items::new(alloc);
    list.push(statement.into_inner())?;
    Ok(list)
}

/// Two lists as one. The one error is that no memory is left.
pub(crate) fn joined(before: Items<Stmt>, more: Items<Stmt>) -> Result<Items<Stmt>, AllocError>
    ensures { IfOk result (λ all. all ≡ before ++ more) }
{
    let mut all = before;
    all.append(more)?;
    Ok(all)
}

/// A list with one statement more. The one error is that no memory is left.
pub(crate) fn pushed(before: Items<Stmt>, one: Boxed<Stmt>) -> Result<Items<Stmt>, AllocError>
    ensures { IfOk result (λ all. all ≡ before ++ one ∷ []) }
{
    let mut all = before;
    all.push(one.into_inner())?;
    Ok(all)
}

/// A block. The one error is that no memory is left.
pub(crate) fn blocked(alloc: Global, inner: Items<Stmt>) -> Result<Boxed<Stmt>, AllocError>
    ensures { IfOk result (λ s. s ≡ stmt.Block inner) }
{
    Boxed::new(alloc, Stmt::Block(inner))
}

/// An `if`. The one error is that no memory is left.
pub(crate) fn selected(
    alloc: Global,
    test: Boxed<Expr>,
    then: Boxed<Stmt>,
    other: Items<Stmt>,
) -> Result<Boxed<Stmt>, AllocError>
    ensures { IfOk result (λ s. s ≡ stmt.If test then other) }
{
    Boxed::new(alloc, Stmt::If(test.into_inner(), then, other))
}

/// A loop with a condition alone. The one error is that no memory is left.
pub(crate) fn looping(
    alloc: Global,
    kind: LoopKind,
    test: Boxed<Expr>,
    inner: Boxed<Stmt>,
) -> Result<Boxed<Stmt>, AllocError>
    ensures { IfOk result (λ s. s ≡ stmt.Loop kind test inner) }
{
    Boxed::new(alloc, Stmt::Loop(kind, test.into_inner(), inner))
}

fn unboxed(node: Option<Boxed<Expr>>) -> Option<Expr>
    ensures { result ≡ node }
{
    match node {
        Some(node) => Some(node.into_inner()),
        None => None,
    }
}

/// A `for`. The one error is that no memory is left.
pub(crate) fn turning(
    alloc: Global,
    head: ForHead,
    inner: Boxed<Stmt>,
) -> Result<Boxed<Stmt>, AllocError>
    ensures { IfOk result (λ s. s ≡ stmt.For head.first head.test head.turn inner) }
{
    let ForHead { first, test, turn } = head;
    Boxed::new(alloc, Stmt::For(first, unboxed(test), unboxed(turn), inner))
}

/// `break` and `continue` stand inside a loop, else rule 3.
#[tactic(auto, unfolding(type_rules::specs::Reading::and_then))]
pub(crate) fn jump(
    typing: &Typing,
    looped: bool,
    place: u32,
    statement: Boxed<Stmt>,
) -> Result<Boxed<Stmt>, Stop>
    ensures { Gives (spec.jump looped place statement typing.now) result typing.now }
{
    if looped {
        Ok(statement)
    } else {
        Err(Stop::Fault { number: 3, place })
    }
}

fn started(alloc: Global, node: Option<Boxed<Expr>>) -> Result<Items<Stmt>, AllocError>
    ensures { IfOk result (λ list. list ≡ spec.started node) }
{
    match node {
        Some(node) => {
            let mut list = Items::new(alloc);
            list.push(Stmt::Expression(node.into_inner()))?;
            Ok(list)
        }
        None => Ok(Items::new(alloc)),
    }
}

/// What a `for` begins with: variables, or at most one expression (C17 6.8.5.3).
#[tactic(auto, using(type_recursion::proofs::Continued::then_rules))]
fn for_start(alloc: Global, typing: &mut Typing, start: &ForStart) -> Result<Items<Stmt>, Stop>
    ensures { Gives (spec.for_start start.now typing.old) result typing.new }
{
    match start {
        ForStart::Declaration(d) => block_declaration(alloc, typing, d.get()),
        ForStart::Expression(e) => {
            let node = evaluated_where_written(alloc, typing, e)?;
            Ok(started(alloc, node)?)
        }
    }
}

/// What a `for` reads before its body, in a scope that it opens.
#[tactic(auto, unfolding(crate::specs::Read::for_head), using(type_recursion::proofs::Continued::then_rules))]
pub(crate) fn for_head(
    alloc: Global,
    typing: &mut Typing,
    start: &ForStart,
    test: &Option<Boxed<Written>>,
    turn: &Option<Boxed<Written>>,
) -> Result<ForHead, Stop>
    ensures { Gives (read.for_head start.now test.now turn.now typing.old) result typing.new }
{
    typing.enter()?;
    let first = for_start(alloc, typing, start)?;
    let test = condition_where_written(alloc, typing, test)?;
    let turn = evaluated_where_written(alloc, typing, turn)?;
    Ok(ForHead { first, test, turn })
}
