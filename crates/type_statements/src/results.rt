//! `return` (C17 6.8.6.4).

ghost use Rattle.std.specs.Prelude.{◌≡◌, IfOk, Some};
ghost use Rattle.core_unit.specs.declared.body.Stmt.TheVariants as stmt;
ghost use Rattle.type_rules.specs.Recursion as rules;
ghost use Rattle.type_rules.specs.Statements as spec;
ghost use Rattle.typing_state.specs.Answers.{Gives};

use crate::conditions::read_operand;
use c_tree::Expr as Written;
use core_unit::{Expr, Stmt};
use eff_types::CType;
use sqlite_items::Boxed;
use std::alloc::{AllocError, Global};
use type_operands::{boxed_copy, converted};
use typing_state::{Stop, Typing};

/// A `return` of this value. The one error is that no memory is left.
fn returning(alloc: Global, value: Boxed<Expr>) -> Result<Boxed<Stmt>, AllocError>
    ensures { IfOk result (λ s. s ≡ stmt.Return (Some value)) }
{
    Boxed::new(alloc, Stmt::Return(Some(value.into_inner())))
}

/// A result that is given: rule 3 where the function gives none.
#[tactic(auto, using(type_recursion::proofs::Continued::then_rules))]
fn returned_value(
    alloc: Global,
    typing: &mut Typing,
    kind: &CType,
    e: &Written,
) -> Result<Boxed<Stmt>, Stop>
    ensures { Gives (spec.returned_value kind.now (rules.expression e.now) typing.old) result typing.new }
{
    let value = read_operand(alloc, typing, e)?;
    if kind.is_void() {
        return Err(Stop::Fault {
            number: 3,
            place: value.place,
        });
    }
    let value = converted(alloc, typing, kind, value)?;
    Ok(returning(alloc, value.node)?)
}

/// No result: rule 3 at the statement where the function gives one.
#[tactic(auto, unfolding(type_rules::specs::Reading::and_then))]
fn returned_nothing(alloc: Global, typing: &Typing, place: u32) -> Result<Boxed<Stmt>, Stop>
    ensures { Gives (spec.returned_nothing place typing.now.result typing.now) result typing.now }
{
    if typing.returns().is_void() {
        Ok(Boxed::new(alloc, Stmt::Return(None))?)
    } else {
        Err(Stop::Fault { number: 3, place })
    }
}

/// `return`, with a value that converts to the type of the result or without one.
#[tactic(auto, unfolding(type_rules::specs::Statements::returned, type_rules::specs::Reading::and_then))]
pub(crate) fn returned(
    alloc: Global,
    typing: &mut Typing,
    place: u32,
    e: &Option<Boxed<Written>>,
) -> Result<Boxed<Stmt>, Stop>
    ensures { Gives (spec.returned place e.now typing.old) result typing.new }
{
    match e {
        Some(e) => {
            let kind = boxed_copy(alloc, typing.returns())?;
            returned_value(alloc, typing, kind.get(), e.get())
        }
        None => returned_nothing(alloc, typing, place),
    }
}
