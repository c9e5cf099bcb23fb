//! Operators before and behind one operand (C17 6.5.2.4 and 6.5.3), once it was read.

ghost use Rattle.std.specs.Prelude.{◌≡◌};
ghost use Rattle.core_unit.specs.declared.operators.UnaryOperator.TheVariants as made;
ghost use Rattle.type_rules.specs.Access as access;
ghost use Rattle.type_rules.specs.Assignments as assignments;
ghost use Rattle.type_rules.specs.Expressions as spec;
ghost use Rattle.type_rules.specs.Operators as operators;
ghost use Rattle.type_rules.specs.Reading.{gives};
ghost use Rattle.typing_state.specs.Answers.{Gives};

use crate::indirections::{address_of, indirection_of};
use crate::steps::stepped;
use c_tree::{StepOperator, UnaryOperator};
use core_unit::{ArithmeticOperator as Arithmetic, StepValue, UnaryOperator as Made};
use std::alloc::Global;
use type_operands::{operand, sign_of, size};
use type_operators::{negation_on, sign_operation_on};
use type_rules::Found;
use typing_state::{Stop, Typing};

#[tactic(auto, unfolding(type_rules::specs::Assignments::step, type_rules::specs::Reading::and_then))]
fn step(
    alloc: Global,
    typing: &Typing<'_>,
    place: u32,
    operator: Arithmetic,
    value: StepValue,
    found: Found,
) -> Result<Found, Stop>
    ensures { Gives (assignments.step place operator value (gives found) typing.now) result typing.now }
{
    stepped(alloc, typing, place, operator, value, found)
}

#[tactic(auto, unfolding(type_rules::specs::Access::address, type_rules::specs::Reading::and_then))]
fn address(alloc: Global, typing: &Typing<'_>, place: u32, found: Found) -> Result<Found, Stop>
    ensures { Gives (access.address place (gives found) typing.now) result typing.now }
{
    address_of(alloc, typing, place, found)
}

#[tactic(auto, unfolding(type_rules::specs::Reading::and_then, type_rules::specs::Access::indirection))]
fn indirection(alloc: Global, typing: &Typing<'_>, place: u32, found: Found) -> Result<Found, Stop>
    ensures { Gives (access.indirection place (gives found) typing.now) result typing.now }
{
    let pointer = operand(alloc, typing, found)?;
    indirection_of(alloc, typing, place, pointer)
}

#[tactic(auto, unfolding(type_rules::specs::Reading::and_then, type_rules::specs::Operators::sign_operation))]
fn plus(alloc: Global, typing: &Typing<'_>, place: u32, found: Found) -> Result<Found, Stop>
    ensures { Gives (operators.sign_operation place made.Plus (gives found) typing.now) result typing.now }
{
    let number = operand(alloc, typing, found)?;
    let operator = Made::Plus(sign_of(number.kind.get()));
    sign_operation_on(alloc, typing, place, operator, number)
}

#[tactic(auto, unfolding(type_rules::specs::Reading::and_then, type_rules::specs::Operators::sign_operation))]
fn minus(alloc: Global, typing: &Typing<'_>, place: u32, found: Found) -> Result<Found, Stop>
    ensures { Gives (operators.sign_operation place made.Minus (gives found) typing.now) result typing.now }
{
    let number = operand(alloc, typing, found)?;
    let operator = Made::Minus(sign_of(number.kind.get()));
    sign_operation_on(alloc, typing, place, operator, number)
}

#[tactic(auto, unfolding(type_rules::specs::Reading::and_then, type_rules::specs::Operators::sign_operation))]
fn complement(alloc: Global, typing: &Typing<'_>, place: u32, found: Found) -> Result<Found, Stop>
    ensures { Gives (operators.sign_operation place made.Complement (gives found) typing.now) result typing.now }
{
    let number = operand(alloc, typing, found)?;
    let operator = Made::Complement(sign_of(number.kind.get()));
    sign_operation_on(alloc, typing, place, operator, number)
}

#[tactic(auto, unfolding(type_rules::specs::Reading::and_then, type_rules::specs::Operators::negation))]
fn negation(alloc: Global, typing: &Typing<'_>, place: u32, found: Found) -> Result<Found, Stop>
    ensures { Gives (operators.negation place (gives found) typing.now) result typing.now }
{
    let scalar = operand(alloc, typing, found)?;
    negation_on(alloc, typing, place, scalar)
}

#[tactic(auto, unfolding(type_rules::specs::Access::size_of_expression, type_rules::specs::Access::unevaluated, type_rules::specs::Reading::and_then))]
fn size_of_expression(
    alloc: Global,
    typing: &Typing<'_>,
    place: u32,
    found: Found,
) -> Result<Found, Stop>
    ensures { Gives (access.size_of_expression place (gives found) typing.now) result typing.now }
{
    size(alloc, typing, place, found.kind.get())
}

/// An operator before its operand, once that was read: what remains of `unary`. The operand of `sizeof` was read without sites: `unevaluated` is
/// done before. Each refusal is that of the operator's rule.
pub fn unary(
    alloc: Global,
    typing: &Typing<'_>,
    place: u32,
    operator: UnaryOperator,
    found: Found,
) -> Result<Found, Stop>
    ensures { Gives (spec.unary place operator (gives found) typing.now) result typing.now }
{
    match operator {
        UnaryOperator::Increment => {
            step(
                alloc,
                typing,
                place,
                Arithmetic::Add,
                StepValue::Prefix,
                found,
            )
        }
        UnaryOperator::Decrement => {
            step(
                alloc,
                typing,
                place,
                Arithmetic::Subtract,
                StepValue::Prefix,
                found,
            )
        }
        UnaryOperator::Address => address(alloc, typing, place, found),
        UnaryOperator::Indirection => indirection(alloc, typing, place, found),
        UnaryOperator::Plus => plus(alloc, typing, place, found),
        UnaryOperator::Minus => minus(alloc, typing, place, found),
        UnaryOperator::Complement => complement(alloc, typing, place, found),
        UnaryOperator::Not => negation(alloc, typing, place, found),
        UnaryOperator::Sizeof => size_of_expression(alloc, typing, place, found),
    }
}

/// An operator behind its operand, once that was read: what remains of `postfix`. Its refusals are those of a step.
pub fn postfix(
    alloc: Global,
    typing: &Typing<'_>,
    place: u32,
    operator: StepOperator,
    found: Found,
) -> Result<Found, Stop>
    ensures { Gives (spec.postfix place operator (gives found) typing.now) result typing.now }
{
    match operator {
        StepOperator::Increment => {
            step(
                alloc,
                typing,
                place,
                Arithmetic::Add,
                StepValue::Postfix,
                found,
            )
        }
        StepOperator::Decrement => {
            step(
                alloc,
                typing,
                place,
                Arithmetic::Subtract,
                StepValue::Postfix,
                found,
            )
        }
    }
}
