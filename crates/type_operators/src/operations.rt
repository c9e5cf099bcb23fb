//! The operator between two operands (C17 6.5.5 to 6.5.14 and 6.5.17).

ghost use Rattle.std.specs.Prelude.{◌≡◌, IfOk};
ghost use Rattle.core_unit.specs.declared.expressions.Expr.TheVariants as expr;
ghost use Rattle.type_rules.specs.Operands as operands;
ghost use Rattle.type_rules.specs.Operators as spec;
ghost use Rattle.typing_state.specs.Answers.{Gives};

use crate::comparisons::{equality_on, ordered};
use crate::numbers::{arithmetic_on, shift_on};
use crate::sums::{added, subtracted};
use c_tree::BinaryOperator as Written;
use core_unit::{
    ArithmeticOperator as Arithmetic, ComparisonOperator as Comparison, Expr, LogicalOperator,
};
use eff_types::CType;
use sqlite_items::Boxed;
use std::alloc::{AllocError, Global};
use type_operands::{found_value, is_scalar, promoted};
use type_rules::{Found, Operand};
use typing_state::{Stop, Typing};

/// `&&` or `||` of two scalars, each promoted. The one error is that no memory is left.
fn logical(
    alloc: Global,
    place: u32,
    operator: LogicalOperator,
    left: Operand,
    right: Operand,
) -> Result<Found, AllocError>
    ensures { IfOk result (λ f. f ≡ operands.found_value place CType.Int (expr.Logical operator (operands.promoted left).node (operands.promoted right).node)) }
{
    let left = promoted(alloc, left)?.node;
    let right = promoted(alloc, right)?.node;
    let kind = Boxed::new(alloc, CType::Int)?;
    found_value(alloc, place, kind, Expr::Logical(operator, left, right))
}

/// `&&` and `||`: of numbers and pointers. Rule 3 at `place` where one is neither.
#[tactic(auto, unfolding(type_rules::specs::Operators::logical_on, type_rules::specs::Reading::and_then))]
fn logical_on(
    alloc: Global,
    typing: &Typing<'_>,
    place: u32,
    operator: LogicalOperator,
    left: Operand,
    right: Operand,
) -> Result<Found, Stop>
    ensures { Gives (spec.logical_on place operator left right typing.now) result typing.now }
{
    if is_scalar(left.kind.get()) && is_scalar(right.kind.get()) {
        Ok(logical(alloc, place, operator, left, right)?)
    } else {
        Err(Stop::Fault { number: 3, place })
    }
}

/// `,`: the right operand behind the left one. The one error is that no memory is left.
fn comma_on(alloc: Global, place: u32, left: Operand, right: Operand) -> Result<Found, AllocError>
    ensures { IfOk result (λ f. f ≡ spec.comma_on place left right) }
{
    let Operand {
        place: _,
        kind,
        node,
    } = right;
    found_value(alloc, place, kind, Expr::Comma(left.node, node))
}

/// A binary operation, once both operands were read: what remains of `operation`. A wrong operand is rule 3 at `place`, the first token of the
/// operation.
pub fn operation_on(
    alloc: Global,
    typing: &Typing<'_>,
    place: u32,
    operator: Written,
    a: Operand,
    b: Operand,
) -> Result<Found, Stop>
    ensures { Gives (spec.operation_on place operator a b typing.now) result typing.now }
{
    match operator {
        Written::Comma => Ok(comma_on(alloc, place, a, b)?),
        Written::LogicalOr => logical_on(alloc, typing, place, LogicalOperator::Or, a, b),
        Written::LogicalAnd => logical_on(alloc, typing, place, LogicalOperator::And, a, b),
        Written::Or => arithmetic_on(alloc, typing, place, Arithmetic::Or, a, b),
        Written::ExclusiveOr => arithmetic_on(alloc, typing, place, Arithmetic::ExclusiveOr, a, b),
        Written::And => arithmetic_on(alloc, typing, place, Arithmetic::And, a, b),
        Written::Equal => equality_on(alloc, typing, place, Comparison::Equal, a, b),
        Written::NotEqual => equality_on(alloc, typing, place, Comparison::NotEqual, a, b),
        Written::Less => ordered(alloc, typing, place, Comparison::Less, a, b),
        Written::Greater => ordered(alloc, typing, place, Comparison::Greater, a, b),
        Written::LessOrEqual => ordered(alloc, typing, place, Comparison::LessOrEqual, a, b),
        Written::GreaterOrEqual => ordered(alloc, typing, place, Comparison::GreaterOrEqual, a, b),
        Written::LeftShift => shift_on(alloc, typing, place, Arithmetic::LeftShift, a, b),
        Written::RightShift => shift_on(alloc, typing, place, Arithmetic::RightShift, a, b),
        Written::Add => added(alloc, typing, place, a, b),
        Written::Subtract => subtracted(alloc, typing, place, a, b),
        Written::Multiply => arithmetic_on(alloc, typing, place, Arithmetic::Multiply, a, b),
        Written::Divide => arithmetic_on(alloc, typing, place, Arithmetic::Divide, a, b),
        Written::Remainder => arithmetic_on(alloc, typing, place, Arithmetic::Remainder, a, b),
    }
}
