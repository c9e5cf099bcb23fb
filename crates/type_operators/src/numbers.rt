//! Operations on numbers (C17 6.5.3.3, 6.5.5, 6.5.7 and 6.5.10 to 6.5.12).

ghost use Rattle.std.specs.Prelude.{◌≡◌, IfOk};
ghost use Rattle.core_unit.specs.declared.expressions.Expr.TheVariants as expr;
ghost use Rattle.core_unit.specs.Shapes as shapes;
ghost use Rattle.core_unit.specs.declared.operators.BinaryOperator.TheVariants as binary_operator;
ghost use Rattle.type_rules.specs.Operands as operands;
ghost use Rattle.type_rules.specs.Operators as spec;
ghost use Rattle.typing_state.specs.Answers.{Gives};

use core_unit::{ArithmeticOperator, BinaryOperator, Expr, Sign, UnaryOperator};
use eff_types::CType;
use sqlite_items::Boxed;
use std::alloc::{AllocError, Global};
use type_operands::{common_sign, found_value, in_sign, is_scalar, number_type, promoted, sign_of};
use type_rules::{Found, Operand};
use typing_state::{Stop, Typing};

/// An operation on two values, of this type. The one error is that no memory is left.
pub(crate) fn binary(
    alloc: Global,
    place: u32,
    kind: Boxed<CType>,
    operator: BinaryOperator,
    left: Boxed<Expr>,
    right: Boxed<Expr>,
) -> Result<Found, AllocError>
    ensures { IfOk result (λ f. f ≡ operands.found_value place kind (expr.Binary operator left right)) }
{
    found_value(alloc, place, kind, Expr::Binary(operator, left, right))
}

/// An operation on two numbers, in this sign. The one error is that no memory is left.
pub(crate) fn calculated(
    alloc: Global,
    place: u32,
    operator: ArithmeticOperator,
    sign: Sign,
    left: Operand,
    right: Operand,
) -> Result<Found, AllocError>
    ensures { IfOk result (λ f. f ≡ spec.calculated place operator sign left right) }
{
    let left = in_sign(alloc, sign, left)?.node;
    let right = in_sign(alloc, sign, right)?.node;
    let kind = Boxed::new(alloc, number_type(sign))?;
    binary(
        alloc,
        place,
        kind,
        BinaryOperator::Arithmetic(operator, sign),
        left,
        right,
    )
}

/// An operation on two numbers, in the sign that they have in common. The one error is that no memory is left.
pub(crate) fn calculated_in_common(
    alloc: Global,
    place: u32,
    operator: ArithmeticOperator,
    left: Operand,
    right: Operand,
) -> Result<Found, AllocError>
    ensures { IfOk result (λ f. f ≡ spec.calculated place operator (operands.common_sign left right) left right) }
{
    let sign = common_sign(&left, &right);
    calculated(alloc, place, operator, sign, left, right)
}

/// `*`, `/`, `%`, `&`, `^` and `|`: of two numbers. Rule 3 at `place` where one isn't.
#[tactic(auto, unfolding(type_rules::specs::Operators::arithmetic_on, type_rules::specs::Reading::and_then))]
pub(crate) fn arithmetic_on(
    alloc: Global,
    typing: &Typing<'_>,
    place: u32,
    operator: ArithmeticOperator,
    left: Operand,
    right: Operand,
) -> Result<Found, Stop>
    ensures { Gives (spec.arithmetic_on place operator left right typing.now) result typing.now }
{
    if left.kind.get().is_number() && right.kind.get().is_number() {
        Ok(calculated_in_common(alloc, place, operator, left, right)?)
    } else {
        Err(Stop::Fault { number: 3, place })
    }
}

/// `<<` or `>>` of two numbers, in the sign of the left one. The one error is that no memory is left.
fn shifted(
    alloc: Global,
    place: u32,
    operator: ArithmeticOperator,
    left: Operand,
    right: Operand,
) -> Result<Found, AllocError>
    ensures { IfOk result (λ f. f ≡ operands.found_value place (shapes.number_type (shapes.sign_of left.kind)) (expr.Binary (binary_operator.Arithmetic operator (shapes.sign_of left.kind)) (operands.promoted left).node (operands.promoted right).node)) }
{
    let sign = sign_of(left.kind.get());
    let left = promoted(alloc, left)?.node;
    let right = promoted(alloc, right)?.node;
    let kind = Boxed::new(alloc, number_type(sign))?;
    binary(
        alloc,
        place,
        kind,
        BinaryOperator::Arithmetic(operator, sign),
        left,
        right,
    )
}

/// `<<` and `>>`: of two numbers, each promoted by itself. Rule 3 at `place` where one isn't a number.
#[tactic(auto, unfolding(type_rules::specs::Operators::shift_on, type_rules::specs::Reading::and_then))]
pub(crate) fn shift_on(
    alloc: Global,
    typing: &Typing<'_>,
    place: u32,
    operator: ArithmeticOperator,
    left: Operand,
    right: Operand,
) -> Result<Found, Stop>
    ensures { Gives (spec.shift_on place operator left right typing.now) result typing.now }
{
    if left.kind.get().is_number() && right.kind.get().is_number() {
        Ok(shifted(alloc, place, operator, left, right)?)
    } else {
        Err(Stop::Fault { number: 3, place })
    }
}

/// An operator on one value, promoted, which gives a value of this type. The one error is that no memory is left.
fn applied(
    alloc: Global,
    place: u32,
    kind: CType,
    operator: UnaryOperator,
    operand: Operand,
) -> Result<Found, AllocError>
    ensures { IfOk result (λ f. f ≡ operands.found_value place kind (expr.Unary operator (operands.promoted operand).node)) }
{
    let kind = Boxed::new(alloc, kind)?;
    let node = promoted(alloc, operand)?.node;
    found_value(alloc, place, kind, Expr::Unary(operator, node))
}

/// Unary `+`, `-` and `~`, by the sign of the operand's type: of a number, promoted. Rule 3 at `place` where it isn't one.
#[tactic(auto, unfolding(type_rules::specs::Reading::and_then))]
pub fn sign_operation_on(
    alloc: Global,
    typing: &Typing<'_>,
    place: u32,
    operator: UnaryOperator,
    operand: Operand,
) -> Result<Found, Stop>
    ensures { Gives (spec.sign_operation_on place (λ sign. operator) operand typing.now) result typing.now }
{
    if operand.kind.get().is_number() {
        let kind = number_type(sign_of(operand.kind.get()));
        Ok(applied(alloc, place, kind, operator, operand)?)
    } else {
        Err(Stop::Fault { number: 3, place })
    }
}

/// `!`: of a number or a pointer, promoted. Rule 3 at `place` where it is neither.
#[tactic(auto, unfolding(type_rules::specs::Reading::and_then))]
pub fn negation_on(
    alloc: Global,
    typing: &Typing<'_>,
    place: u32,
    operand: Operand,
) -> Result<Found, Stop>
    ensures { Gives (spec.negation_on place operand typing.now) result typing.now }
{
    if is_scalar(operand.kind.get()) {
        Ok(applied(alloc, place, CType::Int, UnaryOperator::Not, operand)?)
    } else {
        Err(Stop::Fault { number: 3, place })
    }
}
