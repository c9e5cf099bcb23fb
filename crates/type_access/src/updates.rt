//! Compound assignments (C17 6.5.16.2).

ghost use Rattle.std.specs.Prelude.{◌≡◌, IfOk};
ghost use Rattle.std.specs.Option.{option_copied};
ghost use Rattle.core_unit.specs.Shapes.{target_of};
ghost use Rattle.core_unit.specs.Typed.{is_shift as shifts};
ghost use Rattle.core_unit.specs.declared.expressions.Expr.TheVariants as expr;
ghost use Rattle.eff_types.specs.Types.{is_void};
ghost use Rattle.type_rules.specs.Assignments as spec;
ghost use Rattle.type_rules.specs.Operands as operands;
ghost use Rattle.typing_state.specs.Answers.{Gives};

use core_unit::{ArithmeticOperator, Expr, Place, Sign, Update};
use eff_types::CType;
use sqlite_items::Boxed;
use std::alloc::{AllocError, Global};
use type_operands::{common, found_value, in_sign, lvalue_in, pointed, promoted, sign_of};
use type_operators::{pair_of, stride};
use type_rules::{Found, Operand, Pair};
use typing_state::{Stop, Typing};

/// A compound assignment of this type. The one error is that no memory is left.
fn compound(
    alloc: Global,
    place: u32,
    kind: Boxed<CType>,
    target: Boxed<Place>,
    update: Update,
    operand: Boxed<Expr>,
) -> Result<Found, AllocError>
    ensures { IfOk result (λ f. f ≡ operands.found_value place kind (expr.Compound target update operand)) }
{
    found_value(alloc, place, kind, Expr::Compound(target, update, operand))
}

fn is_shift(operator: ArithmeticOperator) -> bool
    ensures { result ≡ shifts operator }
{
    matches!(
        operator,
        ArithmeticOperator::LeftShift | ArithmeticOperator::RightShift
    )
}

/// The sign of the operation: of a shift that of the place, else the one that both have in common.
fn update_sign(operator: ArithmeticOperator, left: &CType, right: &CType) -> Sign
    ensures { result ≡ spec.update_sign operator left.now right.now }
{
    if is_shift(operator) {
        sign_of(left)
    } else {
        common(sign_of(left), sign_of(right))
    }
}

/// The operand of the operation: of a shift promoted, else in the sign of the operation. The one error is that no memory is left.
fn update_operand(
    alloc: Global,
    operator: ArithmeticOperator,
    sign: Sign,
    operand: Operand,
) -> Result<Operand, AllocError>
    ensures { IfOk result (λ o. o ≡ spec.update_operand operator sign operand) }
{
    if is_shift(operator) {
        promoted(alloc, operand)
    } else {
        in_sign(alloc, sign, operand)
    }
}

/// `op=` of two numbers. Rule 6 at the left side where it designates nothing.
#[tactic(auto, unfolding(type_rules::specs::Reading::and_then, type_rules::specs::Assignments::number_update, type_rules::specs::Operands::lvalue))]
fn number_update(
    alloc: Global,
    typing: &Typing<'_>,
    place: u32,
    operator: ArithmeticOperator,
    left: Found,
    right: Operand,
) -> Result<Found, Stop>
    ensures { Gives (spec.number_update place operator left right typing.now) result typing.now }
{
    let Found {
        place: at,
        kind,
        form,
    } = left;
    let target = lvalue_in(typing, at, form)?;
    let sign = update_sign(operator, kind.get(), right.kind.get());
    let operand = update_operand(alloc, operator, sign, right)?.node;
    let update = Update::Arithmetic(operator, sign);
    Ok(compound(alloc, place, kind, target, update, operand)?)
}

/// The pointer that an addition or a subtraction of these operands gives, if it gives one.
fn moved_pointer<'a>(
    operator: ArithmeticOperator,
    left: &'a CType,
    right: &'a CType,
    pair: Pair,
) -> Option<&'a CType>
    ensures { option_copied result ≡ spec.moved_pointer operator left.now right.now pair }
{
    match pair {
        Pair::PointerFirst => match operator {
            ArithmeticOperator::Add => Some(left),
            ArithmeticOperator::Subtract => Some(left),
            _ => None,
        },
        Pair::PointerSecond => match operator {
            ArithmeticOperator::Add => Some(right),
            _ => None,
        },
        Pair::Pointers => match operator {
            ArithmeticOperator::Subtract => Some(left),
            _ => None,
        },
        Pair::Numbers => None,
        Pair::Others => None,
    }
}

/// Whether a pointer has no target but `void`; so has what is no pointer.
pub(crate) fn points_to_void(pointer: &CType) -> bool
    ensures { result ≡ is_void (target_of pointer.now) }
{
    match pointed(pointer) {
        Some(target) => target.is_void(),
        None => true,
    }
}

/// By so many words, forward or backward.
pub(crate) fn moved_by(operator: ArithmeticOperator, words: u32) -> Update
    ensures { result ≡ spec.moved_by operator words }
{
    match operator {
        ArithmeticOperator::Subtract => Update::Backward(words),
        _ => Update::Forward(words),
    }
}

fn is_pointer_first(pair: Pair) -> bool
    ensures { result ≡ spec.is_pointer_first pair }
{
    matches!(pair, Pair::PointerFirst)
}

/// `op=` of other operands: a pointer moves by a number. Rule 3 at the left side where there is no such sum or difference, rule 6 where it
/// designates nothing, what `stride` refuses of the pointer, and rule 11 where the result isn't converted back: of a number and a pointer, or of
/// two pointers.
#[tactic(auto, unfolding(type_rules::specs::Reading::and_then, type_rules::specs::Assignments::pointer_update, type_rules::specs::Operands::lvalue))]
fn pointer_update(
    alloc: Global,
    typing: &Typing<'_>,
    place: u32,
    operator: ArithmeticOperator,
    left: Found,
    right: Operand,
) -> Result<Found, Stop>
    ensures { Gives (spec.pointer_update place operator left right typing.now) result typing.now }
{
    let Found {
        place: at,
        kind,
        form,
    } = left;
    let mismatch = Stop::Fault {
        number: 3,
        place: at,
    };
    let pair = pair_of(kind.get(), right.kind.get());
    let Some(pointer) = moved_pointer(operator, kind.get(), right.kind.get(), pair) else {
        return Err(mismatch);
    };
    if points_to_void(pointer) {
        return Err(mismatch);
    }
    let target = lvalue_in(typing, at, form)?;
    let words = stride(typing, at, pointer)?;
    if !is_pointer_first(pair) {
        return Err(Stop::Fault {
            number: 11,
            place: at,
        });
    }
    let operand = promoted(alloc, right)?.node;
    let update = moved_by(operator, words);
    Ok(compound(alloc, place, kind, target, update, operand)?)
}

/// `op=`: as the operator, and then the result is converted to the type of the left side.
#[tactic(auto, unfolding(type_rules::specs::Assignments::compound_assignment))]
pub(crate) fn compound_assignment(
    alloc: Global,
    typing: &Typing<'_>,
    place: u32,
    operator: ArithmeticOperator,
    left: Found,
    right: Operand,
) -> Result<Found, Stop>
    ensures { Gives (spec.compound_assignment place operator left right typing.now) result typing.now }
{
    if left.kind.get().is_number() && right.kind.get().is_number() {
        number_update(alloc, typing, place, operator, left, right)
    } else {
        pointer_update(alloc, typing, place, operator, left, right)
    }
}
