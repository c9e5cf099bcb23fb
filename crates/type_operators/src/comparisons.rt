//! Comparisons (C17 6.5.8 and 6.5.9), each an `int`.

ghost use Rattle.std.specs.Prelude.{◌≡◌, IfOk};
ghost use Rattle.type_rules.specs.Operands as operands;
ghost use Rattle.type_rules.specs.Operators as spec;
ghost use Rattle.typing_state.specs.Answers.{Gives};

use crate::numbers::binary;
use crate::pairs::pair_of;
use crate::pointers::{Common, alike_outside, brought, pointer_in_common, pointers_of};
use core_unit::{BinaryOperator, Comparands, ComparisonOperator};
use eff_types::CType;
use sqlite_items::Boxed;
use std::alloc::{AllocError, Global};
use type_operands::{common_sign, in_sign};
use type_rules::{Found, Operand, Pair};
use typing_state::{Stop, Typing};

/// A comparison of two values as they are. The one error is that no memory is left.
fn compared(
    alloc: Global,
    place: u32,
    operator: ComparisonOperator,
    what: Comparands,
    left: Operand,
    right: Operand,
) -> Result<Found, AllocError>
    ensures { IfOk result (λ f. f ≡ spec.compared place operator what left right) }
{
    let kind = Boxed::new(alloc, CType::Int)?;
    let operator = BinaryOperator::Compare(operator, what);
    binary(alloc, place, kind, operator, left.node, right.node)
}

/// A comparison of two numbers, in the sign that they have in common. The one error is that no memory is left.
fn numbers_compared(
    alloc: Global,
    place: u32,
    operator: ComparisonOperator,
    left: Operand,
    right: Operand,
) -> Result<Found, AllocError>
    ensures { IfOk result (λ f. f ≡ spec.numbers_compared place operator (operands.common_sign left right) left right) }
{
    let sign = common_sign(&left, &right);
    let left = in_sign(alloc, sign, left)?;
    let right = in_sign(alloc, sign, right)?;
    compared(
        alloc,
        place,
        operator,
        Comparands::Numbers(sign),
        left,
        right,
    )
}

/// `<`, `>`, `<=` and `>=`: of two numbers, or of two data pointers of one type. Rule 3 at `place` of others.
pub(crate) fn ordered(
    alloc: Global,
    typing: &Typing<'_>,
    place: u32,
    operator: ComparisonOperator,
    left: Operand,
    right: Operand,
) -> Result<Found, Stop>
    ensures { Gives (spec.ordered_as place operator left right (spec.pair_of left.kind right.kind) typing.now) result typing.now }
{
    match pair_of(left.kind.get(), right.kind.get()) {
        Pair::Numbers => Ok(numbers_compared(alloc, place, operator, left, right)?),
        Pair::PointerFirst => Err(Stop::Fault { number: 3, place }),
        Pair::PointerSecond => Err(Stop::Fault { number: 3, place }),
        Pair::Pointers => {
            Ok(compared(
                alloc,
                place,
                operator,
                Comparands::DataPointers,
                left,
                right,
            )?)
        }
        Pair::Others => Err(Stop::Fault { number: 3, place }),
    }
}

/// The comparison of two pointers in the type of the left one. The one error is that no memory is left.
#[tactic(auto, using(crate::proofs::Sames::same_self))]
fn compared_in_first(
    alloc: Global,
    place: u32,
    operator: ComparisonOperator,
    left: Operand,
    right: Operand,
) -> Result<Found, AllocError>
    ensures { IfOk result (λ f. f ≡ spec.pointers_compared place operator left.kind left right) }
{
    let what = pointers_of(left.kind.get());
    let right = brought(alloc, left.kind.get(), right)?;
    compared(alloc, place, operator, what, left, right)
}

/// The comparison of two pointers in the type of the right one. The one error is that no memory is left.
#[tactic(auto, using(crate::proofs::Sames::same_self))]
fn compared_in_second(
    alloc: Global,
    place: u32,
    operator: ComparisonOperator,
    left: Operand,
    right: Operand,
) -> Result<Found, AllocError>
    ensures { IfOk result (λ f. f ≡ spec.pointers_compared place operator right.kind left right) }
{
    let what = pointers_of(right.kind.get());
    let left = brought(alloc, right.kind.get(), left)?;
    compared(alloc, place, operator, what, left, right)
}

/// `==` and `!=` of two values that aren't both numbers: in the pointer type that they have in common; pointers to functions that are equal
/// up to outer effects as they are. Rule 3 at `place` of others.
#[tactic(auto, unfolding(type_rules::specs::Reading::and_then))]
fn pointers_equated(
    alloc: Global,
    typing: &Typing<'_>,
    place: u32,
    operator: ComparisonOperator,
    left: Operand,
    right: Operand,
) -> Result<Found, Stop>
    ensures { Gives (spec.pointers_equated place operator left right (spec.pointer_in_common left right) typing.now) result typing.now }
{
    match pointer_in_common(&left, &right) {
        Common::First => Ok(compared_in_first(alloc, place, operator, left, right)?),
        Common::Second => Ok(compared_in_second(alloc, place, operator, left, right)?),
        Common::Neither => {
            if alike_outside(left.kind.get(), right.kind.get()) {
                let what = Comparands::FunctionPointers;
                Ok(compared(alloc, place, operator, what, left, right)?)
            } else {
                Err(Stop::Fault { number: 3, place })
            }
        }
    }
}

/// `==` and `!=`: of two numbers, or of two pointers that have a type in common. Rule 3 at `place` of others.
#[tactic(auto, unfolding(type_rules::specs::Operators::equality_on))]
pub(crate) fn equality_on(
    alloc: Global,
    typing: &Typing<'_>,
    place: u32,
    operator: ComparisonOperator,
    left: Operand,
    right: Operand,
) -> Result<Found, Stop>
    ensures { Gives (spec.equality_on place operator left right typing.now) result typing.now }
{
    if left.kind.get().is_number() && right.kind.get().is_number() {
        Ok(numbers_compared(alloc, place, operator, left, right)?)
    } else {
        pointers_equated(alloc, typing, place, operator, left, right)
    }
}
