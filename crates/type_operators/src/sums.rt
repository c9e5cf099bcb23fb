//! Sums and differences, of numbers and of pointers (C17 6.5.6).

ghost use Rattle.std.specs.Prelude.{◌≡◌};
ghost use Rattle.type_rules.specs.Operators as spec;
ghost use Rattle.type_rules.specs.declared.found.Pair.TheVariants as pair;
ghost use Rattle.typing_state.specs.Answers.{Gives};

use crate::numbers::{binary, calculated_in_common};
use crate::pairs::{pair_of, stride};
use core_unit::{ArithmeticOperator, BinaryOperator, PointerSide};
use eff_types::CType;
use sqlite_items::Boxed;
use std::alloc::Global;
use type_operands::promoted;
use type_rules::{Found, Operand, Pair};
use typing_state::{Stop, Typing};

/// A pointer plus a number.
#[tactic(auto, unfolding(type_rules::specs::Reading::and_then))]
fn pointer_plus_number(
    alloc: Global,
    typing: &Typing<'_>,
    place: u32,
    left: Operand,
    right: Operand,
) -> Result<Found, Stop>
    ensures { Gives (spec.added_as place left right pair.PointerFirst typing.now) result typing.now }
{
    let words = stride(typing, place, left.kind.get())?;
    let right = promoted(alloc, right)?.node;
    let Operand {
        place: _,
        kind,
        node,
    } = left;
    let operator = BinaryOperator::PointerPlus(PointerSide::Left, words);
    Ok(binary(alloc, place, kind, operator, node, right)?)
}

/// A number plus a pointer.
#[tactic(auto, unfolding(type_rules::specs::Reading::and_then))]
fn number_plus_pointer(
    alloc: Global,
    typing: &Typing<'_>,
    place: u32,
    left: Operand,
    right: Operand,
) -> Result<Found, Stop>
    ensures { Gives (spec.added_as place left right pair.PointerSecond typing.now) result typing.now }
{
    let words = stride(typing, place, right.kind.get())?;
    let left = promoted(alloc, left)?.node;
    let Operand {
        place: _,
        kind,
        node,
    } = right;
    let operator = BinaryOperator::PointerPlus(PointerSide::Right, words);
    Ok(binary(alloc, place, kind, operator, left, node)?)
}

/// `+`: of two numbers, or of a data pointer and a number in either order. Rule 3 at `place` of others.
#[tactic(auto, unfolding(type_rules::specs::Reading::and_then))]
pub(crate) fn added(
    alloc: Global,
    typing: &Typing<'_>,
    place: u32,
    left: Operand,
    right: Operand,
) -> Result<Found, Stop>
    ensures { Gives (spec.added_as place left right (spec.pair_of left.kind right.kind) typing.now) result typing.now }
{
    match pair_of(left.kind.get(), right.kind.get()) {
        Pair::Numbers => {
            Ok(calculated_in_common(alloc, place, ArithmeticOperator::Add, left, right)?)
        }
        Pair::PointerFirst => pointer_plus_number(alloc, typing, place, left, right),
        Pair::PointerSecond => number_plus_pointer(alloc, typing, place, left, right),
        Pair::Pointers => Err(Stop::Fault { number: 3, place }),
        Pair::Others => Err(Stop::Fault { number: 3, place }),
    }
}

/// A pointer minus a number.
#[tactic(auto, unfolding(type_rules::specs::Reading::and_then))]
fn pointer_minus_number(
    alloc: Global,
    typing: &Typing<'_>,
    place: u32,
    left: Operand,
    right: Operand,
) -> Result<Found, Stop>
    ensures { Gives (spec.subtracted_as place left right pair.PointerFirst typing.now) result typing.now }
{
    let words = stride(typing, place, left.kind.get())?;
    let right = promoted(alloc, right)?.node;
    let Operand {
        place: _,
        kind,
        node,
    } = left;
    let operator = BinaryOperator::PointerMinus(words);
    Ok(binary(alloc, place, kind, operator, node, right)?)
}

/// The difference of two pointers, which is an `int`.
#[tactic(auto, unfolding(type_rules::specs::Reading::and_then))]
fn difference(
    alloc: Global,
    typing: &Typing<'_>,
    place: u32,
    left: Operand,
    right: Operand,
) -> Result<Found, Stop>
    ensures { Gives (spec.subtracted_as place left right pair.Pointers typing.now) result typing.now }
{
    let words = stride(typing, place, left.kind.get())?;
    let kind = Boxed::new(alloc, CType::Int)?;
    let operator = BinaryOperator::Difference(words);
    Ok(binary(alloc, place, kind, operator, left.node, right.node)?)
}

/// `-`: of two numbers, of a number from a data pointer, or of two data pointers of one type. Rule 3 at `place` of others.
#[tactic(auto, unfolding(type_rules::specs::Reading::and_then))]
pub(crate) fn subtracted(
    alloc: Global,
    typing: &Typing<'_>,
    place: u32,
    left: Operand,
    right: Operand,
) -> Result<Found, Stop>
    ensures { Gives (spec.subtracted_as place left right (spec.pair_of left.kind right.kind) typing.now) result typing.now }
{
    match pair_of(left.kind.get(), right.kind.get()) {
        Pair::Numbers => {
            Ok(calculated_in_common(alloc, place, ArithmeticOperator::Subtract, left, right)?)
        }
        Pair::PointerFirst => pointer_minus_number(alloc, typing, place, left, right),
        Pair::PointerSecond => Err(Stop::Fault { number: 3, place }),
        Pair::Pointers => difference(alloc, typing, place, left, right),
        Pair::Others => Err(Stop::Fault { number: 3, place }),
    }
}
