//! `++` and `--` (C17 6.5.2.4 and 6.5.3.1), once their operand was read.

ghost use Rattle.std.specs.Prelude.{◌≡◌, IfOk};
ghost use Rattle.core_unit.specs.declared.expressions.Expr.TheVariants as expr;
ghost use Rattle.core_unit.specs.declared.operators.StepValue.TheVariants as step_value;
ghost use Rattle.type_rules.specs.Assignments as spec;
ghost use Rattle.type_rules.specs.Operands as operands;
ghost use Rattle.typing_state.specs.Answers.{Gives};

use crate::updates::{moved_by, points_to_void};
use core_unit::{ArithmeticOperator, Expr, Place, StepValue, Update};
use eff_types::CType;
use sqlite_items::Boxed;
use std::alloc::{AllocError, Global};
use type_operands::{found_value, is_data_pointer, is_whole, lvalue_in, sign_of};
use type_operators::stride;
use type_rules::Found;
use typing_state::{Stop, Typing};

/// Whether `++` and `--` take an object of this type: a number, or a data pointer that doesn't point to `void`.
fn is_stepped(kind: &CType) -> bool
    ensures { result ≡ spec.is_stepped kind.now }
{
    kind.is_number() || (is_data_pointer(kind) && !points_to_void(kind))
}

/// What a step does to a value of this type. What `stride` refuses of a pointer.
#[tactic(auto, unfolding(type_rules::specs::Assignments::step_update, type_rules::specs::Reading::and_then))]
fn step_update(
    typing: &Typing<'_>,
    place: u32,
    operator: ArithmeticOperator,
    kind: &CType,
) -> Result<Update, Stop>
    ensures { Gives (spec.step_update place operator kind.now typing.now) result typing.now }
{
    if kind.is_number() {
        Ok(Update::Arithmetic(operator, sign_of(kind)))
    } else {
        Ok(moved_by(operator, stride(typing, place, kind)?))
    }
}

/// A step of this type. The one error is that no memory is left.
fn step_on(
    alloc: Global,
    place: u32,
    kind: Boxed<CType>,
    target: Boxed<Place>,
    how: Update,
    value: StepValue,
) -> Result<Found, AllocError>
    ensures { IfOk result (λ f. f ≡ operands.found_value place kind (expr.Step target how value)) }
{
    found_value(alloc, place, kind, Expr::Step(target, how, value))
}

/// A step before its operand: what is asked of the operation comes before what is asked of the operand.
#[tactic(auto, unfolding(type_rules::specs::Operands::lvalue, type_rules::specs::Reading::and_then))]
fn stepped_before(
    alloc: Global,
    typing: &Typing<'_>,
    place: u32,
    operator: ArithmeticOperator,
    found: Found,
) -> Result<Found, Stop>
    ensures { Gives (spec.stepped_as place operator step_value.Prefix found typing.now) result typing.now }
{
    let how = step_update(typing, place, operator, found.kind.get())?;
    let Found {
        place: at,
        kind,
        form,
    } = found;
    let target = lvalue_in(typing, at, form)?;
    Ok(step_on(alloc, place, kind, target, how, StepValue::Prefix)?)
}

/// A step behind its operand.
#[tactic(auto, unfolding(type_rules::specs::Operands::lvalue, type_rules::specs::Reading::and_then))]
fn stepped_behind(
    alloc: Global,
    typing: &Typing<'_>,
    place: u32,
    operator: ArithmeticOperator,
    found: Found,
) -> Result<Found, Stop>
    ensures { Gives (spec.stepped_as place operator step_value.Postfix found typing.now) result typing.now }
{
    let Found {
        place: at,
        kind,
        form,
    } = found;
    let target = lvalue_in(typing, at, form)?;
    let how = step_update(typing, place, operator, kind.get())?;
    Ok(step_on(alloc, place, kind, target, how, StepValue::Postfix)?)
}

/// A step of an operand whose type takes one.
fn stepped_as(
    alloc: Global,
    typing: &Typing<'_>,
    place: u32,
    operator: ArithmeticOperator,
    value: StepValue,
    found: Found,
) -> Result<Found, Stop>
    ensures { Gives (spec.stepped_as place operator value found typing.now) result typing.now }
{
    match value {
        StepValue::Prefix => stepped_before(alloc, typing, place, operator, found),
        StepValue::Postfix => stepped_behind(alloc, typing, place, operator, found),
    }
}

/// `++` and `--`: of a number or a data pointer that is designated. Rule 3 at `place`, the first token of the operation, or at the operand where
/// that is a structure or a mutex; rule 6 at the operand where it designates nothing; what `stride` refuses of a pointer.
#[tactic(auto, unfolding(type_rules::specs::Reading::and_then))]
pub(crate) fn stepped(
    alloc: Global,
    typing: &Typing<'_>,
    place: u32,
    operator: ArithmeticOperator,
    value: StepValue,
    found: Found,
) -> Result<Found, Stop>
    ensures { Gives (spec.stepped place operator value found typing.now) result typing.now }
{
    if is_whole(found.kind.get()) {
        return Err(Stop::Fault {
            number: 3,
            place: found.place,
        });
    }
    if !is_stepped(found.kind.get()) {
        return Err(Stop::Fault { number: 3, place });
    }
    stepped_as(alloc, typing, place, operator, value, found)
}
