//! Assignments (C17 6.5.16), once both sides were read.

ghost use Rattle.std.specs.Prelude.{◌≡◌};
ghost use Rattle.type_rules.specs.Assignments as spec;
ghost use Rattle.typing_state.specs.Answers.{Gives};

use crate::updates::compound_assignment;
use c_tree::AssignmentOperator;
use core_unit::{ArithmeticOperator as Arithmetic, Expr};
use std::alloc::Global;
use type_operands::{converted, found_value, is_scalar, is_whole, lvalue_in};
use type_rules::{Found, Operand};
use typing_state::{Stop, Typing};

/// Asks of the left side, before the right one is read, that it is no structure and no mutex. Rule 3 at the left side where it is one.
pub fn left_side(typing: &Typing<'_>, left: &Found) -> Result<(), Stop>
    ensures { Gives (spec.left_side left.now typing.now) result typing.now }
{
    if is_whole(left.kind.get()) {
        Err(Stop::Fault {
            number: 3,
            place: left.place,
        })
    } else {
        Ok(())
    }
}

/// `=`: of a scalar that is designated, to which the right side converts. Rules 3 and 6 at the left side; what the conversion refuses.
#[tactic(auto, unfolding(type_rules::specs::Reading::and_then, type_rules::specs::Assignments::plain_assignment, type_rules::specs::Operands::lvalue))]
fn plain_assignment(
    alloc: Global,
    typing: &mut Typing<'_>,
    place: u32,
    left: Found,
    right: Operand,
) -> Result<Found, Stop>
    ensures { Gives (spec.plain_assignment place left right typing.old) result typing.new }
{
    let Found {
        place: at,
        kind,
        form,
    } = left;
    if !is_scalar(kind.get()) {
        return Err(Stop::Fault {
            number: 3,
            place: at,
        });
    }
    let target = lvalue_in(typing, at, form)?;
    let value = converted(alloc, typing, kind.get(), right)?.node;
    Ok(found_value(alloc, place, kind, Expr::Assign(target, value))?)
}

/// An assignment, once both sides were read and `left_side` let the left one pass: what remains of `assignment`. Of the rules that fail at the
/// left side the lowest is answered.
pub fn assigned_by(
    alloc: Global,
    typing: &mut Typing<'_>,
    place: u32,
    operator: AssignmentOperator,
    left: Found,
    right: Operand,
) -> Result<Found, Stop>
    ensures { Gives (spec.assigned_by place operator left right typing.old) result typing.new }
{
    let operator = match operator {
        AssignmentOperator::Plain => {
            return plain_assignment(alloc, typing, place, left, right);
        }
        AssignmentOperator::Multiply => Arithmetic::Multiply,
        AssignmentOperator::Divide => Arithmetic::Divide,
        AssignmentOperator::Remainder => Arithmetic::Remainder,
        AssignmentOperator::Add => Arithmetic::Add,
        AssignmentOperator::Subtract => Arithmetic::Subtract,
        AssignmentOperator::LeftShift => Arithmetic::LeftShift,
        AssignmentOperator::RightShift => Arithmetic::RightShift,
        AssignmentOperator::And => Arithmetic::And,
        AssignmentOperator::ExclusiveOr => Arithmetic::ExclusiveOr,
        AssignmentOperator::Or => Arithmetic::Or,
    };
    compound_assignment(alloc, typing, place, operator, left, right)
}
