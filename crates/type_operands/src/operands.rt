//! Operands: their promotion and their common sign (C17 6.3.1), and the places that expressions designate (C17 6.3.2.1).

ghost use Rattle.std.specs.Prelude.{◌≡◌, IfOk};
ghost use Rattle.type_rules.specs.Operands as spec;
ghost use Rattle.type_rules.specs.Reading.{gives};
ghost use Rattle.typing_state.specs.Answers.{Gives};

use crate::copies::boxed_copy;
use crate::kinds::{common, is_char, is_whole, number_type, sign_of};
use crate::values::as_value;
use core_unit::{Cause, Expr, Place, Sign};
use eff_types::{CType, copy, equal};
use sqlite_items::Boxed;
use std::alloc::{AllocError, Global};
use type_rules::{Form, Found, Operand};
use typing_state::{Stop, Typing};

/// What is found of an expression, used for its value. Rule 3 at the expression where it is a structure or a mutex, which stand under
/// `&`, `sizeof` and `.` alone (this project's own rule).
#[tactic(auto, unfolding(type_rules::specs::Operands::operand, type_rules::specs::Reading::and_then))]
pub fn operand(alloc: Global, typing: &Typing, found: Found) -> Result<Operand, Stop>
    ensures { Gives (spec.operand (gives found) typing.now) result typing.now }
{
    if is_whole(found.kind.get()) {
        return Err(Stop::Fault {
            number: 3,
            place: found.place,
        });
    }
    Ok(as_value(alloc, found)?)
}

/// The place that an expression designates. Rule 6 at `at` where it designates none (C17 6.3.2.1).
pub fn lvalue_in(typing: &Typing, at: u32, form: Form) -> Result<Boxed<Place>, Stop>
    ensures { Gives (spec.lvalue_in at form typing.now) result typing.now }
{
    match form {
        Form::Lvalue(object) => Ok(object),
        Form::Value(_) => Err(Stop::Fault {
            number: 6,
            place: at,
        }),
    }
}

/// The place that an expression designates. Rule 6 at the expression where it designates none (C17 6.3.2.1).
#[tactic(auto, unfolding(type_rules::specs::Operands::lvalue))]
pub fn lvalue(typing: &Typing, found: Found) -> Result<Boxed<Place>, Stop>
    ensures { Gives (spec.lvalue found typing.now) result typing.now }
{
    lvalue_in(typing, found.place, found.form)
}

/// The operand, converted. The one error is that no memory is left.
pub fn turned(
    alloc: Global,
    why: Cause,
    to: &CType,
    operand: Operand,
) -> Result<Operand, AllocError>
    ensures { IfOk result (λ o. o ≡ spec.turned why to.now operand) }
{
    let place = operand.place;
    let node = Boxed::new(alloc, Expr::Convert(why, copy(alloc, to)?, operand.node))?;
    let kind = boxed_copy(alloc, to)?;
    Ok(Operand { place, kind, node })
}

/// A `char` becomes an `int` in operations (C17 6.3.1.1). The one error is that no memory is left.
#[tactic(auto, unfolding(type_rules::specs::Operands::promoted))]
pub fn promoted(alloc: Global, operand: Operand) -> Result<Operand, AllocError>
    ensures { IfOk result (λ o. o ≡ spec.promoted operand) }
{
    if is_char(operand.kind.get()) {
        turned(alloc, Cause::Implicit, &CType::Int, operand)
    } else {
        Ok(operand)
    }
}

/// The sign that two numbers have in common in an operation (C17 6.3.1.8).
pub fn common_sign(a: &Operand, b: &Operand) -> Sign
    ensures { result ≡ spec.common_sign a.now b.now }
{
    common(sign_of(a.kind.get()), sign_of(b.kind.get()))
}

/// A number in an operation of this sign (C17 6.3.1.8). The one error is that no memory is left.
#[tactic(auto, unfolding(type_rules::specs::Operands::in_sign))]
pub fn in_sign(alloc: Global, sign: Sign, operand: Operand) -> Result<Operand, AllocError>
    ensures { IfOk result (λ o. o ≡ spec.in_sign sign operand) }
{
    let operand = promoted(alloc, operand)?;
    let to = number_type(sign);
    if equal(operand.kind.get(), &to) {
        Ok(operand)
    } else {
        turned(alloc, Cause::Implicit, &to, operand)
    }
}
