//! Conversions of operands, each a node of the typed tree (C17 6.3.2.3, 6.5.4 and 6.5.16.1).

ghost use Rattle.std.specs.Prelude.{◌≡◌, ◌&&◌, OnOk, IfOk, true, false};
ghost use Rattle.eff_types.specs.Conversion.{conversion};
ghost use Rattle.eff_types.specs.Types.{is_pointer, is_void};
ghost use Rattle.type_rules.specs.Constants as constants;
ghost use Rattle.type_rules.specs.Conversions as spec;
ghost use Rattle.type_rules.specs.Reading.{Good, gives, warned};
ghost use Rattle.type_rules.specs.declared.notes.TypeWarning.TheVariants as warning;
ghost use Rattle.typing_state.specs.Answers.{Gives};

use crate::constants::is_null_constant;
use crate::copies::boxed_copy;
use crate::kinds::is_void_pointer;
use crate::operands::{operand, turned};
use crate::values::found_value;
use core_unit::{Cause, Expr};
use eff_types::{CType, Conversion, Level, Mismatch, convert};
use sqlite_items::Boxed;
use std::alloc::{AllocError, Global};
use type_rules::{Form, Found, Operand, TypeWarning};
use typing_state::{Stop, Typing};

/// Why an operand takes a pointer type, where it is a null pointer constant: a number becomes a pointer, and `void *` a pointer to a
/// function, as null alone.
pub fn null_cause(why: Cause, from: &CType, to: &CType) -> Cause
    ensures { result ≡ spec.null_cause why from.now to.now }
{
    if from.is_number() || (is_void_pointer(from) && to.is_function_pointer()) {
        Cause::Null
    } else {
        why
    }
}

/// Warns of a level that a conversion adds, if it adds one (Clang's manual 'Function Effect Analysis').
fn warn_of_level(typing: &mut Typing, level: Option<Level>, place: u32) -> Result<(), AllocError>
    ensures { OnOk result (warned level (λ l. warning.Conversion place l) typing.old ≡ Good tt typing.new) }
{
    match level {
        Some(level) => typing.warn(TypeWarning::Conversion { place, level }),
        None => Ok(()),
    }
}

/// What an allowed conversion makes of an operand; one that adds a level is warned of. A cast is a node also where the types are
/// equal.
#[tactic(auto, unfolding(type_rules::specs::Reading::and_then))]
fn converted_as(
    alloc: Global,
    typing: &mut Typing,
    why: Cause,
    to: &CType,
    operand: Operand,
    how: Conversion,
) -> Result<Operand, Stop>
    ensures { Gives (spec.converted_as why to.now operand how typing.old) result typing.new }
{
    match how {
        Conversion::Same => match why {
            Cause::Cast => Ok(turned(alloc, why, to, operand)?),
            Cause::Implicit => Ok(operand),
            Cause::Null => Ok(operand),
        },
        Conversion::Number => Ok(turned(alloc, why, to, operand)?),
        Conversion::Pointer => Ok(turned(alloc, why, to, operand)?),
        Conversion::Null => {
            let cause = null_cause(why, operand.kind.get(), to);
            Ok(turned(alloc, cause, to, operand)?)
        }
        Conversion::Effects(level) => {
            warn_of_level(typing, level, operand.place)?;
            Ok(turned(alloc, why, to, operand)?)
        }
    }
}

/// What a conversion makes of an operand. A mismatch is rule 3 at `at`; what is left out is rule 11 at the operand.
fn converted_by(
    alloc: Global,
    typing: &mut Typing,
    why: Cause,
    at: u32,
    to: &CType,
    operand: Operand,
    how: Result<Conversion, Mismatch>,
) -> Result<Operand, Stop>
    ensures { Gives (spec.converted_by why at to.now operand how typing.old) result typing.new }
{
    match how {
        Ok(how) => converted_as(alloc, typing, why, to, operand, how),
        Err(Mismatch::Mismatch) => Err(Stop::Fault {
            number: 3,
            place: at,
        }),
        Err(Mismatch::LeftOut) => Err(Stop::Fault {
            number: 11,
            place: operand.place,
        }),
    }
}

/// Whether an operand becomes a pointer and is a null pointer constant. That is asked of pointers alone, since it reads the operand.
fn becomes_null(to: &CType, operand: &Operand) -> bool
    ensures { result ≡ (is_pointer to.now && constants.is_null_constant operand.now) }
{
    if to.is_pointer() {
        is_null_constant(operand)
    } else {
        false
    }
}

/// How an operand takes a type. `explicit`: a cast is written.
#[tactic(auto, using(crate::proofs::Casts::null_asked))]
fn conversion_of(to: &CType, operand: &Operand, explicit: bool) -> Result<Conversion, Mismatch>
    ensures { result ≡ conversion operand.now.kind to.now (constants.is_null_constant operand.now) explicit }
{
    let null = becomes_null(to, operand);
    convert(operand.kind.get(), to, null, explicit)
}

/// An operand in the type that an assignment, an initializer, an argument or a result asks for. A mismatch is rule 3, and what is left
/// out rule 11, at the operand.
#[tactic(auto, unfolding(type_rules::specs::Conversions::converted))]
pub fn converted(
    alloc: Global,
    typing: &mut Typing,
    to: &CType,
    operand: Operand,
) -> Result<Operand, Stop>
    ensures { Gives (spec.converted to.now operand typing.old) result typing.new }
{
    let how = conversion_of(to, &operand, false);
    let place = operand.place;
    converted_by(alloc, typing, Cause::Implicit, place, to, operand, how)
}

/// A cast to `void`. The one error is that no memory is left.
#[tactic(auto, using(crate::proofs::Casts::cast_void))]
fn discarded(
    alloc: Global,
    typing: &Typing,
    place: u32,
    to: &CType,
    operand: Operand,
) -> Result<Found, AllocError>
    requires { is_void to.now ≡ true }
    ensures { IfOk result (λ f. spec.cast_to place to.now operand typing.now ≡ Good f typing.now) }
{
    let void = Boxed::new(alloc, CType::Void)?;
    found_value(alloc, place, void, Expr::Discard(operand.node))
}

/// A cast to another type.
#[tactic(auto, unfolding(type_rules::specs::Reading::and_then), using(crate::proofs::Casts::cast_other))]
fn cast_value(
    alloc: Global,
    typing: &mut Typing,
    place: u32,
    to: &CType,
    operand: Operand,
) -> Result<Found, Stop>
    requires { is_void to.now ≡ false }
    ensures { Gives (spec.cast_to place to.now operand typing.old) result typing.new }
{
    let how = conversion_of(to, &operand, true);
    let cast = converted_by(alloc, typing, Cause::Cast, place, to, operand, how)?;
    let kind = boxed_copy(alloc, to)?;
    let form = Form::Value(cast.node);
    Ok(Found { place, kind, form })
}

/// A cast (C17 6.5.4) whose first token stands at `place`: to `void`, or by a conversion. A mismatch is rule 3 at the cast, what is left
/// out rule 11 at the operand.
pub fn cast_to(
    alloc: Global,
    typing: &mut Typing,
    place: u32,
    to: &CType,
    operand: Operand,
) -> Result<Found, Stop>
    ensures { Gives (spec.cast_to place to.now operand typing.old) result typing.new }
{
    if to.is_void() {
        Ok(discarded(alloc, typing, place, to, operand)?)
    } else {
        cast_value(alloc, typing, place, to, operand)
    }
}

/// A cast, once its type name and its expression are read.
#[tactic(auto, unfolding(type_rules::specs::Conversions::cast, type_rules::specs::Reading::and_then))]
pub fn cast(
    alloc: Global,
    typing: &mut Typing,
    place: u32,
    to: &CType,
    found: Found,
) -> Result<Found, Stop>
    ensures { Gives (spec.cast place (gives to.now) (gives found) typing.old) result typing.new }
{
    let value = operand(alloc, typing, found)?;
    cast_to(alloc, typing, place, to, value)
}
