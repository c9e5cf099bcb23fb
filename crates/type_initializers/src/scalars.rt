//! Scalars, by a value that converts to their type.

ghost use Rattle.std.specs.Prelude.{◌≡◌, ◌&&◌, IfOk};
ghost use Rattle.core_unit.specs.Typed as typed;
ghost use Rattle.eff_types.specs.Types.{is_pointer};
ghost use Rattle.type_rules.specs.Constants.{is_null_constant as null_constant};
ghost use Rattle.type_rules.specs.Initializers as spec;
ghost use Rattle.type_rules.specs.Reading.{gives};
ghost use Rattle.typing_state.specs.Answers.{Gives};

use crate::fixed::{is_fixed, is_missing};
use core_unit::{Braces, Expr, Initializer};
use eff_types::{CType, Conversion, Mismatch, convert};
use sqlite_items::Boxed;
use std::alloc::{AllocError, Global};
use type_operands::{as_value, converted, is_null_constant, is_whole};
use type_rules::{Found, Operand};
use typing_state::{Stop, Typing};

fn is_mismatch(how: Result<Conversion, Mismatch>) -> bool
    ensures { result ≡ spec.is_mismatch how }
{
    match how {
        Ok(_) => false,
        Err(Mismatch::Mismatch) => true,
        Err(Mismatch::LeftOut) => false,
    }
}

/// Whether the operand is a null pointer constant, which is asked of pointers alone.
fn is_null_pointer(kind: &CType, operand: &Operand) -> bool
    ensures { result ≡ (is_pointer kind.now && null_constant operand.now) }
{
    kind.is_pointer() && is_null_constant(operand)
}

/// Whether no conversion leads from the operand to the type.
#[tactic(auto, using(crate::proofs::Continued::mismatch_asked))]
fn mismatches(kind: &CType, operand: &Operand) -> bool
    ensures { result ≡ spec.mismatches kind.now operand.now }
{
    let null = is_null_pointer(kind, operand);
    is_mismatch(convert(operand.kind.get(), kind, null, false))
}

/// A scalar, of what was found: rule 3 where it doesn't convert, rule 7 where it isn't known but has to be.
#[tactic(auto, unfolding(type_rules::specs::Initializers::scalar, type_rules::specs::Reading::and_then))]
pub(crate) fn scalar(
    alloc: Global,
    typing: &mut Typing,
    fixed: bool,
    kind: &CType,
    found: Found,
) -> Result<Operand, Stop>
    ensures { Gives (spec.scalar fixed kind.now (gives found) typing.old) result typing.new }
{
    let place = found.place;
    if is_whole(found.kind.get()) {
        return Err(Stop::Fault { number: 3, place });
    }
    let known = is_fixed(&found.form);
    let value = as_value(alloc, found)?;
    if mismatches(kind, &value) {
        return Err(Stop::Fault { number: 3, place });
    }
    if is_missing(fixed, known) {
        return Err(Stop::Fault { number: 7, place });
    }
    converted(alloc, typing, kind, value)
}

/// The initializer of a scalar, of what was found.
#[tactic(auto, using(crate::proofs::Continued::scalar_rules))]
pub(crate) fn scalar_by(
    alloc: Global,
    typing: &mut Typing,
    fixed: bool,
    kind: &CType,
    found: Found,
) -> Result<Boxed<Initializer>, Stop>
    ensures { Gives (spec.scalar_by fixed kind.now (gives found) typing.old) result typing.new }
{
    let value = scalar(alloc, typing, fixed, kind, found)?;
    Ok(Boxed::new(
        alloc,
        Initializer::Value(Braces::Bare, value.node.into_inner()),
    )?)
}

/// A braced value; the typed tree says `{0}` of each number 0.
pub(crate) fn braced_node(
    alloc: Global,
    node: Boxed<Expr>,
) -> Result<Boxed<Initializer>, AllocError>
    ensures { IfOk result (λ i. i ≡ spec.braced_node node) }
{
    if is_zero(node.get()) {
        Boxed::new(alloc, Initializer::Zeros(1))
    } else {
        Boxed::new(alloc, Initializer::Value(Braces::Braced, node.into_inner()))
    }
}

/// Whether it is the number 0.
pub(crate) fn is_zero(value: &Expr) -> bool
    ensures { result ≡ typed.is_zero value.now }
{
    match value {
        Expr::Number(_, bits) => *bits == 0,
        _ => false,
    }
}
