//! Declarators as they are read, from the declared name outwards (C17 6.7.6).

ghost use Rattle.std.specs.Prelude.{◌≡◌, Some, IfOk};
ghost use Rattle.core_unit.specs.declared.operators.Sign.TheVariants as sign;
ghost use Rattle.type_rules.specs.Declarators as spec;
ghost use Rattle.type_rules.specs.Reading.{gives};
ghost use Rattle.type_rules.specs.declared.declarators.Part.TheVariants as part;
ghost use Rattle.type_specifiers.specs.Given.{given};
ghost use Rattle.typing_state.specs.Answers.{Gives};

use crate::parts::either;
use c_tree::{Attr, Span};
use core_unit::Sign;
use sqlite_items::Items;
use std::alloc::{AllocError, Global};
use type_operands::number_constant;
use type_rules::{Found, Parameter, Part, Shape};
use type_specifiers::copy_attributes;
use typing_state::{Stop, Typing};

/// A name alone, or none.
pub fn bare(alloc: Global, name: Option<Span>) -> Shape
    ensures { result ≡ spec.bare name }
{
    Shape {
        name,
        parts: Items::new(alloc),
    }
}

fn with_part(part: Part, declarator: Shape) -> Result<Shape, AllocError>
    ensures { IfOk result (λ d. d ≡ spec.with_part part declarator) }
{
    let mut declarator = declarator;
    declarator.parts.push(part)?;
    Ok(declarator)
}

/// A pointer, once what it is of was read. The one error is that no memory is left.
pub fn pointer_part(declarator: Shape) -> Result<Shape, AllocError>
    ensures { IfOk result (λ d. d ≡ spec.with_part part.PointerTo declarator) }
{
    with_part(Part::PointerTo, declarator)
}

/// An array of so many elements, 0 where no size is written. The one error is that no memory is left.
pub fn array_part(declarator: Shape, size: u32) -> Result<Shape, AllocError>
    ensures { IfOk result (λ d. d ≡ spec.with_part (part.ArrayOf size) declarator) }
{
    with_part(Part::ArrayOf(size), declarator)
}

/// A function with these parameters, and attributes behind them. The one error is that no memory is left.
pub fn function_part(
    alloc: Global,
    declarator: Shape,
    parameters: Items<Parameter>,
    attributes: &[Attr],
) -> Result<Shape, AllocError>
    ensures { IfOk result (λ d. d ≡ spec.with_part (part.FunctionOf parameters attributes.now) declarator) }
{
    let attributes = copy_attributes(alloc, attributes)?;
    with_part(Part::FunctionOf(parameters, attributes), declarator)
}

/// Whether a constant is no size of an array: it isn't at least 1 (C17 6.7.6.2).
fn is_no_size(sign: Sign, bits: u32) -> bool
    ensures { result ≡ spec.is_no_size sign bits }
{
    match sign {
        Sign::Unsigned => bits == 0,
        Sign::Signed => is_no_positive_int(bits),
    }
}

fn is_no_positive_int(bits: u32) -> bool
    ensures { result ≡ spec.is_no_size sign.Signed bits }
{
    either(bits == 0, bits >= 0x8000_0000)
}

/// The size that is written. Rule 3 at it, where it is no number, and rule 7, where it is no constant of at least 1.
#[tactic(auto, unfolding(type_rules::specs::Reading::and_then))]
fn written_size(alloc: Global, typing: &Typing, written: Found) -> Result<u32, Stop>
    ensures { Gives (spec.array_size (Some (gives written)) typing.now) result typing.now }
{
    let constant = number_constant(alloc, typing, written)?;
    if is_no_size(constant.sign, constant.bits) {
        return Err(Stop::Fault {
            number: 7,
            place: constant.place,
        });
    }
    Ok(constant.bits)
}

/// The size of an array, 0 where none is written. Rule 3 at what is written, where it is no number, and rule 7, where it is no
/// constant of at least 1 (C17 6.7.6.2).
pub fn array_size(alloc: Global, typing: &Typing, written: Option<Found>) -> Result<u32, Stop>
    ensures { Gives (spec.array_size (given written) typing.now) result typing.now }
{
    match written {
        Some(written) => written_size(alloc, typing, written),
        None => Ok(0),
    }
}

/// Where a fault of a declarator is named, as a byte offset: at its name, or at `place` without one.
pub fn anchor(declarator: &Shape, place: u32) -> u32
    ensures { result ≡ spec.anchor declarator.now place }
{
    match declarator.name {
        Some(name) => name.start,
        None => place,
    }
}
