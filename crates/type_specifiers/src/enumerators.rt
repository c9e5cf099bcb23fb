//! Enumerators (C17 6.7.2.2).

ghost use Rattle.std.specs.Prelude.{◌≡◌, Some, None};
ghost use Rattle.type_rules.specs.Reading.{gives};
ghost use Rattle.type_rules.specs.Specifiers as spec;
ghost use Rattle.type_specifiers.specs.Given.{given};
ghost use Rattle.typing_state.specs.Answers.{Gives};

use c_tree::Span;
use core_unit::Sign;
use std::alloc::Global;
use type_operands::number_constant;
use type_rules::{Entity, Found};
use typing_state::{Stop, Typing};

/// The value of the enumerator behind one of this value; None where it would be no `int`.
fn next_int(bits: u32) -> Option<u32>
    ensures { result ≡ spec.next_int bits }
{
    if bits == i32::MAX as u32 {
        None
    } else {
        Some(bits.wrapping_add(1))
    }
}

/// Whether a constant is no `int`.
fn is_outside_int(sign: Sign, bits: u32) -> bool
    ensures { result ≡ spec.is_outside_int sign bits }
{
    match sign {
        Sign::Unsigned => bits >= 0x8000_0000,
        Sign::Signed => false,
    }
}

/// The value that is written. Rule 3 at it, where it is no number, and rule 7, where it is no constant or no `int`.
#[tactic(auto, unfolding(type_rules::specs::Reading::and_then))]
fn written_value(alloc: Global, typing: &Typing, place: u32, written: Found) -> Result<u32, Stop>
    ensures { Gives (spec.enumerator_value place (Some (gives written)) None typing.now) result typing.now }
{
    let constant = number_constant(alloc, typing, written)?;
    if is_outside_int(constant.sign, constant.bits) {
        return Err(Stop::Fault {
            number: 7,
            place: constant.place,
        });
    }
    Ok(constant.bits)
}

/// The value of an enumerator: as written, or one more than that of the one before. Rule 7 at its name, where that is no `int`.
fn enumerator_value(
    alloc: Global,
    typing: &Typing,
    place: u32,
    written: Option<Found>,
    next: Option<u32>,
) -> Result<u32, Stop>
    ensures { Gives (spec.enumerator_value place (given written) next typing.now) result typing.now }
{
    match written {
        Some(written) => written_value(alloc, typing, place, written),
        None => match next {
            Some(bits) => Ok(bits),
            None => Err(Stop::Fault { number: 7, place }),
        },
    }
}

/// The number of an enumerator's name. Rule 2 at the name, where it is declared here already; that is asked before its value.
#[tactic(auto, unfolding(type_rules::specs::Reading::and_then))]
pub fn enumerator_named(typing: &mut Typing, name: Span) -> Result<u32, Stop>
    ensures { Gives (spec.enumerator_named name typing.old) result typing.new }
{
    let number = typing.name_number(name)?;
    match typing.meaning_here(number) {
        Some(_) => Err(Stop::Fault {
            number: 2,
            place: name.start,
        }),
        None => Ok(number),
    }
}

/// Declares an enumerator with the value that is written, or `next` where none is: the value of the one behind it.
#[tactic(auto, unfolding(type_rules::specs::Reading::and_then))]
pub fn enumerator_valued(
    alloc: Global,
    typing: &mut Typing,
    name: Span,
    number: u32,
    written: Option<Found>,
    next: Option<u32>,
) -> Result<Option<u32>, Stop>
    ensures { Gives (spec.enumerator_valued name number (given written) next typing.old) result typing.new }
{
    let bits = enumerator_value(alloc, typing, name.start, written, next)?;
    typing.declare(number, Entity::Enumerator(bits))?;
    Ok(next_int(bits))
}
