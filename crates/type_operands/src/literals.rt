//! Numbers and characters (C17 6.4.4 and 6.5.1).

ghost use Rattle.std.specs.Prelude.{◌≡◌, IfOk};
ghost use Rattle.core_unit.specs.Shapes.{number_type};
ghost use Rattle.type_rules.specs.Literals as literals;
ghost use Rattle.type_rules.specs.Operands.{found_value};
ghost use Rattle.type_rules.specs.Primaries as spec;
ghost use Rattle.typing_state.specs.Answers.{Gives};
ghost use Rattle.core_unit.specs.declared.expressions.Expr.TheVariants as expr;

use crate::kinds::number_type;
use crate::values::found_value;
use c_text::{Number, character_value, number_of};
use c_tree::Span;
use core_unit::{Expr, Sign};
use sqlite_items::Boxed;
use std::alloc::{AllocError, Global};
use type_rules::Found;
use typing_state::{Stop, Typing};

fn number_found(alloc: Global, place: u32, sign: Sign, bits: u32) -> Result<Found, AllocError>
    ensures { IfOk result (λ f. f ≡ found_value place (number_type sign) (expr.Number sign bits)) }
{
    let kind = Boxed::new(alloc, number_type(sign))?;
    found_value(alloc, place, kind, Expr::Number(sign, bits))
}

fn sign_told(is_unsigned: bool) -> Sign
    ensures { result ≡ literals.sign_told is_unsigned }
{
    if is_unsigned {
        Sign::Unsigned
    } else {
        Sign::Signed
    }
}

/// A number as it is spelled; each that the parser reads is one.
fn literal_found(alloc: Global, place: u32, spelled: Option<Number>) -> Result<Found, AllocError>
    ensures { IfOk result (λ f. f ≡ spec.literal_found place (literals.literal spelled)) }
{
    match spelled {
        Some(number) => {
            let sign = sign_told(number.is_unsigned);
            number_found(alloc, place, sign, number.value)
        }
        None => number_found(alloc, place, Sign::Signed, 0),
    }
}

/// An integer constant (C17 6.4.4.1).
#[tactic(auto, unfolding(type_rules::specs::Primaries::number, type_rules::specs::Literals::number_in))]
pub fn number(alloc: Global, typing: &Typing, at: Span) -> Result<Found, Stop>
    ensures { Gives (spec.number at typing.now) result typing.now }
{
    let spelled = number_of(typing.text(at));
    Ok(literal_found(alloc, at.start, spelled)?)
}

/// A character constant, which is an `int` (C17 6.4.4.4).
#[tactic(auto, unfolding(type_rules::specs::Primaries::character, type_rules::specs::Literals::character_in))]
pub fn character(alloc: Global, typing: &Typing, at: Span) -> Result<Found, Stop>
    ensures { Gives (spec.character at typing.now) result typing.now }
{
    let value = character_value(typing.text(at));
    Ok(number_found(alloc, at.start, Sign::Signed, value as u32)?)
}
