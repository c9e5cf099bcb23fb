//! Arrays of `char` by strings, mutexes by their constant, and what else a single expression may not initialize.

ghost use Rattle.std.specs.Prelude.{◌≡◌, false};
ghost use Rattle.std.specs.Option.{option_copied};
ghost use Rattle.type_initializers.specs.Parts as parts;
ghost use Rattle.type_rules.specs.Initializers as spec;
ghost use Rattle.type_rules.specs.Primaries as primaries;
ghost use Rattle.type_rules.specs.Reading.{gives};
ghost use Rattle.type_rules.specs.Recursion as rules;
ghost use Rattle.typing_state.specs.Answers.{Gives};

use crate::fixed::is_unfixed;
use c_tree::{Expr, Span};
use core_unit::Initializer;
use sqlite_items::{Boxed, Items};
use std::alloc::Global;
use type_operands::{name, string_object, text_in};
use type_recursion::expression;
use type_rules::{Entity, Found};
use typing_state::{Stop, Typing};

/// The place of the first of adjacent strings.
pub(crate) fn first_place(strings: &[Span]) -> u32
    ensures { result ≡ primaries.first_place strings.now }
{
    match strings.first() {
        Some(at) => at.start,
        None => 0,
    }
}

/// A string of these bytes for an array of so many: rule 9 where they are more. The zero byte behind them may be left out.
#[tactic(auto, unfolding(type_rules::specs::Initializers::text_fits, type_rules::specs::Reading::and_then))]
fn text_fits(
    alloc: Global,
    typing: &mut Typing,
    place: u32,
    size: u32,
    bytes: Items<u8>,
) -> Result<Boxed<Initializer>, Stop>
    ensures { Gives (spec.text_fits place size bytes typing.old) result typing.new }
{
    string_object(typing, bytes.as_slice())?;
    if (size as usize) < bytes.len() {
        return Err(Stop::Fault { number: 9, place });
    }
    let zeros = size - bytes.len() as u32;
    Ok(Boxed::new(alloc, Initializer::Text(bytes, zeros))?)
}

fn by_text(
    alloc: Global,
    typing: &mut Typing,
    size: u32,
    strings: &[Span],
) -> Result<Boxed<Initializer>, Stop>
    ensures { Gives (spec.by_text size strings.now typing.old) result typing.new }
{
    let bytes = text_in(alloc, typing, strings)?;
    text_fits(alloc, typing, first_place(strings), size, bytes)
}

/// The refusal of a single expression for an array, a structure or a mutex, once it was read: rule 7 where it isn't known but has to be, else
/// rule 9.
#[tactic(auto, unfolding(type_rules::specs::Reading::and_then))]
fn by_other(typing: &Typing, fixed: bool, found: Found) -> Result<Boxed<Initializer>, Stop>
    ensures { Gives (spec.by_other fixed (gives found) typing.now) result typing.now }
{
    let place = found.place;
    if is_unfixed(fixed, &found) {
        Err(Stop::Fault { number: 7, place })
    } else {
        Err(Stop::Fault { number: 9, place })
    }
}

/// A single expression for an array, a structure or a mutex: it is read, and refused.
#[tactic(auto, using(crate::proofs::Continued::other_rules))]
pub(crate) fn by_other_expression(
    alloc: Global,
    typing: &mut Typing,
    fixed: bool,
    e: &Expr,
) -> Result<Boxed<Initializer>, Stop>
    ensures { Gives (spec.by_other fixed (rules.expression e.now) typing.old) result typing.new }
{
    let found = expression(alloc, typing, e)?;
    by_other(typing, fixed, found)
}

#[tactic(auto, using(crate::proofs::Continued::other_rules))]
fn by_other_name(
    alloc: Global,
    typing: &mut Typing,
    fixed: bool,
    at: Span,
) -> Result<Boxed<Initializer>, Stop>
    ensures { Gives (spec.by_other fixed (primaries.name false at) typing.old) result typing.new }
{
    let found = name(alloc, typing, false, at)?;
    by_other(typing, fixed, found)
}

fn is_mutex_constant(entity: Option<&Entity>) -> bool
    ensures { result ≡ parts.is_mutex_constant (option_copied entity.entry) }
{
    match entity {
        Some(entity) => matches!(entity, Entity::MutexInitializer),
        None => false,
    }
}

/// A mutex by a name: `PTHREAD_MUTEX_INITIALIZER` alone.
#[tactic(auto, using(crate::proofs::Continued::name_rules))]
pub(crate) fn by_name(
    alloc: Global,
    typing: &mut Typing,
    fixed: bool,
    at: Span,
) -> Result<Boxed<Initializer>, Stop>
    ensures { Gives (spec.by_name fixed at typing.old) result typing.new }
{
    let number = typing.name_number(at)?;
    if is_mutex_constant(typing.meaning(number)) {
        Ok(Boxed::new(alloc, Initializer::Mutex)?)
    } else {
        by_other_name(alloc, typing, fixed, at)
    }
}

/// A string, for an array of `char` of this size or for another object.
pub(crate) fn text_by(
    alloc: Global,
    typing: &mut Typing,
    fixed: bool,
    size: Option<u32>,
    e: &Expr,
    strings: &[Span],
) -> Result<Boxed<Initializer>, Stop>
    ensures { Gives (parts.text_by fixed size e.now strings.now typing.old) result typing.new }
{
    match size {
        Some(size) => by_text(alloc, typing, size, strings),
        None => by_other_expression(alloc, typing, fixed, e),
    }
}

/// A name, for a mutex or for another object.
pub(crate) fn name_by(
    alloc: Global,
    typing: &mut Typing,
    fixed: bool,
    mutex: bool,
    e: &Expr,
    at: Span,
) -> Result<Boxed<Initializer>, Stop>
    ensures { Gives (parts.name_by fixed mutex e.now at typing.old) result typing.new }
{
    if mutex {
        by_name(alloc, typing, fixed, at)
    } else {
        by_other_expression(alloc, typing, fixed, e)
    }
}
