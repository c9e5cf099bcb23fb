//! Initializers in braces, by the type of the object, and all others.

ghost use Rattle.std.specs.Prelude.{◌≡◌, ◌+◌, ◌-◌, ◌++◌, ◌∷◌, IfOk, OnOk, [], map, nat_eq, slice_get, sum};
ghost use Rattle.core_unit.specs.Layout.{words_of};
ghost use Rattle.core_unit.specs.declared.body.Initializer.TheVariants as init;
ghost use Rattle.type_rules.specs.InitialValues.{initializer_words};
ghost use Rattle.type_rules.specs.Literals.{number_in};
ghost use Rattle.type_rules.specs.Reading.{Good};
ghost use Rattle.type_initializers.specs.Parts as parts;
ghost use Rattle.type_rules.specs.Initializers as spec;
ghost use Rattle.type_rules.specs.Access.{known_members};
ghost use Rattle.type_rules.specs.Recursion as rules;
ghost use Rattle.typing_state.specs.Answers.{Gives};

use crate::kinds::is_aggregate;
use crate::objects::by_expression;
use crate::scalars::{braced_node, is_zero, scalar};
use crate::words::all_words;
use c_text::number_of;
use c_tree::{Expr, Init, Span};
use core_unit::{Braces, Initializer};
use eff_types::CType;
use sqlite_items::{Boxed, Items, at};
use std::alloc::{AllocError, Global};
use type_operands::{boxed_copy, is_scalar, words_of};
use type_recursion::expression;
use type_rules::Operand;
use typing_state::{Stop, Typing};

fn is_zero_init(typing: &Typing, initializer: &Init) -> bool
    ensures { result ≡ parts.is_zero_init typing.now.source initializer.now }
{
    match initializer {
        Init::Value(e) => is_zero_literal(typing, e.get()),
        Init::List(_, _) => false,
    }
}

/// Whether they are one number of value 0 alone, so that the list zeroes any object.
#[tactic(auto, using(crate::proofs::ListForms::zero_rules))]
fn is_zero_list(typing: &Typing, inits: &[Init]) -> bool
    ensures { result ≡ parts.is_zero_list typing.now.source inits.now }
{
    match inits.split_first() {
        Some((first, rest)) => {
            if rest.is_empty() {
                is_zero_init(typing, first)
            } else {
                false
            }
        }
        None => false,
    }
}

/// A number of value 0, as it is spelled.
#[tactic(auto, unfolding(type_rules::specs::Literals::number_in))]
fn is_zero_number(typing: &Typing, at: Span) -> bool
    ensures { result ≡ nat_eq (number_in typing.now.source at).bits 0 }
{
    match number_of(typing.text(at)) {
        Some(number) => number.value == 0,
        None => true,
    }
}

fn is_zero_literal(typing: &Typing, e: &Expr) -> bool
    ensures { result ≡ spec.is_zero_literal typing.now.source e.now }
{
    match e {
        Expr::Number(at) => is_zero_number(typing, *at),
        _ => false,
    }
}

/// `{0}`, which zeroes an object of this type.
fn zeroes(alloc: Global, typing: &Typing, kind: &CType) -> Result<Boxed<Initializer>, AllocError>
    ensures { IfOk result (λ i. i ≡ init.Zeros (words_of typing.now.structures kind.now)) }
{
    let words = words_of(typing.structures(), kind);
    Boxed::new(alloc, Initializer::Zeros(words))
}

/// A scalar in braces, of one expression; where more stands behind it that is read, and then rule 9 answered.
#[tactic(auto, using(crate::proofs::Continued::braced_rules))]
fn braced_value(
    alloc: Global,
    typing: &mut Typing,
    fixed: bool,
    kind: &CType,
    e: &Expr,
) -> Result<Operand, Stop>
    ensures { Gives (spec.scalar fixed kind.now (rules.expression e.now) typing.old) result typing.new }
{
    let found = expression(alloc, typing, e)?;
    scalar(alloc, typing, fixed, kind, found)
}

/// A scalar in braces, of its first initializer.
#[tactic(auto, using(crate::proofs::Continued::braced_rules))]
fn braced_first(
    alloc: Global,
    typing: &mut Typing,
    fixed: bool,
    place: u32,
    kind: &CType,
    first: &Init,
    alone: bool,
) -> Result<Boxed<Initializer>, Stop>
    ensures { Gives (parts.braced_first fixed place kind.now first.now alone typing.old) result typing.new }
{
    match first {
        Init::Value(e) => {
            let value = braced_value(alloc, typing, fixed, kind, e.get())?;
            if alone {
                Ok(braced_node(alloc, value.node)?)
            } else {
                Err(Stop::Fault { number: 9, place })
            }
        }
        Init::List(_, _) => Err(Stop::Fault { number: 9, place }),
    }
}

/// A scalar in braces: one expression, which isn't braced again.
#[tactic(auto, using(crate::proofs::ListForms::braced_rules))]
fn braced(
    alloc: Global,
    typing: &mut Typing,
    fixed: bool,
    place: u32,
    kind: &CType,
    inits: &[Init],
) -> Result<Boxed<Initializer>, Stop>
    ensures { Gives (parts.braced_list fixed place kind.now inits.now typing.old) result typing.new }
{
    match inits.split_first() {
        Some((first, rest)) => {
            braced_first(alloc, typing, fixed, place, kind, first, rest.is_empty())
        }
        None => Err(Stop::Fault { number: 9, place }),
    }
}

/// A copy of the type of a member, by its place among those of the structure.
fn member_kind(
    alloc: Global,
    typing: &Typing,
    structure: u32,
    index: u32,
) -> Result<Option<Boxed<CType>>, AllocError>
    ensures { IfOk result (λ kind. kind ≡ spec.member_kind (known_members (slice_get typing.now.structures structure)) index) }
{
    match at(typing.structures(), structure as usize) {
        Some(info) => match &info.members {
            Some(members) => match at(members.as_slice(), index as usize) {
                Some(member) => Ok(Some(boxed_copy(alloc, &member.kind)?)),
                None => Ok(None),
            },
            None => Ok(None),
        },
        None => Ok(None),
    }
}

/// An object by its initializer (C17 6.7.9). `fixed`: it is static or thread-local, so its initializer is known before the program runs.
#[cycle(initializing)]
#[tactic(auto, using(crate::proofs::ListForms::init_rules))]
pub fn initialized(
    alloc: Global,
    typing: &mut Typing,
    fixed: bool,
    initializer: &Init,
    kind: &CType,
) -> Result<Boxed<Initializer>, Stop>
    ensures { Gives (spec.initialized fixed kind.now initializer.now typing.old) result typing.new }
{
    match initializer {
        Init::Value(e) => by_expression(alloc, typing, fixed, kind, e.get()),
        Init::List(place, list) => { by_list(alloc, typing, fixed, *place, list.as_slice(), kind) }
    }
}

#[cycle(initializing)]
#[tactic(auto, using(crate::proofs::ListForms::list_rules))]
fn by_list(
    alloc: Global,
    typing: &mut Typing,
    fixed: bool,
    place: u32,
    inits: &[Init],
    kind: &CType,
) -> Result<Boxed<Initializer>, Stop>
    ensures { Gives (parts.list_by fixed place kind.now inits.now typing.old) result typing.new }
{
    if inits.is_empty() {
        return Err(Stop::Fault { number: 9, place });
    }
    if is_zero_list(typing, inits) {
        return Ok(zeroes(alloc, typing, kind)?);
    }
    if is_scalar(kind) {
        return braced(alloc, typing, fixed, place, kind, inits);
    }
    if is_aggregate(kind) {
        return aggregate(alloc, typing, fixed, place, inits, kind);
    }
    Err(Stop::Fault { number: 9, place })
}

#[cycle(initializing)]
#[tactic(auto, using(crate::proofs::ListForms::list_rules))]
fn aggregate(
    alloc: Global,
    typing: &mut Typing,
    fixed: bool,
    place: u32,
    inits: &[Init],
    kind: &CType,
) -> Result<Boxed<Initializer>, Stop>
    ensures { Gives (parts.parts_by fixed place kind.now inits.now typing.old) result typing.new }
{
    let given = part_list(alloc, typing, fixed, place, inits, kind)?;
    Ok(finished(alloc, typing, kind, given)?)
}

/// The parts of an array or a structure, in order.
#[cycle(initializing)]
fn part_list(
    alloc: Global,
    typing: &mut Typing,
    fixed: bool,
    place: u32,
    inits: &[Init],
    kind: &CType,
) -> Result<Items<Initializer>, Stop>
    ensures { Gives (parts.part_list fixed place kind.now 0 [] inits.now typing.old) result typing.new }
{
    let mut given = Items::new(alloc);
    let mut index = 0u32;
    'each: for init in inits {
        let part = one_part(alloc, typing, fixed, place, index, init, kind)?;
        add_part(&mut given, part)?;
        index = next_index(index)?;
    }
    Ok(given)
}

fn add_part(given: &mut Items<Initializer>, part: Boxed<Initializer>) -> Result<(), AllocError>
    ensures { OnOk result (given.new ≡ given.old ++ part ∷ []) }
{
    given.push(part.into_inner())
}

fn next_index(index: u32) -> Result<u32, AllocError>
    ensures { IfOk result (λ next. next ≡ index + 1) }
{
    match index.checked_add(1) {
        Some(next) => Ok(next),
        None => Err(AllocError),
    }
}

/// A part of an array or a structure: rule 9 at the list where it has none of this number.
#[cycle(initializing)]
#[tactic(auto, using(crate::proofs::ListForms::part_rules))]
fn one_part(
    alloc: Global,
    typing: &mut Typing,
    fixed: bool,
    place: u32,
    index: u32,
    initializer: &Init,
    kind: &CType,
) -> Result<Boxed<Initializer>, Stop>
    ensures { Gives (parts.one_part fixed place kind.now index initializer.now typing.old) result typing.new }
{
    match kind {
        CType::Array(element, count) => {
            if index < *count {
                initialized(alloc, typing, fixed, initializer, element.get())
            } else {
                Err(Stop::Fault { number: 9, place })
            }
        }
        CType::Struct(number) => match member_kind(alloc, typing, *number, index)? {
            Some(member) => initialized(alloc, typing, fixed, initializer, member.get()),
            None => Err(Stop::Fault { number: 9, place }),
        },
        CType::Void => Err(Stop::Fault { number: 9, place }),
        CType::Char => Err(Stop::Fault { number: 9, place }),
        CType::Int => Err(Stop::Fault { number: 9, place }),
        CType::Unsigned => Err(Stop::Fault { number: 9, place }),
        CType::Mutex => Err(Stop::Fault { number: 9, place }),
        CType::Pointer(_) => Err(Stop::Fault { number: 9, place }),
        CType::Function(_) => Err(Stop::Fault { number: 9, place }),
    }
}

/// One number 0 that stands in no braces of its own.
fn is_bare_zero(initializer: &Initializer) -> bool
    ensures { result ≡ parts.is_bare_zero initializer.now }
{
    match initializer {
        Initializer::Value(Braces::Bare, value) => is_zero(value),
        _ => false,
    }
}

#[tactic(auto, using(crate::proofs::ListForms::alone_rules))]
fn is_zero_alone(given: &[Initializer]) -> bool
    ensures { result ≡ parts.is_zero_alone given.now }
{
    match given.split_first() {
        Some((first, rest)) => {
            if rest.is_empty() {
                is_bare_zero(first)
            } else {
                false
            }
        }
        None => false,
    }
}

/// How many zero words stand behind the parts that were read, where the object has so many.
fn zeros_behind(words: u32, given: &[Initializer]) -> u32
    ensures { result ≡ words - sum (map initializer_words given.now) }
{
    words.saturating_sub(all_words(given))
}

/// The parts that were read, and zero words for the others; of one number 0 alone `{0}`.
#[tactic(auto, unfolding(crate::specs::Parts::listed_as))]
fn listed(
    alloc: Global,
    words: u32,
    given: Items<Initializer>,
) -> Result<Boxed<Initializer>, AllocError>
    ensures { IfOk result (λ i. i ≡ parts.listed_as words given) }
{
    if is_zero_alone(given.as_slice()) {
        Boxed::new(alloc, Initializer::Zeros(words))
    } else {
        let zeros = zeros_behind(words, given.as_slice());
        Boxed::new(alloc, Initializer::List(given, zeros))
    }
}

/// An array or a structure, of the parts that were read.
#[tactic(auto, using(crate::proofs::ListForms::finished_rules))]
fn finished(
    alloc: Global,
    typing: &Typing,
    kind: &CType,
    given: Items<Initializer>,
) -> Result<Boxed<Initializer>, AllocError>
    ensures { IfOk result (λ i. spec.finished kind.now given typing.now ≡ Good i typing.now) }
{
    let words = words_of(typing.structures(), kind);
    let made = listed(alloc, words, given)?;
    Ok(made)
}
