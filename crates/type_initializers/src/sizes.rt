//! What the form of an initializer tells before it is read: its place, and how many elements it gives an array without a size.

ghost use Rattle.std.specs.Prelude.{◌≡◌, ◌+◌, IfOk, length};
ghost use Rattle.type_initializers.specs.Parts as parts;
ghost use Rattle.type_rules.specs.Initializers as spec;
ghost use Rattle.typing_state.specs.Answers.{Gives};

use crate::texts::first_place;
use c_tree::{Expr, Init};
use eff_types::CType;
use std::alloc::{AllocError, Global};
use type_operands::{is_char, text_in};
use typing_state::{Stop, Typing};

/// The place of the first token of an expression.
fn expression_place(e: &Expr) -> u32
    ensures { result ≡ spec.expression_place e.now }
{
    match e {
        Expr::Name(at) => at.start,
        Expr::Number(at) => at.start,
        Expr::Character(at) => at.start,
        Expr::Text(strings) => first_place(strings.as_slice()),
        Expr::Parenthesised(place, _) => *place,
        Expr::Index(place, _, _) => *place,
        Expr::Call(place, _, _) => *place,
        Expr::Access(place, _, _, _) => *place,
        Expr::Step(place, _, _) => *place,
        Expr::Unary(place, _, _) => *place,
        Expr::SizeofType(place, _) => *place,
        Expr::Cast(place, _, _) => *place,
        Expr::Binary(place, _, _, _, _) => *place,
        Expr::Conditional(place, _, _, _) => *place,
        Expr::Assignment(place, _, _, _, _) => *place,
    }
}

/// The place of the first token of an initializer.
pub fn init_place(initializer: &Init) -> u32
    ensures { result ≡ spec.init_place initializer.now }
{
    match initializer {
        Init::Value(e) => expression_place(e.get()),
        Init::List(place, _) => *place,
    }
}

/// A length. One that 32 bits don't tell is answered as want of memory.
fn counted(length: usize) -> Result<u32, AllocError>
    ensures { IfOk result (λ n. n ≡ length) }
{
    if length > u32::MAX as usize {
        return Err(AllocError);
    }
    Ok(length as u32)
}

/// A length and one more.
fn one_more(length: usize) -> Result<u32, AllocError>
    ensures { IfOk result (λ n. n ≡ length + 1) }
{
    match counted(length)?.checked_add(1) {
        Some(count) => Ok(count),
        None => Err(AllocError),
    }
}

/// The elements that an expression gives an array of this element: of a string for an array of `char` its bytes and the zero byte.
#[tactic(auto, using(crate::proofs::ObjectForms::text_rules))]
fn text_size(alloc: Global, typing: &Typing, element: &CType, e: &Expr) -> Result<u32, AllocError>
    ensures { IfOk result (λ n. n ≡ spec.text_size element.now typing.now.source e.now) }
{
    if !is_char(element) {
        return Ok(1);
    }
    match e {
        Expr::Text(strings) => {
            let bytes = text_in(alloc, typing, strings.as_slice())?;
            one_more(bytes.len())
        }
        _ => Ok(1),
    }
}

/// How many elements an initializer gives an array of this element that has no size (C17 6.7.9): those of its list, or the bytes of its string
/// and the zero byte.
#[tactic(auto, using(crate::proofs::ObjectForms::size_rules))]
pub fn initial_size(
    alloc: Global,
    typing: &Typing,
    element: &CType,
    initializer: &Init,
) -> Result<u32, Stop>
    ensures { Gives (spec.initial_size element.now initializer.now typing.now) result typing.now }
{
    match initializer {
        Init::Value(e) => Ok(text_size(alloc, typing, element, e.get())?),
        Init::List(_, list) => Ok(counted(list.len())?),
    }
}
