//! Strings, which are objects of static storage (C17 6.4.5; that a byte is a word is this project's own rule).

ghost use Rattle.std.specs.Prelude.{◌≡◌, ◌+◌, ◌++◌, IfOk, OnOk, length};
ghost use Rattle.type_operands.specs.Strings as strings;
ghost use Rattle.type_rules.specs.Literals as literals;
ghost use Rattle.type_rules.specs.Primaries as spec;
ghost use Rattle.typing_state.specs.Answers.{Gives};

use crate::shapes::array_of;
use crate::values::found_object;
use c_text::text_values;
use c_tree::Span;
use core_unit::{Place, Word};
use eff_types::CType;
use sqlite_items::{Boxed, Items};
use std::alloc::{AllocError, Global};
use type_rules::{Found, Initial};
use typing_state::{Stop, Typing};

/// The bytes of adjacent strings, which are joined, without the zero byte behind them. The one error is that no memory is left.
#[tactic(auto, unfolding(type_rules::specs::Literals::text_in))]
pub fn text_in(alloc: Global, typing: &Typing, strings: &[Span]) -> Result<Items<u8>, AllocError>
    ensures { IfOk result (λ bytes. bytes ≡ literals.text_in typing.now.source strings.now) }
{
    let mut bytes = Vec::new(alloc);
    'each: for string in strings {
        let values = text_values(alloc, typing.text(*string))?;
        bytes.extend_from_slice(values.as_slice())?;
    }
    Ok(Items::from_vec(bytes))
}

/// What a word holds at first for a byte of a string. The one error is that no memory is left.
fn hold_byte(typing: &mut Typing, at: u32, byte: u8) -> Result<(), AllocError>
    ensures { OnOk result (typing.new ≡ record typing.old { static_values = typing.old.static_values ++ strings.byte_initially at byte }) }
{
    if byte == 0 {
        return Ok(());
    }
    let word = Word::Number(byte as u32);
    typing.set_static_word(Initial { at, word })
}

/// What the words of a string hold at first, from an address on. The one error is that no memory is left; addresses that 32 bits don't
/// tell are answered so too.
fn hold_bytes(typing: &mut Typing, address: u32, bytes: &[u8]) -> Result<(), AllocError>
    ensures { OnOk result (typing.new ≡ record typing.old { static_values = typing.old.static_values ++ literals.text_initially address bytes.now }) }
{
    let mut at = address;
    'each: for byte in bytes {
        hold_byte(typing, at, *byte)?;
        at = next_address(at)?;
    }
    Ok(())
}

fn next_address(at: u32) -> Result<u32, AllocError>
    ensures { IfOk result (λ next. next ≡ at + 1) }
{
    match at.checked_add(1) {
        Some(next) => Ok(next),
        None => Err(AllocError),
    }
}

/// The words of a string of these bytes: one for each, and the zero behind them. So many that 32 bits don't count them are answered as
/// want of memory.
fn string_words(bytes: &[u8]) -> Result<u32, AllocError>
    ensures { IfOk result (λ words. words ≡ length bytes.now + 1) }
{
    if bytes.len() < u32::MAX as usize {
        Ok(bytes.len() as u32 + 1)
    } else {
        Err(AllocError)
    }
}

/// An object of static storage that holds a string: its address.
#[tactic(auto, unfolding(type_rules::specs::Primaries::string_object, type_rules::specs::Primaries::holds_initially, type_rules::specs::Reading::and_then))]
pub fn string_object(typing: &mut Typing, bytes: &[u8]) -> Result<u32, Stop>
    ensures { Gives (spec.string_object bytes.now typing.old) result typing.new }
{
    let words = string_words(bytes)?;
    let address = typing.allot_static(words, None)?;
    hold_bytes(typing, address, bytes)?;
    Ok(address)
}

#[tactic(auto, unfolding(type_rules::specs::Primaries::text_found, type_rules::specs::Reading::and_then))]
fn text_found(alloc: Global, typing: &mut Typing, place: u32, bytes: &[u8]) -> Result<Found, Stop>
    ensures { Gives (spec.text_found place bytes.now typing.old) result typing.new }
{
    let words = string_words(bytes)?;
    let address = string_object(typing, bytes)?;
    let kind = array_of(alloc, Boxed::new(alloc, CType::Char)?, words)?;
    Ok(found_object(alloc, place, kind, Place::Text(address, words))?)
}

fn first_place(strings: &[Span]) -> u32
    ensures { result ≡ spec.first_place strings.now }
{
    match strings.first() {
        Some(at) => at.start,
        None => 0,
    }
}

/// Adjacent strings (C17 6.4.5).
#[tactic(auto, unfolding(type_rules::specs::Primaries::text))]
pub fn text(alloc: Global, typing: &mut Typing, strings: &[Span]) -> Result<Found, Stop>
    ensures { Gives (spec.text strings.now typing.old) result typing.new }
{
    let bytes = text_in(alloc, typing, strings)?;
    text_found(alloc, typing, first_place(strings), bytes.as_slice())
}
