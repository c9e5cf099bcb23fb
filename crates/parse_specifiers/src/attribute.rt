//! Attributes (Clang's manual 'Function Effect Analysis').

ghost use Rattle.std.specs.Prelude.{◌≡◌, ◌&&◌, IfOk, codes};
ghost use Rattle.std.specs.List.{list_any};
ghost use Rattle.std.specs.Str.{bytes_eq};
ghost use Rattle.c_grammar.specs.Lexemes.{is};
ghost use Rattle.c_grammar.specs.Rules.{Effect as EffectRule, ClangWords, GnuWords, Attributes as AttributesRule};
ghost use Rattle.c_grammar.specs.Specifiers.{has_argument, is_plain_effect, is_truth, is_word, effect_with, plain_effect};
ghost use Rattle.parse_input.specs.Input.{sees};
ghost use Rattle.parse_input.specs.Reads.{named, reads, Says};
ghost use Rattle.parse_specifiers.specs.Parts.{clang_word, gnu_attribute, bracket_attribute};

use crate::trailing::Attributes;
use c_grammar::Terminal;
use c_tree::{Attr, AttrSpelling, AttrWord, Effect};
use parse_input::{Input, Read, Refusal, Seen, flat, has_text, is_one_of};
use sqlite_items::Items;
use std::alloc::Global;

const ARGUMENT_EFFECTS: [&[u8]; 2] = [b"nonblocking", b"nonallocating"];

const BRACKET_EFFECTS: [&[u8]; 2] = [b"blocking", b"allocating"];

const GNU_EFFECTS: [&[u8]; 3] = [b"blocking", b"allocating", b"noreturn"];

const TRUTHS: [&[u8]; 2] = [b"true", b"false"];

/// Whether an effect that may have an argument stands here.
#[tactic(auto, using(parse_input::proofs::Steps::sees_none, parse_input::proofs::Steps::sees_head))]
fn has_argument(input: &Input<'_>) -> bool
    ensures { result ≡ sees has_argument input.now.tokens }
{
    if input.is_done() {
        return false;
    }
    is_one_of(&input.peek(), &ARGUMENT_EFFECTS)
}

/// Whether another effect stands here.
#[tactic(auto, using(parse_input::proofs::Steps::sees_none, parse_input::proofs::Steps::sees_head))]
fn is_plain_effect(spelling: AttrSpelling, input: &Input<'_>) -> bool
    ensures { result ≡ sees (is_plain_effect spelling) input.now.tokens }
{
    if input.is_done() {
        return false;
    }
    let seen = input.peek();
    if is_one_of(&seen, &ARGUMENT_EFFECTS) {
        return false;
    }
    match spelling {
        AttrSpelling::Brackets => is_one_of(&seen, &BRACKET_EFFECTS),
        AttrSpelling::Gnu => is_one_of(&seen, &GNU_EFFECTS),
    }
}

/// Whether an argument stands here.
#[tactic(auto, using(parse_input::proofs::Steps::sees_none, parse_input::proofs::Steps::sees_head))]
fn is_truth(input: &Input<'_>) -> bool
    ensures { result ≡ sees is_truth input.now.tokens }
{
    if input.is_done() {
        return false;
    }
    is_one_of(&input.peek(), &TRUTHS)
}

/// The effect of a word, with its argument where it has one.
fn effect_with(word: &Seen<'_>, argument: Option<bool>) -> AttrWord
    ensures { result ≡ effect_with word.now argument }
{
    AttrWord {
        place: word.place(),
        effect: if has_text(word, &[b"nonblocking"]) {
            Effect::NonBlocking(argument)
        } else {
            Effect::NonAllocating(argument)
        },
    }
}

/// The effect of a word that has no argument.
fn plain_effect(word: &Seen<'_>) -> AttrWord
    ensures { result ≡ plain_effect word.now }
{
    AttrWord {
        place: word.place(),
        effect: if has_text(word, &[b"blocking"]) {
            Effect::Blocking
        } else if has_text(word, &[b"allocating"]) {
            Effect::Allocating
        } else {
            Effect::NoReturn
        },
    }
}

/// An effect.
#[tactic(auto, using(crate::proofs::Attributed::effect))]
fn effect(
    room: u32,
    spelling: AttrSpelling,
    input: &mut Input<'_>,
) -> Result<Read<AttrWord>, Refusal>
    ensures reads { Says (named room (EffectRule spelling) input.old.tokens) result input.new.tokens }
    ensures kept { IfOk result (λ read. input.new.scope ≡ input.old.scope) }
    ensures flat { IfOk result (λ read. read.depth ≡ 0) }
{
    if !has_argument(input) {
        if !is_plain_effect(spelling, input) {
            return Err(Refusal::Refused(false));
        }
        let word = input.take();
        return Ok(flat(plain_effect(&word)));
    }
    let word = input.take();
    if !input.is(Terminal::OpenParen) {
        return Ok(flat(effect_with(&word, None)));
    }
    let _opened = input.take();
    if !is_truth(input) {
        return Err(Refusal::Refused(false));
    }
    let truth = input.take();
    if !input.is(Terminal::CloseParen) {
        return Err(Refusal::Refused(false));
    }
    let _closed = input.take();
    Ok(flat(effect_with(&word, Some(has_text(&truth, &[b"true"])))))
}

/// Whether a word of an attribute in brackets begins here.
#[tactic(auto, using(parse_input::proofs::Steps::sees_none, parse_input::proofs::Steps::sees_head))]
fn begins_clang(input: &Input<'_>) -> bool
    ensures { result ≡ sees (is_word (codes "clang")) input.now.tokens }
{
    if input.is_done() {
        return false;
    }
    is_one_of(&input.peek(), &[b"clang"])
}

/// One word of an attribute in brackets.
fn clang_word(room: u32, input: &mut Input<'_>) -> Result<Read<AttrWord>, Refusal>
    ensures reads { Says (reads (named room) clang_word input.old.tokens) result input.new.tokens }
    ensures kept { IfOk result (λ read. input.new.scope ≡ input.old.scope) }
    ensures flat { IfOk result (λ read. read.depth ≡ 0) }
{
    if !begins_clang(input) {
        return Err(Refusal::Refused(false));
    }
    let _clang = input.take();
    if !input.is(Terminal::Colon) {
        return Err(Refusal::Refused(false));
    }
    let _first = input.take();
    if !input.is(Terminal::Colon) {
        return Err(Refusal::Refused(false));
    }
    let _second = input.take();
    effect(room, AttrSpelling::Brackets, input)
}

/// The words of an attribute in brackets, up to its end.
#[tactic(auto, using(crate::proofs::Attributed::clang_words, crate::proofs::Attributed::clang_goes, parse_input::proofs::Then::falls, parse_input::proofs::Steps::behind_none))]
pub fn clang_words(
    alloc: Global,
    room: u32,
    input: &mut Input<'_>,
) -> Result<Read<Items<AttrWord>>, Refusal>
    ensures reads { Says (named room ClangWords input.old.tokens) result input.new.tokens }
    ensures kept { IfOk result (λ read. input.new.scope ≡ input.old.scope) }
    ensures flat { IfOk result (λ read. read.depth ≡ 0) }
{
    let mut words = Items::new(alloc);
    'each: loop {
        let word = clang_word(room, input)?;
        words.push(word.value)?;
        if input.is(Terminal::Comma) {
            let _comma = input.take();
            continue;
        }
        if !input.is(Terminal::CloseBracket) {
            return Err(Refusal::Refused(false));
        }
        let _inner = input.take();
        if !input.is(Terminal::CloseBracket) {
            return Err(Refusal::Refused(false));
        }
        let _outer = input.take();
        return Ok(flat(words));
    }
}

/// The words of an attribute after `__attribute__`, up to its end.
#[tactic(auto, using(crate::proofs::Attributed::gnu_words, crate::proofs::Attributed::gnu_goes, parse_input::proofs::Then::falls_rule, parse_input::proofs::Steps::behind_none))]
fn gnu_words(
    alloc: Global,
    room: u32,
    input: &mut Input<'_>,
) -> Result<Read<Items<AttrWord>>, Refusal>
    ensures reads { Says (named room GnuWords input.old.tokens) result input.new.tokens }
    ensures kept { IfOk result (λ read. input.new.scope ≡ input.old.scope) }
    ensures flat { IfOk result (λ read. read.depth ≡ 0) }
{
    let mut words = Items::new(alloc);
    'each: loop {
        let word = effect(room, AttrSpelling::Gnu, input)?;
        words.push(word.value)?;
        if input.is(Terminal::Comma) {
            let _comma = input.take();
            continue;
        }
        if !input.is(Terminal::CloseParen) {
            return Err(Refusal::Refused(false));
        }
        let _inner = input.take();
        if !input.is(Terminal::CloseParen) {
            return Err(Refusal::Refused(false));
        }
        let _outer = input.take();
        return Ok(flat(words));
    }
}

/// An attribute that begins with `__attribute__`, behind that word.
#[tactic(auto, using(parse_input::proofs::Steps::max_zero))]
pub fn gnu_attribute(
    alloc: Global,
    room: u32,
    place: u32,
    input: &mut Input<'_>,
) -> Result<Read<Attr>, Refusal>
    ensures reads { Says (reads (named room) (gnu_attribute place) input.old.tokens) result input.new.tokens }
    ensures kept { IfOk result (λ read. input.new.scope ≡ input.old.scope) }
    ensures flat { IfOk result (λ read. read.depth ≡ 0) }
{
    if !input.is(Terminal::OpenParen) {
        return Err(Refusal::Refused(false));
    }
    let _outer = input.take();
    if !input.is(Terminal::OpenParen) {
        return Err(Refusal::Refused(false));
    }
    let _inner = input.take();
    let words = gnu_words(alloc, room, input)?;
    Ok(flat(Attr {
        place,
        spelling: AttrSpelling::Gnu,
        words: words.value,
    }))
}

/// An attribute in brackets, behind both of them.
#[tactic(auto, using(parse_input::proofs::Steps::max_zero))]
pub fn bracket_attribute(
    alloc: Global,
    room: u32,
    place: u32,
    input: &mut Input<'_>,
) -> Result<Read<Attr>, Refusal>
    ensures reads { Says (reads (named room) (bracket_attribute place) input.old.tokens) result input.new.tokens }
    ensures kept { IfOk result (λ read. input.new.scope ≡ input.old.scope) }
    ensures flat { IfOk result (λ read. read.depth ≡ 0) }
{
    let words = clang_words(alloc, room, input)?;
    Ok(flat(Attr {
        place,
        spelling: AttrSpelling::Brackets,
        words: words.value,
    }))
}

/// The attributes behind a parameter list.
#[tactic(auto, using(crate::proofs::Attributed::attributes, crate::proofs::Attributed::attributes_begin, crate::proofs::Attributed::bracket_ends, crate::proofs::Attributed::attributes_end, crate::proofs::Attributed::bracket_goes, crate::proofs::Attributed::gnu_attribute_goes, parse_input::proofs::Then::falls_behind, parse_input::proofs::Then::falls_behind_two))]
pub fn attributes(
    alloc: Global,
    room: u32,
    input: &mut Input<'_>,
) -> Result<Read<Attributes>, Refusal>
    ensures reads { Says (named room (AttributesRule input.old.scope) input.old.tokens) result input.new.tokens }
    ensures kept { IfOk result (λ read. input.new.scope ≡ input.old.scope) }
    ensures flat { IfOk result (λ read. read.depth ≡ 0) }
{
    let mut attributes = Items::new(alloc);
    'each: loop {
        if input.is(Terminal::OpenBracket) {
            let place = input.take().place();
            if !input.is(Terminal::OpenBracket) {
                return Ok(flat(Attributes {
                    attributes,
                    bracket: Some(place),
                }));
            }
            let _second = input.take();
            let attribute = bracket_attribute(alloc, room, place, input)?;
            attributes.push(attribute.value)?;
        } else if input.is(Terminal::Attribute) {
            let word = input.take();
            let gnu = gnu_attribute(alloc, room, word.place(), input)?;
            attributes.push(gnu.value)?;
        } else {
            return Ok(flat(Attributes {
                attributes,
                bracket: None,
            }));
        }
    }
}
