//! Attributes (Clang's manual 'Function Effect Analysis').

ghost use Rattle.std.specs.Prelude.{◌≡◌, ◌++◌, flat_map, IfOk, OnOk};
ghost use Rattle.std.specs.List.{list_any};
ghost use Rattle.c_tree.specs.declared.words.Effect.TheVariants as effect;
ghost use Rattle.type_rules.specs.Types as spec;

use c_tree::{Attr, AttrWord, Effect};
use eff_types::{Effects, Level};
use sqlite_items::Items;
use std::alloc::{AllocError, Global};

/// A copy of an attribute. The one error is that no memory is left.
pub fn copy_attribute(alloc: Global, attribute: &Attr) -> Result<Attr, AllocError>
    ensures { IfOk result (λ copy. copy ≡ attribute.now) }
{
    let words = Items::from_slice(alloc, attribute.words.as_slice())?;
    Ok(Attr {
        place: attribute.place,
        spelling: attribute.spelling,
        words,
    })
}

/// Copies of attributes, in order. The one error is that no memory is left.
pub fn copy_attributes(alloc: Global, attributes: &[Attr]) -> Result<Items<Attr>, AllocError>
    ensures { IfOk result (λ copies. copies ≡ attributes.now) }
{
    let mut copies = Items::new(alloc);
    'each: for attribute in attributes {
        copies.push(copy_attribute(alloc, attribute)?)?;
    }
    Ok(copies)
}

/// Whether a word says that the function doesn't return.
fn is_noreturn(word: AttrWord) -> bool
    ensures { result ≡ spec.is_noreturn word }
{
    match word.effect {
        Effect::NoReturn => true,
        Effect::NonBlocking(_) => false,
        Effect::NonAllocating(_) => false,
        Effect::Blocking => false,
        Effect::Allocating => false,
    }
}

fn word_says_noreturn(words: &[AttrWord]) -> bool
    ensures { result ≡ list_any spec.is_noreturn words.now }
{
    words.iter().any(|word| is_noreturn(*word))
}

/// Whether one of the attributes says that the function doesn't return.
pub fn says_noreturn(attributes: &[Attr]) -> bool
    ensures { result ≡ spec.says_noreturn attributes.now }
{
    attributes
        .iter()
        .any(|attribute| word_says_noreturn(attribute.words.as_slice()))
}

/// No level, and no flag.
pub(crate) const PLAIN: Effects = Effects {
    level: Level::Plain,
    no_block_inference: false,
    no_alloc_inference: false,
};

/// What `nonblocking` says, with its argument.
fn nonblocking(argument: Option<bool>) -> Effects
    ensures { result ≡ spec.word_effects (effect.NonBlocking argument) }
{
    match argument {
        Some(false) => Effects {
            no_block_inference: true,
            ..PLAIN
        },
        Some(true) => Effects {
            level: Level::NonBlocking,
            ..PLAIN
        },
        None => Effects {
            level: Level::NonBlocking,
            ..PLAIN
        },
    }
}

/// What `nonallocating` says, with its argument.
fn nonallocating(argument: Option<bool>) -> Effects
    ensures { result ≡ spec.word_effects (effect.NonAllocating argument) }
{
    match argument {
        Some(false) => Effects {
            no_alloc_inference: true,
            ..PLAIN
        },
        Some(true) => Effects {
            level: Level::NonAllocating,
            ..PLAIN
        },
        None => Effects {
            level: Level::NonAllocating,
            ..PLAIN
        },
    }
}

/// What a word says of a function type.
fn word_effects(effect: Effect) -> Effects
    ensures { result ≡ spec.word_effects effect }
{
    match effect {
        Effect::NonBlocking(argument) => nonblocking(argument),
        Effect::NonAllocating(argument) => nonallocating(argument),
        Effect::Blocking => Effects {
            no_block_inference: true,
            ..PLAIN
        },
        Effect::Allocating => Effects {
            no_alloc_inference: true,
            ..PLAIN
        },
        Effect::NoReturn => PLAIN,
    }
}

/// Adds what a word says, unless it is `noreturn`.
fn add_word(effects: &mut Items<Effects>, word: AttrWord) -> Result<(), AllocError>
    ensures { OnOk result (effects.new ≡ effects.old ++ spec.effects_of_word word) }
{
    if is_noreturn(word) {
        return Ok(());
    }
    effects.push(word_effects(word.effect))
}

fn add_words(effects: &mut Items<Effects>, words: &[AttrWord]) -> Result<(), AllocError>
    ensures { OnOk result (effects.new ≡ effects.old ++ flat_map spec.effects_of_word words.now) }
{
    'each: for word in words {
        add_word(effects, *word)?;
    }
    Ok(())
}

/// What the words of attributes say of a function type, in order. The one error is that no memory is left.
pub fn effects_in(alloc: Global, attributes: &[Attr]) -> Result<Items<Effects>, AllocError>
    ensures { IfOk result (λ effects. effects ≡ spec.effects_in attributes.now) }
{
    let mut effects = Items::new(alloc);
    'each: for attribute in attributes {
        add_words(&mut effects, attribute.words.as_slice())?;
    }
    Ok(effects)
}
