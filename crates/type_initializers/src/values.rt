//! What the words of objects of static storage and of thread-local ones hold at first: those that aren't zero.

ghost use Rattle.std.specs.Prelude.{◌≡◌, ◌+◌, ◌∷◌, [], IfOk, OnOk, map, sum};
ghost use Rattle.core_unit.specs.Typed.{where_in};
ghost use Rattle.eff_types.specs.Types as types;
ghost use Rattle.type_initializers.specs.Held as held;
ghost use Rattle.type_rules.specs.InitialValues as spec;
ghost use Rattle.type_rules.specs.Literals.{text_initially};
ghost use Rattle.type_rules.specs.Reading.{Good};
ghost use Rattle.type_rules.specs.Storage as storages;

use arithmetic::is_true;
use core_unit::{Expr, Initializer, Place, Storage, Word};
use eff_types::{CType, Level};
use std::alloc::AllocError;
use type_operands::worth;
use type_rules::{Initial, Worth};
use typing_state::Typing;

/// The level of a function type; Plain of another type.
fn own_level(kind: &CType) -> Level
    ensures { result ≡ (types.own_effects kind.now).level }
{
    match kind {
        CType::Function(function) => function.effects.level,
        CType::Pointer(_) => Level::Plain,
        CType::Array(_, _) => Level::Plain,
        CType::Void => Level::Plain,
        CType::Char => Level::Plain,
        CType::Int => Level::Plain,
        CType::Unsigned => Level::Plain,
        CType::Mutex => Level::Plain,
        CType::Struct(_) => Level::Plain,
    }
}

/// The level of the function type that a type points to; Plain where it points to none.
#[tactic(auto, using(crate::proofs::Levels::target_rules))]
fn target_level(kind: &CType) -> Level
    ensures { result ≡ (types.target_effects kind.now).level }
{
    match kind {
        CType::Pointer(target) => own_level(target.get()),
        CType::Function(_) => Level::Plain,
        CType::Array(_, _) => Level::Plain,
        CType::Void => Level::Plain,
        CType::Char => Level::Plain,
        CType::Int => Level::Plain,
        CType::Unsigned => Level::Plain,
        CType::Mutex => Level::Plain,
        CType::Struct(_) => Level::Plain,
    }
}

/// The address of an object of static storage.
fn object_word(place: &Place) -> Word
    ensures { result ≡ spec.object_word place.now }
{
    match place {
        Place::Variable(_, Storage::Static(address), _) => Word::DataPointer(*address),
        Place::Text(address, _) => Word::DataPointer(*address),
        _ => Word::Zero,
    }
}

/// A function at this level, or an address; zero for what is neither.
#[tactic(auto, using(crate::proofs::Levels::pointer_rules))]
fn pointer_word(level: Level, e: &Expr) -> Word
    ensures { result ≡ spec.pointer_word level e.now }
{
    match e {
        Expr::Function(number, _) => Word::FunctionPointer(*number, level),
        Expr::FunctionPointer(inner) => pointer_word(level, inner.get()),
        Expr::ArrayPointer(place) => object_word(place.get()),
        Expr::AddressOf(place) => object_word(place.get()),
        Expr::Convert(_, _, inner) => pointer_word(level, inner.get()),
        Expr::Number(_, _) => Word::Zero,
        Expr::Null => Word::Zero,
        Expr::Sizeof(_) => Word::Zero,
        Expr::LibraryFunction(_) => Word::Zero,
        Expr::TargetFunction(_) => Word::Zero,
        Expr::Load(_) => Word::Zero,
        Expr::Assign(_, _) => Word::Zero,
        Expr::Compound(_, _, _) => Word::Zero,
        Expr::Step(_, _, _) => Word::Zero,
        Expr::Unary(_, _) => Word::Zero,
        Expr::Binary(_, _, _) => Word::Zero,
        Expr::Logical(_, _, _) => Word::Zero,
        Expr::Conditional(_, _, _) => Word::Zero,
        Expr::Comma(_, _) => Word::Zero,
        Expr::Call(_, _, _, _) => Word::Zero,
        Expr::Discard(_) => Word::Zero,
    }
}

/// What an expression of a function type is in an object of a pointer to that type.
#[tactic(auto, using(crate::proofs::Levels::pointer_rules))]
fn function_initially(e: &Expr) -> Word
    ensures { result ≡ held.function_initially e.now }
{
    match e {
        Expr::Function(number, kind) => Word::FunctionPointer(*number, own_level(kind)),
        Expr::FunctionPointer(inner) => pointer_word(Level::Plain, inner.get()),
        Expr::ArrayPointer(place) => object_word(place.get()),
        Expr::AddressOf(place) => object_word(place.get()),
        Expr::Convert(_, kind, inner) => pointer_word(own_level(kind), inner.get()),
        Expr::Number(_, _) => Word::Zero,
        Expr::Null => Word::Zero,
        Expr::Sizeof(_) => Word::Zero,
        Expr::LibraryFunction(_) => Word::Zero,
        Expr::TargetFunction(_) => Word::Zero,
        Expr::Load(_) => Word::Zero,
        Expr::Assign(_, _) => Word::Zero,
        Expr::Compound(_, _, _) => Word::Zero,
        Expr::Step(_, _, _) => Word::Zero,
        Expr::Unary(_, _) => Word::Zero,
        Expr::Binary(_, _, _) => Word::Zero,
        Expr::Logical(_, _, _) => Word::Zero,
        Expr::Conditional(_, _, _) => Word::Zero,
        Expr::Comma(_, _) => Word::Zero,
        Expr::Call(_, _, _, _) => Word::Zero,
        Expr::Discard(_) => Word::Zero,
    }
}

/// What a pointer is in an object of its type.
#[tactic(auto, using(crate::proofs::Levels::pointer_rules))]
fn pointer_initially(e: &Expr) -> Word
    ensures { result ≡ held.pointer_initially e.now }
{
    match e {
        Expr::Function(number, kind) => Word::FunctionPointer(*number, target_level(kind)),
        Expr::FunctionPointer(inner) => function_initially(inner.get()),
        Expr::ArrayPointer(place) => object_word(place.get()),
        Expr::AddressOf(place) => object_word(place.get()),
        Expr::Convert(_, kind, inner) => pointer_word(target_level(kind), inner.get()),
        Expr::Number(_, _) => Word::Zero,
        Expr::Null => Word::Zero,
        Expr::Sizeof(_) => Word::Zero,
        Expr::LibraryFunction(_) => Word::Zero,
        Expr::TargetFunction(_) => Word::Zero,
        Expr::Load(_) => Word::Zero,
        Expr::Assign(_, _) => Word::Zero,
        Expr::Compound(_, _, _) => Word::Zero,
        Expr::Step(_, _, _) => Word::Zero,
        Expr::Unary(_, _) => Word::Zero,
        Expr::Binary(_, _, _) => Word::Zero,
        Expr::Logical(_, _, _) => Word::Zero,
        Expr::Conditional(_, _, _) => Word::Zero,
        Expr::Comma(_, _) => Word::Zero,
        Expr::Call(_, _, _, _) => Word::Zero,
        Expr::Discard(_) => Word::Zero,
    }
}

/// The first word of a scalar that is initialized by this expression.
#[tactic(auto, unfolding(type_rules::specs::InitialValues::initial_word))]
fn initial_word(e: &Expr) -> Word
    ensures { result ≡ spec.initial_word e.now }
{
    match worth(e) {
        Worth::Known(word) => word,
        Worth::Trapped => pointer_initially(e),
        Worth::Varying => pointer_initially(e),
    }
}

fn note(typing: &mut Typing, storage: Storage, at: u32, word: Word) -> Result<(), AllocError>
    ensures { OnOk result (typing.new ≡ held.held storage (record { at = at; word = word } ∷ []) typing.old) }
{
    match storage {
        Storage::Automatic(_) => Ok(()),
        Storage::Static(_) => typing.set_static_word(Initial { at, word }),
        Storage::ThreadLocal(_) => typing.set_thread_word(Initial { at, word }),
    }
}

/// Notes a word, unless it is zero.
#[tactic(auto, using(crate::proofs::Levels::held_rules))]
fn note_unless_zero(
    typing: &mut Typing,
    storage: Storage,
    at: u32,
    word: Word,
) -> Result<(), AllocError>
    ensures { OnOk result (typing.new ≡ held.held storage (spec.unless_zero at word) typing.old) }
{
    if is_true(word) {
        note(typing, storage, at, word)
    } else {
        Ok(())
    }
}

/// The sum. One that 32 bits don't tell is as want of memory.
fn moved(at: u32, words: usize) -> Result<u32, AllocError>
    ensures { IfOk result (λ next. next ≡ at + words) }
{
    if words > u32::MAX as usize {
        return Err(AllocError);
    }
    match at.checked_add(words as u32) {
        Some(next) => Ok(next),
        None => Err(AllocError),
    }
}

/// Notes the bytes of a text.
fn hold_bytes(
    typing: &mut Typing,
    storage: Storage,
    at: u32,
    bytes: &[u8],
) -> Result<(), AllocError>
    ensures { OnOk result (typing.new ≡ held.held storage (text_initially at bytes.now) typing.old) }
{
    let mut next = at;
    'each: for byte in bytes {
        let word = number_word(*byte);
        note_unless_zero(typing, storage, next, word)?;
        next = moved(next, 1)?;
    }
    Ok(())
}

fn number_word(byte: u8) -> Word
    ensures { result ≡ held.byte_word byte }
{
    if byte == 0 {
        Word::Zero
    } else {
        Word::Number(byte as u32)
    }
}

/// Notes what an object holds at first from a place on: the place behind it.
#[cycle(holding)]
#[tactic(auto, using(crate::proofs::Holding::holding_rules))]
fn hold(
    typing: &mut Typing,
    storage: Storage,
    at: u32,
    initializer: &Initializer,
) -> Result<u32, AllocError>
    ensures place { IfOk result (λ next. next ≡ at + spec.initializer_words initializer.now) }
    ensures held { OnOk result (typing.new ≡ held.held storage (spec.initial_values at initializer.now) typing.old) }
{
    match initializer {
        Initializer::Absent(words) => moved(at, *words as usize),
        Initializer::Value(_, e) => {
            note_unless_zero(typing, storage, at, initial_word(e))?;
            moved(at, 1)
        }
        Initializer::List(parts, zeros) => {
            let next = hold_all(typing, storage, at, parts.as_slice())?;
            moved(next, *zeros as usize)
        }
        Initializer::Text(bytes, zeros) => {
            hold_bytes(typing, storage, at, bytes.as_slice())?;
            let next = moved(at, bytes.len())?;
            moved(next, *zeros as usize)
        }
        Initializer::Zeros(words) => moved(at, *words as usize),
        Initializer::Mutex => moved(at, 1),
    }
}

#[cycle(holding)]
fn hold_all(
    typing: &mut Typing,
    storage: Storage,
    at: u32,
    parts: &[Initializer],
) -> Result<u32, AllocError>
    ensures place { IfOk result (λ next. next ≡ at + sum (map spec.initializer_words parts.now)) }
    ensures held { OnOk result (typing.new ≡ held.held storage (held.values_from at parts.now) typing.old) }
{
    let mut next = at;
    'each: for part in parts {
        next = hold(typing, storage, next, part)?;
    }
    Ok(next)
}

/// Notes what an object that is kept there holds at first, by its initializer (C17 6.7.9); of an automatic one that is nothing.
#[tactic(auto, using(crate::proofs::Holding::kept_rules))]
pub fn initially(
    typing: &mut Typing,
    storage: Storage,
    initializer: &Initializer,
) -> Result<(), AllocError>
    ensures { OnOk result (storages.initially storage (spec.initial_values (where_in storage) initializer.now) typing.old ≡ Good tt typing.new) }
{
    hold(typing, storage, place_in(storage), initializer)?;
    Ok(())
}

fn place_in(storage: Storage) -> u32
    ensures { result ≡ where_in storage }
{
    match storage {
        Storage::Automatic(offset) => offset,
        Storage::Static(address) => address,
        Storage::ThreadLocal(offset) => offset,
    }
}
