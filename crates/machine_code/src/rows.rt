//! What calls of library functions begin with.

ghost use Rattle.std.specs.Prelude.{◌≡◌};
ghost use Rattle.core_unit.specs.declared.words.Word.TheVariants.{DataPointer};
ghost use Rattle.arithmetic.specs.Operators.{absolute};
ghost use Rattle.mcode.specs.Stages as spec;
ghost use Rattle.mcode.specs.declared.stages.Stage.TheVariants.{TryLock, Unlock, ReadText};
ghost use Rattle.machine_code.specs.Library.{meant, IsLowStaged};

use crate::stack::Stack;
use crate::staged::Staged;
use crate::words::{HALT, accessed, bits_of};
use arithmetic::{absolute, bits_in, number};
use core_unit::Word;
use mcode::{Stage, TrapKind};

/// `malloc` and `calloc`, of so many words.
fn takes_block(words: u64) -> Staged
    ensures staged { meant result ≡ spec.takes_block words }
    ensures low { IsLowStaged result }
{
    if words < 1 << 32 {
        Staged::Onto(Stage::TakeBlock(words as u32))
    } else {
        Staged::Gives(Word::Zero)
    }
}

fn frees_at(at: u32) -> Staged
    ensures staged { meant result ≡ spec.frees (DataPointer at) }
    ensures low { IsLowStaged result }
{
    let header = at.saturating_sub(1);
    if header < HALT {
        Staged::Onto(Stage::ReadHeader(header))
    } else {
        Staged::Traps(TrapKind::BadAccess)
    }
}

fn frees(pointer: Word) -> Staged
    ensures staged { meant result ≡ spec.frees pointer }
    ensures low { IsLowStaged result }
{
    match pointer {
        Word::Zero => Staged::Gives(Word::Zero),
        Word::DataPointer(at) => frees_at(at),
        Word::Undefined
        | Word::Number(_)
        | Word::FunctionPointer(_, _)
        | Word::Mutex(_)
        | Word::Live(_)
        | Word::Freed(_) => Staged::Traps(TrapKind::BadFree),
    }
}

fn creates(to: Word, function: Word, argument: Word) -> Staged
    ensures staged { meant result ≡ spec.creates to function argument }
    ensures low { IsLowStaged result }
{
    match function {
        Word::FunctionPointer(number, _) => {
            Staged::Onto(Stage::CreateThread(to, number, bits_of(argument)))
        }
        Word::Zero
        | Word::Undefined
        | Word::Number(_)
        | Word::DataPointer(_)
        | Word::Mutex(_)
        | Word::Live(_)
        | Word::Freed(_) => Staged::Traps(TrapKind::NullCall),
    }
}

fn joins(thread: u32, to: Word) -> Staged
    ensures staged { meant result ≡ spec.joins thread to }
    ensures low { IsLowStaged result }
{
    if thread < 64 {
        Staged::Onto(Stage::TryJoin(thread, to))
    } else {
        Staged::Gives(Word::Number(3))
    }
}

fn gives_absolute(bits: u32) -> Staged
    ensures staged { meant result ≡ spec.gives_absolute (absolute bits) }
    ensures low { IsLowStaged result }
{
    match absolute(bits) {
        Ok(bits) => Staged::Gives(number(bits)),
        Err(kind) => Staged::Traps(kind),
    }
}

/// The function of a row works on an object through a pointer.
fn locks(pointer: Word) -> Staged
    ensures staged { meant result ≡ spec.through pointer (λ at. spec.Onto (TryLock at)) }
    ensures low { IsLowStaged result }
{
    match accessed(pointer) {
        Ok(at) => Staged::Onto(Stage::TryLock(at)),
        Err(kind) => Staged::Traps(kind),
    }
}

fn unlocks(pointer: Word) -> Staged
    ensures staged { meant result ≡ spec.through pointer (λ at. spec.Onto (Unlock at)) }
    ensures low { IsLowStaged result }
{
    match accessed(pointer) {
        Ok(at) => Staged::Onto(Stage::Unlock(at)),
        Err(kind) => Staged::Traps(kind),
    }
}

fn reads(pointer: Word) -> Staged
    ensures staged { meant result ≡ spec.through pointer (λ at. spec.Onto (ReadText at)) }
    ensures low { IsLowStaged result }
{
    match accessed(pointer) {
        Ok(at) => Staged::Onto(Stage::ReadText(at)),
        Err(kind) => Staged::Traps(kind),
    }
}

/// What the function of a row begins with, by the values of its arguments, the last one first.
pub(crate) fn begin(row: u32, held: &Stack<Word, 1024>) -> Staged
    ensures staged { meant result ≡ spec.call_begins row held.now }
    ensures low { IsLowStaged result }
{
    let last = held.get_or(0, Word::Zero);
    let before = held.get_or(1, Word::Zero);
    match row {
        0 => takes_block(bits_in(last) as u64),
        1 => takes_block(bits_in(before) as u64 * bits_in(last) as u64),
        2 => frees(last),
        3 => creates(held.get_or(3, Word::Zero), before, last),
        4 => joins(bits_in(before), last),
        5 => locks(last),
        6 => unlocks(last),
        8 => reads(last),
        9 => Staged::Onto(Stage::WriteByte((bits_in(last) % 256) as u8)),
        10 => gives_absolute(bits_in(last)),
        7 => Staged::Gives(Word::Zero),
        11 => Staged::Gives(Word::Zero),
        12 => Staged::Gives(Word::Zero),
        13 => Staged::Exits(bits_in(last)),
        14 => Staged::Traps(TrapKind::Abort),
        _ => Staged::Traps(TrapKind::NullCall),
    }
}
