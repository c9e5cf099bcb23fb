//! The stages of library calls: what each asks, and what follows the answer.

ghost use Rattle.std.specs.Prelude.{◌≡◌, ◌<◌};
ghost use Rattle.mcode.specs.Stages as spec;
ghost use Rattle.mcode.specs.declared.stages.Stage.TheVariants.{ReadHeader, MarkFreed, TryJoin, WriteResult, TryLock, Unlock, WriteText};
ghost use Rattle.machine_code.specs.Bounds.{IsInTable, IsLowStage, CanAnswer};
ghost use Rattle.machine_code.specs.Library.{meant, IsLowStaged};

use crate::staged::Staged;
use crate::words::{BREAK, DONE, HALT, RESULT, accessed, bits_of, word_of};
use arithmetic::number;
use core_unit::Word;
use mcode::{Ask, Stage, TrapKind};

/// The event of a stage, in the thread of this number.
pub(crate) fn asked(thread: u32, stage: Stage) -> Ask
    requires { IsLowStage stage }
    ensures event { result ≡ spec.stage_asks thread stage }
    ensures in_table { IsInTable result }
{
    match stage {
        Stage::TakeBlock(words) => Ask::FetchAdd(BREAK, words as u64 + 1),
        Stage::ReturnBlock(words) => Ask::FetchSub(BREAK, words as u64 + 1),
        Stage::MarkLive(at, words) => Ask::Store(at, bits_of(Word::Live(words))),
        Stage::ReadHeader(at) => Ask::Load(at),
        Stage::MarkFreed(at, words) => {
            Ask::Exchange(at, bits_of(Word::Live(words)), bits_of(Word::Freed(words)))
        }
        Stage::CreateThread(_, function, argument) => Ask::Create(function, argument),
        Stage::TellThread(at, child) => Ask::Store(at, bits_of(number(child))),
        Stage::TryJoin(child, _) => Ask::Load(DONE + child),
        Stage::AwaitJoin(_, _) => Ask::Load(HALT),
        Stage::ReadResult(child, _) => Ask::Load(RESULT + child),
        Stage::WriteResult(at, word) => Ask::Store(at, word),
        Stage::TryLock(at) => Ask::Exchange(at, 0, bits_of(Word::Mutex(thread))),
        Stage::AwaitLock(_) => Ask::Load(HALT),
        Stage::Unlock(at) => Ask::Exchange(at, bits_of(Word::Mutex(thread)), 0),
        Stage::ReadText(at) => Ask::Load(at),
        Stage::WriteText(_, byte) => Ask::Out(byte),
        Stage::EndText => Ask::Out(10),
        Stage::WriteByte(byte) => Ask::Out(byte),
    }
}

fn unless_halted(word: u64, on: Staged) -> Staged
    requires { IsLowStaged on }
    ensures staged { meant result ≡ spec.unless_halted word (meant on) }
    ensures low { IsLowStaged result }
{
    if word == 0 { on } else { Staged::Halts }
}

/// A block of so many words was taken at an address, where the heap has room for it.
fn took(at: u64, words: u32) -> Staged
    ensures staged { meant result ≡ spec.took at words }
    ensures low { IsLowStaged result }
{
    if at < HALT as u64 && at + words as u64 + 1 <= HALT as u64 {
        Staged::Onto(Stage::MarkLive(at as u32, words))
    } else {
        Staged::Onto(Stage::ReturnBlock(words))
    }
}

fn frees_block(at: u32, found: Option<Word>) -> Staged
    requires { IsLowStage (ReadHeader at) }
    ensures staged { meant result ≡ spec.frees_block at found }
    ensures low { IsLowStaged result }
{
    match found {
        Some(Word::Live(words)) => Staged::Onto(Stage::MarkFreed(at, words)),
        Some(Word::Zero)
        | Some(Word::Undefined)
        | Some(Word::Number(_))
        | Some(Word::DataPointer(_))
        | Some(Word::FunctionPointer(_, _))
        | Some(Word::Mutex(_))
        | Some(Word::Freed(_))
        | None => Staged::Traps(TrapKind::BadFree),
    }
}

/// The header was marked as freed, where the old word was the live one.
fn freed(words: u32, answer: u64) -> Staged
    ensures staged { meant result ≡ spec.stage_after 0 (MarkFreed 0 words) answer }
    ensures low { IsLowStaged result }
{
    if answer == bits_of(Word::Live(words)) {
        Staged::Gives(Word::Zero)
    } else {
        Staged::Traps(TrapKind::BadFree)
    }
}

fn created(child: u64, to: Word) -> Staged
    requires { child < 64 }
    ensures staged { meant result ≡ spec.created child to }
    ensures low { IsLowStaged result }
{
    if child == 0 {
        return Staged::Gives(Word::Number(11));
    }
    match accessed(to) {
        Ok(at) => Staged::Onto(Stage::TellThread(at, child as u32)),
        Err(kind) => Staged::Traps(kind),
    }
}

fn joined(child: u32, to: Word) -> Staged
    requires { child < 64 }
    ensures staged { meant result ≡ spec.joined child to }
    ensures low { IsLowStaged result }
{
    match to {
        Word::Zero => Staged::Gives(Word::Zero),
        Word::Undefined
        | Word::Number(_)
        | Word::DataPointer(_)
        | Word::FunctionPointer(_, _)
        | Word::Mutex(_)
        | Word::Live(_)
        | Word::Freed(_) => Staged::Onto(Stage::ReadResult(child, to)),
    }
}

fn tried_join(child: u32, to: Word, answer: u64) -> Staged
    requires { child < 64 }
    ensures staged { meant result ≡ spec.stage_after 0 (TryJoin child to) answer }
    ensures low { IsLowStaged result }
{
    if answer == 0 {
        Staged::Again(Stage::AwaitJoin(child, to))
    } else {
        joined(child, to)
    }
}

fn read_result(to: Word, answer: u64) -> Staged
    ensures staged { meant result ≡ spec.through to (λ at. spec.Onto (WriteResult at answer)) }
    ensures low { IsLowStaged result }
{
    match accessed(to) {
        Ok(at) => Staged::Onto(Stage::WriteResult(at, answer)),
        Err(kind) => Staged::Traps(kind),
    }
}

fn locked(at: u32, found: Option<Word>) -> Staged
    requires { IsLowStage (TryLock at) }
    ensures staged { meant result ≡ spec.locked at found }
    ensures low { IsLowStaged result }
{
    match found {
        Some(Word::Zero) => Staged::Gives(Word::Zero),
        Some(Word::Mutex(_)) => Staged::Again(Stage::AwaitLock(at)),
        Some(Word::Undefined)
        | Some(Word::Number(_))
        | Some(Word::DataPointer(_))
        | Some(Word::FunctionPointer(_, _))
        | Some(Word::Live(_))
        | Some(Word::Freed(_))
        | None => Staged::Traps(TrapKind::BadWord),
    }
}

/// The mutex was unlocked, where this thread held it.
fn unlocked(thread: u32, answer: u64) -> Staged
    ensures staged { meant result ≡ spec.stage_after thread (Unlock 0) answer }
    ensures low { IsLowStaged result }
{
    if answer == bits_of(Word::Mutex(thread)) {
        Staged::Gives(Word::Zero)
    } else {
        Staged::Traps(TrapKind::BadUnlock)
    }
}

fn read_text(at: u32, found: Option<Word>) -> Staged
    ensures staged { meant result ≡ spec.read_text at found }
    ensures low { IsLowStaged result }
{
    match found {
        Some(Word::Zero) => Staged::Onto(Stage::EndText),
        Some(Word::Number(bits)) => Staged::Onto(Stage::WriteText(at, (bits % 256) as u8)),
        Some(Word::Undefined)
        | Some(Word::DataPointer(_))
        | Some(Word::FunctionPointer(_, _))
        | Some(Word::Mutex(_))
        | Some(Word::Live(_))
        | Some(Word::Freed(_))
        | None => Staged::Traps(TrapKind::BadWord),
    }
}

fn wrote_text(at: u32) -> Staged
    ensures staged { meant result ≡ spec.stage_after 0 (WriteText at 0) 0 }
    ensures low { IsLowStaged result }
{
    if at < HALT - 1 {
        Staged::Onto(Stage::ReadText(at + 1))
    } else {
        Staged::Traps(TrapKind::BadAccess)
    }
}

/// What follows a stage, in the thread of this number, by the answer.
pub(crate) fn answered(thread: u32, stage: Stage, answer: u64) -> Staged
    requires low { IsLowStage stage }
    requires answer { CanAnswer (spec.stage_asks thread stage) answer }
    ensures staged { meant result ≡ spec.stage_after thread stage answer }
    ensures low { IsLowStaged result }
{
    match stage {
        Stage::TakeBlock(words) => took(answer, words),
        Stage::ReturnBlock(_) => Staged::Gives(Word::Zero),
        Stage::MarkLive(at, _) => Staged::Gives(Word::DataPointer(at + 1)),
        Stage::ReadHeader(at) => frees_block(at, word_of(answer)),
        Stage::MarkFreed(_, words) => freed(words, answer),
        Stage::CreateThread(to, _, _) => created(answer, to),
        Stage::TellThread(_, _) => Staged::Gives(Word::Zero),
        Stage::TryJoin(child, to) => tried_join(child, to, answer),
        Stage::AwaitJoin(child, to) => {
            unless_halted(answer, Staged::Onto(Stage::TryJoin(child, to)))
        }
        Stage::ReadResult(_, to) => read_result(to, answer),
        Stage::WriteResult(_, _) => Staged::Gives(Word::Zero),
        Stage::TryLock(at) => locked(at, word_of(answer)),
        Stage::AwaitLock(at) => unless_halted(answer, Staged::Onto(Stage::TryLock(at))),
        Stage::Unlock(_) => unlocked(thread, answer),
        Stage::ReadText(at) => read_text(at, word_of(answer)),
        Stage::WriteText(at, _) => wrote_text(at),
        Stage::EndText => Staged::Gives(Word::Zero),
        Stage::WriteByte(byte) => Staged::Gives(number(byte as u32)),
    }
}
