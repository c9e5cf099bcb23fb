//! Words: what they are at an access and at a store, and the bits that stand for them.

ghost use Rattle.std.specs.Prelude.{◌≡◌, ◌<◌, not, IfOk, ℤ};
ghost use Rattle.core_unit.specs.Words.{packed};
ghost use Rattle.core_unit.specs.declared.operators.Sign.TheVariants.{Signed};
ghost use Rattle.eff_types.specs.Effects.{rank, is_below};
ghost use Rattle.arithmetic.specs.Numbers.{value_of};
ghost use Rattle.arithmetic.specs.Operators.{truth};
ghost use Rattle.arithmetic.specs.Values.{number, is_true};
ghost use Rattle.mcode.specs.Memory.{halt};
ghost use Rattle.mcode.specs.Machine.{written_at};
ghost use Rattle.mcode.specs.Words as spec;

use core_unit::Word;
use eff_types::Level;
use mcode::TrapKind;

/// The address of the word that tells all threads to halt.
pub(crate) const HALT: u32 = 1 << 20;

/// The word that tells where the heap ends so far.
pub(crate) const BREAK: u32 = HALT + 1;

/// The word that tells that thread t has returned stands t behind this address.
pub(crate) const DONE: u32 = HALT + 64;

/// The word for the result of thread t stands t behind this address.
pub(crate) const RESULT: u32 = HALT + 128;

const KIND: u64 = 1 << 60;

const LEVEL: u64 = 1 << 32;
/// Numbers stand behind these bits.
const NUMBER: u64 = 2 * KIND;

fn rank_of(level: Level) -> u64
    ensures { result ≡ rank level }
{
    match level {
        Level::Plain => 0,
        Level::NonAllocating => 1,
        Level::NonBlocking => 2,
    }
}

/// The bits that stand for a word, also for one that carries what is out of its range.
#[tactic(auto, unfolding(core_unit::specs::Words::packed))]
pub(crate) fn bits_of(word: Word) -> u64
    ensures { result ≡ packed word }
{
    match word {
        Word::Zero => 0,
        Word::Undefined => KIND,
        Word::Number(bits) => NUMBER + bits as u64,
        Word::DataPointer(address) => 3 * KIND + address as u64,
        Word::FunctionPointer(function, level) => {
            4 * KIND + rank_of(level) * LEVEL + function as u64
        }
        Word::Mutex(thread) => 5 * KIND + thread as u64,
        Word::Live(words) => 6 * KIND + words as u64,
        Word::Freed(words) => 7 * KIND + words as u64,
    }
}

/// The word for which bits stand, if there is one. Numbers are told first, since most loads are of numbers.
pub(crate) fn word_of(raw: u64) -> Option<Word>
    ensures { result ≡ spec.unpacked raw }
{
    if raw == 0 {
        Some(Word::Zero)
    } else if NUMBER < raw && raw < NUMBER + LEVEL {
        Some(Word::Number((raw - NUMBER) as u32))
    } else {
        other_word_of(raw)
    }
}

/// The same, of whatever word. It stays a call, so that nothing of it is done before it is known to be needed.
#[inline(never)]
fn other_word_of(raw: u64) -> Option<Word>
    ensures { result ≡ spec.unpacked raw }
{
    core_unit::unpack(raw)
}

/// What a thread is started with.
pub(crate) fn argument_of(raw: u64) -> Word
    ensures { result ≡ spec.argument (spec.unpacked raw) }
{
    match word_of(raw) {
        Some(Word::Zero) => Word::Zero,
        Some(Word::Number(bits)) => Word::Number(bits),
        Some(Word::DataPointer(address)) => Word::DataPointer(address),
        Some(Word::Undefined)
        | Some(Word::FunctionPointer(_, _))
        | Some(Word::Mutex(_))
        | Some(Word::Live(_))
        | Some(Word::Freed(_))
        | None => Word::Undefined,
    }
}

/// The address of the object that a pointer designates, or why there is none.
pub(crate) fn accessed(pointer: Word) -> Result<u32, TrapKind>
    ensures found { result ≡ spec.accessed pointer }
    ensures low { IfOk result (λ at. at < halt) }
{
    match pointer {
        Word::Zero => Err(TrapKind::NullAccess),
        Word::DataPointer(at) => {
            if at < HALT {
                Ok(at)
            } else {
                Err(TrapKind::BadAccess)
            }
        }
        Word::Undefined
        | Word::Number(_)
        | Word::FunctionPointer(_, _)
        | Word::Mutex(_)
        | Word::Live(_)
        | Word::Freed(_) => Err(TrapKind::BadAccess),
    }
}

/// A pointer to a function is stored at the level of the store.
pub(crate) fn stored_at(level: Level, word: Word) -> Word
    ensures { result ≡ written_at level word }
{
    match word {
        Word::FunctionPointer(function, _) => Word::FunctionPointer(function, level),
        Word::Zero => Word::Zero,
        Word::Undefined => Word::Undefined,
        Word::Number(bits) => Word::Number(bits),
        Word::DataPointer(address) => Word::DataPointer(address),
        Word::Mutex(thread) => Word::Mutex(thread),
        Word::Live(words) => Word::Live(words),
        Word::Freed(words) => Word::Freed(words),
    }
}

/// Whether a level is at least another one.
pub(crate) fn is_at_least(level: Level, least: Level) -> bool
    ensures { result ≡ not (is_below level least) }
{
    match least {
        Level::Plain => true,
        Level::NonAllocating => match level {
            Level::Plain => false,
            Level::NonAllocating => true,
            Level::NonBlocking => true,
        },
        Level::NonBlocking => match level {
            Level::Plain => false,
            Level::NonAllocating => false,
            Level::NonBlocking => true,
        },
    }
}

/// The value as 0 or 1.
pub(crate) fn truth_of(value: Word) -> Word
    ensures { result ≡ number (truth (is_true value)) }
{
    if arithmetic::is_true(value) {
        Word::Number(1)
    } else {
        Word::Zero
    }
}

/// The number of type `int` with these bits.
pub(crate) fn signed(bits: u32) -> i32
    ensures { result ≡ value_of Signed bits }
{
    bits.cast_signed()
}
