//! Words of memory: what a value is, and the 64 bits that stand for it.

ghost use Rattle.std.specs.Prelude.{◌≡◌, ◌↔◌, IsTrue, MatchOption};
ghost use Rattle.core_unit.specs.Words.{packed, IsInRange, PacksTo, NothingPacksTo};
ghost use Rattle.core_unit.specs.declared.words.Word.{Word};
ghost use Rattle.eff_types.specs.Effects.{rank};
ghost use Rattle.eff_types.specs.declared.levels.Level.{Level};

use eff_types::Level;

/// What a word holds.
#[derive(Clone, Copy)]
pub enum Word {
    /// The number 0, the null pointer, or a mutex that nobody holds.
    Zero,
    /// What nobody has stored yet.
    Undefined,
    /// A number other than 0, by its bits.
    Number(u32),
    /// A pointer to the word at this address.
    DataPointer(u32),
    /// A pointer to the function of this number, at a level.
    FunctionPointer(u32, Level),
    /// A mutex that the thread of this number holds.
    Mutex(u32),
    /// The header of a piece of the heap, of this many words.
    Live(u32),
    /// The header of a piece that was freed.
    Freed(u32),
}

/// The kinds of words: a word is the number of its kind times this, and what it carries.
const KIND: u64 = 1 << 60;
/// A function pointer carries its level times this, and the number of its function.
const LEVEL: u64 = 1 << 32;

/// The greatest address that a pointer may hold: that behind the last word of objects.
const LAST_ADDRESS: u32 = 1 << 20;

impl Word {
    /// Whether what the word carries is in its range.
    pub fn is_in_range(self) -> bool
        ensures { IsTrue result ↔ IsInRange self }
    {
        match self {
            Word::Zero => true,
            Word::Undefined => true,
            Word::Number(bits) => bits != 0,
            Word::DataPointer(address) => 0 < address && address <= LAST_ADDRESS,
            Word::FunctionPointer(function, _) => function < 4096,
            Word::Mutex(thread) => thread < 64,
            Word::Live(words) => words <= LAST_ADDRESS,
            Word::Freed(words) => words <= LAST_ADDRESS,
        }
    }
}

fn rank_of(level: Level) -> u64
    ensures { result ≡ rank level }
{
    match level {
        Level::Plain => 0,
        Level::NonAllocating => 1,
        Level::NonBlocking => 2,
    }
}

fn level_of(number: u64) -> Level
    ensures { (level : Level) → rank level ≡ number → result ≡ level }
{
    match number {
        0 => Level::Plain,
        1 => Level::NonAllocating,
        _ => Level::NonBlocking,
    }
}

/// The 64 bits that stand for the word.
#[tactic(auto, unfolding(crate::specs::Words::packed))]
pub fn pack(word: Word) -> u64
    requires { IsInRange word }
    ensures { result ≡ packed word }
{
    match word {
        Word::Zero => 0,
        Word::Undefined => KIND,
        Word::Number(bits) => 2 * KIND + bits as u64,
        Word::DataPointer(address) => 3 * KIND + address as u64,
        Word::FunctionPointer(function, level) => {
            4 * KIND + rank_of(level) * LEVEL + function as u64
        }
        Word::Mutex(thread) => 5 * KIND + thread as u64,
        Word::Live(words) => 6 * KIND + words as u64,
        Word::Freed(words) => 7 * KIND + words as u64,
    }
}

/// The word for which the 64 bits stand, if any word does.
fn candidate(raw: u64) -> Word
    ensures { (word : Word) → PacksTo word raw → result ≡ word }
{
    let carried = (raw % LEVEL) as u32;
    match raw / KIND {
        0 => Word::Zero,
        1 => Word::Undefined,
        2 => Word::Number(carried),
        3 => Word::DataPointer(carried),
        4 => Word::FunctionPointer(carried, level_of(raw % KIND / LEVEL)),
        5 => Word::Mutex(carried),
        6 => Word::Live(carried),
        _ => Word::Freed(carried),
    }
}

/// The word for which the 64 bits stand; none exactly where there is none.
pub fn unpack(raw: u64) -> Option<Word>
    ensures { MatchOption result (NothingPacksTo raw) (λ word. PacksTo word raw) }
{
    let word = candidate(raw);
    if word.is_in_range() && pack(word) == raw {
        Some(word)
    } else {
        None
    }
}
