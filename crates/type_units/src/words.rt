//! What the words of objects hold at first.

ghost use Rattle.std.specs.Prelude.{◌≡◌, IfOk};
ghost use Rattle.core_unit.specs.Words.{packed};
ghost use Rattle.eff_types.specs.Effects.{rank};
ghost use Rattle.type_rules.specs.Units as units;
ghost use Rattle.type_units.specs.Words as spec;

use core_unit::{Word, WordList};
use eff_types::Level;
use sqlite_items::Items;
use std::alloc::{AllocError, Global};
use type_rules::Initial;

/// The kinds of words: a word is the number of its kind times this, and what it carries.
const KIND: u64 = 1 << 60;
/// A function pointer carries its level times this, and the number of its function.
const LEVEL: u64 = 1 << 32;

fn rank_of(level: Level) -> u64
    ensures { result ≡ rank level }
{
    match level {
        Level::Plain => 0,
        Level::NonAllocating => 1,
        Level::NonBlocking => 2,
    }
}

/// The 64 bits that stand for a word, whatever it carries.
#[tactic(auto, unfolding(core_unit::specs::Words::packed))]
fn bits_of(word: Word) -> u64
    ensures { result ≡ packed word }
{
    match word {
        Word::Zero => 0,
        Word::Undefined => KIND,
        Word::Number(bits) => 2 * KIND + bits as u64,
        Word::DataPointer(address) => 3 * KIND + address as u64,
        Word::FunctionPointer(function, level) => {
            4 * KIND + rank_of(level) * LEVEL + function as u64
        }
        Word::Mutex(thread) => 5 * KIND + thread as u64,
        Word::Live(words) => 6 * KIND + words as u64,
        Word::Freed(words) => 7 * KIND + words as u64,
    }
}

/// Puts what a word holds at first into the words from this place on, where it is one of them.
fn put(words: &mut Vec<u64>, first: u32, note: &Initial)
    ensures { words.new.items ≡ spec.with_initial first note.now words.old.items }
{
    if note.at < first {
        return;
    }
    let at = (note.at - first) as usize;
    if at < words.len() {
        words[at] = bits_of(note.word);
    }
}

/// What so many words hold at first, from this place on: zero where nothing is noted of a word, and else what is noted last. The one
/// error is that no memory is left.
#[tactic(auto, using(crate::proofs::Initials::word_rules))]
pub(crate) fn words_from(
    alloc: Global,
    first: u32,
    count: u32,
    notes: &[Initial],
) -> Result<WordList, AllocError>
    ensures { IfOk result (λ words. words ≡ units.words_from first count notes.now) }
{
    let mut words = Vec::new(alloc);
    words.resize(count as usize, 0)?;
    'each: for note in notes {
        put(&mut words, first, note);
    }
    Ok(Items::from_vec(words))
}
