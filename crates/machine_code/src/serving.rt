//! Which words a load takes.

ghost use Rattle.std.specs.Prelude.{◌≡◌};
ghost use Rattle.mcode.specs.Machine as spec;

use crate::code::Code;
use crate::words::is_at_least;
use core_unit::Word;
use eff_types::Level;
use mcode::{Entry, Served};

/// Whether a word for a function serves a load of pointers to functions.
fn serves_function(entry: Option<Entry>, level: Level, kind: Served) -> bool
    ensures { result ≡ spec.serves_function entry level kind }
{
    match entry {
        None => false,
        Some(entry) => match kind {
            Served::FunctionPointer(signature, least) => {
                if entry.signature == signature {
                    is_at_least(level, least)
                } else {
                    false
                }
            }
            Served::Number => false,
            Served::DataPointer => false,
            Served::Nothing => false,
        },
    }
}

fn is_number(kind: Served) -> bool
    ensures { result ≡ spec.is_number_served kind }
{
    match kind {
        Served::Number => true,
        Served::DataPointer | Served::FunctionPointer(_, _) | Served::Nothing => false,
    }
}

fn is_pointer(kind: Served) -> bool
    ensures { result ≡ spec.is_pointer_served kind }
{
    match kind {
        Served::DataPointer => true,
        Served::Number | Served::FunctionPointer(_, _) | Served::Nothing => false,
    }
}

/// Whether a word may be loaded.
pub(crate) fn serves(code: &Code, kind: Served, word: Word) -> bool
    ensures { result ≡ spec.serves_at code.now kind word }
{
    match word {
        Word::Zero => true,
        Word::Number(_) => is_number(kind),
        Word::DataPointer(_) => is_pointer(kind),
        Word::FunctionPointer(function, level) => {
            serves_function(code.entry_of(function), level, kind)
        }
        Word::Undefined => false,
        Word::Mutex(_) => false,
        Word::Live(_) => false,
        Word::Freed(_) => false,
    }
}
