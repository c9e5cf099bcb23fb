// Suppression files.
ghost use Rattle.std.specs.Prelude.{◌≡◌, ◌≤◌, ◌⊎◌, ℕ, length, OnOk, IfOk, IfErr, None};
ghost use Rattle.suppress.specs.Lines.{lines_of};
ghost use Rattle.suppress.specs.Meaning.{meaning_of, suppression_in};
ghost use Rattle.suppress.specs.File.{NoFault, IsFirstFault, suppressions_in, fault_of, IsRefusal, IsRefusalAt};

use crate::line::{Line, next_line, read_line};
use crate::pattern::Pattern;
use crate::suppressions::{Suppression, Suppressions};
use std::alloc::{AllocError, AllocFailed, Global};
use thiserror::Error;

/// The most lines that a suppression file may have.
const LINE_LIMIT: u32 = 1000;
/// The fault of a line past the limit.
const OVER_LINE_LIMIT: u8 = 3;

/// Why a suppression file was refused.
#[derive(Debug, Drop, Error)]
pub enum SupRefusal {
    /// The first bad line, counted from 1, and its fault: 1 unknown kind, 2 empty pattern, 3 past the
    /// thousandth line.
    #[error("line {line}: suppression fault {number}")]
    Bad {
        /// The fault.
        number: u8,
        /// The line, counted from 1.
        line: u32,
    },
    /// Memory ran out.
    #[error("no memory")]
    NoMemory,
}

impl From<AllocError> for SupRefusal {
    ghost use Rattle.suppress.specs.declared.file.SupRefusal.TheVariants.{NoMemory};

    ghost from_gives = { λ _ e. e ≡ NoMemory };

    fn from(_error: AllocError) -> SupRefusal {
        SupRefusal::NoMemory
    }
}

impl<T: Drop> From<AllocFailed<T>> for SupRefusal {
    ghost use Rattle.suppress.specs.declared.file.SupRefusal.TheVariants.{NoMemory};

    ghost from_gives = { λ _ e. e ≡ NoMemory };

    fn from(_error: AllocFailed<T>) -> SupRefusal {
        SupRefusal::NoMemory
    }
}

/// Reads a suppression file. Lines end by LF, a last one that is not empty also by the end of the file,
/// and one CR before either end is dropped. Empty lines and lines that begin with `#` say nothing; each
/// other line is a kind, `:` and a pattern. The answer has the lines' suppressions in order. The kinds
/// are those of Clang's manual 'RealtimeSanitizer', and the rest is this project's own rule.
///
/// # Errors
///
/// `Bad` comes exactly where a line is bad, and names the first such line, counted from 1, and its
/// fault: 1 unknown kind, 2 empty pattern, 3 past the thousandth line.
pub fn read(alloc: Global, text: &[u8]) -> Result<Suppressions, SupRefusal>
    ensures accepted { OnOk result (NoFault (lines_of text.now)) }
    ensures suppressions { IfOk result (λ all. all ≡ suppressions_in (lines_of text.now)) }
    ensures refused { IfErr result (IsRefusal (lines_of text.now)) }

    // A file with a bad line is refused at the first one, or for want of memory.
    ensures faulty { (number line : ℕ) → IsFirstFault (lines_of text.now) number line
        → (result ≡ Err (SupRefusal.Bad number line)) ⊎ (result ≡ Err SupRefusal.NoMemory) }
{
    let entries = read_entries(alloc, text)?;
    Ok(Suppressions::of(entries))
}

/// The suppressions of the lines of `text`, in order.
fn read_entries(alloc: Global, text: &[u8]) -> Result<Vec<Suppression>, SupRefusal>
    ensures accepted { OnOk result (NoFault (lines_of text.now)) }
    ensures suppressions { IfOk result (λ entries. entries.items ≡ suppressions_in (lines_of text.now)) }
    ensures refused { IfErr result (IsRefusal (lines_of text.now)) }
{
    let mut entries = Vec::new(alloc);
    let mut rest = text;
    let mut number: u32 = 0;
    while let Some((line, later)) = next_line(rest) {
        number += 1;
        if let Some(entry) = read_entry(alloc, number, line)? {
            entries.push(entry)?;
        }
        rest = later;
    }
    Ok(entries)
}

/// The suppression that the line with this number names, if it names one.
fn read_entry(alloc: Global, number: u32, line: &[u8]) -> Result<Option<Suppression>, SupRefusal>
    ensures entry { IfOk result (λ entry. entry ≡ suppression_in (meaning_of line.now)) }
    ensures accepted { OnOk result (fault_of number line.now ≡ None) }
    ensures refused { IfErr result (IsRefusalAt number line.now) }
{
    if number > LINE_LIMIT {
        return Err(SupRefusal::Bad {
            number: OVER_LINE_LIMIT,
            line: number,
        });
    }
    match read_line(line) {
        Line::Silent => Ok(None),
        Line::Faulty(fault) => Err(SupRefusal::Bad {
            number: fault,
            line: number,
        }),
        Line::States(kind, bytes) => {
            let pattern = Pattern::parse(alloc, bytes)?;
            Ok(Some(Suppression { kind, pattern }))
        }
    }
}
