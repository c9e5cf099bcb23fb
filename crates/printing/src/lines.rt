//! Lines and columns of places in any order.

ghost use Rattle.c_text.specs.declared.limits.TheConstants.{SOURCE_LIMIT};
ghost use Rattle.std.specs.Prelude.{◌≡◌, ◌≤◌, ◌<◌, ◌+◌, ◌*◌, length};
ghost use Rattle.c_text.specs.Place.{line_column, IsAt};
ghost use Rattle.printing.specs.Table.{AreMarks, IsTable, seen};

use arrayvec::ArrayVec;
use c_text::LineCursor;
use std::marker::Model;

// How many bytes lie between two marks.
const STEP: u32 = 64;
// One mark for each step of the longest source, and one for its end.
const MARKS: usize = 16385;

/// A line and a column, both from 1.
#[derive(Clone, Copy, Default)]
pub struct LineAt {
    pub line: u32,
    pub column: u32,
}

/// A source of at most 1,048,576 bytes, with the lines and columns of places in even steps. It takes no memory.
#[derive(Drop)]
pub struct LineTable<'a> {
    source: &'a [u8],
    marks: ArrayVec<LineAt, MARKS>,
}

impl<'a> Model for LineTable<'a> {
    ghost use Rattle.std.specs.Prelude.{List, ℕ};
    ghost use Rattle.printing.specs.Table.{IsTable};

    ghost Value = { List ℕ };

    ghost view = { λ t. t.source.now };

    ghost invariant = { λ t. IsTable t.source.now t.marks.items };
}

// A mark for every 64th place of the source, from its start on.
fn marks_of(source: &[u8]) -> ArrayVec<LineAt, MARKS>
    requires { length source.now ≤ SOURCE_LIMIT }
    ensures sized { length source.now < length result.items * 64 }
    ensures marks { AreMarks source.now (length result.items) result.items }
{
    let mut marks = ArrayVec::new();
    let mut cursor = LineCursor::start();
    'each: for mark in 0..source.len() as u32 / STEP + 1 {
        cursor = cursor.advance(source, mark * STEP);
        marks.push(LineAt {
            line: cursor.line,
            column: cursor.column,
        });
    }
    marks
}

// The last mark that isn't behind the place.
#[tactic(auto, using(crate::proofs::Marked::mark_stands, crate::proofs::Marked::mark_tells))]
fn cursor_before(source: &[u8], marks: &[LineAt], place: u32) -> LineCursor
    requires table { IsTable source.now marks.now }
    requires within { place ≤ length source.now }
    ensures at { IsAt source.now result }
    ensures onward { result.place ≤ place }
{
    let index = place / STEP;
    let mark = marks[index as usize];
    LineCursor {
        place: index * STEP,
        line: mark.line,
        column: mark.column,
    }
}

impl<'a> LineTable<'a> {
    /// The table of a source, made in one walk over it.
    pub fn new(source: &'a [u8]) -> LineTable<'a>
        requires { length source.now ≤ SOURCE_LIMIT }
        ensures { result ≡ source.now }
    {
        LineTable {
            source,
            marks: marks_of(source),
        }
    }

    /// The line and the column of a place, a byte offset from 0; of the end, where the place stands behind it. It reads at most 64 bytes.
    #[tactic(auto, using(crate::proofs::Marked::clamped))]
    pub fn line_column(&self, place: u32) -> LineAt
        ensures { seen result ≡ line_column self.now place }
    {
        let source = self.source;
        let place = place.min(source.len() as u32);
        let cursor = cursor_before(source, self.marks.as_slice(), place).advance(source, place);
        LineAt {
            line: cursor.line,
            column: cursor.column,
        }
    }
}
