//! Lines and columns of places.

ghost use Rattle.std.specs.Prelude.{◌≡◌, ℕ, ◌+◌, ◌<◌, ◌≤◌, List, length};
ghost use Rattle.c_text.specs.Place.{line_column, IsAt};
ghost use Rattle.c_text.specs.declared.limits.TheConstants.{SOURCE_LIMIT};

/// A place of a source with its line and column, for a caller that goes through rising places.
#[derive(Clone, Copy)]
pub struct LineCursor {
    /// the byte offset from 0
    pub place: u32,
    /// from 1
    pub line: u32,
    /// from 1, in bytes
    pub column: u32,
}

impl LineCursor {
    /// The start of every source.
    pub fn start() -> LineCursor
        ensures place { result.place ≡ 0 }
        ensures at { (source : List ℕ) → IsAt source result }
    {
        LineCursor {
            place: 0,
            line: 1,
            column: 1,
        }
    }

    /// The cursor at a place that is not before its own. It reads the bytes between the two alone.
    pub fn advance(self, source: &[u8], place: u32) -> LineCursor
        requires short { length source.now ≤ SOURCE_LIMIT }
        requires at { IsAt source.now self }
        requires onward { self.place ≤ place }
        requires within { place ≤ length source.now }
        ensures place { result.place ≡ place }
        ensures at { IsAt source.now result }
    {
        let mut line = self.line;
        let mut column = self.column;
        for byte in &source[self.place as usize..place as usize] {
            if *byte == b'\n' {
                line += 1;
                column = 1;
            } else {
                column += 1;
            }
        }
        LineCursor {
            place,
            line,
            column,
        }
    }
}

/// The line and the column of a place, a byte offset from 0. Both count from 1: a line feed ends its line, and each byte is one column.
pub fn line_column(source: &[u8], place: u32) -> (u32, u32)
    requires short { length source.now ≤ SOURCE_LIMIT }
    requires within { place ≤ length source.now }
    ensures line { result.0 ≡ (line_column source.now place).line }
    ensures column { result.1 ≡ (line_column source.now place).column }
{
    let cursor = LineCursor::start().advance(source, place);
    (cursor.line, cursor.column)
}
