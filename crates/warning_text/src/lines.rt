//! Lines about places of a source.

ghost use Rattle.c_text.specs.declared.limits.TheConstants.{SOURCE_LIMIT};
ghost use Rattle.std.specs.Prelude.{◌≡◌, ◌≤◌, length};
ghost use Rattle.std.specs.List.{flat_map};
ghost use Rattle.printing.specs.Gathered.{IsGathered};
ghost use Rattle.printing.specs.Table.{seen};
ghost use Rattle.warning_text.specs.WarningText.{line_at, head_of, warning_line, note_line};

use itoa::Buffer;
use printing::{LineAt, LineTable, TextBuffer};
use rt_base::{Sink, SinkFault};
use std::marker::Model;

/// A source by the name under which it is printed.
#[derive(Drop)]
pub struct SourceFile<'a> {
    file: &'a str,
    lines: LineTable<'a>,
}

impl<'a> Model for SourceFile<'a> {
    ghost use Rattle.warning_text.specs.WarningText.{NamedSource};

    ghost Value = { NamedSource };

    ghost view = { λ s. record { file = s.file.now; bytes = s.lines } };
}

impl<'a> SourceFile<'a> {
    /// The source of these bytes under this name.
    pub fn new(file: &'a str, source: &'a [u8]) -> SourceFile<'a>
        requires { length source.now ≤ SOURCE_LIMIT }
        ensures { result ≡ record { file = file.now; bytes = source.now } }
    {
        SourceFile {
            file,
            lines: LineTable::new(source),
        }
    }

    /// Writes the line of a warning at a place.
    pub fn write_warning<S: Sink>(
        &self,
        place: u32,
        message: &[&str],
        text: &mut TextBuffer,
        out: &mut S,
    ) -> Result<(), SinkFault>
        ensures { IsGathered (warning_line self.now place (flat_map (λ piece. piece.now) message.now)) result text.old (S.state out.old) text.new (S.state out.new) }
    {
        let at = self.lines.line_column(place);
        write_line(
            self.file,
            at,
            ": warning: ",
            message,
            " [-Wfunction-effects]\n",
            text,
            out,
        )
    }

    /// Writes the line of a note at a place.
    pub fn write_note<S: Sink>(
        &self,
        place: u32,
        message: &[&str],
        text: &mut TextBuffer,
        out: &mut S,
    ) -> Result<(), SinkFault>
        ensures { IsGathered (note_line self.now place (flat_map (λ piece. piece.now) message.now)) result text.old (S.state out.old) text.new (S.state out.new) }
    {
        let at = self.lines.line_column(place);
        write_line(self.file, at, ": note: ", message, "\n", text, out)
    }
}

// Writes a line: where it stands, what it is, the message, and what ends it.
fn write_line<S: Sink>(
    file: &str,
    at: LineAt,
    sort: &str,
    message: &[&str],
    end: &str,
    text: &mut TextBuffer,
    out: &mut S,
) -> Result<(), SinkFault>
    ensures { IsGathered (line_at file.now (seen at) sort.now (flat_map (λ piece. piece.now) message.now) end.now) result text.old (S.state out.old) text.new (S.state out.new) }
{
    let mut line = Buffer::new();
    let mut column = Buffer::new();
    let line = line.format(at.line);
    let column = column.format(at.column);
    write_head(file, line, column, sort, text, out)?;
    text.write_pieces(message, out)?;
    text.write(end.as_bytes(), out)
}

#[tactic(auto, unfolding(crate::specs::WarningText::head_of))]
fn write_head<'a, S: Sink>(
    file: &'a str,
    line: &'a str,
    column: &'a str,
    sort: &'a str,
    text: &mut TextBuffer,
    out: &mut S,
) -> Result<(), SinkFault>
    ensures { IsGathered (head_of file.now line.now column.now sort.now) result text.old (S.state out.old) text.new (S.state out.new) }
{
    let pieces = [file, ":", line, ":", column, sort];
    text.write_pieces(&pieces, out)
}
