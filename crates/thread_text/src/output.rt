//! What a thread wrote, with the lines before and behind it.

ghost use Rattle.std.specs.Prelude.{◌≡◌, ◌<◌, length};
ghost use Rattle.printing.specs.Gathered.{IsGathered};
ghost use Rattle.thread_text.specs.ThreadText.{output_line, dropped_line, dropped_text, kept_text, output_text};
ghost use Rattle.thread_text.specs.ThreadText as spec;

use itoa::Buffer;
use printing::TextBuffer;
use rt_base::{Sink, SinkFault};

/// Writes what was kept of a thread's bytes, and how many were dropped; nothing where none was kept.
pub(crate) fn write_output<S: Sink>(
    number: u32,
    output: &[u8],
    dropped: u64,
    text: &mut TextBuffer,
    out: &mut S,
) -> Result<(), SinkFault>
    ensures { IsGathered (output_text number output.now dropped) result text.old (S.state out.old) text.new (S.state out.new) }
{
    if output.is_empty() {
        return Ok(());
    }
    write_kept(number, output, text, out)?;
    write_dropped(number, dropped, text, out)
}

// Writes what was kept, with the line in front of it.
fn write_kept<S: Sink>(
    number: u32,
    output: &[u8],
    text: &mut TextBuffer,
    out: &mut S,
) -> Result<(), SinkFault>
    requires { 0 < length output.now }
    ensures { IsGathered (kept_text number output.now) result text.old (S.state out.old) text.new (S.state out.new) }
{
    write_output_line(number, output.len(), text, out)?;
    text.write(output, out)?;
    text.write(line_end(output).as_bytes(), out)
}

// Writes how many bytes were kept.
#[tactic(auto, unfolding(crate::specs::ThreadText::output_line))]
fn write_output_line<S: Sink>(
    number: u32,
    kept: usize,
    text: &mut TextBuffer,
    out: &mut S,
) -> Result<(), SinkFault>
    ensures { IsGathered (output_line number kept) result text.old (S.state out.old) text.new (S.state out.new) }
{
    let mut number_digits = Buffer::new();
    let mut kept_digits = Buffer::new();
    let number = number_digits.format(number);
    let kept = kept_digits.format(kept);
    let pieces = ["thread ", number, " output ", kept, "\n"];
    text.write_pieces(&pieces, out)
}

// What has to follow these bytes so that they end with an end of line.
fn line_end(bytes: &[u8]) -> &'static str
    requires { 0 < length bytes.now }
    ensures { result.now ≡ spec.line_end bytes.now }
{
    if bytes[bytes.len() - 1] == b'\n' {
        ""
    } else {
        "\n"
    }
}

// Writes how many bytes were dropped, if any were.
fn write_dropped<S: Sink>(
    number: u32,
    dropped: u64,
    text: &mut TextBuffer,
    out: &mut S,
) -> Result<(), SinkFault>
    ensures { IsGathered (dropped_text number dropped) result text.old (S.state out.old) text.new (S.state out.new) }
{
    if dropped == 0 {
        return Ok(());
    }
    write_dropped_line(number, dropped, text, out)
}

#[tactic(auto, unfolding(crate::specs::ThreadText::dropped_line))]
fn write_dropped_line<S: Sink>(
    number: u32,
    dropped: u64,
    text: &mut TextBuffer,
    out: &mut S,
) -> Result<(), SinkFault>
    ensures { IsGathered (dropped_line number dropped) result text.old (S.state out.old) text.new (S.state out.new) }
{
    let mut number_digits = Buffer::new();
    let mut dropped_digits = Buffer::new();
    let number = number_digits.format(number);
    let dropped = dropped_digits.format(dropped);
    let pieces = ["thread ", number, " dropped ", dropped, "\n"];
    text.write_pieces(&pieces, out)
}
