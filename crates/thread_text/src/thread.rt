//! The whole text of a thread.

ghost use Rattle.printing.specs.Gathered.{IsGathered};
ghost use Rattle.rt_base.specs.Outside.{IsWritten};
ghost use Rattle.thread_text.specs.ThreadText.{thread_text};

use crate::ending::write_ending;
use crate::output::write_output;
use printing::TextBuffer;
use rt_base::{Sink, SinkFault};
use src_model::{End, Options};

/// Writes how a thread ended, and what it wrote: the bytes that were kept, and how many later ones were dropped. The limits that a text
/// names are those of the options. At a fault, which comes only where the sink's count of faults rose, a prefix of the text was taken. It
/// takes no memory.
pub fn write_thread<S: Sink>(
    options: &Options,
    number: u32,
    end: End,
    output: &[u8],
    dropped: u64,
    out: &mut S,
) -> Result<(), SinkFault>
    ensures { IsWritten (thread_text options.now number end output.now dropped) result (S.state out.old) (S.state out.new) }
{
    let mut text = TextBuffer::new();
    gather_thread(options, number, end, output, dropped, &mut text, out)?;
    text.flush(out)
}

/// The same through a buffer that other texts are gathered in.
pub fn gather_thread<S: Sink>(
    options: &Options,
    number: u32,
    end: End,
    output: &[u8],
    dropped: u64,
    text: &mut TextBuffer,
    out: &mut S,
) -> Result<(), SinkFault>
    ensures { IsGathered (thread_text options.now number end output.now dropped) result text.old (S.state out.old) text.new (S.state out.new) }
{
    write_ending(options, number, end, text, out)?;
    write_output(number, output, dropped, text, out)
}
