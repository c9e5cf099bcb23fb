//! The line of an ending.

ghost use Rattle.std.specs.Prelude.{◌≡◌, ◌++◌};
ghost use Rattle.printing.specs.Gathered.{IsGathered};
ghost use Rattle.thread_text.specs.ThreadText.{ending_line, end_text};
ghost use Rattle.thread_text.specs.ThreadText as spec;

use arithmetic::TrapKind;
use itoa::Buffer;
use printing::TextBuffer;
use rt_base::{Sink, SinkFault};
use src_model::{End, Options};

/// Writes how a thread ended, by its number.
#[tactic(auto, unfolding(crate::specs::ThreadText::ending_line))]
pub(crate) fn write_ending<S: Sink>(
    options: &Options,
    number: u32,
    end: End,
    text: &mut TextBuffer,
    out: &mut S,
) -> Result<(), SinkFault>
    ensures { IsGathered (ending_line options.now number end) result text.old (S.state out.old) text.new (S.state out.new) }
{
    let mut number_digits = Buffer::new();
    let mut end_digits = Buffer::new();
    let number = number_digits.format(number);
    let (verb, detail, unit) = end_words(options, end, &mut end_digits);
    let pieces = ["thread ", number, ": ", verb, detail, unit, "\n"];
    text.write_pieces(&pieces, out)
}

// How a thread ended, as three texts.
fn end_words<'a>(options: &Options, end: End, digits: &'a mut Buffer) -> (&'a str, &'a str, &'a str)
    ensures { result.0.now ++ result.1.now ++ result.2.now ≡ end_text options.now end }
{
    match end {
        End::Returned => ("returned", "", ""),
        End::Exited(number) => ("exited ", digits.format(number), ""),
        End::Trapped(kind) => ("trapped ", trap_name(kind), ""),
        End::Halted => ("halted", "", ""),
        End::Stopped => ("stopped after ", digits.format(options.events), " events"),
        End::Waiting => (
            "waiting after ",
            digits.format(options.wait_limit),
            " tries",
        ),
        End::Full => ("full", "", ""),
    }
}

// The printed name of a kind of trap.
fn trap_name(kind: TrapKind) -> &'static str
    ensures { result.now ≡ spec.trap_name kind }
{
    match kind {
        TrapKind::NullAccess => "null-access",
        TrapKind::BadAccess => "bad-access",
        TrapKind::BadPointer => "bad-pointer",
        TrapKind::BadWord => "bad-word",
        TrapKind::Overflow => "overflow",
        TrapKind::Division => "division",
        TrapKind::Shift => "shift",
        TrapKind::NullCall => "null-call",
        TrapKind::StackOverflow => "stack-overflow",
        TrapKind::BadFree => "bad-free",
        TrapKind::BadUnlock => "bad-unlock",
        TrapKind::NoreturnReturned => "noreturn-returned",
        TrapKind::NoValue => "no-value",
        TrapKind::Abort => "abort",
    }
}
