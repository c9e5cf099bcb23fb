//! The texts of the answers, each written whole or up to the sink's fault.

ghost use Rattle.std.specs.Prelude.{◌≡◌, None, Some, decimal};
ghost use Rattle.rt_base.specs.Outside.{IsWritten};
ghost use Rattle.rtsan_core.specs.declared.status.Status.TheVariants.{Refused as StatusRefused};
ghost use Rattle.rtsan_core.specs.Causes.{Cause, NoCommand, NotBuilt, OutOfMemory, Unreadable, Undefined, refused_line, refusal_text, fault_text, type_text, limit_line};
ghost use Rattle.built_form.specs.Built.{AreCallsWithin};
ghost use Rattle.rtsan_core.specs.Found.{IsReady, IsNamedIn, cause_of, cause_to_stop, warned_of};
ghost use Rattle.rtsan_core.specs.Outcomes.{IsPrinted, answer_of, answer_by};
ghost use Rattle.rtsan_core.specs.Runs.{warned_text, run_text, endings_text};

use crate::ending::{run_status, warned_status};
use crate::finished::{Ended, Finished};
use crate::reading::{Found, Refusal};
use crate::status::Status;
use built_codegen::CompileRefusal;
use built_reports::{write_ending, write_reports};
use built_unit::Unit;
use core_unit::Which;
use eff_text::write_pieces;
use itoa::Buffer;
use rt_base::{Sink, SinkFault, write_all};
use warning_text::write_warnings;

/// The function that a run begins with.
pub const ENTRY: &str = "main";

/// Says that the words are no command.
pub fn print_usage<S: Sink>(out: &mut S) -> Status
    ensures { IsPrinted (answer_of NoCommand) result (S.state out.old) (S.state out.new) }
{
    print_text(out, Status::Usage, "usage: rtsan check FILE | step FILE\n")
}

/// Says that memory did not suffice.
pub fn print_no_memory<S: Sink>(out: &mut S) -> Status
    ensures { IsPrinted (answer_of OutOfMemory) result (S.state out.old) (S.state out.new) }
{
    print_text(out, Status::NoMemory, "rtsan: no memory\n")
}

/// Says why a file has no unit.
pub fn print_refusal<S: Sink>(out: &mut S, file: &str, refusal: Refusal) -> Status
    ensures { IsPrinted (answer_of (cause_of file.now refusal)) result (S.state out.old) (S.state out.new) }
{
    match refusal {
        Refusal::ReadFault => print_read_fault(out, file),
        Refusal::TooLong => print_text(out, Status::Limit, "rtsan: limit: source bytes\n"),
        Refusal::Misspelled {
            number,
            line,
            column,
        } => print_refused(out, file, line, column, "text", number, fault_text(number)),
        Refusal::Unread {
            number,
            line,
            column,
        } => print_refused(
            out,
            file,
            line,
            column,
            "parse",
            number,
            refusal_text(number),
        ),
        Refusal::Untyped {
            number,
            line,
            column,
        } => print_refused(out, file, line, column, "type", number, type_text(number)),
        Refusal::TooLarge(limit) => print_text(out, Status::Limit, limit_line(limit)),
        Refusal::NoMemory => print_no_memory(out),
    }
}

/// Says that a command isn't built for its file or its options yet.
pub fn print_not_built<S: Sink>(out: &mut S) -> Status
    ensures { IsPrinted (answer_of NotBuilt) result (S.state out.old) (S.state out.new) }
{
    print_text(out, Status::Refused, "rtsan: not built\n")
}

/// Says why a unit isn't compiled.
pub fn print_uncompiled<S: Sink>(out: &mut S, unit: &Unit, refusal: CompileRefusal) -> Status
    requires { IsNamedIn unit.now refusal }
    ensures { IsPrinted (answer_of (cause_to_stop unit.now refusal)) result (S.state out.old) (S.state out.new) }
{
    match refusal {
        CompileRefusal::NoEntry => print_unlinked(out, ENTRY),
        CompileRefusal::Undefined(function) => print_unlinked(out, unit.target_name(function)),
        CompileRefusal::Long => print_text(out, Status::Limit, "rtsan: limit: code\n"),
        CompileRefusal::NoMemory => print_no_memory(out),
    }
}

/// Writes what is warned of.
pub fn print_warnings<S: Sink>(out: &mut S, file: &str, found: &Found) -> Status
    requires { IsReady found.now }
    ensures { IsPrinted (answer_by (warned_of file.now found.now) None) result (S.state out.old) (S.state out.new) }
{
    let status = warned_status(found);
    match write_warned(out, file, found) {
        Ok(()) => status,
        Err(SinkFault) => Status::WriteFault,
    }
}

/// Writes what is warned of, and what the run of the unit left: the reports, and the endings of its threads.
pub fn print_run<S: Sink>(
    out: &mut S,
    file: &str,
    found: &Found,
    unit: &Unit,
    finished: &Finished,
) -> Status
    requires ready { IsReady found.now }
    requires placed { AreCallsWithin found.now.source unit.now }
    ensures { IsPrinted (answer_by (warned_of file.now found.now) (Some (record { unit = unit.now; finished = finished.now }))) result (S.state out.old) (S.state out.new) }
{
    let status = run_status(warned_status(found), finished);
    match write_run(out, file, found, unit, finished) {
        Ok(()) => status,
        Err(SinkFault) => Status::WriteFault,
    }
}

/// Writes the text of what is warned of.
fn write_warned<S: Sink>(out: &mut S, file: &str, found: &Found) -> Result<(), SinkFault>
    requires { IsReady found.now }
    ensures { IsWritten (warned_text (warned_of file.now found.now)) result (S.state out.old) (S.state out.new) }
{
    let read = &found.read;
    write_warnings(
        file,
        found.source.as_slice(),
        &read.unit,
        read.warnings.as_slice(),
        &found.verdicts,
        out,
    )
}

/// Writes the text of a run.
#[tactic(auto, unfolding(crate::specs::Runs::run_text))]
fn write_run<S: Sink>(
    out: &mut S,
    file: &str,
    found: &Found,
    unit: &Unit,
    finished: &Finished,
) -> Result<(), SinkFault>
    requires ready { IsReady found.now }
    requires placed { AreCallsWithin found.now.source unit.now }
    ensures { IsWritten (run_text (warned_of file.now found.now) (record { unit = unit.now; finished = finished.now })) result (S.state out.old) (S.state out.new) }
{
    write_warned(out, file, found)?;
    write_reports(unit, found.source.as_slice(), &finished.stacks, out)?;
    write_endings(finished.threads.as_slice(), out)
}

/// Writes how the threads ended, a line for each.
fn write_endings<S: Sink>(threads: &[Ended], out: &mut S) -> Result<(), SinkFault>
    ensures { IsWritten (endings_text threads.now) result (S.state out.old) (S.state out.new) }
{
    'each: for thread in threads {
        write_ending(thread.number, thread.end, out)?;
    }
    Ok(())
}

/// Writes a text that stands whole in the program.
fn print_text<S: Sink>(out: &mut S, status: Status, text: &str) -> Status
    ensures { IsPrinted (record { status = status; text = text.now }) result (S.state out.old) (S.state out.new) }
{
    match write_all(out, text.as_bytes()) {
        Ok(()) => status,
        Err(SinkFault) => Status::WriteFault,
    }
}

/// Says that a file could not be read.
fn print_read_fault<S: Sink>(out: &mut S, file: &str) -> Status
    ensures { IsPrinted (answer_of (Unreadable file.now)) result (S.state out.old) (S.state out.new) }
{
    match write_pieces(&["rtsan: read fault: ", file, "\n"], out) {
        Ok(()) => Status::ReadFault,
        Err(SinkFault) => Status::WriteFault,
    }
}

/// Says that a function has no definition.
fn print_unlinked<S: Sink>(out: &mut S, name: &str) -> Status
    ensures { IsPrinted (answer_of (Undefined name.now)) result (S.state out.old) (S.state out.new) }
{
    match write_pieces(&["rtsan: unlinked: ", name, "\n"], out) {
        Ok(()) => Status::Unlinked,
        Err(SinkFault) => Status::WriteFault,
    }
}

/// Says where a source is refused, and why.
fn print_refused<S: Sink>(
    out: &mut S,
    file: &str,
    line: u32,
    column: u32,
    layer: &'static str,
    number: u8,
    text: &'static str,
) -> Status
    ensures { IsPrinted (record { status = StatusRefused; text = refused_line file.now (decimal line) (decimal column) layer.now (decimal number) text.now }) result (S.state out.old) (S.state out.new) }
{
    let mut line_buffer = Buffer::new();
    let mut column_buffer = Buffer::new();
    let mut number_buffer = Buffer::new();
    let line = line_buffer.format(line);
    let column = column_buffer.format(column);
    let number = number_buffer.format(number);
    match write_refused_line(file, line, column, layer, number, text, out) {
        Ok(()) => Status::Refused,
        Err(SinkFault) => Status::WriteFault,
    }
}

#[tactic(auto, unfolding(crate::specs::Causes::refused_line))]
fn write_refused_line<'a, S: Sink>(
    file: &'a str,
    line: &'a str,
    column: &'a str,
    layer: &'a str,
    number: &'a str,
    text: &'a str,
    out: &mut S,
) -> Result<(), SinkFault>
    ensures { IsWritten (refused_line file.now line.now column.now layer.now number.now text.now) result (S.state out.old) (S.state out.new) }
{
    let pieces = [
        file,
        ":",
        line,
        ":",
        column,
        ": refused: ",
        layer,
        " ",
        number,
        " ",
        text,
        "\n",
    ];
    write_pieces(&pieces, out)
}

/// Why a token is refused, by its number from 1 to 4.
fn refusal_text(number: u8) -> &'static str
    ensures { result.now ≡ refusal_text number }
{
    match number {
        1 => "token not expected",
        2 => "nesting over 200",
        3 => "reserved name declared",
        _ => "construct left out",
    }
}

/// Which rule of typing is broken, by its number from 1 to 11.
fn type_text(number: u8) -> &'static str
    ensures { result.now ≡ type_text number }
{
    match number {
        1 => "unknown name",
        2 => "redefinition",
        3 => "type mismatch",
        4 => "effects conflict",
        5 => "wrong count of arguments",
        6 => "not an lvalue",
        7 => "not constant",
        8 => "unknown member",
        9 => "bad initializer",
        10 => "incomplete type",
        _ => "left-out conversion",
    }
}

/// The line of a limit that a unit passes.
fn limit_line(limit: Which) -> &'static str
    ensures { result.now ≡ limit_line limit }
{
    match limit {
        Which::Functions => "rtsan: limit: functions\n",
        Which::Parameters => "rtsan: limit: parameters\n",
        Which::CallSites => "rtsan: limit: call sites\n",
        Which::StaticWords => "rtsan: limit: static words\n",
        Which::ThreadWords => "rtsan: limit: thread words\n",
        Which::FrameWords => "rtsan: limit: frame words\n",
    }
}

/// What is wrong at a fault of the spelling, by its number from 1 to 6.
fn fault_text(number: u8) -> &'static str
    ensures { result.now ≡ fault_text number }
{
    match number {
        1 => "bad byte",
        2 => "open comment",
        3 => "open string",
        4 => "number out of range",
        5 => "unknown escape",
        _ => "bad directive",
    }
}
