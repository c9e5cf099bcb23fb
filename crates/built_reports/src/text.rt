//! The printed text of a run: its reports and the endings of its threads.

ghost use Rattle.std.specs.Prelude.{◌≡◌, ◌++◌, ◌≤◌, length, reverse, All};
ghost use Rattle.c_text.specs.Place.{line_column};
ghost use Rattle.rt_base.specs.Outside.{IsWritten};
ghost use Rattle.eff_text.specs.WarningText.{function_name};
ghost use Rattle.built_reports.specs.RunText.{reports_text, report_text, callers_text, caller_at, caller_line, head_lines, place_of, trap_name, end_text, thread_line};
ghost use Rattle.c_text.specs.declared.limits.TheConstants.{SOURCE_LIMIT};

use crate::stacks::{StackCount, StackList};
use built_code::TrapKind;
use built_model::End;
use built_unit::Unit;
use c_text::line_column;
use command::{EVENT_LIMIT, WAIT_LIMIT};
use ctx_set::StackStep;
use eff_text::write_pieces;
use itoa::Buffer;
use rt_base::{Sink, SinkFault};

/// Writes the reports of a run, one for each stack, in the order of the list: the reached function, and below it each
/// function that it was called from, innermost first, with the place of the call. The source is that of the unit. At a
/// fault, which comes only where the sink's count of faults rose, a prefix of the text was taken. It takes no memory.
pub fn write_reports<S: Sink>(
    unit: &Unit,
    source: &[u8],
    stacks: &StackList,
    out: &mut S,
) -> Result<(), SinkFault>
    requires short { length source.now ≤ SOURCE_LIMIT }
    requires within { All (λ site. site.place ≤ length source.now) unit.now.sites }
    ensures { IsWritten (reports_text source.now unit.now stacks.now) result (S.state out.old) (S.state out.new) }
{
    'each: for counted in stacks.as_slice() {
        write_report(unit, source, counted, out)?;
    }
    Ok(())
}

// Writes the report of a stack. An empty stack has none.
fn write_report<S: Sink>(
    unit: &Unit,
    source: &[u8],
    counted: &StackCount,
    out: &mut S,
) -> Result<(), SinkFault>
    requires short { length source.now ≤ SOURCE_LIMIT }
    requires within { All (λ site. site.place ≤ length source.now) unit.now.sites }
    ensures { IsWritten (report_text source.now unit.now counted.now) result (S.state out.old) (S.state out.new) }
{
    let Some((reached, callers)) = counted.stack.as_slice().split_last() else {
        return Ok(());
    };
    let mut digits = Buffer::new();
    let name = function_name(unit, reached.target);
    write_head(name, digits.format(counted.count), out)?;
    write_callers(unit, source, reached.site, callers, out)
}

// Writes the first line of a report and the line of the reached function.
#[tactic(auto, unfolding(crate::specs::RunText::head_lines))]
fn write_head<'a, S: Sink>(name: &'a str, count: &'a str, out: &mut S) -> Result<(), SinkFault>
    ensures { IsWritten (head_lines name.now count.now) result (S.state out.old) (S.state out.new) }
{
    let pieces = [
        "error: blocking-call: '",
        name,
        "' called in a real-time context, count ",
        count,
        "\n",
        "  #0 ",
        name,
        "\n",
    ];
    write_pieces(&pieces, out)
}

// Writes the lines of the functions below one that was entered from the site; the last of them stands first.
fn write_callers<S: Sink>(
    unit: &Unit,
    source: &[u8],
    mut site: u32,
    callers: &[StackStep],
    out: &mut S,
) -> Result<(), SinkFault>
    requires short { length source.now ≤ SOURCE_LIMIT }
    requires within { All (λ site. site.place ≤ length source.now) unit.now.sites }
    ensures { IsWritten (callers_text source.now unit.now 1 site (reverse callers.now)) result (S.state out.old) (S.state out.new) }
{
    let mut index: usize = 1;
    let mut rest = callers;
    'each: while let Some((step, below)) = rest.split_last() {
        write_caller(unit, source, index, step.target, site, out)?;
        index += 1;
        site = step.site;
        rest = below;
    }
    Ok(())
}

// Writes the line of a function further down, with the place of the call in it.
fn write_caller<S: Sink>(
    unit: &Unit,
    source: &[u8],
    index: usize,
    function: u32,
    site: u32,
    out: &mut S,
) -> Result<(), SinkFault>
    requires short { length source.now ≤ SOURCE_LIMIT }
    requires within { All (λ site. site.place ≤ length source.now) unit.now.sites }
    ensures { IsWritten (caller_at index (function_name unit.now function) (line_column source.now (place_of unit.now site))) result (S.state out.old) (S.state out.new) }
{
    let mut index_digits = Buffer::new();
    let mut line_digits = Buffer::new();
    let mut column_digits = Buffer::new();
    let (line, column) = line_column(source, place_of(unit, source, site));
    let index = index_digits.format(index);
    let line = line_digits.format(line);
    let column = column_digits.format(column);
    write_caller_line(index, function_name(unit, function), line, column, out)
}

// Writes the texts of the line of a function further down.
#[tactic(auto, unfolding(crate::specs::RunText::caller_line))]
fn write_caller_line<'a, S: Sink>(
    index: &'a str,
    name: &'a str,
    line: &'a str,
    column: &'a str,
    out: &mut S,
) -> Result<(), SinkFault>
    ensures { IsWritten (caller_line index.now name.now line.now column.now) result (S.state out.old) (S.state out.new) }
{
    let pieces = ["  #", index, " ", name, " ", line, ":", column, "\n"];
    write_pieces(&pieces, out)
}

// The name of the function of this number, empty where the unit has none.
fn function_name(unit: &Unit, function: u32) -> &str
    ensures { result.now ≡ function_name unit.now function }
{
    if function < unit.functions() {
        unit.target_name(function)
    } else {
        ""
    }
}

// The place of the call at this site, 0 where the unit has none. It stands in the source of the unit.
fn place_of(unit: &Unit, source: &[u8], site: u32) -> u32
    requires { All (λ site. site.place ≤ length source.now) unit.now.sites }
    ensures place { result ≡ place_of unit.now site }
    ensures within { result ≤ length source.now }
{
    let index = site.saturating_sub(1) as usize;
    match unit.all_sites().get(index) {
        Some(info) => info.place,
        None => 0,
    }
}

/// Writes how a thread ended, by its number. At a fault, which comes only where the sink's count of faults rose, a prefix of
/// the line was taken. It takes no memory.
#[tactic(auto, unfolding(crate::specs::RunText::thread_line))]
pub fn write_ending<S: Sink>(number: u32, end: End, out: &mut S) -> Result<(), SinkFault>
    ensures { IsWritten (thread_line number end) result (S.state out.old) (S.state out.new) }
{
    let mut number_digits = Buffer::new();
    let mut end_digits = Buffer::new();
    let number = number_digits.format(number);
    let (verb, detail, unit) = end_words(end, &mut end_digits);
    let pieces = ["thread ", number, ": ", verb, detail, unit, "\n"];
    write_pieces(&pieces, out)
}

// How a thread ended, as three texts.
fn end_words(end: End, digits: &mut Buffer) -> (&str, &str, &str)
    ensures { result.0.now ++ result.1.now ++ result.2.now ≡ end_text end }
{
    match end {
        End::Returned => ("returned", "", ""),
        End::Exited(number) => ("exited ", digits.format(number), ""),
        End::Trapped(kind) => ("trapped ", trap_name(kind), ""),
        End::Halted => ("halted", "", ""),
        End::Stopped => ("stopped after ", digits.format(EVENT_LIMIT), " events"),
        End::Waiting => ("waiting after ", digits.format(WAIT_LIMIT), " tries"),
        End::Full => ("full", "", ""),
    }
}

// The printed name of a kind of trap.
fn trap_name(kind: TrapKind) -> &'static str
    ensures { result.now ≡ trap_name kind }
{
    match kind {
        TrapKind::NullAccess => "null-access",
        TrapKind::BadAccess => "bad-access",
        TrapKind::BadPointer => "bad-pointer",
        TrapKind::BadWord => "bad-word",
        TrapKind::Overflow => "overflow",
        TrapKind::Division => "division",
        TrapKind::Shift => "shift",
        TrapKind::NullCall => "null-call",
        TrapKind::StackOverflow => "stack-overflow",
        TrapKind::BadFree => "bad-free",
        TrapKind::BadUnlock => "bad-unlock",
        TrapKind::NoreturnReturned => "noreturn-returned",
        TrapKind::NoValue => "no-value",
        TrapKind::Abort => "abort",
    }
}
