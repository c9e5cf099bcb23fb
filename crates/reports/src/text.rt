//! The printed text of reports and of a run's totals.

ghost use Rattle.c_text.specs.declared.limits.TheConstants.{SOURCE_LIMIT};
ghost use Rattle.std.specs.Prelude.{◌≡◌, ◌++◌, ◌≤◌, length, reverse, All};
ghost use Rattle.c_text.specs.Place.{line_column};
ghost use Rattle.rt_base.specs.Outside.{IsWritten};
ghost use Rattle.rt_ctx.specs.Places as places;
ghost use Rattle.reports.specs.ReportText.{reports_text, report_text, callers_text, caller_at, caller_line, head_lines, place_of, kind_name, totals_lines, stats_text};

use crate::pieces::write_pieces;
use crate::stacks::{StackCount, StackList};
use c_text::line_column;
use core_unit::Unit;
use ctx_set::StackStep;
use itoa::Buffer;
use rt_base::{Sink, SinkFault};
use rt_ctx::{Kind, kind_of, name_of};

/// Writes the reports of a run, one for each stack, in the order of the list: the reached function, and below it each
/// function that it was called from, innermost first, with the place of the call. The source is that of the unit. At a
/// fault, which comes only where the sink's count of faults rose, a prefix of the text was taken. It takes no memory.
pub fn write_reports<S: Sink>(
    unit: &Unit,
    source: &[u8],
    stacks: &StackList,
    out: &mut S,
) -> Result<(), SinkFault>
    requires short { length source.now ≤ SOURCE_LIMIT }
    requires within { All (λ site. site.place ≤ length source.now) unit.now.sites }
    ensures { IsWritten (reports_text source.now unit.now stacks.now) result (S.state out.old) (S.state out.new) }
{
    'each: for counted in stacks.as_slice() {
        write_report(unit, source, counted, out)?;
    }
    Ok(())
}

// Writes the report of a stack. An empty stack has none.
fn write_report<S: Sink>(
    unit: &Unit,
    source: &[u8],
    counted: &StackCount,
    out: &mut S,
) -> Result<(), SinkFault>
    requires short { length source.now ≤ SOURCE_LIMIT }
    requires within { All (λ site. site.place ≤ length source.now) unit.now.sites }
    ensures { IsWritten (report_text source.now unit.now counted.now) result (S.state out.old) (S.state out.new) }
{
    let Some((reached, callers)) = counted.stack.as_slice().split_last() else {
        return Ok(());
    };
    let mut digits = Buffer::new();
    let kind = kind_name(kind_of(reached.target));
    let name = name_of(unit, reached.target);
    write_head(kind, name, digits.format(counted.count), out)?;
    write_callers(unit, source, reached.site, callers, out)
}

// Writes the first line of a report and the line of the reached function.
#[tactic(auto, unfolding(crate::specs::ReportText::head_lines))]
fn write_head<'a, S: Sink>(
    kind: &'a str,
    name: &'a str,
    count: &'a str,
    out: &mut S,
) -> Result<(), SinkFault>
    ensures { IsWritten (head_lines kind.now name.now count.now) result (S.state out.old) (S.state out.new) }
{
    let pieces = [
        "error: ",
        kind,
        ": '",
        name,
        "' called in a real-time context, count ",
        count,
        "\n",
        "  #0 ",
        name,
        "\n",
    ];
    write_pieces(&pieces, out)
}

// Writes the lines of the functions below one that was entered from the site; the last of them stands first.
fn write_callers<S: Sink>(
    unit: &Unit,
    source: &[u8],
    mut site: u32,
    callers: &[StackStep],
    out: &mut S,
) -> Result<(), SinkFault>
    requires short { length source.now ≤ SOURCE_LIMIT }
    requires within { All (λ site. site.place ≤ length source.now) unit.now.sites }
    ensures { IsWritten (callers_text source.now unit.now 1 site (reverse callers.now)) result (S.state out.old) (S.state out.new) }
{
    let mut index: usize = 1;
    let mut rest = callers;
    'each: while let Some((step, below)) = rest.split_last() {
        write_caller(unit, source, index, step.target, site, out)?;
        index += 1;
        site = step.site;
        rest = below;
    }
    Ok(())
}

// Writes the line of a function further down, with the place of the call in it.
fn write_caller<S: Sink>(
    unit: &Unit,
    source: &[u8],
    index: usize,
    function: u32,
    site: u32,
    out: &mut S,
) -> Result<(), SinkFault>
    requires short { length source.now ≤ SOURCE_LIMIT }
    requires within { All (λ site. site.place ≤ length source.now) unit.now.sites }
    ensures { IsWritten (caller_at index (places.name_of unit.now function) (line_column source.now (place_of unit.now site))) result (S.state out.old) (S.state out.new) }
{
    let mut index_digits = Buffer::new();
    let mut line_digits = Buffer::new();
    let mut column_digits = Buffer::new();
    let (line, column) = line_column(source, place_of(unit, source, site));
    let index = index_digits.format(index);
    let line = line_digits.format(line);
    let column = column_digits.format(column);
    write_caller_line(index, name_of(unit, function), line, column, out)
}

// Writes the texts of the line of a function further down.
#[tactic(auto, unfolding(crate::specs::ReportText::caller_line))]
fn write_caller_line<'a, S: Sink>(
    index: &'a str,
    name: &'a str,
    line: &'a str,
    column: &'a str,
    out: &mut S,
) -> Result<(), SinkFault>
    ensures { IsWritten (caller_line index.now name.now line.now column.now) result (S.state out.old) (S.state out.new) }
{
    let pieces = ["  #", index, " ", name, " ", line, ":", column, "\n"];
    write_pieces(&pieces, out)
}

// The printed name of a kind of report.
fn kind_name(kind: Kind) -> &'static str
    ensures { result.now ≡ kind_name kind }
{
    match kind {
        Kind::UnsafeLibraryCall => "unsafe-library-call",
        Kind::BlockingCall => "blocking-call",
    }
}

// The place of the call at this site, 0 where the unit has none. It stands in the source of the unit.
fn place_of(unit: &Unit, source: &[u8], site: u32) -> u32
    requires { All (λ site. site.place ≤ length source.now) unit.now.sites }
    ensures place { result ≡ place_of unit.now site }
    ensures within { result ≤ length source.now }
{
    let index = site.saturating_sub(1) as usize;
    match unit.parts().sites.as_slice().get(index) {
        Some(info) => info.place,
        None => 0,
    }
}

/// Writes how many reports a run had, how many different stacks they had, and how many were suppressed. At a fault, which comes only
/// where the sink's count of faults rose, a prefix of the text was taken. It takes no memory.
pub fn write_stats<S: Sink>(
    total: u64,
    unique: u64,
    suppressed: u64,
    out: &mut S,
) -> Result<(), SinkFault>
    ensures { IsWritten (stats_text total unique suppressed) result (S.state out.old) (S.state out.new) }
{
    let mut total_digits = Buffer::new();
    let mut unique_digits = Buffer::new();
    let mut suppressed_digits = Buffer::new();
    write_totals(
        total_digits.format(total),
        unique_digits.format(unique),
        suppressed_digits.format(suppressed),
        out,
    )
}

// Writes the texts of the lines of totals.
#[tactic(auto, unfolding(crate::specs::ReportText::totals_lines))]
fn write_totals<'a, S: Sink>(
    total: &'a str,
    unique: &'a str,
    suppressed: &'a str,
    out: &mut S,
) -> Result<(), SinkFault>
    ensures { IsWritten (totals_lines total.now unique.now suppressed.now) result (S.state out.old) (S.state out.new) }
{
    let pieces = [
        "total reports: ",
        total,
        "\nunique reports: ",
        unique,
        "\nsuppressed reports: ",
        suppressed,
        "\n",
    ];
    write_pieces(&pieces, out)
}
