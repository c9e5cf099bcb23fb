//! The printed text of warnings, in Clang's wording.
#![tactic(auto)]

ghost use Rattle.std.specs.Prelude.{◌≡◌};
ghost use Rattle.std.specs.List.{flat_map};
ghost use Rattle.c_text.specs.Place.{LineColumn};
ghost use Rattle.rt_base.specs.Outside.{IsWritten};
ghost use Rattle.eff_text.specs.WarningText.{effect_name, call_line, line_at, warnings_text, IsNamed, ArePrintable};

use built_unit::Unit;
use c_text::LineCursor;
use eff_check::{Verdicts, ViolationKind, Warning};
use eff_types::Level;
use itoa::Buffer;
use rt_base::{Sink, SinkFault, write_all};

/// Writes the warnings of a unit, one line each in order of place, as Clang prints them under -Wfunction-effects:
/// `FILE:LINE:COLUMN: warning: MESSAGE [-Wfunction-effects]`. `file` is the file's name as it is to be printed, `source` its
/// bytes. At a fault, which comes only where the sink's count of faults rose, a prefix of the text was taken. It takes no
/// memory.
pub fn write_warnings<S: Sink>(
    file: &str,
    source: &[u8],
    unit: &Unit,
    verdicts: &Verdicts,
    out: &mut S,
) -> Result<(), SinkFault>
    requires { ArePrintable source.now unit.now verdicts.now }
    ensures { IsWritten (warnings_text file.now source.now unit.now verdicts.now) result (S.state out.old) (S.state out.new) }
{
    let mut cursor = LineCursor::start();
    for warning in verdicts.warnings() {
        cursor = cursor.advance(source, warning.place);
        write_warning(file, cursor, unit, warning, out)?;
    }
    Ok(())
}

// Writes the line of a warning at the place of the cursor.
fn write_warning<S: Sink>(
    file: &str,
    cursor: LineCursor,
    unit: &Unit,
    warning: &Warning,
    out: &mut S,
) -> Result<(), SinkFault>
    requires { IsNamed unit.now warning.now.kind }
    ensures { IsWritten (line_at file.now (record { line = cursor.line; column = cursor.column }) unit.now warning.now.level warning.now.kind) result (S.state out.old) (S.state out.new) }
{
    let mut line = Buffer::new();
    let mut column = Buffer::new();
    let ViolationKind::Calls(callee) = warning.kind;
    let callee = unit.target_name(callee);
    let line = line.format(cursor.line);
    let column = column.format(cursor.column);
    write_line(file, line, column, effect_name(warning.level), callee, out)
}

// Writes the line of a warning of a call.
#[tactic(auto, unfolding(crate::specs::WarningText::call_line))]
fn write_line<'a, S: Sink>(
    file: &'a str,
    line: &'a str,
    column: &'a str,
    effect: &'a str,
    callee: &'a str,
    out: &mut S,
) -> Result<(), SinkFault>
    ensures { IsWritten (call_line file.now line.now column.now effect.now callee.now) result (S.state out.old) (S.state out.new) }
{
    let pieces = [
        file,
        ":",
        line,
        ":",
        column,
        ": warning: ",
        "function with '",
        effect,
        "' attribute must not call non-'",
        effect,
        "' function '",
        callee,
        "'",
        " [-Wfunction-effects]\n",
    ];
    write_pieces(&pieces, out)
}

// The attribute that marks a function with the level.
fn effect_name(level: Level) -> &'static str
    ensures { result.now ≡ effect_name level }
{
    match level {
        Level::Plain => "",
        Level::NonAllocating => "nonallocating",
        Level::NonBlocking => "nonblocking",
    }
}

/// Writes the pieces one after the other: all of their bytes, or at SinkFault, which comes only where the sink's count of
/// faults rose, a prefix of them.
pub fn write_pieces<S: Sink>(pieces: &[&str], out: &mut S) -> Result<(), SinkFault>
    ensures { IsWritten (flat_map (λ piece. piece.now) pieces.now) result (S.state out.old) (S.state out.new) }
{
    for piece in pieces {
        write_all(out, piece.as_bytes())?;
    }
    Ok(())
}
