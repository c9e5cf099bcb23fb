//! All warnings of a unit in order of place.

ghost use Rattle.c_text.specs.declared.limits.TheConstants.{SOURCE_LIMIT};
ghost use Rattle.std.specs.Prelude.{◌≡◌, ◌≤◌, length, take, drop};
ghost use Rattle.printing.specs.Gathered.{IsGathered};
ghost use Rattle.rt_base.specs.Outside.{IsWritten};
ghost use Rattle.std.specs.List.{flat_map};
ghost use Rattle.warning_text.specs.WarningText.{violation_text, chain_note, typed_text, merged_text, warnings_text};
ghost use Rattle.warning_text.specs.WarningText as spec;

use crate::lines::SourceFile;
use crate::messages::{write_reason, write_typed, write_violation};
use core_unit::Unit;
use eff_types::Level;
use printing::TextBuffer;
use rt_base::{Sink, SinkFault};
use type_rules::TypeWarning;
use unit_check::{ChainStep, Verdicts, Warning};

/// Writes all warnings of a unit, as Clang prints them under -Wfunction-effects: `FILE:LINE:COLUMN: warning: MESSAGE [-Wfunction-effects]`, and
/// behind each violation the notes of its chain. `typed` are the warnings of the unit's typing, in order of place. At a fault, which comes only
/// where the sink's count of faults rose, a prefix of the text was taken. It takes no memory.
pub fn write_warnings<S: Sink>(
    file: &str,
    source: &[u8],
    unit: &Unit,
    typed: &[TypeWarning],
    verdicts: &Verdicts,
    out: &mut S,
) -> Result<(), SinkFault>
    requires { length source.now ≤ SOURCE_LIMIT }
    ensures { IsWritten (warnings_text (record { file = file.now; bytes = source.now }) unit.now typed.now verdicts.now) result (S.state out.old) (S.state out.new) }
{
    let source = SourceFile::new(file, source);
    let mut text = TextBuffer::new();
    write_merged(&source, unit, typed, verdicts, &mut text, out)?;
    text.flush(out)
}

// How many of these warnings, from the first on, stand before the place.
fn count_before(place: u32, typed: &[TypeWarning]) -> usize
    ensures count { result ≡ spec.count_before place typed.now }
    ensures within { result ≤ length typed.now }
{
    typed
        .iter()
        .take_while(|warning| stands_before(place, **warning))
        .count()
}

// Those of these warnings, from the first on, that stand before the place.
fn ahead(place: u32, typed: &[TypeWarning]) -> &[TypeWarning]
    ensures { result.now ≡ take (spec.count_before place typed.now) typed.now }
{
    let before = count_before(place, typed);
    &typed[..before]
}

// The warnings behind those.
fn behind(place: u32, typed: &[TypeWarning]) -> &[TypeWarning]
    ensures { result.now ≡ drop (spec.count_before place typed.now) typed.now }
{
    let before = count_before(place, typed);
    &typed[before..]
}

fn place_of(warning: TypeWarning) -> u32
    ensures { result ≡ spec.place_of warning }
{
    match warning {
        TypeWarning::Conversion { place, level: _ } => place,
        TypeWarning::Redeclaration { place, level: _ } => place,
    }
}

fn stands_before(place: u32, warning: TypeWarning) -> bool
    ensures { result ≡ spec.stands_before place warning }
{
    place_of(warning) < place
}

// Writes both kinds of warnings, each at its place.
fn write_merged<S: Sink>(
    source: &SourceFile<'_>,
    unit: &Unit,
    typed: &[TypeWarning],
    verdicts: &Verdicts,
    text: &mut TextBuffer,
    out: &mut S,
) -> Result<(), SinkFault>
    ensures { IsGathered (warnings_text source.now unit.now typed.now verdicts.now) result text.old (S.state out.old) text.new (S.state out.new) }
{
    let mut rest = typed;
    'each: for (index, warning) in verdicts.warnings().iter().enumerate() {
        let chain = verdicts.chain_at(index);
        write_all_typed(source, ahead(warning.place, rest), text, out)?;
        write_with_chain(source, unit, warning, chain, text, out)?;
        rest = behind(warning.place, rest);
    }
    write_all_typed(source, rest, text, out)
}

// Writes warnings of the typing.
fn write_all_typed<S: Sink>(
    source: &SourceFile<'_>,
    typed: &[TypeWarning],
    text: &mut TextBuffer,
    out: &mut S,
) -> Result<(), SinkFault>
    ensures { IsGathered (typed_text source.now typed.now) result text.old (S.state out.old) text.new (S.state out.new) }
{
    'each: for warning in typed {
        write_typed(source, *warning, text, out)?;
    }
    Ok(())
}

// Writes a violation and the notes of its chain.
fn write_with_chain<S: Sink>(
    source: &SourceFile<'_>,
    unit: &Unit,
    warning: &Warning,
    chain: &[ChainStep],
    text: &mut TextBuffer,
    out: &mut S,
) -> Result<(), SinkFault>
    ensures { IsGathered (violation_text source.now unit.now warning.now chain.now) result text.old (S.state out.old) text.new (S.state out.new) }
{
    write_violation(source, unit, warning, text, out)?;
    write_notes(source, unit, warning.level, chain, text, out)
}

// Writes the notes of a chain.
fn write_notes<S: Sink>(
    source: &SourceFile<'_>,
    unit: &Unit,
    level: Level,
    chain: &[ChainStep],
    text: &mut TextBuffer,
    out: &mut S,
) -> Result<(), SinkFault>
    ensures { IsGathered (flat_map (chain_note source.now unit.now level) chain.now) result text.old (S.state out.old) text.new (S.state out.new) }
{
    'each: for step in chain {
        write_reason(source, unit, level, step, text, out)?;
    }
    Ok(())
}
