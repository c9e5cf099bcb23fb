//! The lines of single warnings and notes.

ghost use Rattle.std.specs.Prelude.{◌≡◌};
ghost use Rattle.printing.specs.Gathered.{IsGathered};
ghost use Rattle.warning_text.specs.WarningText.{warning_line, note_line, violation_line, chain_note, typed_line, call_message, expression_message, thread_local_message, static_local_message, call_reason, expression_reason, thread_local_reason, static_local_reason, conversion_message, redeclaration_message};
ghost use Rattle.warning_text.specs.WarningText as spec;

use crate::lines::SourceFile;
use crate::names::name_of;
use core_unit::Unit;
use eff_types::Level;
use printing::TextBuffer;
use rt_base::{Sink, SinkFault};
use type_rules::TypeWarning;
use unit_check::{ChainStep, ViolationKind, Warning};

// The attribute that marks a function with the level.
fn effect_name(level: Level) -> &'static str
    ensures { result.now ≡ spec.effect_name level }
{
    match level {
        Level::Plain => "",
        Level::NonAllocating => "nonallocating",
        Level::NonBlocking => "nonblocking",
    }
}

#[tactic(auto, unfolding(crate::specs::WarningText::call_message))]
fn warn_call<'a, S: Sink>(
    source: &SourceFile<'_>,
    place: u32,
    effect: &'a str,
    name: &'a str,
    text: &mut TextBuffer,
    out: &mut S,
) -> Result<(), SinkFault>
    ensures { IsGathered (warning_line source.now place (call_message effect.now name.now)) result text.old (S.state out.old) text.new (S.state out.new) }
{
    let message = [
        "function with '",
        effect,
        "' attribute must not call non-'",
        effect,
        "' function '",
        name,
        "'",
    ];
    source.write_warning(place, &message, text, out)
}

#[tactic(auto, unfolding(crate::specs::WarningText::expression_message))]
fn warn_expression<'a, S: Sink>(
    source: &SourceFile<'_>,
    place: u32,
    effect: &'a str,
    text: &mut TextBuffer,
    out: &mut S,
) -> Result<(), SinkFault>
    ensures { IsGathered (warning_line source.now place (expression_message effect.now)) result text.old (S.state out.old) text.new (S.state out.new) }
{
    let message = [
        "function with '",
        effect,
        "' attribute must not call non-'",
        effect,
        "' expression",
    ];
    source.write_warning(place, &message, text, out)
}

#[tactic(auto, unfolding(crate::specs::WarningText::thread_local_message))]
fn warn_thread_local<'a, S: Sink>(
    source: &SourceFile<'_>,
    place: u32,
    effect: &'a str,
    text: &mut TextBuffer,
    out: &mut S,
) -> Result<(), SinkFault>
    ensures { IsGathered (warning_line source.now place (thread_local_message effect.now)) result text.old (S.state out.old) text.new (S.state out.new) }
{
    let message = [
        "function with '",
        effect,
        "' attribute must not use thread-local variables",
    ];
    source.write_warning(place, &message, text, out)
}

#[tactic(auto, unfolding(crate::specs::WarningText::static_local_message))]
fn warn_static_local<'a, S: Sink>(
    source: &SourceFile<'_>,
    place: u32,
    effect: &'a str,
    text: &mut TextBuffer,
    out: &mut S,
) -> Result<(), SinkFault>
    ensures { IsGathered (warning_line source.now place (static_local_message effect.now)) result text.old (S.state out.old) text.new (S.state out.new) }
{
    let message = [
        "function with '",
        effect,
        "' attribute must not have static local variables",
    ];
    source.write_warning(place, &message, text, out)
}

#[tactic(auto, unfolding(crate::specs::WarningText::call_reason))]
fn note_call<'a, S: Sink>(
    source: &SourceFile<'_>,
    place: u32,
    function: &'a str,
    effect: &'a str,
    name: &'a str,
    text: &mut TextBuffer,
    out: &mut S,
) -> Result<(), SinkFault>
    ensures { IsGathered (note_line source.now place (call_reason function.now effect.now name.now)) result text.old (S.state out.old) text.new (S.state out.new) }
{
    let message = [
        "function '",
        function,
        "' cannot be inferred '",
        effect,
        "' because it calls non-'",
        effect,
        "' function '",
        name,
        "'",
    ];
    source.write_note(place, &message, text, out)
}

#[tactic(auto, unfolding(crate::specs::WarningText::expression_reason))]
fn note_expression<'a, S: Sink>(
    source: &SourceFile<'_>,
    place: u32,
    function: &'a str,
    effect: &'a str,
    text: &mut TextBuffer,
    out: &mut S,
) -> Result<(), SinkFault>
    ensures { IsGathered (note_line source.now place (expression_reason function.now effect.now)) result text.old (S.state out.old) text.new (S.state out.new) }
{
    let message = [
        "function '",
        function,
        "' cannot be inferred '",
        effect,
        "' because it calls non-'",
        effect,
        "' expression",
    ];
    source.write_note(place, &message, text, out)
}

#[tactic(auto, unfolding(crate::specs::WarningText::thread_local_reason))]
fn note_thread_local<'a, S: Sink>(
    source: &SourceFile<'_>,
    place: u32,
    function: &'a str,
    effect: &'a str,
    text: &mut TextBuffer,
    out: &mut S,
) -> Result<(), SinkFault>
    ensures { IsGathered (note_line source.now place (thread_local_reason function.now effect.now)) result text.old (S.state out.old) text.new (S.state out.new) }
{
    let message = [
        "function '",
        function,
        "' cannot be inferred '",
        effect,
        "' because it uses a thread-local variable",
    ];
    source.write_note(place, &message, text, out)
}

#[tactic(auto, unfolding(crate::specs::WarningText::static_local_reason))]
fn note_static_local<'a, S: Sink>(
    source: &SourceFile<'_>,
    place: u32,
    function: &'a str,
    effect: &'a str,
    text: &mut TextBuffer,
    out: &mut S,
) -> Result<(), SinkFault>
    ensures { IsGathered (note_line source.now place (static_local_reason function.now effect.now)) result text.old (S.state out.old) text.new (S.state out.new) }
{
    let message = [
        "function '",
        function,
        "' cannot be inferred '",
        effect,
        "' because it has a static local variable",
    ];
    source.write_note(place, &message, text, out)
}

#[tactic(auto, unfolding(crate::specs::WarningText::conversion_message))]
fn warn_conversion<'a, S: Sink>(
    source: &SourceFile<'_>,
    place: u32,
    effect: &'a str,
    text: &mut TextBuffer,
    out: &mut S,
) -> Result<(), SinkFault>
    ensures { IsGathered (warning_line source.now place (conversion_message effect.now)) result text.old (S.state out.old) text.new (S.state out.new) }
{
    let message = [
        "attribute '",
        effect,
        "' should not be added via type conversion",
    ];
    source.write_warning(place, &message, text, out)
}

#[tactic(auto, unfolding(crate::specs::WarningText::redeclaration_message))]
fn warn_redeclaration<'a, S: Sink>(
    source: &SourceFile<'_>,
    place: u32,
    effect: &'a str,
    text: &mut TextBuffer,
    out: &mut S,
) -> Result<(), SinkFault>
    ensures { IsGathered (warning_line source.now place (redeclaration_message effect.now)) result text.old (S.state out.old) text.new (S.state out.new) }
{
    let message = [
        "attribute '",
        effect,
        "' on function does not match previous declaration",
    ];
    source.write_warning(place, &message, text, out)
}

/// Writes the line of a violation.
pub fn write_violation<S: Sink>(
    source: &SourceFile<'_>,
    unit: &Unit,
    warning: &Warning,
    text: &mut TextBuffer,
    out: &mut S,
) -> Result<(), SinkFault>
    ensures { IsGathered (violation_line source.now unit.now warning.now) result text.old (S.state out.old) text.new (S.state out.new) }
{
    let place = warning.place;
    let effect = effect_name(warning.level);
    match warning.kind {
        ViolationKind::Calls(target) => {
            warn_call(source, place, effect, name_of(unit, target), text, out)
        }
        ViolationKind::CallsThrough => warn_expression(source, place, effect, text, out),
        ViolationKind::ThreadLocal => warn_thread_local(source, place, effect, text, out),
        ViolationKind::StaticLocal => warn_static_local(source, place, effect, text, out),
    }
}

/// Writes the note of a place of a chain, which says why the function in whose body it stands doesn't keep the level.
pub fn write_reason<S: Sink>(
    source: &SourceFile<'_>,
    unit: &Unit,
    level: Level,
    step: &ChainStep,
    text: &mut TextBuffer,
    out: &mut S,
) -> Result<(), SinkFault>
    ensures { IsGathered (chain_note source.now unit.now level step.now) result text.old (S.state out.old) text.new (S.state out.new) }
{
    let place = step.place;
    let function = name_of(unit, step.function);
    let effect = effect_name(level);
    match step.kind {
        ViolationKind::Calls(target) => {
            let name = name_of(unit, target);
            note_call(source, place, function, effect, name, text, out)
        }
        ViolationKind::CallsThrough => note_expression(source, place, function, effect, text, out),
        ViolationKind::ThreadLocal => note_thread_local(source, place, function, effect, text, out),
        ViolationKind::StaticLocal => note_static_local(source, place, function, effect, text, out),
    }
}

/// Writes the line of a warning of the typing.
pub fn write_typed<S: Sink>(
    source: &SourceFile<'_>,
    warning: TypeWarning,
    text: &mut TextBuffer,
    out: &mut S,
) -> Result<(), SinkFault>
    ensures { IsGathered (typed_line source.now warning) result text.old (S.state out.old) text.new (S.state out.new) }
{
    match warning {
        TypeWarning::Conversion { place, level } => {
            warn_conversion(source, place, effect_name(level), text, out)
        }
        TypeWarning::Redeclaration { place, level } => {
            warn_redeclaration(source, place, effect_name(level), text, out)
        }
    }
}
