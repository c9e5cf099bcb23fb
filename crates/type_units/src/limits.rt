//! The limits of a unit (this project's own limits).

ghost use Rattle.std.specs.Prelude.{◌≡◌, length, nat_lt};
ghost use Rattle.std.specs.List.{list_any};
ghost use Rattle.type_rules.specs.Units as units;

use core_unit::{FunctionInfo, Which};
use typing_state::Typing;

/// Whether a function has more than 16 parameters.
fn has_many_parameters(functions: &[FunctionInfo]) -> bool
    ensures { result ≡ list_any (λ f. nat_lt 16 (length f.kind.params)) functions.now }
{
    functions
        .iter()
        .any(|function| 16 < function.kind.params.len())
}

/// Whether the frame of a function has more than 4,096 words.
fn has_large_frame(functions: &[FunctionInfo]) -> bool
    ensures { result ≡ list_any (λ f. nat_lt 4096 f.frame_words) functions.now }
{
    functions.iter().any(|function| 4096 < function.frame_words)
}

/// The first limit that the unit which was read passes.
#[tactic(auto, unfolding(type_rules::specs::Units::exceeded))]
pub(crate) fn exceeded(typing: &Typing) -> Option<Which>
    ensures { result ≡ units.exceeded typing.now }
{
    if 4096 < typing.functions().len() {
        return Some(Which::Functions);
    }
    if has_many_parameters(typing.functions()) {
        return Some(Which::Parameters);
    }
    if 1048576 < typing.sites() {
        return Some(Which::CallSites);
    }
    if 524288 < typing.static_words() {
        return Some(Which::StaticWords);
    }
    if 1024 < typing.thread_words() {
        return Some(Which::ThreadWords);
    }
    if has_large_frame(typing.functions()) {
        return Some(Which::FrameWords);
    }
    None
}
