//! What the detector says of a function that a thread reaches.

ghost use Rattle.std.specs.Prelude.{◌≡◌, ◌↔◌, IsTrue, Any};
ghost use Rattle.rt_ctx.specs.Places as places;
ghost use Rattle.rt_ctx.specs.Places.{AnySuppresses, IsSuppressed};
ghost use Rattle.rt_ctx.specs.Verdicts.{IsVerdict};

use crate::answers::{Kind, Verdict};
use crate::context::Context;
use crate::names::{is_blocking, name_of};
use core_unit::{FIRST_ROW, Unit};
use ctx_set::StackStep;
use suppress::Suppressions;

/// Whether a `call-stack-contains` pattern matches the name.
#[tactic(auto, unfolding(crate::specs::Places::AnySuppresses))]
fn name_matches(suppressions: &Suppressions, name: &str) -> bool
    ensures { IsTrue result ↔ AnySuppresses suppressions.now name.now }
{
    suppressions.stack_matches(&[name])
}

/// Whether a `call-stack-contains` pattern matches the name of a step. Each name is asked by itself, so that no list of names is needed.
fn stack_matches(unit: &Unit, stack: &[StackStep], suppressions: &Suppressions) -> bool
    ensures { IsTrue result ↔ Any (λ step. AnySuppresses suppressions.now (places.name_of unit.now step.target)) stack.now }
{
    'each: for step in stack {
        if name_matches(suppressions, name_of(unit, step.target)) {
            return true;
        }
    }
    false
}

/// Whether a suppression matches the reached function or its stack.
fn is_suppressed(unit: &Unit, stack: &[StackStep], target: u32, suppressions: &Suppressions) -> bool
    ensures { IsTrue result ↔ IsSuppressed unit.now suppressions.now stack.now target }
{
    if suppressions.function_matches(name_of(unit, target)) {
        return true;
    }
    stack_matches(unit, stack, suppressions)
}

/// Whether the detector sees the reach of this target at all.
fn is_detected(context: &Context, unit: &Unit, target: u32) -> bool
    ensures { result ≡ places.is_detected unit.now context.now target }
{
    is_blocking(unit, target) && context.depth > 0 && context.disabled == 0
}

/// Why a reach of this target is reported, where it is.
pub fn kind_of(target: u32) -> Kind
    ensures { result ≡ places.kind_of target }
{
    if target < FIRST_ROW {
        Kind::BlockingCall
    } else {
        Kind::UnsafeLibraryCall
    }
}

/// The verdict on a thread that reaches the target with this stack, whose last step is the target's. It takes no memory.
pub fn verdict(
    context: &Context,
    unit: &Unit,
    stack: &[StackStep],
    target: u32,
    suppressions: &Suppressions,
) -> Verdict
    ensures { IsVerdict unit.now suppressions.now context.now stack.now target result }
{
    if !is_detected(context, unit, target) {
        return Verdict::Pass;
    }
    if is_suppressed(unit, stack, target, suppressions) {
        return Verdict::Suppressed;
    }
    Verdict::Report(kind_of(target))
}
