//! What a thread keeps for the detector: the functions that it is in, and its real-time context.

ghost use Rattle.std.specs.Prelude.{◌≡◌, [], ◌∷◌, ◌-◌, ◌<◌, ◌≤◌, ◌^◌, length, drop, reverse, true, false, not, IfOk};
ghost use Rattle.eff_types.specs.Effects.{is_below};
ghost use Rattle.eff_types.specs.declared.levels.Level.TheVariants.{NonBlocking};
ghost use Rattle.reports.specs.Counts.{is_counted};
ghost use Rattle.reports.specs.Stacks.{IsStack};
ghost use Rattle.rt_ctx.specs.Frames.{is_nonblocking};
ghost use Rattle.rt_ctx.specs.Places.{stack_at};
ghost use Rattle.rt_ctx.specs.Suppressing.{is_report_place, is_suppressed_place};
ghost use Rattle.thread_run.specs.Detecting.{followed, disabled_at, depth_of, IsCounted, HasRoom, is_suppressed_at, is_report_at, stack_for, is_report, is_suppressed, is_refused};
ghost use Rattle.thread_run.specs.Judging.{Notes, Tells};

use crate::judged::Judged;
use crate::world::World;
use core_unit::{FIRST_ROW, Unit};
use ctx_set::{StackStep, StepList};
use eff_types::Level;
use machine_code::Ask;
use reports::{Board, Noted};
use rt_ctx::{Context, Verdict, verdict};
use std::alloc::{AllocError, Global};
use std::marker::Model;

/// The row of `__rtsan_disable`, as a target.
const DISABLE: u32 = FIRST_ROW + 11;

/// The row of `__rtsan_enable`.
const ENABLE: u32 = FIRST_ROW + 12;

/// The functions that a thread is in, with its real-time context.
#[derive(Drop)]
pub struct Detector {
    stack: StepList,
    context: Context,
}

impl Model for Detector {
    ghost use Rattle.std.specs.Prelude.{reverse};
    ghost use Rattle.thread_run.specs.Detecting.{Seen};

    ghost Value = { Seen };

    ghost view = { λ d. record { frames = reverse d.stack; context = d.context } };
}

/// Whether a function of the unit has the level `NonBlocking`.
fn is_nonblocking(unit: &Unit, function: u32) -> bool
    ensures { result ≡ is_nonblocking unit.now function }
{
    match unit.parts().functions.as_slice().get(function as usize) {
        Some(info) => is_at_top(info.kind.effects.level),
        None => false,
    }
}

/// Whether the level is `NonBlocking`.
fn is_at_top(level: Level) -> bool
    ensures { result ≡ not (is_below level NonBlocking) }
{
    match level {
        Level::Plain => false,
        Level::NonAllocating => false,
        Level::NonBlocking => true,
    }
}

impl Detector {
    /// In no function, with the memory for a stack.
    pub(crate) fn new(alloc: Global) -> Result<Detector, AllocError>
        ensures { IfOk result (λ d. d ≡ record { frames = []; context = record { depth = 0; disabled = 0 } }) }
    {
        let stack = StepList::new(alloc)?;
        Ok(Detector {
            stack,
            context: Context {
                depth: 0,
                disabled: 0,
            },
        })
    }

    /// Follows an event of the thread.
    pub(crate) fn follow(&mut self, unit: &Unit, ask: Ask)
        requires counted { IsCounted unit.now self.old }
        requires room { HasRoom ask self.old }
        requires few { length self.old.frames ≤ 256 }
        ensures { self.new ≡ followed unit.now ask self.old }
    {
        match ask {
            Ask::Enter(target, site) => self.enter(unit, StackStep { target, site }),
            Ask::Leave => self.leave(unit),
            Ask::Reach(target, _) => self.reach(target),
            Ask::Load(_)
            | Ask::Store(_, _)
            | Ask::Exchange(_, _, _)
            | Ask::FetchAdd(_, _)
            | Ask::FetchSub(_, _)
            | Ask::Create(_, _)
            | Ask::Out(_)
            | Ask::Trap(_)
            | Ask::Over(_) => {}
        }
    }

    /// Enters a function.
    fn enter(&mut self, unit: &Unit, step: StackStep)
        requires counted { IsCounted unit.now self.old }
        requires room { length self.old.frames < 256 }
        ensures { self.new ≡ record { frames = step ∷ self.old.frames; context = record { depth = depth_of unit.now (step ∷ self.old.frames); disabled = self.old.context.disabled } } }
    {
        self.stack.push(step);
        self.context.enter(is_nonblocking(unit, step.target));
    }

    /// Leaves the latest function.
    fn leave(&mut self, unit: &Unit)
        requires { IsCounted unit.now self.old }
        ensures { self.new ≡ record { frames = drop 1 self.old.frames; context = record { depth = depth_of unit.now (drop 1 self.old.frames); disabled = self.old.context.disabled } } }
    {
        if let Some(step) = self.stack.pop() {
            self.context.leave(is_nonblocking(unit, step.target));
        }
    }

    /// Reaches a function, which may disable the detector or enable it.
    fn reach(&mut self, target: u32)
        requires { self.old.context.disabled < 2 ^ 32 - 1 }
        ensures frames { self.new.frames ≡ self.old.frames }
        ensures depth { self.new.context.depth ≡ self.old.context.depth }
        ensures disabled { self.new.context.disabled ≡ disabled_at target self.old.context.disabled }
    {
        if target == DISABLE {
            self.context.disable();
        } else if target == ENABLE {
            self.context.enable();
        }
    }

    /// What becomes of an event at the detector and, where it is a report place, at the board.
    pub(crate) fn judge<B: Board>(
        &mut self,
        world: &World<'_>,
        board: &B,
        pass: &mut B::Pass,
        ask: Ask,
    ) -> Judged
        requires few { length self.old.frames ≤ 256 }
        requires stack { is_report_at world.now.unit world.now.suppressions self.old ask ≡ true → IsStack (stack_for self.old ask) }
        requires belongs { B.belongs (B.place board.now) pass.old }
        requires can { B.can_report pass.old ≡ true }
        ensures same { self.new ≡ self.old }
        ensures report { is_report result ≡ is_report_at world.now.unit world.now.suppressions self.old ask }
        ensures suppressed { is_suppressed result ≡ is_suppressed_at world.now.unit world.now.suppressions self.old ask }
        ensures notes { Notes B.is_exact (stack_for self.old ask) result (B.held pass.old) (B.held pass.new) }
        ensures belongs { B.belongs (B.place board.now) pass.new }
        ensures can { B.can_report pass.new ≡ true }
    {
        match ask {
            Ask::Reach(target, site) => self.judge_reach(
                world,
                board,
                pass,
                StackStep { target, site },
            ),
            Ask::Load(_)
            | Ask::Store(_, _)
            | Ask::Exchange(_, _, _)
            | Ask::FetchAdd(_, _)
            | Ask::FetchSub(_, _)
            | Ask::Enter(_, _)
            | Ask::Leave
            | Ask::Create(_, _)
            | Ask::Out(_)
            | Ask::Trap(_)
            | Ask::Over(_) => Judged::Passed,
        }
    }

    /// What becomes of a reach.
    fn judge_reach<B: Board>(
        &mut self,
        world: &World<'_>,
        board: &B,
        pass: &mut B::Pass,
        step: StackStep,
    ) -> Judged
        requires few { length self.old.frames ≤ 256 }
        requires stack { is_report_place world.now.unit world.now.suppressions self.old.context (stack_at self.old.frames step.target step.site) step.target ≡ true → IsStack (stack_at self.old.frames step.target step.site) }
        requires belongs { B.belongs (B.place board.now) pass.old }
        requires can { B.can_report pass.old ≡ true }
        ensures same { self.new ≡ self.old }
        ensures report { is_report result ≡ is_report_place world.now.unit world.now.suppressions self.old.context (stack_at self.old.frames step.target step.site) step.target }
        ensures suppressed { is_suppressed result ≡ is_suppressed_place world.now.unit world.now.suppressions self.old.context (stack_at self.old.frames step.target step.site) step.target }
        ensures notes { Notes B.is_exact (stack_at self.old.frames step.target step.site) result (B.held pass.old) (B.held pass.new) }
        ensures belongs { B.belongs (B.place board.now) pass.new }
        ensures can { B.can_report pass.new ≡ true }
    {
        if step.target < FIRST_ROW {
            return self.judge_stack(world, board, pass, step.target);
        }
        self.stack.push(step);
        let judged = self.judge_stack(world, board, pass, step.target);
        self.stack.pop();
        judged
    }

    /// What becomes of a reach of this target, with the stack that stands.
    fn judge_stack<B: Board>(
        &self,
        world: &World<'_>,
        board: &B,
        pass: &mut B::Pass,
        target: u32,
    ) -> Judged
        requires stack { is_report_place world.now.unit world.now.suppressions self.now.context (reverse self.now.frames) target ≡ true → IsStack (reverse self.now.frames) }
        requires belongs { B.belongs (B.place board.now) pass.old }
        requires can { B.can_report pass.old ≡ true }
        ensures report { is_report result ≡ is_report_place world.now.unit world.now.suppressions self.now.context (reverse self.now.frames) target }
        ensures suppressed { is_suppressed result ≡ is_suppressed_place world.now.unit world.now.suppressions self.now.context (reverse self.now.frames) target }
        ensures notes { Notes B.is_exact (reverse self.now.frames) result (B.held pass.old) (B.held pass.new) }
        ensures belongs { B.belongs (B.place board.now) pass.new }
        ensures can { B.can_report pass.new ≡ true }
    {
        match self.verdict(world, target) {
            Verdict::Pass => Judged::Passed,
            Verdict::Suppressed => Judged::Suppressed,
            Verdict::Report(_) => judged_by(board.report(pass, self.stack.as_slice())),
        }
    }

    /// The verdict on a reach of this target, with the stack that stands.
    fn verdict(&self, world: &World<'_>, target: u32) -> Verdict
        ensures { Tells world.now.unit world.now.suppressions self.now.context (reverse self.now.frames) target result }
    {
        verdict(
            &self.context,
            world.unit,
            self.stack.as_slice(),
            target,
            world.suppressions,
        )
    }
}

/// What becomes of a report, by the board's answer.
fn judged_by(noted: Noted) -> Judged
    ensures report { is_report result ≡ true }
    ensures suppressed { is_suppressed result ≡ false }
    ensures counted { is_refused result ≡ not (is_counted noted) }
{
    match noted {
        Noted::First => Judged::Reported,
        Noted::Again => Judged::Reported,
        Noted::Full => Judged::Refused,
    }
}
