//! A thread on its way, without its passes.

ghost use Rattle.std.specs.Prelude.{◌≡◌, ◌∷◌, [], ◌+◌, ◌<◌, ◌≤◌, ◌^◌, length, true, false, None, is_some};
ghost use Rattle.machine_code.specs.Bounds.{CanAnswer, IsInTable};
ghost use Rattle.src_model.specs.Outputs.{output, dropped};
ghost use Rattle.src_model.specs.Runs.{HasItsWord, is_report_place, is_suppressed_place};
ghost use Rattle.src_model.specs.Traces.{stack_of_event};
ghost use Rattle.thread_run.specs.Detecting.{is_report, is_suppressed, is_refused};
ghost use Rattle.thread_run.specs.Judging.{Notes};
ghost use Rattle.thread_run.specs.Threads.{IsRunSoFar, fresh, makes, next_event, end_of, machine_of, reports_in, suppressed_of, is_creation, is_failed, is_last_a_try};
ghost use Rattle.thread_run.specs.Worlds.{CanRun, setting_of};

use crate::detector::Detector;
use crate::given::Given;
use crate::judged::Judged;
use crate::kept::Kept;
use crate::output::Output;
use crate::world::{SeenWorld, World};
use machine_code::{Ask, Thread, Turned};
use reports::Board;
use src_model::{End, Trace};
use std::marker::Model;

/// A thread on its way: its world, its start, and what it keeps.
#[derive(Drop)]
pub struct Running {
    world: SeenWorld,
    number: u32,
    function: u32,
    arguments: Given,
    kept: Kept,
}

impl Model for Running {
    ghost use Rattle.std.specs.Coded.{codes};
    ghost use Rattle.core_unit.specs.contracts.tables.UnitParts as tables;
    ghost use Rattle.thread_run.specs.Threads.{Progress};
    ghost use Rattle.thread_run.specs.UnderWay.{progress_of, IsUnderWay};

    ghost Value = { Progress };

    ghost coded = { Prim.hlevel (codes, tables.the_row.coded) };

    ghost view = { λ r. progress_of r.world (record { number = r.number; function = r.function; arguments = r.arguments }) r.kept };

    ghost invariant = { λ r. IsUnderWay r.world (record { number = r.number; function = r.function; arguments = r.arguments }) r.kept };
}

impl Running {
    /// A thread at its start, in memory that was taken before.
    pub(crate) fn new(
        world: &World<'_>,
        number: u32,
        function: u32,
        arguments: &[u64],
        mut machine: Thread,
        detector: Detector,
        output: Output,
    ) -> Running
        requires runs { CanRun world.now }
        requires number { number < 64 }
        requires few { length arguments.now ≤ 16 }
        requires detector { detector ≡ record { frames = []; context = record { depth = 0; disabled = 0 } } }
        requires output { output ≡ record { kept = []; dropped = 0 } }
        ensures { result ≡ fresh world.now (record { number = number; function = function; arguments = arguments.now }) }
    {
        machine.start(number, function, arguments);
        Running {
            world: SeenWorld::of(world),
            number,
            function,
            arguments: Given::of(arguments),
            kept: Kept {
                machine,
                trace: Trace::new(),
                detector,
                output,
                events: 0,
                reports: 0,
                suppressed: 0,
                tries: 0,
                refused: false,
                end: None,
            },
        }
    }

    /// The next event of a thread that hasn't ended.
    pub(crate) fn next(&self, world: &World<'_>) -> Ask
        requires runs { CanRun world.now }
        requires world { self.now.world ≡ world.now }
        requires going { end_of self.now ≡ None }
        ensures event { result ≡ next_event self.now }
        ensures in_table { IsInTable result }
        ensures few { length self.now.trace + 1 ≤ self.now.world.options.events + 2 }
    {
        world.is_code();
        self.kept.machine.next(world.code)
    }

    /// What the detector and the board say of the next event.
    pub(crate) fn judge<B: Board>(
        &mut self,
        world: &World<'_>,
        board: &B,
        pass: &mut B::Pass,
        ask: Ask,
    ) -> Judged
        requires runs { CanRun world.now }
        requires world { self.old.world ≡ world.now }
        requires going { end_of self.old ≡ None }
        requires next { ask ≡ next_event self.old }
        requires belongs { B.belongs (B.place board.now) pass.old }
        requires can { B.can_report pass.old ≡ true }
        ensures same { self.new ≡ self.old }
        ensures report { is_report result ≡ is_report_place (setting_of self.old.world) self.old.trace ask }
        ensures suppressed { is_suppressed result ≡ is_suppressed_place (setting_of self.old.world) self.old.trace ask }
        ensures notes { Notes B.is_exact (stack_of_event self.old.trace ask) result (B.held pass.old) (B.held pass.new) }
        ensures belongs { B.belongs (B.place board.now) pass.new }
        ensures can { B.can_report pass.new ≡ true }
    {
        world.is_code();
        self.kept.detector.judge(world, board, pass, ask)
    }

    /// Makes the next event, which this word answers and which was judged so. Tells whether it was a failed try.
    pub(crate) fn make(&mut self, world: &World<'_>, ask: Ask, word: u64, judged: Judged) -> Turned
        requires runs { CanRun world.now }
        requires world { self.old.world ≡ world.now }
        requires going { end_of self.old ≡ None }
        requires next { ask ≡ next_event self.old }
        requires answer { CanAnswer ask word }
        requires word { HasItsWord (record { ask = ask; word = word }) }
        requires report { is_report judged ≡ is_report_place (setting_of self.old.world) self.old.trace ask }
        requires suppressed { is_suppressed judged ≡ is_suppressed_place (setting_of self.old.world) self.old.trace ask }
        ensures made { self.new ≡ makes self.old ask word (is_refused judged) }
        ensures turned { is_failed result ≡ is_last_a_try self.new.world self.new.begin self.new.trace }
        ensures tried { end_of self.new ≡ None → is_failed result ≡ true → is_creation (next_event self.new) ≡ false }
    {
        world.is_code();
        let _limit = limit_of(world);
        self.kept.make(world, ask, word, judged)
    }

    /// What is so of each thread: its trace is one of the source thread.
    pub(crate) fn is_run(&self)
        ensures { IsRunSoFar self.now }
    {
        let _ = &self.kept;
    }

    /// How the thread ended, if it has ended.
    pub(crate) fn end(&self) -> Option<End>
        ensures { result ≡ end_of self.now }
    {
        self.kept.end
    }

    /// Whether the thread has ended.
    pub(crate) fn has_ended(&self) -> bool
        ensures { result ≡ is_some (end_of self.now) }
    {
        self.kept.end.is_some()
    }

    pub(crate) fn number(&self) -> u32
        ensures number { result ≡ self.now.begin.number }
        ensures low { result < 64 }
    {
        self.number
    }

    pub(crate) fn events(&self) -> u64
        ensures { result ≡ length self.now.trace }
    {
        self.kept.events
    }

    pub(crate) fn reports(&self) -> u64
        ensures { result ≡ reports_in self.now }
    {
        self.kept.reports
    }

    pub(crate) fn suppressed(&self) -> u64
        ensures { result ≡ suppressed_of self.now }
    {
        self.kept.suppressed
    }

    pub(crate) fn output(&self) -> &[u8]
        ensures { result.now ≡ output self.now.trace }
    {
        self.kept.output.bytes()
    }

    pub(crate) fn dropped(&self) -> u64
        ensures { result ≡ dropped self.now.trace }
    {
        self.kept.output.dropped()
    }

    pub(crate) fn trace(&self) -> Trace
        ensures { result ≡ self.now.trace }
    {
        self.kept.trace.copy()
    }

    pub(crate) fn into_machine(self) -> Thread
        ensures { result ≡ machine_of self }
    {
        let Running { kept, .. } = self;
        let Kept { machine, .. } = kept;
        machine
    }
}

/// The event limit.
fn limit_of(world: &World<'_>) -> u32
    ensures limit { result ≡ world.now.options.events }
    ensures low { result < 2 ^ 32 }
{
    world.options.events
}
