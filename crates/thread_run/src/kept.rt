//! What a thread keeps from event to event.

ghost use Rattle.std.specs.Prelude.{◌≡◌, ◌∷◌, ◌+◌, ◌-◌, ◌<◌, ◌≤◌, ◌^◌, ◌&&◌, not, length};
ghost use Rattle.mcode.specs.Machine.{machine_next, machine_turned};
ghost use Rattle.machine_code.specs.Bounds.{CanAnswer};
ghost use Rattle.thread_run.specs.Detecting.{followed, IsCounted, HasRoom, is_report, is_suppressed, is_refused};
ghost use Rattle.thread_run.specs.UnderWay.{MakesEvent, unless_cut, is_cut_by, end_by, one_if};
ghost use Rattle.thread_run.specs.Writing.{written};

use crate::detector::Detector;
use crate::endings::{counted, ending, tries_with};
use crate::judged::Judged;
use crate::output::Output;
use crate::world::World;
use machine_code::{Ask, Thread, Turned};
use src_model::{End, Made, Trace};

/// The machine of a thread, its trace, and what is counted and kept along that.
#[derive(Drop)]
pub struct Kept {
    pub(crate) machine: Thread,
    pub(crate) trace: Trace,
    pub(crate) detector: Detector,
    pub(crate) output: Output,
    pub(crate) events: u64,
    pub(crate) reports: u64,
    pub(crate) suppressed: u64,
    pub(crate) tries: u64,
    pub(crate) refused: bool,
    pub(crate) end: Option<End>,
}

impl Kept {
    /// Makes the next event, which this word answers and which was judged so. Tells whether it was a failed try.
    pub(crate) fn make(&mut self, world: &World<'_>, ask: Ask, word: u64, judged: Judged) -> Turned
        requires next { ask ≡ machine_next world.now.code self.old.machine }
        requires answer { CanAnswer ask word }
        requires counted { IsCounted world.now.unit self.old.detector }
        requires room { HasRoom ask self.old.detector }
        requires few { length self.old.detector.frames ≤ 256 }
        requires dropped { self.old.output.dropped + 1 < 2 ^ 64 }
        requires events { self.old.events + 1 < 2 ^ 64 }
        requires reports { self.old.reports + 1 < 2 ^ 64 }
        requires suppressed { self.old.suppressed + 1 < 2 ^ 64 }
        requires tries { self.old.tries + 1 < 2 ^ 64 }
        ensures made { MakesEvent world.now ask word judged self.old self.new }
        ensures turned { result ≡ machine_turned world.now.code self.old.machine word }
    {
        let turned = self.machine.answer(world.code, word);
        self.tries = tries_with(turned, ask, self.tries);
        self.follow(world, ask, word, judged);
        self.finish(world, judged);
        turned
    }

    /// Follows an event that the machine has made.
    fn follow(&mut self, world: &World<'_>, ask: Ask, word: u64, judged: Judged)
        requires counted { IsCounted world.now.unit self.old.detector }
        requires room { HasRoom ask self.old.detector }
        requires few { length self.old.detector.frames ≤ 256 }
        requires dropped { self.old.output.dropped + 1 < 2 ^ 64 }
        requires events { self.old.events + 1 < 2 ^ 64 }
        requires reports { self.old.reports + 1 < 2 ^ 64 }
        requires suppressed { self.old.suppressed + 1 < 2 ^ 64 }
        ensures machine { self.new.machine ≡ self.old.machine }
        ensures trace { self.new.trace ≡ record { ask = ask; word = word } ∷ self.old.trace }
        ensures detector { self.new.detector ≡ followed world.now.unit ask self.old.detector }
        ensures output { self.new.output ≡ written ask self.old.output }
        ensures events { self.new.events ≡ self.old.events + 1 }
        ensures reports { self.new.reports ≡ self.old.reports + one_if (is_report judged && not (is_refused judged)) }
        ensures suppressed { self.new.suppressed ≡ self.old.suppressed + one_if (is_suppressed judged) }
        ensures tries { self.new.tries ≡ self.old.tries }
        ensures refused { self.new.refused ≡ is_refused judged }
    {
        self.trace.push(Made { ask, word });
        self.detector.follow(world.unit, ask);
        self.output.follow(ask);
        self.events += 1;
        self.reports = counted(self.reports, is_counted(judged));
        self.suppressed = counted(self.suppressed, is_suppressed(judged));
        self.refused = is_refused(judged);
    }

    /// Cuts the machine short where a report says so, and finds the ending.
    fn finish(&mut self, world: &World<'_>, judged: Judged)
        requires { self.old.refused ≡ is_refused judged }
        ensures machine { self.new.machine ≡ unless_cut (is_cut_by world.now.options.halt_on_error judged) self.old.machine }
        ensures end { self.new.end ≡ end_by world.now self.old.refused (machine_next world.now.code self.new.machine) self.old.events self.old.tries }
        ensures same { self.new ≡ record self.old { machine = self.new.machine; end = self.new.end } }
    {
        if world.options.halt_on_error && is_counted(judged) {
            self.machine.cut();
        }
        self.end = self.end_here(world);
    }

    /// The ending of the thread where it stands.
    fn end_here(&self, world: &World<'_>) -> Option<End>
        ensures { result ≡ end_by world.now self.now.refused (machine_next world.now.code self.now.machine) self.now.events self.now.tries }
    {
        if self.refused {
            Some(End::Full)
        } else {
            ending(
                world.options,
                self.machine.next(world.code),
                self.events,
                self.tries,
            )
        }
    }
}

/// Whether an event is a report that is counted.
fn is_counted(judged: Judged) -> bool
    ensures { result ≡ (is_report judged && not (is_refused judged)) }
{
    match judged {
        Judged::Reported => true,
        Judged::Passed => false,
        Judged::Suppressed => false,
        Judged::Refused => false,
    }
}

/// Whether it is suppressed.
fn is_suppressed(judged: Judged) -> bool
    ensures { result ≡ is_suppressed judged }
{
    match judged {
        Judged::Suppressed => true,
        Judged::Passed => false,
        Judged::Reported => false,
        Judged::Refused => false,
    }
}

/// Whether the board has no room for it.
fn is_refused(judged: Judged) -> bool
    ensures { result ≡ is_refused judged }
{
    match judged {
        Judged::Refused => true,
        Judged::Passed => false,
        Judged::Suppressed => false,
        Judged::Reported => false,
    }
}
