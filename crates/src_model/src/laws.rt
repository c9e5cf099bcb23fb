//! Laws of the source thread.

ghost use Rattle.std.specs.Prelude.{List};
ghost use Rattle.src_model.specs.Laws.{IsDeterministic, IsScheduled};
ghost use Rattle.src_model.specs.Runs.{Setting, Thread};
ghost use Rattle.src_model.specs.Totals.{Counted, AreStacks, TellsTotals};

use core_unit::Unit;

/// The law of one event: each state of a thread of the unit that isn't finished has exactly one next event, whose address, if it has one, is below
/// 1,048,768 in each state that one of 64 threads comes to; equal starts with equal answers give equal lists of events; and the word beside an event
/// that nothing answers is ignored. The call itself does nothing.
pub fn law_one_event(unit: &Unit)
    ensures { IsDeterministic unit.now }
{}

/// The law of scheduled runs: where the entry is a function of the unit and the limits aren't 0, the scheduled run comes to its end, whatever the
/// schedule, and its threads are a run. The call itself does nothing.
pub fn law_scheduled(unit: &Unit)
    ensures { IsScheduled unit.now }
{
    let _parts = unit.parts();
}

/// The law of totals: the counts of a run's stacks sum up to its total, and there are as many of them as different stacks are counted. The call
/// itself does nothing.
pub fn law_totals()
    ensures { (w : Setting) (threads : List Thread) (stacks : List Counted) → AreStacks w threads stacks → TellsTotals w threads stacks }
{}
