//! The run of one thread.

ghost use Rattle.std.specs.Prelude.{◌≡◌, [], ◌∷◌, ◌+◌, ◌<◌, ◌^◌, length, reverse, Some, None, false, IfOk, MatchOption, if◌then◌else◌};
ghost use Rattle.built_code.specs.Machine.{machine_next, started, cut_short};
ghost use Rattle.built_code.specs.Bounds.{HasRoom};
ghost use Rattle.built_model.specs.Laws.{IsInTable};
ghost use Rattle.built_model.specs.Follows.{Behaves};
ghost use Rattle.built_model.specs.Context.{report_stacks};
ghost use Rattle.built_model.specs.Replay.{opening_words};
ghost use Rattle.built_model.specs.Run.{IsRun, machine_after_trace, unless_report, ending, end_of, is_ending};
ghost use Rattle.built_run.specs.Functions.{IsCounted};
ghost use Rattle.built_run.specs.UnderWay.{IsUnderWay, MakesEvent};

use crate::context::Context;
use crate::memory::Memory;
use built_code::words::HALT;
use built_code::{Ask, Code, Finish, Thread};
use built_model::{End, Made, Trace};
use built_unit::Unit;
use command::EVENT_LIMIT;
use ctx_set::StepList;
use std::alloc::{AllocError, Global};

/// What a thread left that has ended.
#[derive(Drop)]
pub struct Ran {
    pub end: End,
    /// how many events it made, those of its ending too
    pub events: u64,
    pub trace: Trace,
    /// the machine as the last event left it
    pub machine: Thread,
    /// the stack of its report, if it made one
    pub report: Option<StepList>,
}

/// Runs the code of a unit from its entry, as one thread, by the defaults of options and limits: a report ends it, and at
/// the event limit it is stopped. All memory is taken before the first event, and the only error is want of it.
pub fn run_thread(alloc: Global, unit: &Unit, code: &Code) -> Result<Ran, AllocError>
    requires { Behaves unit.now code.now }
    ensures run { IfOk result (λ ran. IsRun unit.now code.now.entry ran.trace ran.end) }
    ensures machine { IfOk result (λ ran. ran.machine ≡ machine_after_trace unit.now code.now 0 code.now.entry ran.trace) }
    ensures events { IfOk result (λ ran. ran.events ≡ length ran.trace) }
    ensures report { IfOk result (λ ran. MatchOption ran.report (report_stacks unit.now ran.trace ≡ []) (λ stack. report_stacks unit.now ran.trace ≡ stack ∷ [])) }
{
    let mut running = Running::new(alloc, code)?;
    let end = running.run(unit, code);
    Ok(running.into_ran(end))
}

// A thread under way.
#[derive(Drop)]
struct Running {
    thread: Thread,
    memory: Memory,
    context: Context,
    trace: Trace,
    events: u64,
    // whether it has made its report
    reported: bool,
}

impl Running {
    // The thread of the entry at its start, with all memory of the run.
    fn new(alloc: Global, code: &Code) -> Result<Running, AllocError>
        ensures { IfOk result (λ running. running ≡ record { thread = started 0 code.now.entry; memory = opening_words; context = record { frames = []; nonblocking = 0 }; trace = []; events = 0; reported = false }) }
    {
        let memory = Memory::new(alloc)?;
        let context = Context::new(alloc)?;
        let mut thread = Thread::blank(alloc)?;
        thread.start(0, code.entry(), &[]);
        Ok(Running {
            thread,
            memory,
            context,
            trace: Trace::new(),
            events: 0,
            reported: false,
        })
    }

    // Makes events until the thread has ended.
    fn run(&mut self, unit: &Unit, code: &Code) -> End
        requires { IsUnderWay unit.now code.now self.old }
        ensures under_way { IsUnderWay unit.now code.now self.new }
        ensures ended { ending (machine_next code.now self.new.thread) self.new.events ≡ Some result }
    {
        'events: loop {
            let ask = self.thread.next(code);
            if let Some(end) = ending(ask, self.events) {
                return end;
            }
            self.make(unit, code, ask);
        }
    }

    // Makes the next event.
    fn make(&mut self, unit: &Unit, code: &Code, ask: Ask)
        requires low { IsInTable ask }
        requires room { HasRoom ask (length self.old.context.frames) }
        requires counted { IsCounted unit.now self.old.context }
        requires few { self.old.events + 1 < 2 ^ 64 }
        ensures { MakesEvent unit.now code.now ask self.old self.new }
    {
        let report = self.context.is_report(unit, ask);
        let word = self.memory.make(ask);
        self.context.follow(unit, ask);
        self.thread.answer(code, word);
        cut_at(report, &mut self.thread);
        self.trace.push(Made { ask, word });
        self.events += 1;
        self.reported |= report;
    }

    // What the thread left, which ended so.
    fn into_ran(self, end: End) -> Ran
        ensures end { result.end ≡ end }
        ensures events { result.events ≡ self.events }
        ensures trace { result.trace ≡ self.trace }
        ensures machine { result.machine ≡ self.thread }
        ensures report { result.report ≡ (if self.reported then Some (reverse self.context.frames) else None) }
    {
        let Running {
            thread,
            context,
            trace,
            events,
            reported,
            ..
        } = self;
        let report = if reported {
            Some(context.into_stack())
        } else {
            None
        };
        Ran {
            end,
            events,
            trace,
            machine: thread,
            report,
        }
    }
}

// A report cuts the thread short.
fn cut_at(report: bool, thread: &mut Thread)
    ensures { thread.new ≡ unless_report report cut_short thread.old }
{
    if report {
        thread.cut();
    }
}

// The ending of a thread with this next event, which made so many.
fn ending(ask: Ask, events: u64) -> Option<End>
    ensures { result ≡ ending ask events }
{
    match ask {
        Ask::Over(finish) => Some(end_of(finish)),
        Ask::Load(_)
        | Ask::Store(_, _)
        | Ask::Exchange(_, _, _)
        | Ask::FetchAdd(_, _)
        | Ask::FetchSub(_, _)
        | Ask::Enter(_, _)
        | Ask::Leave
        | Ask::Reach(_, _)
        | Ask::Create(_, _)
        | Ask::Out(_)
        | Ask::Trap(_) => {
            if is_ending(ask) || events < u64::from(EVENT_LIMIT) {
                None
            } else {
                Some(End::Stopped)
            }
        }
    }
}

// Whether an ending has begun with this event.
fn is_ending(ask: Ask) -> bool
    ensures { result ≡ is_ending ask }
{
    match ask {
        Ask::Trap(_) => true,
        Ask::Store(at, _) => at >= HALT,
        Ask::Load(_)
        | Ask::Exchange(_, _, _)
        | Ask::FetchAdd(_, _)
        | Ask::FetchSub(_, _)
        | Ask::Enter(_, _)
        | Ask::Leave
        | Ask::Reach(_, _)
        | Ask::Create(_, _)
        | Ask::Out(_)
        | Ask::Over(_) => false,
    }
}

// The ending of a finished thread.
fn end_of(finish: Finish) -> End
    ensures { result ≡ end_of finish }
{
    match finish {
        Finish::Returned => End::Returned,
        Finish::Exited(number) => End::Exited(number),
        Finish::Trapped(kind) => End::Trapped(kind),
        Finish::Halted => End::Halted,
    }
}
