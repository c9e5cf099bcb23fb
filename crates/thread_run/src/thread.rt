//! C threads.

ghost use Rattle.std.specs.Prelude.{◌≡◌, ◌≢◌, [], ◌+◌, ◌<◌, ◌≤◌, length, true, false, Some, None, is_some, IfOk, IfSome};
ghost use Rattle.machine_code.specs.Bounds.{table_words};
ghost use Rattle.reports.specs.Passes as board_passes;
ghost use Rattle.src_model.specs.Outputs.{output, dropped};
ghost use Rattle.thread_run.specs.Slices.{WentOn, IsEnough, IsTurn, made_since};
ghost use Rattle.thread_run.specs.Threads.{IsRunSoFar, fresh, makes, next_event, end_of, machine_of, reports_in, suppressed_of, is_creation, first_start, child_of};
ghost use Rattle.thread_run.specs.Worlds.{CanRun};
ghost use Rattle.word_mem.specs.Held as word_passes;

use crate::arguments::entry_words;
use crate::blank::Blank;
use crate::detector::Detector;
use crate::output::Output;
use crate::running::Running;
use crate::slices::{answer_creation, slice};
use crate::turn::Turn;
use crate::world::World;
use machine_code::Thread;
use reports::Board;
use src_model::{End, Trace};
use std::alloc::{AllocError, Global};
use std::mem;
use word_mem::Words;

/// A C thread: what it is at, and the passes that it holds, unless they are out.
#[derive(Drop)]
pub struct CThread<W: Words, B: Board> {
    pub(crate) run: Running,
    pub(crate) passes: Option<(W::Pass, B::Pass)>,
}

impl<W: Words, B: Board> CThread<W, B> {
    /// Thread 0, before its first event. All memory that it needs is taken here.
    pub fn first(
        alloc: Global,
        world: &World<'_>,
        arguments: &[i32],
        pass: W::Pass,
        board_pass: B::Pass,
    ) -> Result<CThread<W, B>, AllocError>
    where
        W::Pass: Drop,
        requires runs { CanRun world.now }
        requires empty { (W.held pass).own ≡ [] }
        requires silent { (B.held board_pass).own ≡ [] }
        ensures run { IfOk result (λ thread. thread.run ≡ fresh world.now (first_start world.now arguments.now)) }
        ensures passes { IfOk result (λ thread. thread.passes ≡ Some (pass, board_pass)) }
    {
        let words = entry_words(alloc, world, arguments)?;
        let machine = Thread::blank(alloc)?;
        let detector = Detector::new(alloc)?;
        let output = Output::new(alloc)?;
        let run = Running::new(
            world,
            0,
            world.code.entry(),
            words.as_slice(),
            machine,
            detector,
            output,
        );
        Ok(CThread {
            run,
            passes: Some((pass, board_pass)),
        })
    }

    /// Makes up to so many events of a thread that hasn't ended. It stops after a failed try, before a Create, and where the thread has ended; where a
    /// Create comes next already, it makes none. It takes no memory.
    pub fn slice(&mut self, world: &World<'_>, words: &W, board: &B, events: u32) -> Turn
        requires runs { CanRun world.now }
        requires world { self.old.run.world ≡ world.now }
        requires events { 0 < events }
        requires going { end_of self.old.run ≡ None }
        requires held { is_some self.old.passes ≡ true }
        requires size { length (W.place words.now).opening ≡ table_words }
        requires belongs { IfSome self.old.passes (λ p. W.belongs (W.place words.now) p.0) }
        requires enough { IfSome self.old.passes (λ p. IsEnough self.old.run events (W.left p.0)) }
        requires board { IfSome self.old.passes (λ p. B.belongs (B.place board.now) p.1) }
        requires can { IfSome self.old.passes (λ p. B.can_report p.1 ≡ true) }
        ensures held { is_some self.new.passes ≡ true }
        ensures went { IfSome self.old.passes (λ p. IfSome self.new.passes (λ q. WentOn B.is_exact self.old.run self.new.run (W.held p.0) (W.held q.0) (W.left p.0) (W.left q.0) (B.held p.1) (B.held q.1))) }
        ensures few { made_since self.old.run self.new.run ≤ events }
        ensures turn { IsTurn result events (made_since self.old.run self.new.run) self.new.run }
        ensures belongs { IfSome self.new.passes (λ q. W.belongs (W.place words.now) q.0) }
        ensures board { IfSome self.new.passes (λ q. B.belongs (B.place board.now) q.1) }
        ensures can { IfSome self.new.passes (λ q. B.can_report q.1 ≡ true) }
    {
        match &mut self.passes {
            Some(passes) => slice(&mut self.run, world, words, board, passes, events),
            None => unreachable!(),
        }
    }

    /// Answers the Create that comes next with the number of the blank, and gives the thread that it starts. It takes no memory.
    pub fn start_child(
        &mut self,
        world: &World<'_>,
        blank: Blank<W>,
        words: &W,
        board: &B,
    ) -> CThread<W, B>
        requires runs { CanRun world.now }
        requires world { self.old.run.world ≡ world.now }
        requires going { end_of self.old.run ≡ None }
        requires creation { is_creation (next_event self.old.run) ≡ true }
        requires held { is_some self.old.passes ≡ true }
        requires belongs { IfSome self.old.passes (λ p. W.belongs (W.place words.now) p.0) }
        requires spare { W.spares (W.place words.now) blank.spare }
        requires board { IfSome self.old.passes (λ p. B.belongs (B.place board.now) p.1) }
        ensures answered { self.new.run ≡ makes self.old.run (next_event self.old.run) blank.number false }
        ensures child { result.run ≡ fresh world.now (child_of blank.number (next_event self.old.run)) }
        ensures held { (is_some self.new.passes ≡ true) × (is_some result.passes ≡ true) }
        ensures words { IfSome self.old.passes (λ p. IfSome self.new.passes (λ q. (W.held q.0 ≡ word_passes.makes (W.held p.0) blank.number) × (W.left q.0 ≡ W.left p.0) × W.belongs (W.place words.now) q.0)) }
        ensures child_words { IfSome result.passes (λ r. (W.held r.0 ≡ word_passes.born blank.number) × (W.left r.0 ≡ W.calls blank.spare) × W.belongs (W.place words.now) r.0) }
        ensures board { IfSome self.old.passes (λ p. IfSome self.new.passes (λ q. IfSome result.passes (λ r. (B.held q.1 ≡ board_passes.makes (B.held p.1) (B.held r.1).number) × (B.can_report q.1 ≡ B.can_report p.1) × B.belongs (B.place board.now) q.1))) }
        ensures child_board { IfSome result.passes (λ r. (B.held r.1 ≡ board_passes.born (B.held r.1).number) × ((B.held r.1).number ≢ 0) × B.belongs (B.place board.now) r.1) }
    {
        let Blank {
            number,
            spare,
            machine,
            detector,
            output,
            ..
        } = blank;
        let (function, argument) = answer_creation(&mut self.run, world, number);
        let run = Running::new(
            world,
            number,
            function,
            &[argument],
            machine,
            detector,
            output,
        );
        match &mut self.passes {
            Some(passes) => {
                let pass = words.split(&mut passes.0, spare);
                let board_pass = board.split(&mut passes.1);
                CThread {
                    run,
                    passes: Some((pass, board_pass)),
                }
            }
            None => unreachable!(),
        }
    }

    /// Answers the Create that comes next with none. It takes no memory.
    pub fn refuse_child(&mut self, world: &World<'_>)
        requires runs { CanRun world.now }
        requires world { self.old.run.world ≡ world.now }
        requires going { end_of self.old.run ≡ None }
        requires creation { is_creation (next_event self.old.run) ≡ true }
        ensures answered { self.new.run ≡ makes self.old.run (next_event self.old.run) 0 false }
        ensures passes { self.new.passes ≡ self.old.passes }
    {
        let _ = answer_creation(&mut self.run, world, 0);
    }

    /// Takes the passes out; none where they are out.
    pub fn lift(&mut self) -> Option<(W::Pass, B::Pass)>
        ensures passes { result ≡ self.old.passes }
        ensures out { self.new.passes ≡ None }
        ensures same { self.new.run ≡ self.old.run }
    {
        mem::replace(&mut self.passes, None)
    }

    /// Lays passes in, where they are out.
    pub fn lay(&mut self, passes: (W::Pass, B::Pass))
        requires out { is_some self.old.passes ≡ false }
        ensures passes { self.new.passes ≡ Some passes }
        ensures same { self.new.run ≡ self.old.run }
    {
        let out = mem::replace(&mut self.passes, Some(passes));
        match out {
            None => {}
            Some(_) => unreachable!(),
        }
    }

    /// Takes the passes of a thread that has ended; none where they are out.
    pub fn take_passes(&mut self) -> Option<(W::Pass, B::Pass)>
        requires ended { is_some (end_of self.old.run) ≡ true }
        ensures passes { result ≡ self.old.passes }
        ensures out { self.new.passes ≡ None }
        ensures same { self.new.run ≡ self.old.run }
    {
        self.lift()
    }

    /// What is so of each thread: its trace is one of the source thread, before each of whose events it hadn't ended.
    pub fn is_run(&self)
        ensures { IsRunSoFar self.now.run }
    {
        self.run.is_run();
    }

    /// How the thread ended, if it has ended.
    pub fn end(&self) -> Option<End>
        ensures { result ≡ end_of self.now.run }
    {
        self.run.end()
    }

    /// The number of the thread.
    pub fn number(&self) -> u32
        ensures number { result ≡ self.now.run.begin.number }
        ensures low { result < 64 }
    {
        self.run.number()
    }

    /// How many events it made, those of its ending too.
    pub fn events(&self) -> u64
        ensures { result ≡ length self.now.run.trace }
    {
        self.run.events()
    }

    /// How many reports of it are counted.
    pub fn reports(&self) -> u64
        ensures { result ≡ reports_in self.now.run }
    {
        self.run.reports()
    }

    /// How many of its places are suppressed.
    pub fn suppressed(&self) -> u64
        ensures { result ≡ suppressed_of self.now.run }
    {
        self.run.suppressed()
    }

    /// The bytes that it wrote, of which the first 65,536 are kept.
    pub fn output(&self) -> &[u8]
        ensures { result.now ≡ output self.now.run.trace }
    {
        self.run.output()
    }

    /// How many bytes came behind those.
    pub fn dropped(&self) -> u64
        ensures { result ≡ dropped self.now.run.trace }
    {
        self.run.dropped()
    }

    /// Its trace.
    pub fn trace(&self) -> Trace
        ensures { result ≡ self.now.run.trace }
    {
        self.run.trace()
    }

    /// The machine of a thread that has ended, as its last event left it.
    pub fn into_machine(self) -> Thread
        requires ended { is_some (end_of self.run) ≡ true }
        requires out { is_some self.passes ≡ false }
        ensures { result ≡ machine_of self.run }
    {
        let CThread { run, passes } = self;
        match passes {
            None => run.into_machine(),
            Some(_) => unreachable!(),
        }
    }
}
