//! A thread of the plain machine, which is always parked at an event.

ghost use Rattle.std.specs.Prelude.{◌≡◌, ◌∷◌, [], ◌<◌, ◌≤◌, ◌↔◌, ◌+◌, ◌^◌, length, IsTrue, IfOk, IfSome, slice_get};
ghost use Rattle.built_code.specs.Steps.{is_quiet, asked, answered};

use crate::code::{Code, Instruction};
use crate::events::{Ask, Finish, TrapKind, Turned};
use crate::frames::{FRAMES, Frame, FrameStack};
use crate::words::{DONE, HALT, RESULT, number_word, signed_number};
use std::alloc::{AllocError, Global};
use std::marker::Model;

/// What a thread is at.
#[derive(Clone, Copy)]
pub enum Mode {
    /// the load of halt before the first function, by its number
    Starting(u32),
    /// enters the first function, by its number
    Entering(u32),
    /// runs instructions
    Running,
    /// is trapped next
    Failing(TrapKind),
    /// stores its result
    Giving,
    /// tells that it has returned
    Telling,
    /// tells all threads to halt, and is finished then
    Stopping(Finish),
    /// is finished
    Done(Finish),
}

/// A thread of the plain machine.
#[derive(Drop)]
pub struct Thread {
    number: u32,
    pc: u32,
    value: u32,
    frames: FrameStack,
    mode: Mode,
}

impl Model for Thread {
    ghost use Rattle.std.specs.Prelude.{◌<◌};
    ghost use Rattle.built_code.specs.Machine.{Machine};

    ghost Value = { Machine };

    ghost view = { λ t. record { number = t.number; pc = t.pc; value = t.value; frames = t.frames; mode = t.mode } };

    ghost invariant = { λ t. t.number < 64 };
}

impl Thread {
    ghost use Rattle.built_code.specs.Machine.{Machine, Program, machine_next, machine_after, move, does, way_in, site_on_top, left_by, leaves, started, cut_short, enters, unless_halted};
    ghost use Rattle.built_code.specs.Bounds.{address_of, words_end, HasRoom, frame_count};

    /// A thread with the memory for 256 frames, which nothing was started on yet.
    pub fn blank(alloc: Global) -> Result<Thread, AllocError>
        ensures { IfOk result (λ thread. thread ≡ record (started 0 0) { mode = Mode.Done Finish.Halted }) }
    {
        let frames = FrameStack::blank(alloc)?;
        Ok(Thread {
            number: 0,
            pc: 0,
            value: 0,
            frames,
            mode: Mode::Done(Finish::Halted),
        })
    }

    /// Starts the thread of this number, of 64, at a function; what stood here before is gone. A
    /// function without parameters takes no argument.
    pub fn start(&mut self, number: u32, function: u32, _arguments: &[u64])
        requires { number < 64 }
        ensures { self.new ≡ started number function }
    {
        self.number = number;
        self.pc = 0;
        self.value = 0;
        self.frames.clear();
        self.mode = Mode::Starting(function);
    }

    /// The thread's next event, or Over where nothing is left.
    pub fn next(&self, code: &Code) -> Ask
        ensures event { result ≡ machine_next code.now self.now }
        ensures low { IfSome (address_of result) (λ at. at < words_end) }
        ensures room { HasRoom result (length self.now.frames) }
    {
        match self.mode {
            Mode::Starting(_) => Ask::Load(HALT),
            Mode::Entering(function) => match self.way_in(code, function) {
                Ok(_) => Ask::Enter(function, 0),
                Err(_) => Ask::Over(Finish::Halted),
            },
            Mode::Running => self.next_of(code, code.instruction(self.pc)),
            Mode::Failing(kind) => Ask::Trap(kind),
            Mode::Giving => Ask::Store(RESULT + self.number, number_word(self.value)),
            Mode::Telling => Ask::Store(DONE + self.number, 1),
            Mode::Stopping(_) => Ask::Store(HALT, 1),
            Mode::Done(finish) => Ask::Over(finish),
        }
    }

    // The event of this instruction; a quiet one shows none.
    fn next_of(&self, code: &Code, instruction: Option<Instruction>) -> Ask
        ensures event { result ≡ asked (does code.now self.now instruction) }
        ensures low { IfSome (address_of result) (λ at. at < words_end) }
        ensures room { HasRoom result (length self.now.frames) }
    {
        match instruction {
            Some(Instruction::CheckHalt) => Ask::Load(HALT),
            Some(Instruction::EnterFunction { function, site }) => match self.way_in(
                code, function,
            ) {
                Ok(_) => Ask::Enter(function, site),
                Err(_) => Ask::Over(Finish::Halted),
            },
            Some(Instruction::ReachFunction { function }) => Ask::Reach(function, self.site()),
            Some(Instruction::LeaveFunction) => Ask::Leave,
            Some(Instruction::SetValue(_)) | Some(Instruction::FailWith(_)) | None => {
                Ask::Over(Finish::Halted)
            }
        }
    }

    /// Makes the next event, which this word answers, and runs on to the event after it. For an
    /// event without an answer the word is ignored. No event of this form is a try that can fail.
    pub fn answer(&mut self, code: &Code, word: u64) -> Turned
        ensures moved { self.new ≡ machine_after code.now self.old word }
        ensures went { result ≡ Turned.Went }
        ensures frames { length self.new.frames ≡ frame_count (machine_next code.now self.old) (length self.old.frames) }
    {
        self.step(code, word);
        while self.is_quiet(code) {
            self.step(code, 0);
        }
        Turned::Went
    }

    /// Cuts the thread short: the store of halt is the only event left.
    pub fn cut(&mut self)
        ensures { self.new ≡ cut_short self.old }
    {
        self.mode = Mode::Stopping(Finish::Halted);
    }

    // The site from which the latest frame was entered.
    fn site(&self) -> u32
        ensures { result ≡ site_on_top self.now.frames }
    {
        match self.frames.top() {
            Some(frame) => frame.site,
            None => 0,
        }
    }

    // The pc of the first instruction of a function, where a frame has room.
    fn way_in(&self, code: &Code, function: u32) -> Result<u32, TrapKind>
        ensures { result ≡ way_in code.now self.now function }
    {
        if self.frames.len() >= FRAMES {
            return Err(TrapKind::StackOverflow);
        }
        match code.entry_of(function) {
            Some(pc) => Ok(pc),
            None => Err(TrapKind::NullCall),
        }
    }

    // Whether the thread goes on here without an event.
    fn is_quiet(&self, code: &Code) -> bool
        ensures { result ≡ is_quiet (move code.now self.now) }
    {
        match self.mode {
            Mode::Entering(function) => self.way_in(code, function).is_err(),
            Mode::Running => match code.instruction(self.pc) {
                Some(Instruction::EnterFunction { function, .. }) => {
                    self.way_in(code, function).is_err()
                }
                Some(Instruction::SetValue(_)) | Some(Instruction::FailWith(_)) | None => true,
                Some(Instruction::CheckHalt)
                | Some(Instruction::ReachFunction { .. })
                | Some(Instruction::LeaveFunction) => false,
            },
            Mode::Starting(_)
            | Mode::Failing(_)
            | Mode::Giving
            | Mode::Telling
            | Mode::Stopping(_)
            | Mode::Done(_) => false,
        }
    }

    // Does one step, whose event, if any, this word answers.
    fn step(&mut self, code: &Code, word: u64)
        ensures { self.new ≡ answered (move code.now self.old) self.old word }
    {
        match self.mode {
            Mode::Starting(function) => self.go_unless_halted(word, Mode::Entering(function)),
            Mode::Entering(function) => self.enter(code, function, 0, 0),
            Mode::Running => self.run(code, word),
            Mode::Failing(kind) => self.mode = Mode::Stopping(Finish::Trapped(kind)),
            Mode::Giving => self.mode = Mode::Telling,
            Mode::Telling => self.mode = Mode::Done(Finish::Returned),
            Mode::Stopping(finish) => self.mode = Mode::Done(finish),
            Mode::Done(_) => {}
        }
    }

    // Goes on to this mode, unless the halt word ends the thread.
    fn go_unless_halted(&mut self, word: u64, on: Mode)
        ensures { self.new ≡ unless_halted self.old word (record self.old { mode = on }) }
    {
        self.mode = if word == 0 {
            on
        } else {
            Mode::Done(Finish::Halted)
        };
    }

    // Does the instruction at the pc, whose event, if any, this word answers.
    fn run(&mut self, code: &Code, word: u64)
        ensures { self.new ≡ answered (does code.now self.old (slice_get code.now.instructions self.old.pc)) self.old word }
    {
        match code.instruction(self.pc) {
            Some(Instruction::CheckHalt) => {
                if word == 0 {
                    self.pc += 1;
                } else {
                    self.mode = Mode::Done(Finish::Halted);
                }
            }
            Some(Instruction::EnterFunction { function, site }) => {
                let back = self.pc + 1;
                self.enter(code, function, site, back);
            }
            Some(Instruction::ReachFunction { .. }) => self.pc += 1,
            Some(Instruction::SetValue(number)) => {
                self.pc += 1;
                self.value = number;
            }
            Some(Instruction::LeaveFunction) => self.leave(),
            Some(Instruction::FailWith(kind)) => self.mode = Mode::Failing(kind),
            None => self.mode = Mode::Failing(TrapKind::NoValue),
        }
    }

    // Enters a function, or fails where there is no way in.
    fn enter(&mut self, code: &Code, function: u32, site: u32, back: u32)
        ensures { self.new ≡ answered (enters self.old function site back (way_in code.now self.old function)) self.old 0 }
    {
        match self.way_in(code, function) {
            Ok(pc) => {
                self.frames.push(Frame { back, site });
                self.pc = pc;
                self.mode = Mode::Running;
            }
            Err(kind) => self.mode = Mode::Failing(kind),
        }
    }

    // Leaves the latest frame, and ends the thread with the last one.
    fn leave(&mut self)
        ensures { self.new ≡ leaves self.old self.old.frames }
    {
        let back = self.frames.pop().map_or(0, |frame| frame.back);
        if self.frames.len() > 0 {
            self.pc = back;
        } else {
            self.mode = self.left_by();
        }
    }

    // What the thread is at when its first function is left.
    fn left_by(&self) -> Mode
        ensures { result ≡ left_by self.now }
    {
        if self.number == 0 {
            Mode::Stopping(Finish::Exited(signed_number(self.value)))
        } else {
            Mode::Giving
        }
    }
}
