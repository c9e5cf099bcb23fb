//! A thread of the plain machine, which is always parked at an event.

ghost use Rattle.std.specs.Prelude.{◌≡◌, [], ◌<◌, ◌≤◌, length, map, reverse, IfOk};
ghost use Rattle.mcode.specs.Words.{argument, unpacked};
ghost use Rattle.mcode.specs.Machine.{Machine, machine_next, machine_after, machine_turned, machine_start, machine_cut};
ghost use Rattle.machine_code.specs.Bounds.{CanAnswer, frame_count};

use crate::code::Code;
use crate::stack::Stack;
use crate::stages::answered;
use crate::words::argument_of;
use core_unit::Word;
use mcode::{Caller, Finish, Mode, Turned};
use std::alloc::{AllocError, Global};
use std::marker::Model;

/// Holds the arguments of a thread's first function.
fn hold_arguments(held: &mut Stack<Word, 1024>, arguments: &[u64])
    requires empty { held.old ≡ [] }
    requires few { length arguments.now ≤ 16 }
    ensures { held.new ≡ reverse (map (λ word. argument (unpacked word)) arguments.now) }
{
    'each: for argument in arguments {
        held.push(argument_of(*argument));
    }
}

/// A thread of the plain machine.
#[derive(Drop)]
pub struct Thread {
    pub(crate) number: u32,
    pub(crate) pc: u32,
    pub(crate) value: Word,
    pub(crate) held: Stack<Word, 1024>,
    pub(crate) callers: Stack<Caller, 256>,
    pub(crate) base: u32,
    pub(crate) top: u32,
    pub(crate) mode: Mode,
}

impl Model for Thread {
    ghost use Rattle.mcode.specs.Machine.{Machine};
    ghost use Rattle.machine_code.specs.Bounds.{IsThread};

    ghost Value = { Machine };

    ghost view = { λ t. record { number = t.number; pc = t.pc; value = t.value; held = t.held; callers = t.callers; base = t.base; top = t.top; mode = t.mode } };

    ghost invariant = { λ t. IsThread (record { number = t.number; pc = t.pc; value = t.value; held = t.held; callers = t.callers; base = t.base; top = t.top; mode = t.mode }) };
}

impl Thread {
    /// A thread with the memory for all that can stand on its stacks, which nothing was started on yet.
    pub fn blank(alloc: Global) -> Result<Thread, AllocError>
        ensures { IfOk result (λ thread. thread ≡ record (machine_start 0 0 []) { mode = Mode.Done Finish.Halted }) }
    {
        let held = Stack::blank(alloc)?;
        let callers = Stack::blank(alloc)?;
        Ok(Thread {
            number: 0,
            pc: 0,
            value: Word::Zero,
            held,
            callers,
            base: 0,
            top: 0,
            mode: Mode::Done(Finish::Halted),
        })
    }

    /// Starts the thread of this number, of 64, at a function with at most 16 arguments; what stood here before is gone.
    pub fn start(&mut self, number: u32, function: u32, arguments: &[u64])
        requires number { number < 64 }
        requires arguments { length arguments.now ≤ 16 }
        ensures { self.new ≡ machine_start number function arguments.now }
    {
        self.held.clear();
        hold_arguments(&mut self.held, arguments);
        self.number = number;
        self.pc = 0;
        self.value = Word::Zero;
        self.callers.clear();
        self.base = 0;
        self.top = 0;
        self.mode = Mode::Starting(function);
    }

    /// Makes the next event, which this word answers, and goes on to the event after it. For an event without an answer the word is
    /// ignored. Tells whether the event was a try that failed.
    pub fn answer(&mut self, code: &Code, word: u64) -> Turned
        requires { CanAnswer (machine_next code.now self.old) word }
        ensures moved { self.new ≡ machine_after code.now self.old word }
        ensures turned { result ≡ machine_turned code.now self.old word }
        ensures frames { length self.new.callers ≡ frame_count (machine_next code.now self.old) (length self.old.callers) }
    {
        code.is_code();
        let turned = self.turned(code, word);
        let mut answer = Some(word);
        'steps: loop {
            let quiet = self.advance(code, answer);
            if answer.is_none() && !quiet {
                return turned;
            }
            answer = None;
        }
    }

    /// Cuts the thread short: the store of halt is the only event left.
    pub fn cut(&mut self)
        ensures { self.new ≡ machine_cut self.old }
    {
        self.mode = Mode::Stopping(Finish::Halted);
    }

    /// What the answer to the next event does.
    fn turned(&self, code: &Code, word: u64) -> Turned
        requires { CanAnswer (machine_next code.now self.now) word }
        ensures { result ≡ machine_turned code.now self.now word }
    {
        code.is_code();
        match self.mode {
            Mode::Calling(stage) => answered(self.number, stage, word).turned(),
            _ => Turned::Went,
        }
    }
}
