//! How functions are entered and left.

ghost use Rattle.std.specs.Prelude.{◌≡◌, ◌∷◌, ◌+◌, ◌<◌, ◌≤◌, length};
ghost use Rattle.core_unit.specs.Words.{packed};
ghost use Rattle.mcode.specs.Machine as spec;
ghost use Rattle.mcode.specs.Memory.{frame_limit, stack_words};
ghost use Rattle.mcode.specs.Steps.{is_quiet, asked};
ghost use Rattle.mcode.specs.declared.thread.Mode.TheVariants as mode;
ghost use Rattle.machine_code.specs.Bounds.{IsLowMode, IsInTable};
ghost use Rattle.machine_code.specs.Taken.{taken};

use crate::code::Code;
use crate::thread::Thread;
use crate::words::{bits_of, signed, stored_at};
use arithmetic::bits_in;
use core_unit::Word;
use eff_types::Level;
use mcode::{Ask, Caller, Entry, Finish, Mode, TrapKind};

impl Thread {
    /// The event of an entry, where there is room; else none is shown.
    pub(crate) fn shown_entry(&self, code: &Code, function: u32, site: u32) -> Ask
        ensures event { result ≡ asked (spec.enters self.now function site 0 0 (spec.entry_of code.now function)) }
        ensures in_table { IsInTable result }
    {
        match code.entry_of(function) {
            None => Ask::Over(Finish::Halted),
            Some(entry) => {
                if self.has_room(entry) {
                    Ask::Enter(function, site)
                } else {
                    Ask::Over(Finish::Halted)
                }
            }
        }
    }

    /// The thread enters a function of which this is known; its frame has room.
    fn push_frame(&mut self, function: u32, site: u32, back: u32, more: u32, entry: Entry)
        requires frames { length self.old.callers < frame_limit }
        requires words { self.old.top + entry.frame_words ≤ stack_words }
        ensures { self.new ≡ record self.old {
          pc = entry.place;
          callers = record { function = function; site = site; back = back; base = self.old.base; more = more } ∷ self.old.callers;
          base = self.old.top;
          top = self.old.top + entry.frame_words;
          mode = mode.Running;
        } }
    {
        self.callers.push(Caller {
            function,
            site,
            back,
            base: self.base,
            more,
        });
        self.pc = entry.place;
        self.base = self.top;
        self.top += entry.frame_words;
        self.mode = Mode::Running;
    }

    /// Enters a function where there is an answer, or fails at once where it isn't defined or has no room. Tells whether that was
    /// quiet.
    pub(crate) fn enter(
        &mut self,
        code: &Code,
        function: u32,
        site: u32,
        back: u32,
        more: u32,
        answer: Option<u64>,
    ) -> bool
        ensures quiet { result ≡ is_quiet (spec.enters self.old function site back more (spec.entry_of code.now function)) }
        ensures moved { self.new ≡ taken self.old answer (spec.enters self.old function site back more (spec.entry_of code.now function)) }
    {
        match code.entry_of(function) {
            None => {
                self.fail(TrapKind::NullCall);
                true
            }
            Some(entry) => {
                if self.has_room(entry) {
                    match answer {
                        Some(_) => {
                            self.push_frame(function, site, back, more, entry);
                            false
                        }
                        None => false,
                    }
                } else {
                    self.fail(TrapKind::StackOverflow);
                    true
                }
            }
        }
    }

    /// What the thread is at when its first function, this one, was left.
    fn left(&self, code: &Code, function: u32) -> Mode
        ensures mode { result ≡ spec.left code.now self.now function }
        ensures low { IsLowMode result }
    {
        if self.number == 0 {
            Mode::Stopping(Finish::Exited(status(code.entry_of(function), self.value)))
        } else {
            Mode::Delivering(function)
        }
    }

    /// Leaves the latest function, and the thread with the first one.
    pub(crate) fn leave(&mut self, code: &Code)
        ensures { self.new ≡ spec.leaves code.now self.old self.old.callers }
    {
        match self.callers.pop() {
            None => self.mode = Mode::Failing(TrapKind::NoValue),
            Some(caller) => {
                self.top = self.base;
                self.base = caller.base;
                if self.callers.len() == 0 {
                    self.mode = self.left(code, caller.function);
                } else {
                    self.pc = caller.back;
                }
            }
        }
    }

    /// The word that is the result of the first function, this one.
    pub(crate) fn delivered(&self, code: &Code, function: u32) -> u64
        ensures { result ≡ packed (spec.written_at (spec.result_level_of (spec.entry_of code.now function)) self.now.value) }
    {
        bits_of(stored_at(result_level(code.entry_of(function)), self.value))
    }
}

/// The status that a thread exits with when its first function is left.
fn status(entry: Option<Entry>, value: Word) -> i32
    ensures { result ≡ spec.status_of entry value }
{
    match entry {
        Some(entry) => {
            if entry.gives_number {
                signed(bits_in(value))
            } else {
                0
            }
        }
        None => 0,
    }
}

fn result_level(entry: Option<Entry>) -> Level
    ensures { result ≡ spec.result_level_of entry }
{
    match entry {
        Some(entry) => entry.result_level,
        None => Level::Plain,
    }
}
