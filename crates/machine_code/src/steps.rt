//! The quiet steps of a thread, and what its steps look at.

ghost use Rattle.std.specs.Prelude.{◌≡◌, ◌+◌, ◌<◌, ◌≤◌, ◌^◌, ◌∷◌, suc, false, length, drop, nat_lt, if◌then◌else◌};
ghost use Rattle.std.specs.Bool.{OnTrue};
ghost use Rattle.arithmetic.specs.Operators.{truth};
ghost use Rattle.arithmetic.specs.Values.{applied, applied_to, is_true, member_of, number};
ghost use Rattle.core_unit.specs.declared.words.Word.TheVariants.{DataPointer, Number};
ghost use Rattle.arithmetic.specs.declared.traps.TrapKind.TheVariants.{StackOverflow, NullCall};
ghost use Rattle.std.specs.Option.{option_map_or};
ghost use Rattle.mcode.specs.Memory.{stack_words, frame_limit, held_limit, region_of};
ghost use Rattle.mcode.specs.declared.code.Instruction.TheVariants.{FallOff};
ghost use Rattle.mcode.specs.Machine as spec;
ghost use Rattle.mcode.specs.Stages as stages;
ghost use Rattle.mcode.specs.Steps.{Quiet};
ghost use Rattle.machine_code.specs.Bounds.{IsOffset, IsLowMode};
ghost use Rattle.machine_code.specs.Library.{meant, IsLowStaged};

use crate::code::Code;
use crate::staged::Staged;
use crate::thread::Thread;
use crate::words::{signed, truth_of};
use arithmetic::Operation;
use core_unit::{UnaryOperator, Word};
use mcode::{Entry, Finish, Mode, TrapKind};

/// So many words has the stack of a thread.
const STACK: u32 = 4096;

impl Thread {
    /// The value, and on with the next instruction.
    pub(crate) fn give(&mut self, value: Word)
        requires { self.old.pc < 2 ^ 21 }
        ensures { self.new ≡ record self.old { pc = suc self.old.pc; value = value } }
    {
        self.pc += 1;
        self.value = value;
    }

    /// On with the next instruction.
    pub(crate) fn pass(&mut self)
        requires { self.old.pc < 2 ^ 21 }
        ensures { self.new ≡ record self.old { pc = suc self.old.pc } }
    {
        self.pc += 1;
    }

    /// On with the next instruction; so many values are held no longer.
    pub(crate) fn forget(&mut self, count: usize)
        requires { self.old.pc < 2 ^ 21 }
        ensures { self.new ≡ record self.old { pc = suc self.old.pc; held = drop count self.old.held } }
    {
        self.pc += 1;
        self.held.forget(count);
    }

    pub(crate) fn go_to(&mut self, place: u32)
        ensures { self.new ≡ record self.old { pc = place } }
    {
        self.pc = place;
    }

    pub(crate) fn fail(&mut self, kind: TrapKind)
        ensures { self.new ≡ spec.failing self.old kind }
    {
        self.mode = Mode::Failing(kind);
    }

    /// What was found is the value, and on with the next instruction.
    pub(crate) fn find(&mut self, found: Result<Word, TrapKind>)
        requires { self.old.pc < 2 ^ 21 }
        ensures { spec.finds self.old found ≡ Quiet self.new }
    {
        match found {
            Ok(value) => self.give(value),
            Err(kind) => self.fail(kind),
        }
    }

    /// The same, and the latest held value is held no longer.
    pub(crate) fn find_of_held(&mut self, found: Result<Word, TrapKind>)
        requires { self.old.pc < 2 ^ 21 }
        ensures { spec.finds_of_held self.old found ≡ Quiet self.new }
    {
        match found {
            Ok(value) => {
                self.held.forget(1);
                self.give(value);
            }
            Err(kind) => self.fail(kind),
        }
    }

    pub(crate) fn set_local(&mut self, code: &Code, offset: u32)
        requires pc { self.old.pc < 2 ^ 21 }
        requires offset { IsOffset offset }
        ensures { self.new ≡ record self.old { pc = suc self.old.pc; value = DataPointer (spec.local_address code.now self.old offset) } }
    {
        let at = self.local_address(code, offset);
        self.give(Word::DataPointer(at));
    }

    pub(crate) fn set_thread_local(&mut self, code: &Code, offset: u32)
        requires pc { self.old.pc < 2 ^ 21 }
        requires offset { IsOffset offset }
        ensures { self.new ≡ record self.old { pc = suc self.old.pc; value = DataPointer (region_of code.now.static_words self.old.number + offset) } }
    {
        let at = self.thread_local_address(code, offset);
        self.give(Word::DataPointer(at));
    }

    pub(crate) fn change(&mut self, operator: UnaryOperator)
        requires { self.old.pc < 2 ^ 21 }
        ensures { spec.finds self.old (applied_to operator self.old.value) ≡ Quiet self.new }
    {
        self.find(arithmetic::apply_unary(operator, self.value));
    }

    /// An operation on the value that is held and the value.
    pub(crate) fn apply(&mut self, operation: Operation)
        requires { self.old.pc < 2 ^ 21 }
        ensures { spec.finds_of_held self.old (applied operation (stages.held_at self.old.held 0) self.old.value) ≡ Quiet self.new }
    {
        self.find_of_held(operation.apply(self.held_at(0), self.value));
    }

    /// An operation on the old value that is held, and 1.
    pub(crate) fn apply_to_one(&mut self, operation: Operation)
        requires { self.old.pc < 2 ^ 21 }
        ensures { spec.finds self.old (applied operation (stages.held_at self.old.held 0) (Number 1)) ≡ Quiet self.new }
    {
        self.find(operation.apply(self.held_at(0), Word::Number(1)));
    }

    /// The address of a member.
    pub(crate) fn shift(&mut self, offset: u32)
        requires { self.old.pc < 2 ^ 21 }
        ensures { spec.finds self.old (member_of offset self.old.value) ≡ Quiet self.new }
    {
        self.find(arithmetic::member_address(self.value, offset));
    }

    /// The value as 0 or 1.
    pub(crate) fn make_truth(&mut self)
        requires { self.old.pc < 2 ^ 21 }
        ensures { self.new ≡ record self.old { pc = suc self.old.pc; value = number (truth (is_true self.old.value)) } }
    {
        self.give(truth_of(self.value));
    }

    /// Holds the value, where there is room.
    pub(crate) fn hold(&mut self)
        requires { self.old.pc < 2 ^ 21 }
        ensures { (if nat_lt (length self.old.held) held_limit then Quiet (record self.old { pc = suc self.old.pc; held = self.old.value ∷ self.old.held }) else spec.fails self.old StackOverflow) ≡ Quiet self.new }
    {
        if self.held.len() < 1024 {
            self.held.push(self.value);
            self.pc += 1;
        } else {
            self.fail(TrapKind::StackOverflow);
        }
    }

    /// Goes to one of two places.
    pub(crate) fn go_either(&mut self, test: bool, place: u32, other: u32)
        ensures { self.new ≡ record self.old { pc = if test then place else other } }
    {
        if test {
            self.pc = place;
        } else {
            self.pc = other;
        }
    }

    /// The callee that is held below so many arguments isn't null, or the thread is trapped.
    pub(crate) fn guard(&mut self, count: u32)
        requires { self.old.pc < 2 ^ 21 }
        ensures { (if is_true (stages.held_at self.old.held count) then spec.goes self.old (suc self.old.pc) else spec.fails self.old NullCall) ≡ Quiet self.new }
    {
        if arithmetic::is_true(self.held_at(count)) {
            self.pc += 1;
        } else {
            self.fail(TrapKind::NullCall);
        }
    }

    /// The end of the body of a function.
    pub(crate) fn fall_off(&mut self, code: &Code)
        requires { self.old.pc < 2 ^ 21 }
        ensures { spec.act code.now self.old FallOff ≡ Quiet self.new }
    {
        if self.falls(code) {
            self.give(Word::Zero);
        } else {
            self.fail(TrapKind::NoValue);
        }
    }

    /// A value that is held, which counts from the latest.
    pub(crate) fn held_at(&self, place: u32) -> Word
        ensures { result ≡ stages.held_at self.now.held place }
    {
        self.held.get_or(place as usize, Word::Zero)
    }

    /// The address of an offset of the frame.
    pub(crate) fn local_address(&self, code: &Code, offset: u32) -> u32
        requires { IsOffset offset }
        ensures { result ≡ spec.local_address code.now self.now offset }
    {
        1 + code.static_words() + 5120 * self.number + 1024 + self.base + offset
    }

    /// The address of an offset of the thread-local variables.
    pub(crate) fn thread_local_address(&self, code: &Code, offset: u32) -> u32
        requires { IsOffset offset }
        ensures { result ≡ region_of code.now.static_words self.now.number + offset }
    {
        1 + code.static_words() + 5120 * self.number + offset
    }

    /// The call site from which the latest function was entered.
    pub(crate) fn site(&self) -> u32
        ensures { result ≡ spec.site_on_top self.now.callers }
    {
        match self.callers.top() {
            Some(caller) => caller.site,
            None => 0,
        }
    }

    /// How many values the latest call holds beside the arguments.
    pub(crate) fn more(&self) -> u32
        ensures { result ≡ spec.more_on_top self.now.callers }
    {
        match self.callers.top() {
            Some(caller) => caller.more,
            None => 0,
        }
    }

    /// What is known of the function that the thread is in.
    pub(crate) fn entry_on_top(&self, code: &Code) -> Option<Entry>
        ensures { result ≡ spec.entry_on_top code.now self.now.callers }
    {
        match self.callers.top() {
            Some(caller) => code.entry_of(caller.function),
            None => None,
        }
    }

    /// Whether the end of the body of that function may be reached.
    pub(crate) fn falls(&self, code: &Code) -> bool
        ensures { result ≡ option_map_or (λ entry. entry.falls) (spec.entry_on_top code.now self.now.callers) false }
    {
        match self.entry_on_top(code) {
            Some(entry) => entry.falls,
            None => false,
        }
    }

    /// Whether that function never returns.
    pub(crate) fn is_noreturn(&self, code: &Code) -> bool
        ensures { result ≡ option_map_or (λ entry. entry.noreturn) (spec.entry_on_top code.now self.now.callers) false }
    {
        match self.entry_on_top(code) {
            Some(entry) => entry.noreturn,
            None => false,
        }
    }

    /// Whether a function can be entered: its frame has room.
    pub(crate) fn has_room(&self, entry: Entry) -> bool
        ensures room { result ≡ spec.has_room self.now entry }
        ensures frames { OnTrue result (length self.now.callers < frame_limit) }
        ensures words { OnTrue result (self.now.top + entry.frame_words ≤ stack_words) }
    {
        if self.callers.len() < 256 {
            entry.frame_words <= STACK - self.top
        } else {
            false
        }
    }

    /// A halt word that isn't 0 ends the thread; else it is at this.
    pub(crate) fn unless_halted(&mut self, word: u64, on: Mode)
        requires { IsLowMode on }
        ensures { self.new ≡ spec.unless_halted self.old word (record self.old { mode = on }) }
    {
        if word == 0 {
            self.mode = on;
        } else {
            self.mode = Mode::Done(Finish::Halted);
        }
    }

    /// A halt word that isn't 0 ends the thread; else it goes on with the next instruction.
    pub(crate) fn check(&mut self, word: u64)
        requires { self.old.pc < 2 ^ 21 }
        ensures { self.new ≡ spec.unless_halted self.old word (record self.old { pc = suc self.old.pc }) }
    {
        if word == 0 {
            self.pc += 1;
        } else {
            self.mode = Mode::Done(Finish::Halted);
        }
    }

    /// The thread goes on as a library call says.
    pub(crate) fn go_on_by(&mut self, staged: Staged)
        requires { IsLowStaged staged }
        ensures { self.new ≡ spec.staged self.old (meant staged) }
    {
        match staged {
            Staged::Onto(stage) => self.mode = Mode::Calling(stage),
            Staged::Again(stage) => self.mode = Mode::Calling(stage),
            Staged::Gives(value) => {
                self.value = value;
                self.mode = Mode::Running;
            }
            Staged::Traps(kind) => self.mode = Mode::Failing(kind),
            Staged::Exits(bits) => self.mode = Mode::Stopping(Finish::Exited(signed(bits))),
            Staged::Halts => self.mode = Mode::Done(Finish::Halted),
        }
    }
}
