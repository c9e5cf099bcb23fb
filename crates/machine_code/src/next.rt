//! The next event of a thread.

ghost use Rattle.std.specs.Prelude.{◌≡◌, length, slice_get};
ghost use Rattle.mcode.specs.Machine as spec;
ghost use Rattle.mcode.specs.Steps.{asked};
ghost use Rattle.mcode.specs.declared.code.Instruction.TheVariants as instruction;
ghost use Rattle.machine_code.specs.Bounds.{HasRoom, IsInTable, IsOffset};
ghost use Rattle.machine_code.specs.Codes.{IsLowInstruction};

use crate::code::Code;
use crate::stages;
use crate::thread::Thread;
use crate::words::{DONE, HALT, RESULT, accessed, bits_of, stored_at};
use arithmetic::number;
use core_unit::{StepValue, Word};
use eff_types::Level;
use mcode::{Ask, Finish, Instruction, Mode, Served};

impl Thread {
    /// The thread's next event, or Over where nothing is left. A function is entered only where fewer than 256 frames stand.
    pub fn next(&self, code: &Code) -> Ask
        ensures event { result ≡ spec.machine_next code.now self.now }
        ensures in_table { IsInTable result }
        ensures room { HasRoom result (length self.now.callers) }
    {
        self.event(code)
    }

    fn event(&self, code: &Code) -> Ask
        ensures event { result ≡ spec.machine_next code.now self.now }
        ensures in_table { IsInTable result }
    {
        match self.mode {
            Mode::Running => self.shown_here(code),
            Mode::Starting(_) => Ask::Load(HALT),
            Mode::Entering(function) => self.shown_entry(code, function, 0),
            Mode::Filling(offset, word, count) => self.shown_fill(code, offset, word, count),
            Mode::Spelling(offset, at, count) => self.shown_text(code, offset, at, count),
            Mode::Calling(stage) => stages::asked(self.number, stage),
            Mode::Failing(kind) => Ask::Trap(kind),
            Mode::Delivering(function) => {
                Ask::Store(RESULT + self.number, self.delivered(code, function))
            }
            Mode::Telling => Ask::Store(DONE + self.number, 1),
            Mode::Stopping(_) => Ask::Store(HALT, 1),
            Mode::Done(finish) => Ask::Over(finish),
        }
    }

    /// The event of the instruction at the place of the thread; a quiet one shows none.
    fn shown_here(&self, code: &Code) -> Ask
        ensures event { result ≡ asked (spec.acts code.now self.now (slice_get code.now.instructions self.now.pc)) }
        ensures in_table { IsInTable result }
    {
        match code.instruction(self.pc) {
            Some(instruction) => self.shown(code, instruction),
            None => Ask::Over(Finish::Halted),
        }
    }

    fn shown(&self, code: &Code, instruction: Instruction) -> Ask
        requires { IsLowInstruction instruction }
        ensures event { result ≡ asked (spec.act code.now self.now instruction) }
        ensures in_table { IsInTable result }
    {
        match instruction {
            Instruction::LoadAs(kind) => self.shown_load(code, kind),
            Instruction::StoreAs(level) => self.shown_store(code, level),
            Instruction::StoreStep(level, which) => self.shown_step(code, level, which),
            Instruction::Fill(offset, word, count) => self.shown_fill(code, offset, word, count),
            Instruction::FillText(offset, at, count) => self.shown_text(code, offset, at, count),
            Instruction::Put(offset, level) => {
                self.shown_put(code, offset, bits_of(stored_at(level, self.value)))
            }
            Instruction::Bind(offset, back, level) => {
                self.shown_put(code, offset, bits_of(stored_at(level, self.held_at(back))))
            }
            Instruction::CheckHalt => Ask::Load(HALT),
            Instruction::EnterFunction(function, site) => self.shown_entry(code, function, site),
            Instruction::EnterThrough(count, site) => {
                self.shown_through(code, self.held_at(count), site)
            }
            Instruction::ReachFunction(function) => Ask::Reach(function, self.site()),
            Instruction::CallRow(row, site, _) => Ask::Reach(4096 + row, site),
            Instruction::LeaveFunction => {
                if self.is_noreturn(code) {
                    Ask::Over(Finish::Halted)
                } else {
                    Ask::Leave
                }
            }
            Instruction::SetValue(_)
            | Instruction::SetLocal(_)
            | Instruction::SetThreadLocal(_)
            | Instruction::HoldValue
            | Instruction::Change(_)
            | Instruction::Apply(_)
            | Instruction::Advance(_)
            | Instruction::Shift(_)
            | Instruction::Truth
            | Instruction::GoTo(_)
            | Instruction::GoIfZero(_)
            | Instruction::GoIfNotZero(_)
            | Instruction::Guard(_)
            | Instruction::Forget(_)
            | Instruction::FallOff
            | Instruction::FailWith(_) => Ask::Over(Finish::Halted),
        }
    }

    fn shown_load(&self, code: &Code, kind: Served) -> Ask
        ensures event { result ≡ asked (spec.act code.now self.now (instruction.LoadAs kind)) }
        ensures in_table { IsInTable result }
    {
        match accessed(self.value) {
            Ok(at) => Ask::Load(at),
            Err(_) => Ask::Over(Finish::Halted),
        }
    }

    fn shown_store(&self, code: &Code, level: Level) -> Ask
        ensures event { result ≡ asked (spec.act code.now self.now (instruction.StoreAs level)) }
        ensures in_table { IsInTable result }
    {
        match accessed(self.held_at(0)) {
            Ok(at) => Ask::Store(at, bits_of(stored_at(level, self.value))),
            Err(_) => Ask::Over(Finish::Halted),
        }
    }

    fn shown_step(&self, code: &Code, level: Level, which: StepValue) -> Ask
        ensures event { result ≡ asked (spec.act code.now self.now (instruction.StoreStep level which)) }
        ensures in_table { IsInTable result }
    {
        match accessed(self.held_at(1)) {
            Ok(at) => Ask::Store(at, bits_of(stored_at(level, self.value))),
            Err(_) => Ask::Over(Finish::Halted),
        }
    }

    /// The store of a word at an offset of the frame.
    fn shown_put(&self, code: &Code, offset: u32, word: u64) -> Ask
        requires { IsOffset offset }
        ensures event { result ≡ asked (spec.puts code.now self.now offset word self.now) }
        ensures in_table { IsInTable result }
    {
        let at = self.local_address(code, offset);
        if at < HALT {
            Ask::Store(at, word)
        } else {
            Ask::Over(Finish::Halted)
        }
    }

    /// The store of one of so many words.
    fn shown_fill(&self, code: &Code, offset: u32, word: u64, count: u32) -> Ask
        requires { IsOffset offset }
        ensures event { result ≡ asked (spec.fills code.now self.now offset word count) }
        ensures in_table { IsInTable result }
    {
        if count == 0 {
            Ask::Over(Finish::Halted)
        } else {
            self.shown_put(code, offset, word)
        }
    }

    /// The store of one of so many characters.
    fn shown_text(&self, code: &Code, offset: u32, at: u32, count: u32) -> Ask
        requires { IsOffset offset }
        ensures event { result ≡ asked (spec.spells code.now self.now offset at count) }
        ensures in_table { IsInTable result }
    {
        if count == 0 {
            Ask::Over(Finish::Halted)
        } else {
            self.shown_put(code, offset, bits_of(number(code.text_at(at) as u32)))
        }
    }

    /// The entry of a function through a pointer.
    fn shown_through(&self, code: &Code, callee: Word, site: u32) -> Ask
        ensures event { result ≡ asked (spec.enters_through code.now self.now callee site) }
        ensures in_table { IsInTable result }
    {
        match callee {
            Word::FunctionPointer(function, _) => self.shown_entry(code, function, site),
            Word::Zero
            | Word::Undefined
            | Word::Number(_)
            | Word::DataPointer(_)
            | Word::Mutex(_)
            | Word::Live(_)
            | Word::Freed(_) => Ask::Over(Finish::Halted),
        }
    }
}
