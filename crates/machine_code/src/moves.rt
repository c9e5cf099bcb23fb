//! What a thread does: a quiet step at once, and an event where there is an answer to it.

ghost use Rattle.std.specs.Prelude.{◌≡◌, ◌<◌, ◌^◌, IfSome, slice_get};
ghost use Rattle.mcode.specs.Machine as spec;
ghost use Rattle.mcode.specs.Steps.{is_quiet};
ghost use Rattle.machine_code.specs.Bounds.{CanAnswer};
ghost use Rattle.machine_code.specs.Codes.{IsLowInstruction};
ghost use Rattle.machine_code.specs.Taken.{taken};

use crate::code::Code;
use crate::stages::answered;
use crate::thread::Thread;
use arithmetic::is_true;
use mcode::{Finish, Instruction, Mode, TrapKind};

impl Thread {
    /// Does an instruction: a quiet one at once, and an event where there is an answer to it. Tells which.
    fn run(&mut self, code: &Code, instruction: Instruction, answer: Option<u64>) -> bool
        requires pc { self.old.pc < 2 ^ 21 }
        requires low { IsLowInstruction instruction }
        ensures quiet { result ≡ is_quiet (spec.act code.now self.old instruction) }
        ensures moved { self.new ≡ taken self.old answer (spec.act code.now self.old instruction) }
    {
        match instruction {
            Instruction::SetValue(word) => {
                self.give(word);
                true
            }
            Instruction::SetLocal(offset) => {
                self.set_local(code, offset);
                true
            }
            Instruction::SetThreadLocal(offset) => {
                self.set_thread_local(code, offset);
                true
            }
            Instruction::HoldValue => {
                self.hold();
                true
            }
            Instruction::LoadAs(kind) => self.load(code, kind, answer),
            Instruction::StoreAs(level) => self.store(code, level, answer),
            Instruction::Change(operator) => {
                self.change(operator);
                true
            }
            Instruction::Apply(operation) => {
                self.apply(operation);
                true
            }
            Instruction::Advance(operation) => {
                self.apply_to_one(operation);
                true
            }
            Instruction::StoreStep(level, which) => self.store_step(code, level, which, answer),
            Instruction::Shift(offset) => {
                self.shift(offset);
                true
            }
            Instruction::Truth => {
                self.make_truth();
                true
            }
            Instruction::GoTo(place) => {
                self.go_to(place);
                true
            }
            Instruction::GoIfZero(place) => {
                let next = self.pc + 1;
                self.go_either(is_true(self.value), next, place);
                true
            }
            Instruction::GoIfNotZero(place) => {
                let next = self.pc + 1;
                self.go_either(is_true(self.value), place, next);
                true
            }
            Instruction::Fill(offset, word, count) => {
                self.fill(code, offset, word, count, self.pc + 1, answer)
            }
            Instruction::FillText(offset, at, count) => {
                self.spell(code, offset, at, count, self.pc + 1, answer)
            }
            Instruction::Put(offset, level) => self.put(code, offset, level, answer),
            Instruction::Guard(count) => {
                self.guard(count);
                true
            }
            Instruction::CheckHalt => match answer {
                Some(word) => {
                    self.check(word);
                    false
                }
                None => false,
            },
            Instruction::EnterFunction(function, site) => {
                self.enter(code, function, site, self.pc + 1, 0, answer)
            }
            Instruction::EnterThrough(count, site) => {
                self.enter_through(code, self.held_at(count), site, answer)
            }
            Instruction::ReachFunction(_) => match answer {
                Some(_) => {
                    self.pass();
                    false
                }
                None => false,
            },
            Instruction::Bind(offset, back, level) => {
                self.bind(code, offset, back, level, answer)
            }
            Instruction::Forget(count) => {
                let more = self.more();
                self.forget(count as usize + more as usize);
                true
            }
            Instruction::CallRow(row, site, count) => {
                self.call_row(code, row, site, count, answer)
            }
            Instruction::FallOff => {
                self.fall_off(code);
                true
            }
            Instruction::LeaveFunction => self.leave_function(code, answer),
            Instruction::FailWith(kind) => {
                self.fail(kind);
                true
            }
        }
    }

    /// What the thread is at: the instruction at its place, or behind the last one a trap.
    fn run_here(&mut self, code: &Code, answer: Option<u64>) -> bool
        ensures quiet { result ≡ is_quiet (spec.acts code.now self.old (slice_get code.now.instructions self.old.pc)) }
        ensures moved { self.new ≡ taken self.old answer (spec.acts code.now self.old (slice_get code.now.instructions self.old.pc)) }
    {
        match code.instruction(self.pc) {
            Some(instruction) => self.run(code, instruction, answer),
            None => {
                self.fail(TrapKind::NoValue);
                true
            }
        }
    }

    /// Does one step: a quiet one at once, and an event where there is an answer to it. Tells whether it was quiet.
    pub(crate) fn advance(&mut self, code: &Code, answer: Option<u64>) -> bool
        requires { IfSome answer (CanAnswer (spec.machine_next code.now self.old)) }
        ensures quiet { result ≡ is_quiet (spec.move code.now self.old) }
        ensures moved { self.new ≡ taken self.old answer (spec.move code.now self.old) }
    {
        match self.mode {
            Mode::Running => self.run_here(code, answer),
            _ => self.advance_by_mode(code, answer),
        }
    }

    /// The same, mostly of a thread that does no instruction.
    fn advance_by_mode(&mut self, code: &Code, answer: Option<u64>) -> bool
        requires { IfSome answer (CanAnswer (spec.machine_next code.now self.old)) }
        ensures quiet { result ≡ is_quiet (spec.move code.now self.old) }
        ensures moved { self.new ≡ taken self.old answer (spec.move code.now self.old) }
    {
        match self.mode {
            Mode::Running => self.run_here(code, answer),
            Mode::Starting(function) => match answer {
                Some(word) => {
                    self.unless_halted(word, Mode::Entering(function));
                    false
                }
                None => false,
            },
            Mode::Entering(function) => self.enter(code, function, 0, 0, 0, answer),
            Mode::Filling(offset, word, count) => {
                self.fill(code, offset, word, count, self.pc, answer)
            }
            Mode::Spelling(offset, at, count) => {
                self.spell(code, offset, at, count, self.pc, answer)
            }
            Mode::Calling(stage) => match answer {
                Some(word) => {
                    let staged = answered(self.number, stage, word);
                    self.go_on_by(staged);
                    false
                }
                None => false,
            },
            Mode::Failing(kind) => match answer {
                Some(_) => {
                    self.mode = Mode::Stopping(Finish::Trapped(kind));
                    false
                }
                None => false,
            },
            Mode::Delivering(_) => match answer {
                Some(_) => {
                    self.mode = Mode::Telling;
                    false
                }
                None => false,
            },
            Mode::Telling => match answer {
                Some(_) => {
                    self.mode = Mode::Done(Finish::Returned);
                    false
                }
                None => false,
            },
            Mode::Stopping(finish) => match answer {
                Some(_) => {
                    self.mode = Mode::Done(finish);
                    false
                }
                None => false,
            },
            Mode::Done(_) => false,
        }
    }
}
