//! Calls: entries through pointers, ends of functions, library functions.

ghost use Rattle.std.specs.Prelude.{◌≡◌, ◌<◌, ◌^◌};
ghost use Rattle.mcode.specs.Machine as spec;
ghost use Rattle.mcode.specs.Steps.{is_quiet};
ghost use Rattle.mcode.specs.declared.code.Instruction.TheVariants as instruction;
ghost use Rattle.machine_code.specs.Taken.{taken};

use crate::code::Code;
use crate::rows::begin;
use crate::thread::Thread;
use core_unit::Word;
use mcode::TrapKind;

impl Thread {
    /// Does what the value is used for, an entry through a pointer.
    pub(crate) fn enter_through(
        &mut self,
        code: &Code,
        callee: Word,
        site: u32,
        answer: Option<u64>,
    ) -> bool
        requires { self.old.pc < 2 ^ 21 }
        ensures quiet { result ≡ is_quiet (spec.enters_through code.now self.old callee site) }
        ensures moved { self.new ≡ taken self.old answer (spec.enters_through code.now self.old callee site) }
    {
        match callee {
            Word::FunctionPointer(function, _) => {
                self.enter(code, function, site, self.pc + 1, 1, answer)
            }
            Word::Zero
            | Word::Undefined
            | Word::Number(_)
            | Word::DataPointer(_)
            | Word::Mutex(_)
            | Word::Live(_)
            | Word::Freed(_) => {
                self.fail(TrapKind::NullCall);
                true
            }
        }
    }

    /// Leaves the latest function where there is an answer, or fails at once where that never returns.
    pub(crate) fn leave_function(&mut self, code: &Code, answer: Option<u64>) -> bool
        ensures quiet { result ≡ is_quiet (spec.act code.now self.old instruction.LeaveFunction) }
        ensures moved { self.new ≡ taken self.old answer (spec.act code.now self.old instruction.LeaveFunction) }
    {
        if self.is_noreturn(code) {
            self.fail(TrapKind::NoreturnReturned);
            true
        } else {
            match answer {
                Some(_) => {
                    self.leave(code);
                    false
                }
                None => false,
            }
        }
    }

    /// Reaches a library function where there is an answer, and begins what that does.
    pub(crate) fn call_row(
        &mut self,
        code: &Code,
        row: u32,
        site: u32,
        count: u32,
        answer: Option<u64>,
    ) -> bool
        requires { self.old.pc < 2 ^ 21 }
        ensures quiet { result ≡ is_quiet (spec.act code.now self.old (instruction.CallRow row site count)) }
        ensures moved { self.new ≡ taken self.old answer (spec.act code.now self.old (instruction.CallRow row site count)) }
    {
        match answer {
            Some(_) => {
                let staged = begin(row, &self.held);
                self.forget(count as usize);
                self.go_on_by(staged);
                false
            }
            None => false,
        }
    }
}
