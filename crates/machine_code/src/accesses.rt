//! Loads and stores of single words.

ghost use Rattle.std.specs.Prelude.{◌≡◌, ◌<◌, ◌^◌};
ghost use Rattle.mcode.specs.Machine as spec;
ghost use Rattle.mcode.specs.Steps.{is_quiet};
ghost use Rattle.mcode.specs.declared.code.Instruction.TheVariants as instruction;
ghost use Rattle.machine_code.specs.Bounds.{IsOffset};
ghost use Rattle.machine_code.specs.Taken.{taken};

use crate::code::Code;
use crate::serving::serves;
use crate::thread::Thread;
use crate::words::{HALT, accessed, word_of};
use core_unit::{StepValue, Word};
use eff_types::Level;
use mcode::{Served, TrapKind};

fn value_of_step(which: StepValue, new: Word, old: Word) -> Word
    ensures { result ≡ spec.value_of_step which new old }
{
    match which {
        StepValue::Prefix => new,
        StepValue::Postfix => old,
    }
}

impl Thread {
    /// The word that was loaded is the value where it serves.
    fn serve(&mut self, code: &Code, kind: Served, found: Option<Word>)
        requires { self.old.pc < 2 ^ 21 }
        ensures { self.new ≡ spec.serve code.now self.old kind found }
    {
        match found {
            Some(word) => {
                if serves(code, kind, word) {
                    self.give(word);
                } else {
                    self.fail(TrapKind::BadWord);
                }
            }
            None => self.fail(TrapKind::BadWord),
        }
    }

    pub(crate) fn load(&mut self, code: &Code, kind: Served, answer: Option<u64>) -> bool
        requires { self.old.pc < 2 ^ 21 }
        ensures quiet { result ≡ is_quiet (spec.act code.now self.old (instruction.LoadAs kind)) }
        ensures moved { self.new ≡ taken self.old answer (spec.act code.now self.old (instruction.LoadAs kind)) }
    {
        match accessed(self.value) {
            Ok(_) => match answer {
                Some(word) => {
                    self.serve(code, kind, word_of(word));
                    false
                }
                None => false,
            },
            Err(kind) => {
                self.fail(kind);
                true
            }
        }
    }

    pub(crate) fn store(&mut self, code: &Code, level: Level, answer: Option<u64>) -> bool
        requires { self.old.pc < 2 ^ 21 }
        ensures quiet { result ≡ is_quiet (spec.act code.now self.old (instruction.StoreAs level)) }
        ensures moved { self.new ≡ taken self.old answer (spec.act code.now self.old (instruction.StoreAs level)) }
    {
        match accessed(self.held_at(0)) {
            Ok(_) => match answer {
                Some(_) => {
                    self.forget(1);
                    false
                }
                None => false,
            },
            Err(kind) => {
                self.fail(kind);
                true
            }
        }
    }

    pub(crate) fn store_step(
        &mut self,
        code: &Code,
        level: Level,
        which: StepValue,
        answer: Option<u64>,
    ) -> bool
        requires { self.old.pc < 2 ^ 21 }
        ensures quiet { result ≡ is_quiet (spec.act code.now self.old (instruction.StoreStep level which)) }
        ensures moved { self.new ≡ taken self.old answer (spec.act code.now self.old (instruction.StoreStep level which)) }
    {
        match accessed(self.held_at(1)) {
            Ok(_) => match answer {
                Some(_) => {
                    self.value = value_of_step(which, self.value, self.held_at(0));
                    self.forget(2);
                    false
                }
                None => false,
            },
            Err(kind) => {
                self.fail(kind);
                true
            }
        }
    }

    pub(crate) fn put(
        &mut self,
        code: &Code,
        offset: u32,
        level: Level,
        answer: Option<u64>,
    ) -> bool
        requires pc { self.old.pc < 2 ^ 21 }
        requires offset { IsOffset offset }
        ensures quiet { result ≡ is_quiet (spec.act code.now self.old (instruction.Put offset level)) }
        ensures moved { self.new ≡ taken self.old answer (spec.act code.now self.old (instruction.Put offset level)) }
    {
        if self.local_address(code, offset) < HALT {
            match answer {
                Some(_) => {
                    self.pass();
                    false
                }
                None => false,
            }
        } else {
            self.fail(TrapKind::BadAccess);
            true
        }
    }

    pub(crate) fn bind(
        &mut self,
        code: &Code,
        offset: u32,
        back: u32,
        level: Level,
        answer: Option<u64>,
    ) -> bool
        requires pc { self.old.pc < 2 ^ 21 }
        requires offset { IsOffset offset }
        ensures quiet { result ≡ is_quiet (spec.act code.now self.old (instruction.Bind offset back level)) }
        ensures moved { self.new ≡ taken self.old answer (spec.act code.now self.old (instruction.Bind offset back level)) }
    {
        if self.local_address(code, offset) < HALT {
            match answer {
                Some(_) => {
                    self.pass();
                    false
                }
                None => false,
            }
        } else {
            self.fail(TrapKind::BadAccess);
            true
        }
    }
}
