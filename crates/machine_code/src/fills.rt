//! How a row of words, or a text, is stored in a frame: one word at each step.

ghost use Rattle.std.specs.Prelude.{◌≡◌, suc, slice_index};
ghost use Rattle.arithmetic.specs.Values.{number};
ghost use Rattle.core_unit.specs.Words.{packed};
ghost use Rattle.mcode.specs.Machine as spec;
ghost use Rattle.mcode.specs.Steps.{is_quiet};
ghost use Rattle.machine_code.specs.Bounds.{IsOffset, IsTextPlace, IsLowMode};
ghost use Rattle.machine_code.specs.Taken.{taken};

use crate::code::Code;
use crate::thread::Thread;
use crate::words::HALT;
use mcode::{Mode, TrapKind};

impl Thread {
    /// Stores one of the words of a row at an offset of the frame, and goes on from this place with those that are left.
    fn fill_one(
        &mut self,
        code: &Code,
        offset: u32,
        word: u64,
        left: u32,
        place: u32,
        answer: Option<u64>,
    ) -> bool
        requires { IsOffset offset }
        ensures quiet { result ≡ is_quiet (spec.puts code.now (record self.old { pc = place }) offset word (record self.old { pc = place; mode = spec.filling (suc offset) word left })) }
        ensures moved { self.new ≡ taken self.old answer (spec.puts code.now (record self.old { pc = place }) offset word (record self.old { pc = place; mode = spec.filling (suc offset) word left })) }
    {
        if self.local_address(code, offset) < HALT {
            match answer {
                Some(_) => {
                    self.pc = place;
                    self.mode = filling(offset + 1, word, left);
                    false
                }
                None => false,
            }
        } else {
            self.pc = place;
            self.fail(TrapKind::BadAccess);
            true
        }
    }

    /// A word is stored so many times, from this place on.
    #[tactic(auto, using(crate::proofs::Filling::fills_more))]
    pub(crate) fn fill(
        &mut self,
        code: &Code,
        offset: u32,
        word: u64,
        count: u32,
        place: u32,
        answer: Option<u64>,
    ) -> bool
        requires { IsOffset offset }
        ensures quiet { result ≡ is_quiet (spec.fills code.now (record self.old { pc = place }) offset word count) }
        ensures moved { self.new ≡ taken self.old answer (spec.fills code.now (record self.old { pc = place }) offset word count) }
    {
        if count == 0 {
            self.pc = place;
            self.mode = Mode::Running;
            true
        } else {
            self.fill_one(code, offset, word, count - 1, place, answer)
        }
    }

    /// Stores one of the characters of a text at an offset of the frame, and goes on from this place with those that are left.
    fn spell_one(
        &mut self,
        code: &Code,
        offset: u32,
        at: u32,
        left: u32,
        place: u32,
        answer: Option<u64>,
    ) -> bool
        requires offset { IsOffset offset }
        requires at { IsTextPlace at offset }
        ensures quiet { result ≡ is_quiet (spec.puts code.now (record self.old { pc = place }) offset (packed (number (slice_index code.now.texts at))) (record self.old { pc = place; mode = spec.spelling (suc offset) (suc at) left })) }
        ensures moved { self.new ≡ taken self.old answer (spec.puts code.now (record self.old { pc = place }) offset (packed (number (slice_index code.now.texts at))) (record self.old { pc = place; mode = spec.spelling (suc offset) (suc at) left })) }
    {
        if self.local_address(code, offset) < HALT {
            match answer {
                Some(_) => {
                    self.pc = place;
                    self.mode = spelling(offset + 1, at + 1, left);
                    false
                }
                None => false,
            }
        } else {
            self.pc = place;
            self.fail(TrapKind::BadAccess);
            true
        }
    }

    /// So many characters are stored, from this place on.
    #[tactic(auto, using(crate::proofs::Filling::spells_more))]
    pub(crate) fn spell(
        &mut self,
        code: &Code,
        offset: u32,
        at: u32,
        count: u32,
        place: u32,
        answer: Option<u64>,
    ) -> bool
        requires offset { IsOffset offset }
        requires at { IsTextPlace at offset }
        ensures quiet { result ≡ is_quiet (spec.spells code.now (record self.old { pc = place }) offset at count) }
        ensures moved { self.new ≡ taken self.old answer (spec.spells code.now (record self.old { pc = place }) offset at count) }
    {
        if count == 0 {
            self.pc = place;
            self.mode = Mode::Running;
            true
        } else {
            self.spell_one(code, offset, at, count - 1, place, answer)
        }
    }
}

/// What a thread is at that stores a word so many times more.
#[tactic(auto, using(crate::proofs::Filling::filling_more))]
fn filling(offset: u32, word: u64, left: u32) -> Mode
    requires { IsOffset offset }
    ensures mode { result ≡ spec.filling offset word left }
    ensures low { IsLowMode result }
{
    if left == 0 {
        Mode::Running
    } else {
        Mode::Filling(offset, word, left)
    }
}

/// What a thread is at that stores so many characters more.
#[tactic(auto, using(crate::proofs::Filling::spelling_more))]
fn spelling(offset: u32, at: u32, left: u32) -> Mode
    requires offset { IsOffset offset }
    requires at { IsTextPlace at offset }
    ensures mode { result ≡ spec.spelling offset at left }
    ensures low { IsLowMode result }
{
    if left == 0 {
        Mode::Running
    } else {
        Mode::Spelling(offset, at, left)
    }
}
