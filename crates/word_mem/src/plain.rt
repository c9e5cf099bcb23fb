//! A memory for one thread: its words stand in its first pass.
ghost use Rattle.std.specs.Prelude.{◌≡◌, ◌+◌, ◌<◌, ◌≤◌, ◌≢◌, length, IfOk};
ghost use Rattle.std.proofs.Common.{subst};
ghost use Rattle.word_mem.specs.Accesses.{event_of};
ghost use Rattle.word_mem.specs.FirstPass.{no_table, IsPassAt};
ghost use Rattle.word_mem.specs.Held.{born, did, makes, joins, HasMerge, IsWhole, Closes};
ghost use Rattle.word_mem.specs.Spares.{AreSpares};

use crate::access::Access;
use crate::past::Past;
use crate::word_list::WordList;
use crate::words::{SpareList, Words};
use std::alloc::{AllocError, Global};
use std::marker::Model;
use std::snapshot::Snapshot;

/// A memory whose first pass makes every call. The words stand in that pass.
#[derive(Drop)]
pub struct PlainWords {
    opening: Snapshot<WordList>,
}

/// A pass of a `PlainWords`.
#[derive(Drop)]
pub struct PlainPass {
    words: Vec<u64>,
    left: u64,
    past: Past,
    opening: Snapshot<WordList>,
}

impl Model for PlainPass {
    ghost use Rattle.word_mem.specs.FirstPass.{PlainParts, Keeps};

    ghost Value = { PlainParts };

    ghost view = { λ p. record { opening = p.opening.value; held = p.past; left = p.left } };

    ghost invariant = { λ p. Keeps p.opening.value p.words.items p.past p.left };
}

/// A pass to come, which makes no call. It can only be joined back.
#[derive(Drop)]
pub struct PlainSpare {
    number: u32,
    words: Vec<u64>,
    opening: Snapshot<WordList>,
}

impl PlainPass {
    /// Makes an access, and answers what it found.
    fn access(&mut self, at: u32, access: Access) -> u64
        requires within { at < length self.old.opening }
        requires calls { 0 < self.old.left }
        ensures held { self.new.held ≡ did self.old.held (event_of access at result) }
        ensures left { self.new.left + 1 ≡ self.old.left }
        ensures belongs { IsPassAt self.old.opening self.new }
    {
        let (found, event) = access.perform(&mut self.words, at);
        self.past.did(event);
        self.left -= 1;
        found
    }
}

impl Words for PlainWords {
    type Pass = PlainPass;

    type Spare = PlainSpare;

    ghost place = { λ w. record { opening = w.opening.value; table = no_table } };

    ghost belongs = { λ at p. IsPassAt at.opening p };

    ghost spares = { λ at s. (s.opening.value ≡ at.opening) × (s.number ≢ 0) };

    ghost held = { λ p. p.held };

    ghost left = { λ p. p.left };

    ghost number = { λ s. s.number };

    ghost calls = { λ s. 0 };

    ghost merged = { λ at p own whole. subst (λ opening. HasMerge opening p.held) own.opens (own.tells whole) };

    fn load(&self, pass: &mut PlainPass, at: u32) -> u64 {
        pass.access(at, Access::Read)
    }

    fn store(&self, pass: &mut PlainPass, at: u32, word: u64) {
        pass.access(at, Access::Write(word));
    }

    fn compare_exchange(&self, pass: &mut PlainPass, at: u32, old: u64, new: u64) -> u64 {
        pass.access(at, Access::Replace(old, new))
    }

    fn fetch_add(&self, pass: &mut PlainPass, at: u32, n: u64) -> u64 {
        pass.access(at, Access::Add(n))
    }

    fn fetch_sub(&self, pass: &mut PlainPass, at: u32, n: u64) -> u64 {
        pass.access(at, Access::Subtract(n))
    }

    fn split(&self, pass: &mut PlainPass, spare: PlainSpare) -> PlainPass {
        pass.past.makes(spare.number);
        let PlainSpare {
            number,
            words,
            opening,
        } = spare;
        PlainPass {
            words,
            left: 0,
            past: Past::born(number),
            opening,
        }
    }

    fn join(&self, pass: &mut PlainPass, other: PlainPass) {
        let PlainPass {
            words: _,
            left: _,
            past,
            opening: _,
        } = other;
        pass.past.joins(past);
    }
}

/// The spares with the numbers from 1 on.
#[tactic(auto, using(crate::proofs::SpareLists::spare_lists))]
fn spares(alloc: Global, passes: u32, words: &WordList) -> Result<Vec<PlainSpare>, AllocError>
    requires { 0 < passes }
    ensures count { IfOk result (λ r. length r.items + 1 ≡ passes) }
    ensures spares { IfOk result (λ r. AreSpares ⟦<PlainWords as Words>⟧.number ⟦<PlainWords as Words>⟧.calls 0 (⟦<PlainWords as Words>⟧.spares record { opening = words.now; table = no_table }) r.items) }
{
    let mut spares = Vec::new(alloc);
    for number in 1..passes {
        spares.push(PlainSpare {
            number,
            words: Vec::new(alloc),
            opening: Snapshot::of(words),
        })?;
    }
    Ok(spares)
}

impl PlainWords {
    /// A memory of these words, with its first pass, which has so many calls, and spares for the passes that are left.
    pub fn new(
        alloc: Global,
        words: WordList,
        passes: u32,
        calls: u64,
    ) -> Result<(PlainWords, PlainPass, SpareList<PlainWords>), AllocError>
        requires passes { 0 < passes }
        requires words { 0 < length words }
        ensures opening { IfOk result (λ r. (⟦<PlainWords as Words>⟧.place r.0).opening ≡ words) }
        ensures first { IfOk result (λ r. (⟦<PlainWords as Words>⟧.held r.1 ≡ born 0) × (⟦<PlainWords as Words>⟧.left r.1 ≡ calls) × ⟦<PlainWords as Words>⟧.belongs (⟦<PlainWords as Words>⟧.place r.0) r.1) }
        ensures count { IfOk result (λ r. length r.2.items + 1 ≡ passes) }
        ensures spares { IfOk result (λ r. AreSpares ⟦<PlainWords as Words>⟧.number ⟦<PlainWords as Words>⟧.calls 0 (⟦<PlainWords as Words>⟧.spares (⟦<PlainWords as Words>⟧.place r.0)) r.2.items) }
    {
        let spares = spares(alloc, passes, &words)?;
        let memory = PlainWords {
            opening: Snapshot::of(&words),
        };
        let opening = Snapshot::of(&words);
        let pass = PlainPass {
            words: words.into_vec(),
            left: calls,
            past: Past::born(0),
            opening,
        };
        Ok((memory, pass, spares))
    }

    /// The words that the calls of all passes leave.
    pub fn close(self, pass: PlainPass) -> Result<WordList, AllocError>
        requires belongs { ⟦<PlainWords as Words>⟧.belongs (⟦<PlainWords as Words>⟧.place self) pass }
        requires whole { IsWhole (⟦<PlainWords as Words>⟧.held pass) }
        ensures { IfOk result (λ r. Closes (⟦<PlainWords as Words>⟧.place self).opening (⟦<PlainWords as Words>⟧.held pass) r) }
    {
        let PlainPass {
            words,
            left: _,
            past: _,
            opening: _,
        } = pass;
        Ok(WordList::new(words))
    }
}
