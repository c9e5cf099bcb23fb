//! The memory and its passes.
ghost use Rattle.std.specs.Prelude.{◌≡◌, ◌+◌, ◌<◌, ◌≤◌, List, ℕ, [], take, length, IfOk};
ghost use Rattle.std.proofs.Common.{subst};
ghost use Rattle.std.specs.Mem.Slots.{slots_items, slots_len, IsFull};
ghost use Rattle.word_mem.specs.declared.view.Fresh.TheVariants.{From};
ghost use Rattle.word_mem.specs.Held.{born, HasMerge, IsWhole, Closes};
ghost use Rattle.word_mem.specs.Moves.{first_view};
ghost use Rattle.word_mem.specs.Spares.{AreSpares};
ghost use Rattle.word_table.specs.Steps.{IsPassOf, IsSpareOf};

use crate::rule::{
    Adds, Adopts, Bears, Deals, Exchanges, Loads, Looks, OneHistory, Stores, Subtracts, Takes,
};
use atomic_table::{Closed, Seat, Table};
use std::alloc::{AllocError, Global};
use std::snapshot::Snapshot;
use word_mem::{SpareList, View, WordList, Words};

type WordTable = Table<u8, View, Snapshot<WordList>, OneHistory, Global>;

/// A memory that threads share. It has no lock.
#[derive(Drop)]
pub struct TableWords {
    table: WordTable,
    alloc: Global,
    ghost size: { table.shared.table_id.words ≡ length table.shared.key.value },
    ghost some: { 0 < table.shared.table_id.words },
    ghost bare: { table.shared.table_id.slots ≡ 0 },
}

/// A pass of a `TableWords`.
#[derive(Drop)]
pub struct TablePass {
    left: u64,
    seat: Seat<u8, View>,
}

/// A pass to come.
#[derive(Drop)]
pub struct TableSpare {
    number: u32,
    calls: u64,
    seat: Seat<u8, View>,
}

impl Words for TableWords {
    type Pass = TablePass;

    type Spare = TableSpare;

    ghost place = { λ w. record { opening = w.table.shared.key.value; table = w.table.shared.table_id } };

    ghost belongs = { λ at p. (p.seat.table_id ≡ at.table) × IsPassOf at.opening p.seat.me };

    ghost spares = { λ at s. (s.seat.table_id ≡ at.table) × IsSpareOf s.number s.seat.me };

    ghost held = { λ p. p.seat.me.0.held };

    ghost left = { λ p. p.left };

    ghost number = { λ s. s.number };

    ghost calls = { λ s. s.calls };

    ghost merged = { λ at p own whole. subst (λ opening. HasMerge opening p.seat.me.0.held) own.1.opens (own.1.tells whole) };

    fn load(&self, pass: &mut TablePass, at: u32) -> u64 {
        pass.left -= 1;
        self.table.shared.load::<Loads>(&mut pass.seat, at as usize)
    }

    fn store(&self, pass: &mut TablePass, at: u32, word: u64) {
        pass.left -= 1;
        self.table
            .shared
            .store::<Stores>(&mut pass.seat, at as usize, word);
    }

    fn compare_exchange(&self, pass: &mut TablePass, at: u32, old: u64, new: u64) -> u64 {
        pass.left -= 1;
        self.table
            .shared
            .compare_exchange::<Exchanges>(&mut pass.seat, at as usize, old, new)
    }

    fn fetch_add(&self, pass: &mut TablePass, at: u32, n: u64) -> u64 {
        pass.left -= 1;
        self.table
            .shared
            .fetch_add::<Adds>(&mut pass.seat, at as usize, n)
    }

    fn fetch_sub(&self, pass: &mut TablePass, at: u32, n: u64) -> u64 {
        pass.left -= 1;
        self.table
            .shared
            .fetch_sub::<Subtracts>(&mut pass.seat, at as usize, n)
    }

    fn split(&self, pass: &mut TablePass, spare: TableSpare) -> TablePass {
        let TableSpare {
            number: _,
            calls,
            seat,
        } = spare;
        self.table.shared.join_seat::<Adopts>(&mut pass.seat, seat);
        let seat = self.table.shared.split_seat::<Bears>(&mut pass.seat);
        self.table.shared.load::<Looks>(&mut pass.seat, 0);
        TablePass { left: calls, seat }
    }

    fn join(&self, pass: &mut TablePass, other: TablePass) {
        let TablePass { left: _, seat } = other;
        self.table.shared.join_seat::<Takes>(&mut pass.seat, seat);
        self.table.shared.load::<Looks>(&mut pass.seat, 0);
    }
}

/// The words of a closed table.
#[tactic(auto, using(crate::proofs::Copying::copying))]
fn copied(alloc: Global, closed: &Closed<u8, Global>) -> Result<Vec<u64>, AllocError>
    requires { IsFull closed.now.words }
    ensures { IfOk result (λ words. words.items ≡ slots_items closed.now.words) }
{
    let mut words = Vec::new(alloc);
    for i in 0..closed.words.len() {
        words.push(closed.word(i))?;
    }
    Ok(words)
}

impl TableWords {
    /// The spares for the passes but the first, with so many calls each.
    #[tactic(auto, using(word_mem::proofs::SpareLists::spare_lists))]
    fn deal(
        &self,
        first: &mut Seat<u8, View>,
        passes: u32,
        calls: u64,
    ) -> Result<Vec<TableSpare>, AllocError>
        requires passes { 0 < passes }
        requires table { first.old.table_id ≡ self.now.table.shared.table_id }
        requires first { first.old.me ≡ (first_view self.now.table.shared.key.value, []) }
        ensures table { IfOk result (λ r. first.new.table_id ≡ first.old.table_id) }
        ensures first { IfOk result (λ r. first.new.me ≡ (record (first_view self.now.table.shared.key.value) { fresh = From passes }, [])) }
        ensures count { IfOk result (λ r. length r.items + 1 ≡ passes) }
        ensures spares { IfOk result (λ r. AreSpares (λ s. s.number) (λ s. s.calls) calls (λ s. (s.seat.table_id ≡ first.old.table_id) × IsSpareOf s.number s.seat.me) r.items) }
    {
        let mut spares = Vec::new(self.alloc);
        for number in 1..passes {
            let seat = self.table.shared.split_seat::<Deals>(first);
            spares.push(TableSpare {
                number,
                calls,
                seat,
            })?;
        }
        Ok(spares)
    }

    /// A memory of these words, with its first pass and spares for the passes that are left, with so many calls each.
    pub fn new(
        alloc: Global,
        words: WordList,
        passes: u32,
        calls: u64,
    ) -> Result<(TableWords, TablePass, SpareList<TableWords>), AllocError>
        requires passes { 0 < passes }
        requires words { 0 < length words }
        ensures opening { IfOk result (λ r. (⟦<TableWords as Words>⟧.place r.0).opening ≡ words) }
        ensures first { IfOk result (λ r. (⟦<TableWords as Words>⟧.held r.1 ≡ born 0) × (⟦<TableWords as Words>⟧.left r.1 ≡ calls) × ⟦<TableWords as Words>⟧.belongs (⟦<TableWords as Words>⟧.place r.0) r.1) }
        ensures count { IfOk result (λ r. length r.2.items + 1 ≡ passes) }
        ensures spares { IfOk result (λ r. AreSpares ⟦<TableWords as Words>⟧.number ⟦<TableWords as Words>⟧.calls calls (⟦<TableWords as Words>⟧.spares (⟦<TableWords as Words>⟧.place r.0)) r.2.items) }
    {
        let (table, mut seat) = Table::of_words(alloc, words.as_slice(), &Snapshot::of(&words))?;
        let memory = TableWords { table, alloc };
        let spares = memory.deal(&mut seat, passes, calls)?;
        let first = TablePass { left: calls, seat };
        Ok((memory, first, spares))
    }

    /// The words that the calls of all passes leave.
    pub fn close(self, pass: TablePass) -> Result<WordList, AllocError>
        requires belongs { ⟦<TableWords as Words>⟧.belongs (⟦<TableWords as Words>⟧.place self) pass }
        requires whole { IsWhole (⟦<TableWords as Words>⟧.held pass) }
        ensures { IfOk result (λ r. Closes (⟦<TableWords as Words>⟧.place self).opening (⟦<TableWords as Words>⟧.held pass) r) }
    {
        let TableWords { table, alloc } = self;
        let TablePass { left: _, seat } = pass;
        let closed = table.close_with(seat);
        let words = copied(alloc, &closed);
        closed.free();
        Ok(WordList::new(words?))
    }
}
