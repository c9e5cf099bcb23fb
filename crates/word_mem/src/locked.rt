//! A memory for several threads, whose words and journal stand under one lock.
ghost use Rattle.std.specs.Prelude.{◌≡◌, ◌≢◌, ◌+◌, ◌<◌, ◌≤◌, ◌∷◌, [], length, IfOk, None, true, false};
ghost use Rattle.std.proofs.Common.{subst};
ghost use Rattle.word_mem.specs.declared.view.Fresh.TheVariants.{From};
ghost use Rattle.word_mem.specs.Accesses.{event_of};
ghost use Rattle.word_mem.specs.Held.{born, did, HasMerge, IsMerge, IsWhole, Closes};
ghost use Rattle.word_mem.specs.Locked.{plain, lock_first, holding, last_event, IsBookOf, IsLockSeat, IsLockSpare, IsWritten};
ghost use Rattle.word_mem.specs.Merge.{events};
ghost use Rattle.word_mem.specs.Moves.{first_view, with_event};
ghost use Rattle.word_mem.specs.Replay.{IsLegal, replay};
ghost use Rattle.word_mem.specs.Spares.{AreSpares};
ghost use Rattle.word_mem.specs.Story.{Tells};

use crate::access::Access;
use crate::book::{Book, LockView};
use crate::event::Entry;
use crate::lock_rule::{
    AdoptsLocked, BearsLocked, DealsLocked, GivesBook, LooksLocked, OneBook, TakesBook, TakesLocked,
};
use crate::word_list::WordList;
use crate::words::{SpareList, Words};
use atomic_table::{Seat, Table};
use std::alloc::{AllocError, Global};
use std::snapshot::Snapshot;
use std::sync::{Mutex, Wait};
use std::thread;

type BookTable = Table<Option<Book>, LockView, Snapshot<WordList>, OneBook, Global>;

/// A memory that threads share. Each call takes the one lock, and writes its event into a journal.
#[derive(Drop)]
pub struct LockedWords<R: Wait + Drop> {
    rt: R,
    gate: Mutex<()>,
    /// Its one slot holds the book, and its word is 0 while the book is there.
    table: BookTable,
    alloc: Global,
    ghost one: { table.shared.table_id.words ≡ 1 },
    ghost slot: { table.shared.table_id.slots ≡ 1 },
}

/// A pass of a `LockedWords`.
#[derive(Drop)]
pub struct LockedPass {
    left: u64,
    number: u32,
    seat: Seat<Option<Book>, LockView>,
}

/// A pass to come.
#[derive(Drop)]
pub struct LockedSpare {
    number: u32,
    calls: u64,
    seat: Seat<Option<Book>, LockView>,
}

impl<R: Wait + Drop> LockedWords<R> {
    /// Takes the book out of its slot.
    fn take(&self, seat: &mut Seat<Option<Book>, LockView>) -> Book
        requires table { seat.old.table_id ≡ self.now.table.shared.table_id }
        requires seat { IsLockSeat self.now.table.shared.key.value seat.old.me }
        ensures table { seat.new.table_id ≡ seat.old.table_id }
        ensures seat { seat.new.me ≡ (holding seat.old.me.0 result.journal.items, (0, None) ∷ []) }
        ensures words { result.words.items ≡ replay seat.old.me.0.view.opening (events result.journal.items) }
    {
        'tries: for _ in self.rt.forever() {
            if self
                .table
                .shared
                .compare_exchange::<TakesBook>(seat, 0, 0, 1)
                == 0
            {
                let Some(book) = self.table.shared.exchange(seat, 0, None) else {
                    unreachable!()
                };
                return book;
            }
            thread::yield_now();
        }
        unreachable!()
    }

    /// Puts the book back into its slot.
    fn give(&self, seat: &mut Seat<Option<Book>, LockView>, book: Book)
        requires table { seat.old.table_id ≡ self.now.table.shared.table_id }
        requires carries { seat.old.me.1 ≡ (0, None) ∷ [] }
        requires written { IsWritten self.now.table.shared.key.value seat.old.me.0 book (last_event book.journal.items) }
        ensures table { seat.new.table_id ≡ seat.old.table_id }
        ensures seat { seat.new.me ≡ (plain (with_event seat.old.me.0.view (last_event book.journal.items)), []) }
        ensures tells { Tells seat.new.me.0.view }
    {
        self.table.shared.exchange(seat, 0, Some(book));
        self.table.shared.store::<GivesBook>(seat, 0, 0);
    }

    /// Makes an access under the lock, and answers what it found.
    fn access(&self, pass: &mut LockedPass, at: u32, access: Access) -> u64
        requires within { at < length self.now.table.shared.key.value }
        requires calls { 0 < pass.old.left }
        requires table { pass.old.seat.table_id ≡ self.now.table.shared.table_id }
        requires number { pass.old.number ≡ pass.old.seat.me.0.view.held.number }
        requires seat { IsLockSeat self.now.table.shared.key.value pass.old.seat.me }
        ensures held { pass.new.seat.me.0.view.held ≡ did pass.old.seat.me.0.view.held (event_of access at result) }
        ensures left { pass.new.left + 1 ≡ pass.old.left }
        ensures table { pass.new.seat.table_id ≡ self.now.table.shared.table_id }
        ensures number { pass.new.number ≡ pass.new.seat.me.0.view.held.number }
        ensures seat { IsLockSeat self.now.table.shared.key.value pass.new.seat.me }
    {
        let _guard = self.gate.lock(&self.rt);
        let mut book = self.take(&mut pass.seat);
        let found = book.access(&self.rt, pass.number, at, access);
        self.give(&mut pass.seat, book);
        pass.left -= 1;
        found
    }
}

impl<R: Wait + Drop> Words for LockedWords<R> {
    type Pass = LockedPass;

    type Spare = LockedSpare;

    ghost place = { λ w. record { opening = w.table.shared.key.value; table = w.table.shared.table_id } };

    ghost belongs = { λ at p. (p.seat.table_id ≡ at.table) × (p.number ≡ p.seat.me.0.view.held.number) × IsLockSeat at.opening p.seat.me };

    ghost spares = { λ at s. (s.seat.table_id ≡ at.table) × IsLockSpare s.number s.seat.me };

    ghost held = { λ p. p.seat.me.0.view.held };

    ghost left = { λ p. p.left };

    ghost number = { λ s. s.number };

    ghost calls = { λ s. s.calls };

    ghost merged = { λ at p own whole. subst (λ opening. HasMerge opening p.seat.me.0.view.held) own.2.opens (own.2.tells whole) };

    fn load(&self, pass: &mut LockedPass, at: u32) -> u64 {
        self.access(pass, at, Access::Read)
    }

    fn store(&self, pass: &mut LockedPass, at: u32, word: u64) {
        self.access(pass, at, Access::Write(word));
    }

    fn compare_exchange(&self, pass: &mut LockedPass, at: u32, old: u64, new: u64) -> u64 {
        self.access(pass, at, Access::Replace(old, new))
    }

    fn fetch_add(&self, pass: &mut LockedPass, at: u32, n: u64) -> u64 {
        self.access(pass, at, Access::Add(n))
    }

    fn fetch_sub(&self, pass: &mut LockedPass, at: u32, n: u64) -> u64 {
        self.access(pass, at, Access::Subtract(n))
    }

    fn split(&self, pass: &mut LockedPass, spare: LockedSpare) -> LockedPass {
        let LockedSpare {
            number,
            calls,
            seat,
        } = spare;
        self.table
            .shared
            .join_seat::<AdoptsLocked>(&mut pass.seat, seat);
        let seat = self.table.shared.split_seat::<BearsLocked>(&mut pass.seat);
        self.table.shared.load::<LooksLocked>(&mut pass.seat, 0);
        LockedPass {
            left: calls,
            number,
            seat,
        }
    }

    fn join(&self, pass: &mut LockedPass, other: LockedPass) {
        let LockedPass {
            left: _,
            number: _,
            seat,
        } = other;
        self.table
            .shared
            .join_seat::<TakesLocked>(&mut pass.seat, seat);
        self.table.shared.load::<LooksLocked>(&mut pass.seat, 0);
    }
}

/// A book with room for the events of so many passes with so many calls each.
fn opened(alloc: Global, words: WordList, passes: u32, calls: u64) -> Result<Book, AllocError>
    ensures words { IfOk result (λ b. b.words.items ≡ words) }
    ensures journal { IfOk result (λ b. b.journal.items ≡ []) }
{
    let room = u64::from(passes).checked_mul(calls).ok_or(AllocError)?;
    let journal = Vec::with_capacity(alloc, room as usize)?;
    Ok(Book {
        words: words.into_vec(),
        journal,
    })
}

/// A table that holds the book.
fn seated(
    alloc: Global,
    book: Book,
    opening: &Snapshot<WordList>,
) -> Result<(BookTable, Seat<Option<Book>, LockView>), AllocError>
    requires words { book.words.items ≡ opening.now.value }
    requires journal { book.journal.items ≡ [] }
    ensures counts { IfOk result (λ r. (r.0.shared.table_id.words ≡ 1) × (r.0.shared.table_id.slots ≡ 1)) }
    ensures key { IfOk result (λ r. r.0.shared.key.value ≡ opening.now.value) }
    ensures seat { IfOk result (λ r. (r.1.table_id ≡ r.0.shared.table_id) × (r.1.me ≡ (lock_first opening.now.value, []))) }
{
    let mut slots = Vec::with_capacity(alloc, 1)?;
    slots.push(Some(book))?;
    match Table::new(alloc, &[0], slots, opening) {
        Ok(made) => Ok(made),
        Err(_) => Err(AllocError),
    }
}

impl<R: Wait + Drop> LockedWords<R> {
    /// The spares for the passes but the first, with so many calls each.
    #[tactic(auto, using(crate::proofs::SpareLists::spare_lists))]
    fn deal(
        &self,
        first: &mut Seat<Option<Book>, LockView>,
        passes: u32,
        calls: u64,
    ) -> Result<Vec<LockedSpare>, AllocError>
        requires passes { 0 < passes }
        requires table { first.old.table_id ≡ self.now.table.shared.table_id }
        requires first { first.old.me ≡ (lock_first self.now.table.shared.key.value, []) }
        ensures table { IfOk result (λ r. first.new.table_id ≡ first.old.table_id) }
        ensures first { IfOk result (λ r. first.new.me ≡ (plain (record (first_view self.now.table.shared.key.value) { fresh = From passes }), [])) }
        ensures count { IfOk result (λ r. length r.items + 1 ≡ passes) }
        ensures spares { IfOk result (λ r. AreSpares (λ s. s.number) (λ s. s.calls) calls (λ s. (s.seat.table_id ≡ first.old.table_id) × IsLockSpare s.number s.seat.me) r.items) }
    {
        let mut spares = Vec::new(self.alloc);
        for number in 1..passes {
            let seat = self.table.shared.split_seat::<DealsLocked>(first);
            spares.push(LockedSpare {
                number,
                calls,
                seat,
            })?;
        }
        Ok(spares)
    }

    /// A memory of these words, with its first pass and spares for the passes that are left, with so many calls each.
    pub fn new(
        rt: R,
        alloc: Global,
        words: WordList,
        passes: u32,
        calls: u64,
    ) -> Result<(LockedWords<R>, LockedPass, SpareList<LockedWords<R>>), AllocError>
        requires passes { 0 < passes }
        requires words { 0 < length words }
        ensures opening { IfOk result (λ r. (⟦<LockedWords<R> as Words>⟧.place r.0).opening ≡ words) }
        ensures first { IfOk result (λ r. (⟦<LockedWords<R> as Words>⟧.held r.1 ≡ born 0) × (⟦<LockedWords<R> as Words>⟧.left r.1 ≡ calls) × ⟦<LockedWords<R> as Words>⟧.belongs (⟦<LockedWords<R> as Words>⟧.place r.0) r.1) }
        ensures count { IfOk result (λ r. length r.2.items + 1 ≡ passes) }
        ensures spares { IfOk result (λ r. AreSpares ⟦<LockedWords<R> as Words>⟧.number ⟦<LockedWords<R> as Words>⟧.calls calls (⟦<LockedWords<R> as Words>⟧.spares (⟦<LockedWords<R> as Words>⟧.place r.0)) r.2.items) }
    {
        let opening = Snapshot::of(&words);
        let book = opened(alloc, words, passes, calls)?;
        let (table, mut seat) = seated(alloc, book, &opening)?;
        let memory = LockedWords {
            rt,
            gate: Mutex::new(()),
            table,
            alloc,
        };
        let spares = memory.deal(&mut seat, passes, calls)?;
        let first = LockedPass {
            left: calls,
            number: 0,
            seat,
        };
        Ok((memory, first, spares))
    }

    /// The book at the end. There is none only where a pass was lost within a call.
    fn close_book(self, pass: LockedPass) -> Result<Book, AllocError>
        requires table { pass.seat.table_id ≡ self.table.shared.table_id }
        requires seat { IsLockSeat self.table.shared.key.value pass.seat.me }
        requires whole { IsWhole pass.seat.me.0.view.held }
        ensures merge { IfOk result (λ b. IsMerge pass.seat.me.0.view.held b.journal.items) }
        ensures legal { IfOk result (λ b. IsLegal self.table.shared.key.value (events b.journal.items)) }
        ensures words { IfOk result (λ b. b.words.items ≡ replay self.table.shared.key.value (events b.journal.items)) }
    {
        let LockedWords {
            rt: _,
            gate: _,
            table,
            alloc: _,
        } = self;
        let LockedPass {
            left: _,
            number: _,
            seat,
        } = pass;
        let mut closed = table.close_with(seat);
        let out = closed.word(0);
        let slot = closed.take(0);
        closed.free();
        match slot {
            Some(book) if out == 0 => Ok(book),
            _ => Err(AllocError),
        }
    }

    /// The words that the calls of all passes leave.
    pub fn close(self, pass: LockedPass) -> Result<WordList, AllocError>
        requires belongs { ⟦<LockedWords<R> as Words>⟧.belongs (⟦<LockedWords<R> as Words>⟧.place self) pass }
        requires whole { IsWhole (⟦<LockedWords<R> as Words>⟧.held pass) }
        ensures { IfOk result (λ r. Closes (⟦<LockedWords<R> as Words>⟧.place self).opening (⟦<LockedWords<R> as Words>⟧.held pass) r) }
    {
        let Book { words, journal: _ } = self.close_book(pass)?;
        Ok(WordList::new(words))
    }

    /// The journal: a legal merge of the lists of all passes.
    pub fn close_log(self, pass: LockedPass) -> Result<Vec<Entry>, AllocError>
        requires belongs { ⟦<LockedWords<R> as Words>⟧.belongs (⟦<LockedWords<R> as Words>⟧.place self) pass }
        requires whole { IsWhole (⟦<LockedWords<R> as Words>⟧.held pass) }
        ensures merge { IfOk result (λ r. IsMerge (⟦<LockedWords<R> as Words>⟧.held pass) r.items) }
        ensures legal { IfOk result (λ r. IsLegal (⟦<LockedWords<R> as Words>⟧.place self).opening (events r.items)) }
    {
        let Book { words: _, journal } = self.close_book(pass)?;
        Ok(journal)
    }
}
