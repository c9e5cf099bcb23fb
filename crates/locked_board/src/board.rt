//! A board that threads share under one lock.
ghost use Rattle.std.specs.Prelude.{◌≡◌, ◌<◌, ◌^◌, ◌∷◌, [], length, IfOk, None, true, false};
ghost use Rattle.reports.specs.Counts.{AreFair};
ghost use Rattle.reports.specs.Passes.{born, reported, all_reports, IsWhole};
ghost use Rattle.reports.specs.Stacks.{IsStack};
ghost use Rattle.stack_counts.specs.Totals.{AreTotals, sum_of};
ghost use Rattle.locked_board.specs.Locked.{first_view, holding, with_report, last_report, Tells, IsLockSeat, IsWritten};
ghost use Rattle.locked_board.specs.Places.{IsPassAt, WeighAlike};

use crate::book::{Book, LockView};
use crate::rule::{Divides, GivesBook, Looks, OneBook, Takes, TakesBook};
use atomic_table::{Seat, Table};
use ctx_set::StackStep;
use reports::{Board, Noted, StackList};
use std::alloc::{AllocError, Global};
use std::sync::{Mutex, Wait};
use std::thread;

type BookTable = Table<Option<Book>, LockView, (), OneBook, Global>;

/// A board that threads share. Each report takes the one lock.
#[derive(Drop)]
pub struct LockedBoard<R: Wait + Drop> {
    rt: R,
    gate: Mutex<()>,
    /// Its one slot holds the book, and its word is 0 while the book is there.
    table: BookTable,
    ghost one: { table.shared.table_id.words ≡ 1 },
    ghost slot: { table.shared.table_id.slots ≡ 1 },
}

/// A pass of a `LockedBoard`. Every one can report.
#[derive(Drop)]
pub struct LockedPass {
    seat: Seat<Option<Book>, LockView>,
}

impl<R: Wait + Drop> LockedBoard<R> {
    // Takes the book out of its slot.
    fn take(&self, seat: &mut Seat<Option<Book>, LockView>) -> Book
        requires table { seat.old.table_id ≡ self.now.table.shared.table_id }
        requires seat { IsLockSeat seat.old.me }
        ensures table { seat.new.table_id ≡ seat.old.table_id }
        ensures seat { seat.new.me ≡ (holding seat.old.me.0 result, (0, None) ∷ []) }
    {
        'tries: for _ in self.rt.forever() {
            if self
                .table
                .shared
                .compare_exchange::<TakesBook>(seat, 0, 0, 1)
                == 0
            {
                let Some(book) = self.table.shared.exchange(seat, 0, None) else {
                    unreachable!()
                };
                return book;
            }
            thread::yield_now();
        }
        unreachable!()
    }

    // Puts the book back into its slot.
    fn give(&self, seat: &mut Seat<Option<Book>, LockView>, book: Book)
        requires table { seat.old.table_id ≡ self.now.table.shared.table_id }
        requires carries { seat.old.me.1 ≡ (0, None) ∷ [] }
        requires written { IsWritten seat.old.me.0 book (last_report book) }
        ensures table { seat.new.table_id ≡ seat.old.table_id }
        ensures seat { seat.new.me ≡ (with_report seat.old.me.0 (last_report book), []) }
        ensures tells { Tells seat.new.me.0 }
    {
        self.table.shared.exchange(seat, 0, Some(book));
        self.table.shared.store::<GivesBook>(seat, 0, 0);
    }

    // Makes a report under the lock.
    fn note(&self, seat: &mut Seat<Option<Book>, LockView>, stack: &[StackStep]) -> Noted
        requires table { seat.old.table_id ≡ self.now.table.shared.table_id }
        requires seat { IsLockSeat seat.old.me }
        requires stack { IsStack stack.now }
        ensures table { seat.new.table_id ≡ seat.old.table_id }
        ensures held { seat.new.me.0.held ≡ reported seat.old.me.0.held stack.now result }
        ensures seat { IsLockSeat seat.new.me }
    {
        let _guard = self.gate.lock(&self.rt);
        let mut book = self.take(seat);
        let answer = book.report(stack);
        book.law_fair();
        self.give(seat, book);
        answer
    }
}

impl<R: Wait + Drop> Board for LockedBoard<R> {
    type Pass = LockedPass;

    ghost place = { λ b. record { tables = b.table.shared.table_id ∷ [] } };

    ghost belongs = { λ at p. IsPassAt at p.seat.table_id p.seat.me };

    ghost held = { λ p. p.seat.me.0.held };

    ghost can_report = { λ p. true };

    ghost is_exact = { false };

    ghost fair = { λ at p own whole. own.seat.tells whole };

    fn report(&self, pass: &mut LockedPass, stack: &[StackStep]) -> Noted {
        self.note(&mut pass.seat, stack)
    }

    fn split(&self, pass: &mut LockedPass) -> LockedPass {
        let seat = self.table.shared.split_seat::<Divides>(&mut pass.seat);
        self.table.shared.load::<Looks>(&mut pass.seat, 0);
        LockedPass { seat }
    }

    fn join(&self, pass: &mut LockedPass, other: LockedPass) {
        let LockedPass { seat } = other;
        self.table.shared.join_seat::<Takes>(&mut pass.seat, seat);
        self.table.shared.load::<Looks>(&mut pass.seat, 0);
    }
}

// A table that holds the book.
fn seated(
    alloc: Global,
    book: Book,
) -> Result<(BookTable, Seat<Option<Book>, LockView>), AllocError>
    requires { book ≡ [] }
    ensures counts { IfOk result (λ r. (r.0.shared.table_id.words ≡ 1) × (r.0.shared.table_id.slots ≡ 1)) }
    ensures seat { IfOk result (λ r. (r.1.table_id ≡ r.0.shared.table_id) × (r.1.me ≡ (first_view, []))) }
{
    let mut slots = Vec::with_capacity(alloc, 1)?;
    slots.push(Some(book))?;
    match Table::new(alloc, &[0], slots, &()) {
        Ok(made) => Ok(made),
        Err(_) => Err(AllocError),
    }
}

impl<R: Wait + Drop> LockedBoard<R> {
    /// A board without reports, with its first pass. All memory for reports is taken here.
    pub fn new(rt: R, alloc: Global) -> Result<(LockedBoard<R>, LockedPass), AllocError>
        ensures first { IfOk result (λ r. ⟦<LockedBoard<R> as Board>⟧.held r.1 ≡ born 0) }
        ensures belongs { IfOk result (λ r. ⟦<LockedBoard<R> as Board>⟧.belongs (⟦<LockedBoard<R> as Board>⟧.place r.0) r.1) }
    {
        let book = Book::new(alloc)?;
        let (table, seat) = seated(alloc, book)?;
        let board = LockedBoard {
            rt,
            gate: Mutex::new(()),
            table,
        };
        Ok((board, LockedPass { seat }))
    }

    /// The stacks that were counted, in order, each with how many reports counted it. The counts add up to less than
    /// 2^64. It gives up with want of memory also where a pass was lost within a report.
    pub fn collect(self, pass: LockedPass) -> Result<StackList, AllocError>
        requires belongs { ⟦<LockedBoard<R> as Board>⟧.belongs (⟦<LockedBoard<R> as Board>⟧.place self) pass }
        requires whole { IsWhole (⟦<LockedBoard<R> as Board>⟧.held pass) }
        requires few { length (all_reports (⟦<LockedBoard<R> as Board>⟧.held pass)) < 2 ^ 64 }
        ensures totals { IfOk result (λ stacks. AreTotals (all_reports (⟦<LockedBoard<R> as Board>⟧.held pass)) stacks) }
        ensures few { IfOk result (λ stacks. sum_of stacks < 2 ^ 64) }
    {
        let book = self.close(pass)?;
        book.collect()
    }

    // The book at the end. There is none only where a pass was lost within a report.
    fn close(self, pass: LockedPass) -> Result<Book, AllocError>
        requires table { pass.seat.table_id ≡ self.table.shared.table_id }
        requires seat { IsLockSeat pass.seat.me }
        requires whole { IsWhole pass.seat.me.0.held }
        ensures { IfOk result (λ book. WeighAlike (all_reports pass.seat.me.0.held) book) }
    {
        let LockedBoard {
            rt: _,
            gate: _,
            table,
        } = self;
        let LockedPass { seat } = pass;
        let mut closed = table.close_with(seat);
        let out = closed.word(0);
        let slot = closed.take(0);
        closed.free();
        match slot {
            Some(book) if out == 0 => Ok(book),
            _ => Err(AllocError),
        }
    }
}
