//! What stands under the lock of a board.
ghost use Rattle.std.specs.Prelude.{◌≡◌, ◌<◌, ◌^◌, ◌++◌, ◌∷◌, [], length, IfOk};
ghost use Rattle.reports.specs.Counts.{AreFair};
ghost use Rattle.reports.specs.Passes.{report_of};
ghost use Rattle.reports.specs.Stacks.{IsStack};
ghost use Rattle.stack_counts.specs.Totals.{AreTotals, sum_of};

use board_past::Past;
use ctx_set::StackStep;
use plain_board::{PlainBoard, PlainPass};
use reports::{Board, Noted, StackList};
use std::alloc::{AllocError, Global};
use std::marker::Model;

/// The stacks that were counted, as those of the reports in the order in which they came.
#[derive(Drop)]
pub struct Book {
    board: PlainBoard,
    pass: PlainPass,
}

impl Model for Book {
    ghost use Rattle.std.specs.Prelude.{List};
    ghost use Rattle.reports.specs.Passes.{Report};
    ghost use Rattle.locked_board.specs.Books.{IsBook};

    ghost Value = { List Report };

    ghost view = { λ b. b.pass.held.own };

    ghost invariant = { λ b. IsBook b.pass };
}

/// What a seat of the table knows. No value of it is made.
pub struct LockView {
    /// The seat is a pass; it was joined away otherwise.
    pub live: bool,
    pub held: Past,
    /// How many passes it has made under its own number.
    pub splits: u64,
    /// The seat has the book.
    pub out: bool,
    /// The reports that the book had as it was taken.
    pub log: Book,
}

impl Book {
    /// A book without reports. All memory for reports is taken here.
    pub(crate) fn new(alloc: Global) -> Result<Book, AllocError>
        ensures { IfOk result (λ book. book ≡ []) }
    {
        let (board, pass) = PlainBoard::new(alloc)?;
        Ok(Book { board, pass })
    }

    /// Counts a report with this stack.
    pub(crate) fn report(&mut self, stack: &[StackStep]) -> Noted
        requires { IsStack stack.now }
        ensures { self.new ≡ self.old ++ report_of stack.now result ∷ [] }
    {
        self.board.report(&mut self.pass, stack)
    }

    /// The answers are fair.
    pub(crate) fn law_fair(&self)
        ensures { AreFair self.now }
    {
        let _ = &self.pass;
    }

    /// The stacks that were counted, in order, each with how many reports counted it.
    pub(crate) fn collect(self) -> Result<StackList, AllocError>
        requires { length self < 2 ^ 64 }
        ensures totals { IfOk result (λ stacks. AreTotals self stacks) }
        ensures few { IfOk result (λ stacks. sum_of stacks < 2 ^ 64) }
    {
        let Book { board, pass } = self;
        board.collect(pass)
    }
}
