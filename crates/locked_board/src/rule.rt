//! The rule of the table that a locked board lies in, and what each kind of step does. These types are for the proofs alone.
ghost use Rattle.locked_board.specs.Locked.{IsLockKept, first_view, TookBook, GaveBook, Looked, splitter, offspring, taker, spent};

use crate::book::{Book, LockView};
use atomic_table::{Join, Play, Split, TableRule};

/// While the word is 0 the book is at home. Its reports are those of all passes, and their answers are fair.
pub struct OneBook;

impl TableRule<Option<Book>, LockView, ()> for OneBook {
    ghost holds = { λ key s. IsLockKept s };

    ghost first = { λ key. first_view };
}

pub(crate) struct TakesBook;

impl Play<Option<Book>, LockView> for TakesBook {
    ghost then = { TookBook };
}

pub(crate) struct GivesBook;

impl Play<Option<Book>, LockView> for GivesBook {
    ghost then = { GaveBook };
}

/// A load that tells the pass what the rule says of its view.
pub(crate) struct Looks;

impl Play<Option<Book>, LockView> for Looks {
    ghost then = { Looked };
}

pub(crate) struct Divides;

impl Split<LockView> for Divides {
    ghost left = { splitter };

    ghost right = { offspring };
}

pub(crate) struct Takes;

impl Join<LockView> for Takes {
    ghost both = { taker };

    ghost spent = { spent };
}
