//! The rule of the table that a locked memory lies in, and what each kind of step does. These types are for the proofs alone.
ghost use Rattle.word_mem.specs.Locked.{IsLockKept, lock_first, TookBook, GaveBook, LookedLocked, lock_dealer, lock_dealt, lock_adopter, lock_maker, lock_newborn, lock_taker, lock_spent};

use crate::book::{Book, LockView};
use crate::word_list::WordList;
use atomic_table::{Join, Play, Split, TableRule};
use std::snapshot::Snapshot;

/// While the word is 0 the book is at home. Its journal is the merge of all lists, which is legal, and leaves its words.
pub struct OneBook;

impl TableRule<Option<Book>, LockView, Snapshot<WordList>> for OneBook {
    ghost holds = { λ opening s. IsLockKept opening.value s };

    ghost first = { λ opening. lock_first opening.value };
}

pub(crate) struct TakesBook;

impl Play<Option<Book>, LockView> for TakesBook {
    ghost then = { TookBook };
}

pub(crate) struct GivesBook;

impl Play<Option<Book>, LockView> for GivesBook {
    ghost then = { GaveBook };
}

/// A load that tells the pass what the rule says of its view.
pub(crate) struct LooksLocked;

impl Play<Option<Book>, LockView> for LooksLocked {
    ghost then = { LookedLocked };
}

pub(crate) struct DealsLocked;

impl Split<LockView> for DealsLocked {
    ghost left = { lock_dealer };

    ghost right = { lock_dealt };
}

pub(crate) struct AdoptsLocked;

impl Join<LockView> for AdoptsLocked {
    ghost both = { lock_adopter };

    ghost spent = { lock_spent };
}

pub(crate) struct BearsLocked;

impl Split<LockView> for BearsLocked {
    ghost left = { lock_maker };

    ghost right = { lock_newborn };
}

pub(crate) struct TakesLocked;

impl Join<LockView> for TakesLocked {
    ghost both = { lock_taker };

    ghost spent = { lock_spent };
}
