//! The rule of the table, and what each kind of step does to the view of its seat. These types are for the proofs alone.
ghost use Rattle.word_mem.specs.declared.event.WordEvent.TheVariants.{Load, Store, Exchange, FetchAdd, FetchSub};
ghost use Rattle.word_mem.specs.Story.{IsKept};
ghost use Rattle.word_mem.specs.Moves.{first_view, dealer, dealt, adopter, maker, newborn, taker, spent};
ghost use Rattle.word_table.specs.Steps.{Did, Looked};

use atomic_table::{Join, Play, Split, TableRule};
use std::snapshot::Snapshot;
use word_mem::{View, WordList};

/// The lists of all passes have one merge, which is legal from the opening words and leaves the words of the table.
pub struct OneHistory;

impl TableRule<u8, View, Snapshot<WordList>> for OneHistory {
    ghost holds = { λ opening s. IsKept opening.value s.words s.views };

    ghost first = { λ opening. first_view opening.value };
}

pub(crate) struct Loads;

impl Play<u8, View> for Loads {
    ghost then = { Did (λ s n. Load s.word n) };
}

pub(crate) struct Stores;

impl Play<u8, View> for Stores {
    ghost then = { Did (λ s n. Store s.word s.first) };
}

pub(crate) struct Exchanges;

impl Play<u8, View> for Exchanges {
    ghost then = { Did (λ s n. Exchange s.word s.first s.second n) };
}

pub(crate) struct Adds;

impl Play<u8, View> for Adds {
    ghost then = { Did (λ s n. FetchAdd s.word s.first n) };
}

pub(crate) struct Subtracts;

impl Play<u8, View> for Subtracts {
    ghost then = { Did (λ s n. FetchSub s.word s.first n) };
}

/// A load that is no event: it tells the pass what the rule says of its view.
pub(crate) struct Looks;

impl Play<u8, View> for Looks {
    ghost then = { Looked };
}

/// The first seat makes a spare.
pub(crate) struct Deals;

impl Split<View> for Deals {
    ghost left = { dealer };

    ghost right = { dealt };
}

/// A pass takes in a spare.
pub(crate) struct Adopts;

impl Join<View> for Adopts {
    ghost both = { adopter };

    ghost spent = { spent };
}

/// And makes a pass of it.
pub(crate) struct Bears;

impl Split<View> for Bears {
    ghost left = { maker };

    ghost right = { newborn };
}

/// A pass takes in another.
pub(crate) struct Takes;

impl Join<View> for Takes {
    ghost both = { taker };

    ghost spent = { spent };
}
