//! The words that a thread's first function is called with, as contracts see them.

ghost use Rattle.std.specs.Prelude.{◌≡◌, ◌++◌, ◌∷◌, []};

use std::marker::Model;
use std::mem;
use std::snapshot::Snapshot;

/// Words, of which each holds those before it; nothing of them stands in memory.
#[derive(Drop)]
pub enum Row {
    Start,
    Then(Snapshot<Row>, u64),
}

/// A list of words, as contracts see it. It takes no bytes.
#[derive(Drop)]
pub struct Given {
    row: Snapshot<Row>,
}

impl Model for Given {
    ghost use Rattle.std.specs.Prelude.{List, ℕ};
    ghost use Rattle.thread_run.specs.Rows.{words_in};

    ghost Value = { List ℕ };

    ghost view = { λ g. words_in g.row.value };
}

impl Given {
    /// The list without words.
    fn new() -> Given
        ensures { result ≡ [] }
    {
        Given {
            row: Snapshot::of(&Row::Start),
        }
    }

    /// Adds a word at the end.
    fn push(&mut self, word: u64)
        ensures { self.new ≡ self.old ++ word ∷ [] }
    {
        let before = mem::replace(&mut self.row, Snapshot::of(&Row::Start));
        let row = Row::Then(before, word);
        self.row = Snapshot::of(&row);
    }

    /// The list of these words.
    pub(crate) fn of(words: &[u64]) -> Given
        ensures { result ≡ words.now }
    {
        let mut given = Given::new();
        'each: for word in words {
            given.push(*word);
        }
        given
    }
}
