//! Lists of words.
ghost use Rattle.std.specs.Prelude.{◌≡◌, ◌<◌, length, slice_index};

use std::marker::Model;

/// A list of words, as contracts see it.
#[derive(Drop)]
pub struct WordList {
    words: Vec<u64>,
}

impl Model for WordList {
    ghost use Rattle.std.specs.Prelude.{List, ℕ};

    ghost Value = { List ℕ };

    ghost view = { λ w. w.words.items };
}

impl WordList {
    /// The words of a vector.
    pub fn new(words: Vec<u64>) -> WordList
        ensures { result ≡ words.items }
    {
        WordList { words }
    }

    /// How many words there are.
    pub fn len(&self) -> usize
        ensures { result ≡ length self.now }
    {
        self.words.len()
    }

    /// The words as a slice.
    pub fn as_slice(&self) -> &[u64]
        ensures { result.now ≡ self.now }
    {
        self.words.as_slice()
    }

    /// The words as a vector.
    pub fn into_vec(self) -> Vec<u64>
        ensures { result.items ≡ self }
    {
        let WordList { words } = self;
        words
    }
}
