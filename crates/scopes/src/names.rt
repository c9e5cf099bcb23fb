//! The numbers of names.

ghost use Rattle.std.specs.Prelude.{◌≡◌, ◌<◌, ◌≤◌, ℕ, List, [], length, IfOk, OnOk, slice_get, Some};
ghost use Rattle.scopes.specs.Number.{number_of, noted, Stands};

use indexmap::IndexSet;
use std::alloc::{AllocError, Global};
use std::marker::Model;

/// The spellings met so far, in order of first appearance: the number of a name is its index here.
#[derive(Drop)]
pub struct Names<'a> {
    texts: IndexSet<&'a [u8]>,
}

impl<'a> Model for Names<'a> {
    ghost use Rattle.std.specs.Prelude.{List, ℕ};
    ghost use Rattle.scopes.specs.Number.{spelled};

    ghost Value = { List (List ℕ) };

    ghost view = { λ n. spelled n.texts.keys };
}

impl<'a> Names<'a> {
    /// No name was met.
    pub fn new(alloc: Global) -> Names<'a>
        ensures { result ≡ [] }
    {
        Names {
            texts: IndexSet::new(alloc),
        }
    }

    /// The number of the name (C17 6.4.2.1), which it keeps; a name that wasn't met before takes the next one.
    pub fn number(&mut self, text: &'a [u8]) -> Result<u32, AllocError>
        ensures number { IfOk result (λ n. n ≡ number_of self.old text.now) }
        ensures names { OnOk result (self.new ≡ noted self.old text.now) }
    {
        if self.texts.len() >= u32::MAX as usize {
            return Err(AllocError);
        }
        let Ok((index, _)) = self.texts.insert_full(text) else {
            return Err(AllocError);
        };
        Ok(index as u32)
    }
}

/// The numbers of two names that were met are equal exactly where their texts are, and a number stays when further names are met.
pub fn law_of_numbers()
    ensures equal { (texts : List (List ℕ)) (a b : List ℕ) → Stands texts a → number_of texts a ≡ number_of texts b → a ≡ b }
    ensures kept { (texts : List (List ℕ)) (a b : List ℕ) → Stands texts a → number_of (noted texts b) a ≡ number_of texts a }
    ensures stands { (texts : List (List ℕ)) (a : List ℕ) → Stands (noted texts a) a }
{}
