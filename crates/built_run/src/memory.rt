//! The memory of a run: a table of words.

ghost use Rattle.std.specs.Prelude.{◌≡◌, ◌<◌, IfOk, slice_index, slice_set, replicate, vec_len};
ghost use Rattle.built_model.specs.Laws.{IsInTable};
ghost use Rattle.built_model.specs.Replay.{opening_words, answer_of, changed};

use built_code::Ask;
use built_code::words::HALT;
use std::alloc::{AllocError, Global};
use std::marker::Model;

/// So many words has the table.
const TABLE_WORDS: usize = HALT as usize + 192;

/// The address of the word that tells where the heap ends so far.
const BREAK_WORD: usize = HALT as usize + 1;

/// Where the heap starts, behind the words of 64 threads.
const HEAP_START: u64 = 1 + 64 * 5_120;

/// The words of a run.
#[derive(Drop)]
pub struct Memory {
    words: Vec<u64>,
}

impl Model for Memory {
    ghost use Rattle.std.specs.Prelude.{List, ℕ, ◌≡◌, vec_len};
    ghost use Rattle.built_model.specs.Laws.{table_words};

    ghost Value = { List ℕ };

    ghost view = { λ m. m.words.items };

    ghost invariant = { λ m. vec_len m.words ≡ table_words };
}

impl Memory {
    ghost use Rattle.built_model.specs.Laws.{table_words};

    /// The words at the start of a run.
    pub fn new(alloc: Global) -> Result<Memory, AllocError>
        ensures { IfOk result (λ memory. memory ≡ opening_words) }
    {
        let words = zeros_but(alloc, TABLE_WORDS, BREAK_WORD, HEAP_START)?;
        Ok(Memory { words })
    }

    /// Makes an event, and gives the word that answers it; 0 where none does.
    pub fn make(&mut self, ask: Ask) -> u64
        requires { IsInTable ask }
        ensures answer { result ≡ answer_of ask self.old }
        ensures changed { self.new ≡ changed ask self.old }
    {
        match ask {
            Ask::Load(at) => self.load(at),
            Ask::Store(at, word) => {
                self.store(at, word);
                0
            }
            Ask::Exchange(at, old, new) => self.exchange(at, old, new),
            Ask::FetchAdd(at, n) => {
                let old = self.load(at);
                self.store(at, old.wrapping_add(n));
                old
            }
            Ask::FetchSub(at, n) => {
                let old = self.load(at);
                self.store(at, old.wrapping_sub(n));
                old
            }
            Ask::Enter(_, _)
            | Ask::Leave
            | Ask::Reach(_, _)
            | Ask::Create(_, _)
            | Ask::Out(_)
            | Ask::Trap(_)
            | Ask::Over(_) => 0,
        }
    }

    // The word at an address.
    fn load(&self, at: u32) -> u64
        requires { at < table_words }
        ensures { result ≡ slice_index self.now at }
    {
        self.words[at as usize]
    }

    // Puts a word at an address.
    fn store(&mut self, at: u32, word: u64)
        requires { at < table_words }
        ensures { self.new ≡ slice_set self.old at word }
    {
        self.words[at as usize] = word;
    }

    // Puts the new word at an address where the old one stands, and gives the word that stood there.
    fn exchange(&mut self, at: u32, old: u64, new: u64) -> u64
        requires { at < table_words }
        ensures answer { result ≡ answer_of (Ask.Exchange at old new) self.old }
        ensures changed { self.new ≡ changed (Ask.Exchange at old new) self.old }
    {
        let found = self.load(at);
        if found == old {
            self.store(at, new);
        }
        found
    }
}

// So many zeros, but for one word at an index.
fn zeros_but(alloc: Global, count: usize, at: usize, word: u64) -> Result<Vec<u64>, AllocError>
    requires { at < count }
    ensures items { IfOk result (λ words. words.items ≡ slice_set (replicate count 0) at word) }
    ensures len { IfOk result (λ words. vec_len words ≡ count) }
{
    let mut words = vec![in alloc; 0; count]?;
    words[at] = word;
    Ok(words)
}
