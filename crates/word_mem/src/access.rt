//! One access of a word in plain memory.
ghost use Rattle.std.specs.Prelude.{◌≡◌, ◌<◌, length, slice_index};
ghost use Rattle.word_mem.specs.Replay.{after};
ghost use Rattle.word_mem.specs.Accesses.{event_of};

use crate::event::WordEvent;

/// What a call does with the word at its address.
#[derive(Clone, Copy)]
pub(crate) enum Access {
    Read,
    Write(u64),
    /// The expected word and the new one.
    Replace(u64, u64),
    Add(u64),
    Subtract(u64),
}

impl Access {
    /// The event, where the access found this word.
    fn event(self, at: u32, found: u64) -> WordEvent
        ensures { result ≡ event_of self at found }
    {
        match self {
            Access::Read => WordEvent::Load(at, found),
            Access::Write(word) => WordEvent::Store(at, word),
            Access::Replace(old, new) => WordEvent::Exchange(at, old, new, found),
            Access::Add(n) => WordEvent::FetchAdd(at, n, found),
            Access::Subtract(n) => WordEvent::FetchSub(at, n, found),
        }
    }

    /// Makes the access, and tells its event.
    pub(crate) fn perform(self, words: &mut Vec<u64>, at: u32) -> (u64, WordEvent)
        requires { at < length words.old.items }
        ensures found { result.0 ≡ slice_index words.old.items at }
        ensures event { result.1 ≡ event_of self at result.0 }
        ensures words { words.new.items ≡ after words.old.items result.1 }
    {
        let found = words[at as usize];
        let event = self.event(at, found);
        words[at as usize] = event.leaves(found);
        (found, event)
    }
}
