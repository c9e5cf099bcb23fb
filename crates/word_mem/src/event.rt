//! Word events.
ghost use Rattle.std.specs.Prelude.{◌≡◌};
ghost use Rattle.word_mem.specs.Replay.{word_after};

/// One access of a word. Its address stands first, and the word that answered it last.
#[derive(Clone, Copy)]
pub enum WordEvent {
    Load(u32, u64),
    /// The word that was stored; nothing answers.
    Store(u32, u64),
    /// The expected word and the new one.
    Exchange(u32, u64, u64, u64),
    /// What was added.
    FetchAdd(u32, u64, u64),
    /// What was taken away.
    FetchSub(u32, u64, u64),
}

impl WordEvent {
    /// The word that the event leaves where it found this one.
    pub fn leaves(self, found: u64) -> u64
        ensures { result ≡ word_after self found }
    {
        match self {
            WordEvent::Load(_, _) => found,
            WordEvent::Store(_, word) => word,
            WordEvent::Exchange(_, old, new, _) => { if found == old { new } else { found } }
            WordEvent::FetchAdd(_, n, _) => found.wrapping_add(n),
            WordEvent::FetchSub(_, n, _) => found.wrapping_sub(n),
        }
    }
}

/// A word event, with the number of the pass that made it.
#[derive(Clone, Copy)]
pub struct Entry {
    pub number: u32,
    pub event: WordEvent,
}
