//! What stands under the lock of a locked memory.
ghost use Rattle.std.specs.Prelude.{◌≡◌, ◌<◌, ◌∷◌, ◌++◌, [], length, slice_index};
ghost use Rattle.word_mem.specs.Replay.{after};
ghost use Rattle.word_mem.specs.Accesses.{event_of};

use crate::access::Access;
use crate::event::Entry;
use crate::view::View;
use std::collections::LinkedList;
use std::sync::Wait;
use std::thread;

/// The words, and the journal of the events that made them.
#[derive(Drop)]
pub struct Book {
    pub words: Vec<u64>,
    pub journal: Vec<Entry>,
}

/// What a seat knows: its view, and the journal while it has the book. No value of it is made.
pub struct LockView {
    pub view: View,
    /// The seat has the book.
    pub out: bool,
    pub log: LinkedList<Entry>,
}

/// Writes an entry behind the others. It waits for as long as there is no memory.
fn append<R: Wait>(rt: &R, journal: &mut Vec<Entry>, entry: Entry)
    ensures { journal.new.items ≡ journal.old.items ++ entry ∷ [] }
{
    for _ in rt.forever() {
        match journal.push(entry) {
            Ok(()) => return,
            Err(_) => thread::yield_now(),
        }
    }
    unreachable!()
}

impl Book {
    /// Makes an access, writes its event down, and answers what it found.
    pub(crate) fn access<R: Wait>(&mut self, rt: &R, number: u32, at: u32, access: Access) -> u64
        requires { at < length self.old.words.items }
        ensures found { result ≡ slice_index self.old.words.items at }
        ensures words { self.new.words.items ≡ after self.old.words.items (event_of access at result) }
        ensures journal { self.new.journal.items ≡ self.old.journal.items ++ record { number = number; event = event_of access at result } ∷ [] }
    {
        let (found, event) = access.perform(&mut self.words, at);
        append(rt, &mut self.journal, Entry { number, event });
        found
    }
}
