// A list of bytes that contracts see and that takes no bytes at run time.
ghost use Rattle.std.specs.Prelude.{◌≡◌, [], ◌∷◌, ◌++◌, take};

use std::marker::Model;
use std::mem;
use std::snapshot::Snapshot;

// What was taken, up to its last byte.
#[derive(Drop)]
enum Chain {
    Start,
    More(Snapshot<Chain>, u8),
}

// The bytes that were taken, of which none is stored.
#[derive(Drop)]
pub(crate) struct TakenBytes {
    last: Snapshot<Chain>,
}

impl Model for TakenBytes {
    ghost use Rattle.std.specs.Prelude.{List, ℕ};

    ghost Value = { List ℕ };

    ghost use Rattle.rt_base.specs.TakenBytes.{bytes_of};

    ghost view = { λ t. bytes_of t.last.value };
}

impl TakenBytes {
    // No byte was taken.
    pub(crate) fn new() -> TakenBytes
        ensures { result ≡ [] }
    {
        TakenBytes {
            last: Snapshot::of(&Chain::Start),
        }
    }

    // One byte more was taken.
    fn push(&mut self, byte: u8)
        ensures { self.new ≡ self.old ++ byte ∷ [] }
    {
        let before = mem::replace(&mut self.last, Snapshot::of(&Chain::Start));
        self.last = Snapshot::of(&Chain::More(before, byte));
    }

    // These bytes more were taken.
    pub(crate) fn extend(&mut self, bytes: &[u8])
        ensures { self.new ≡ self.old ++ bytes.now }
    {
        for byte in bytes {
            self.push(*byte);
        }
    }
}
