// The traits of the outside. Their meaning is this project's own rule.
ghost use Rattle.std.specs.Prelude.{ℕ, ◌<◌, ◌≤◌, List, Option, length, take, IfOk, OnErr};
ghost use Rattle.rt_base.specs.Outside.{FilesState, SinkState, Rose, IsReadFrom, KeepsContents, TakesAll, FailsAtOnce};
ghost use Rattle.rt_base.specs.Reads.{given_by};
ghost use Rattle.rt_base.specs.Writes.{taken_by};

/// A read or a write failed, and the count of faults of its object rose.
#[derive(Clone, Copy, Debug)]
pub struct Failed;

/// Files that are read by name, each from any place.
pub trait Files {
    /// The contents under each name, where these files tell them, and how many reads of it failed.
    ghost state: { Self → FilesState };

    /// What one read does, where these files say it: the files before it, the name, the offset, the
    /// bytes that it gave, none where it failed, and the files after it.
    ghost read_gives: { Self → List ℕ → ℕ → Option (List ℕ) → Self → Type 0 } = { λ _ _ _ _ _. Unit {0} };

    /// Reads bytes of the named file into the front of the buffer, from the byte offset `at` on, and
    /// gives their number, from 1 to the buffer's length, or 0 at the end of the file. A fault comes
    /// only where the count of that very name rose. No read changes the contents of a file.
    fn read(&mut self, name: &str, at: u64, buf: &mut [u8]) -> Result<usize, Failed>
        requires { 0 < length buf.old }
        ensures within { IfOk result (λ count. count ≤ length buf.old) }
        ensures bytes { IfOk result (λ count. IsReadFrom ((state self.old).contents name.now) at count buf.new) }
        ensures gives { read_gives self.old name.now at (given_by result buf.new) self.new }
        ensures failed { OnErr result (Rose ((state self.old).faults name.now) ((state self.new).faults name.now)) }
        ensures kept { KeepsContents (state self.old) (state self.new) };
}

/// Something that takes bytes, one piece after the other.
pub trait Sink {
    /// The bytes taken so far, where this sink tells them, and how many writes failed.
    ghost state: { Self → SinkState };

    /// What one write does, where this sink says it: the sink before it, the bytes that it was asked
    /// to take, how many it took, none where it failed, and the sink after it.
    ghost write_gives: { Self → List ℕ → Option ℕ → Self → Type 0 } = { λ _ _ _ _. Unit {0} };

    /// Takes bytes from the front of a piece, at least one, and gives their number. A fault comes
    /// only where the count of faults rose, and leaves the bytes taken.
    fn write(&mut self, bytes: &[u8]) -> Result<usize, Failed>
        requires { 0 < length bytes.now }
        ensures some { IfOk result (λ count. 0 < count) }
        ensures within { IfOk result (λ count. count ≤ length bytes.now) }
        ensures taken { IfOk result (λ count. TakesAll (take count bytes.now) (state self.old) (state self.new)) }
        ensures gives { write_gives self.old bytes.now (taken_by result) self.new }
        ensures failed { OnErr result (FailsAtOnce (state self.old) (state self.new)) };
}
