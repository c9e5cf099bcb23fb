//! How a library call goes on.

ghost use Rattle.std.specs.Prelude.{◌≡◌};
ghost use Rattle.mcode.specs.Stages.{turned_to};
ghost use Rattle.machine_code.specs.Library.{meant};

use core_unit::Word;
use mcode::{Stage, TrapKind, Turned};

/// How a library call goes on.
#[derive(Clone, Copy)]
pub enum Staged {
    /// It is at this stage.
    Onto(Stage),
    /// It is at this stage, after a try that failed.
    Again(Stage),
    /// It is done, with this value.
    Gives(Word),
    Traps(TrapKind),
    /// The thread exits with a status of these bits.
    Exits(u32),
    /// The thread saw that all threads are to halt.
    Halts,
}

impl Staged {
    /// Whether a try failed.
    pub(crate) fn turned(self) -> Turned
        ensures { result ≡ turned_to (meant self) }
    {
        match self {
            Staged::Again(_) => Turned::FailedTry,
            Staged::Onto(_)
            | Staged::Gives(_)
            | Staged::Traps(_)
            | Staged::Exits(_)
            | Staged::Halts => Turned::Went,
        }
    }
}
