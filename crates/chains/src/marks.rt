// Marks of places, and rows of them.
ghost use Rattle.std.specs.Prelude.{◌≡◌, [], ◌∷◌, ◌++◌, OnOk, OnErr};

use std::alloc::{AllocError, Global};
use std::marker::Model;

/// What a place in the body of a function is to chains.
#[derive(Clone, Copy)]
pub enum Mark {
    /// It stands in no chain.
    Passes,
    /// It is a violation, so it ends a chain.
    Violates,
    /// It goes on to the body of the function of this number.
    StepsTo(u32),
}

/// The marks of the places of one body, in order.
#[derive(Drop)]
pub struct MarkList {
    marks: Vec<Mark>,
}

impl Model for MarkList {
    ghost use Rattle.std.specs.Prelude.{List};
    ghost use Rattle.chains.specs.declared.marks.Mark.{Mark};

    ghost Value = { List Mark };

    ghost view = { λ l. l.marks.items };
}

impl MarkList {
    /// The row without marks; it takes no memory.
    pub fn new(alloc: Global) -> MarkList
        ensures { result ≡ [] }
    {
        MarkList {
            marks: Vec::new(alloc),
        }
    }

    /// Adds a mark at the end; where memory is refused, the row stays as it was.
    pub fn push(&mut self, mark: Mark) -> Result<(), AllocError>
        ensures ok { OnOk result (self.new ≡ self.old ++ mark ∷ []) }
        ensures err { OnErr result (self.new ≡ self.old) }
    {
        self.marks.push(mark)?;
        Ok(())
    }

    /// The marks in order.
    pub fn as_slice(&self) -> &[Mark]
        ensures { result.now ≡ self.now }
    {
        self.marks.as_slice()
    }
}
