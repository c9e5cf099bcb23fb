//! Lists that code is made of.

ghost use Rattle.std.specs.Prelude.{◌≡◌, ◌∷◌, [], ◌++◌, length, IfOk, OnOk, OnErr};

use std::alloc::{AllocError, Global};
use std::marker::Model;

/// A list of instructions, of entries or of characters.
#[derive(Drop)]
pub struct CodeList<T: Copy> {
    items: Vec<T>,
}

impl<T: Copy> Model for CodeList<T> {
    ghost use Rattle.std.specs.Prelude.{List};
    ghost use Rattle.std.specs.Coded.{coded_list};

    ghost Value = { List T };

    ghost coded = { coded_list T.code };

    ghost view = { λ l. l.items.items };
}

impl<T: Copy> CodeList<T> {
    /// The list without items; it takes no memory.
    pub fn new(alloc: Global) -> CodeList<T>
        ensures { result ≡ [] }
    {
        CodeList {
            items: Vec::new(alloc),
        }
    }

    /// The list of these items.
    pub fn from_slice(alloc: Global, items: &[T]) -> Result<CodeList<T>, AllocError>
        ensures { IfOk result (λ list. list ≡ items.now) }
    {
        let items = Vec::from_slice(alloc, items)?;
        Ok(CodeList { items })
    }

    /// How many items there are.
    pub fn len(&self) -> usize
        ensures { result ≡ length self.now }
    {
        self.items.len()
    }

    /// Adds an item at the end; where memory is refused, the list stays as it was.
    pub fn push(&mut self, item: T) -> Result<(), AllocError>
        ensures ok { OnOk result (self.new ≡ self.old ++ item ∷ []) }
        ensures err { OnErr result (self.new ≡ self.old) }
    {
        self.items.push(item)?;
        Ok(())
    }

    /// The items in order.
    pub fn as_slice(&self) -> &[T]
        ensures { result.now ≡ self.now }
    {
        self.items.as_slice()
    }
}
