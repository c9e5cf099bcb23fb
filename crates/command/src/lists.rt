//! Lists in one text, and the lists that a command holds.

ghost use Rattle.std.specs.Prelude.{◌≡◌, ◌∷◌, ◌+◌, ◌<◌, [], length, MatchOption, IfSome, IfOk, IfErr, Some, Option, List, ℕ};
ghost use Rattle.command.specs.Forms.{number_within, argument_of};
ghost use Rattle.command.specs.Lists.{items_of, each, list_of};
ghost use Rattle.command.specs.Readings.{IsRefusal, IsReading};

use crate::fault::WordsFault;
use crate::forms::{argument_of, number_within};
use std::alloc::Global;
use std::marker::Model;

/// The arguments of the entry, as contracts see them: their list.
#[derive(Drop)]
pub struct ArgList {
    items: Vec<i32>,
}

impl Model for ArgList {
    ghost use Rattle.std.specs.Prelude.{List, ℤ};

    ghost Value = { List ℤ };

    ghost view = { λ list. list.items.items };
}

impl ArgList {
    /// The arguments in order.
    pub fn as_slice(&self) -> &[i32]
        ensures { result.now ≡ self.now }
    {
        self.items.as_slice()
    }
}

/// The numbers of a schedule, as contracts see them: their list.
#[derive(Drop)]
pub struct NumberList {
    items: Vec<u8>,
}

impl Model for NumberList {
    ghost use Rattle.std.specs.Prelude.{List, ℕ};

    ghost Value = { List ℕ };

    ghost view = { λ list. list.items.items };
}

impl NumberList {
    /// The numbers in order.
    pub fn as_slice(&self) -> &[u8]
        ensures { result.now ≡ self.now }
    {
        self.items.as_slice()
    }
}

// What stands between the commas of a list.
trait Item: Copy {
    ghost item_of: { List ℕ → Option Self };

    fn read(text: &str) -> Option<Self>
        ensures { result ≡ item_of text.now };
}

impl Item for i32 {
    ghost item_of = { λ text. argument_of text };

    fn read(text: &str) -> Option<i32> {
        argument_of(text.as_bytes())
    }
}

impl Item for u8 {
    ghost item_of = { λ text. number_within 0 63 text };

    fn read(text: &str) -> Option<u8> {
        let number = number_within(text.as_bytes(), 0, 63)?;
        Some(number as u8)
    }
}

/// The text up to the first separator, and what follows that: `None` where there is no separator.
pub(crate) fn first_item(text: &str, separator: char) -> (&str, Option<&str>)
    requires { separator < 128 }
    ensures parts { MatchOption result.1
        (items_of separator text.now ≡ result.0.now ∷ [])
        (λ rest. items_of separator text.now ≡ result.0.now ∷ items_of separator rest.now) }
    ensures shorter { IfSome result.1 (λ rest. length result.0.now + length rest.now < length text.now) }
{
    match text.split_once(separator) {
        None => (text, None),
        Some((item, rest)) => (item, Some(rest)),
    }
}

// The items of a list between commas.
fn read_items<T: Item>(alloc: Global, text: &str) -> Result<Vec<T>, WordsFault>
    ensures value { IfOk result (λ list. each T.item_of (items_of 44 text.now) ≡ Some list.items) }
    ensures refused { IfErr result (IsRefusal (each T.item_of (items_of 44 text.now))) }
{
    let mut items = Vec::new(alloc);
    let mut rest = Some(text);
    'items: while let Some(text) = rest {
        let (first, later) = first_item(text, ',');
        match T::read(first) {
            Some(item) => items.push(item)?,
            None => return Err(WordsFault::Usage),
        }
        rest = later;
    }
    Ok(items)
}

fn read_list<T: Item>(alloc: Global, most: usize, text: &str) -> Result<Vec<T>, WordsFault>
    ensures value { IfOk result (λ list. list_of most T.item_of text.now ≡ Some list.items) }
    ensures refused { IfErr result (IsRefusal (list_of most T.item_of text.now)) }
{
    let items = read_items(alloc, text)?;
    if items.len() > most {
        return Err(WordsFault::Usage);
    }
    Ok(items)
}

impl ArgList {
    /// No arguments.
    pub(crate) fn none(alloc: Global) -> ArgList
        ensures { result ≡ [] }
    {
        ArgList {
            items: Vec::new(alloc),
        }
    }

    /// One to sixteen arguments between commas.
    pub(crate) fn read(alloc: Global, text: &str) -> Result<ArgList, WordsFault>
        ensures { IsReading (list_of 16 argument_of text.now) result }
    {
        let items = read_list(alloc, 16, text)?;
        Ok(ArgList { items })
    }
}

impl NumberList {
    /// No numbers.
    pub(crate) fn none(alloc: Global) -> NumberList
        ensures { result ≡ [] }
    {
        NumberList {
            items: Vec::new(alloc),
        }
    }

    /// One to 65,536 numbers of threads between commas.
    pub(crate) fn read(alloc: Global, text: &str) -> Result<NumberList, WordsFault>
        ensures { IsReading (list_of 65536 (number_within 0 63) text.now) result }
    {
        let items = read_list(alloc, 65536, text)?;
        Ok(NumberList { items })
    }
}
