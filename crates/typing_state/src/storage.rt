//! Where objects are kept (C17 6.2.4).

ghost use Rattle.std.specs.Prelude.{◌≡◌, OnOk, IfOk, ◌++◌, ◌∷◌, [], ◌+◌};
ghost use Rattle.core_unit.specs.Layout.{told};
ghost use Rattle.type_rules.specs.Reading.{Good};
ghost use Rattle.type_rules.specs.Storage.{allot_static, allot_thread_local, allot_automatic, kept_for};

use crate::state::Typing;
use core_unit::{Object, Storage};
use std::alloc::AllocError;
use type_rules::Initial;

impl<'a> Typing<'a> {
    /// An object of static storage of so many words: its address.
    pub fn allot_static(&mut self, words: u32, variable: Option<u32>) -> Result<u32, AllocError>
        ensures { IfOk result (λ at. allot_static words variable self.old ≡ Good at self.new) }
    {
        let Some(at) = self.static_words.checked_add(1) else {
            return Err(AllocError);
        };
        self.statics.push(Object {
            at,
            words,
            variable,
        })?;
        self.static_words = self.static_words.saturating_add(words);
        Ok(at)
    }

    /// A thread-local object of so many words: its offset in the region of each thread.
    pub fn allot_thread_local(
        &mut self,
        words: u32,
        variable: Option<u32>,
    ) -> Result<u32, AllocError>
        ensures { IfOk result (λ at. allot_thread_local words variable self.old ≡ Good at self.new) }
    {
        let at = self.thread_words;
        self.thread_locals.push(Object {
            at,
            words,
            variable,
        })?;
        self.thread_words = at.saturating_add(words);
        Ok(at)
    }

    /// So many words of the frame of the function that is read: their offset.
    pub fn allot_automatic(&mut self, words: u32) -> u32
        ensures { allot_automatic words self.old ≡ Good result self.new }
    {
        let at = self.frame;
        self.frame = at.saturating_add(words);
        at
    }

    /// What an object of static storage holds at first, a word of it.
    pub fn set_static_word(&mut self, initial: Initial) -> Result<(), AllocError>
        ensures { OnOk result (self.new ≡ record self.old { static_values = self.old.static_values ++ initial ∷ [] }) }
    {
        self.static_values.push(initial)
    }

    /// What a thread-local object holds at first, a word of it.
    pub fn set_thread_word(&mut self, initial: Initial) -> Result<(), AllocError>
        ensures { OnOk result (self.new ≡ record self.old { thread_values = self.old.thread_values ++ initial ∷ [] }) }
    {
        self.thread_values.push(initial)
    }
}
