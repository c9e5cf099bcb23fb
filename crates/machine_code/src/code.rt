//! Code: numbered instructions, the characters of texts, and what is known of each function.

ghost use Rattle.std.specs.Prelude.{◌≡◌, ◌<◌, ◌≤◌, ◌^◌, OnSome, IfSome, slice_get, slice_index};
ghost use Rattle.mcode.specs.Machine.{Program, entry_of};
ghost use Rattle.machine_code.specs.Codes.{IsCode, IsLowInstruction};

use crate::lists::CodeList;
use mcode::{Entry, Instruction};
use std::marker::Model;

/// Code: at most 2^21 instructions, whose call sites have numbers below 2^20, the characters of the strings that initialize block
/// variables, what it knows of each function that is defined, of at most 4,096, the entry function, and how many words static storage
/// has.
#[derive(Drop)]
pub struct Code {
    instructions: CodeList<Instruction>,
    texts: CodeList<u8>,
    entries: CodeList<Option<Entry>>,
    entry: u32,
    static_words: u32,
}

impl Model for Code {
    ghost use Rattle.mcode.specs.Machine.{Program};
    ghost use Rattle.machine_code.specs.Codes.{IsCode};

    ghost Value = { Program };

    ghost view = { λ c. record { instructions = c.instructions; texts = c.texts; entries = c.entries; entry = c.entry; static_words = c.static_words } };

    ghost invariant = { λ c. IsCode (record { instructions = c.instructions; texts = c.texts; entries = c.entries; entry = c.entry; static_words = c.static_words }) };
}

impl Code {
    /// The code of these parts.
    pub fn new(
        instructions: CodeList<Instruction>,
        texts: CodeList<u8>,
        entries: CodeList<Option<Entry>>,
        entry: u32,
        static_words: u32,
    ) -> Code
        requires { IsCode (record { instructions = instructions; texts = texts; entries = entries; entry = entry; static_words = static_words }) }
        ensures { result ≡ record { instructions = instructions; texts = texts; entries = entries; entry = entry; static_words = static_words } }
    {
        Code {
            instructions,
            texts,
            entries,
            entry,
            static_words,
        }
    }

    /// The number of the entry function that the code was compiled for.
    pub fn entry(&self) -> u32
        ensures { result ≡ self.now.entry }
    {
        self.entry
    }

    /// What is true of each code: its jumps go on, or to loads of the halt word, and its numbers are low.
    pub fn is_code(&self)
        ensures { IsCode self.now }
    {
        let _ = &self.instructions;
    }

    /// How many words static storage has.
    pub(crate) fn static_words(&self) -> u32
        ensures words { result ≡ self.now.static_words }
        ensures low { result ≤ 2 ^ 20 }
    {
        self.static_words
    }

    /// The instruction at a place; none behind the last one.
    pub(crate) fn instruction(&self, place: u32) -> Option<Instruction>
        ensures found { result ≡ slice_get self.now.instructions place }
        ensures low { OnSome result (place < 2 ^ 21) }
        ensures fits { IfSome result IsLowInstruction }
    {
        self.instructions.as_slice().get(place as usize).copied()
    }

    /// What is known of a function; none where it isn't defined.
    pub(crate) fn entry_of(&self, function: u32) -> Option<Entry>
        ensures { result ≡ entry_of self.now function }
    {
        match self.entries.as_slice().get(function as usize) {
            Some(entry) => *entry,
            None => None,
        }
    }

    /// The character at an index of the texts, by its byte; 0 behind the last one.
    pub(crate) fn text_at(&self, at: u32) -> u8
        ensures { result ≡ slice_index self.now.texts at }
    {
        self.texts.as_slice().get(at as usize).copied().unwrap_or(0)
    }
}
