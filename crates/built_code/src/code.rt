//! Code: numbered instructions, and for each function the pc, the number in the code, of its first one.

ghost use Rattle.std.specs.Prelude.{◌≡◌, ◌∷◌, [], ◌++◌, ◌<◌, ◌≤◌, ◌^◌, length, OnOk, OnErr, IfSome, OnSome, slice_get};

use crate::events::TrapKind;
use std::alloc::{AllocError, Global};
use std::marker::Model;

/// An instruction of the plain machine.
#[derive(Clone, Copy)]
pub enum Instruction {
    /// loads the halt word, and ends the thread where it isn't 0
    CheckHalt,
    /// enters a function from a call site where a frame has room
    EnterFunction { function: u32, site: u32 },
    /// reaches a blocking function, at the site from which the latest frame was entered
    ReachFunction { function: u32 },
    /// sets the value that the function returns, by its bits
    SetValue(u32),
    /// leaves the function
    LeaveFunction,
    /// is trapped
    FailWith(TrapKind),
}

/// A list of instructions.
#[derive(Drop)]
pub struct InstructionList {
    items: Vec<Instruction>,
}

impl Model for InstructionList {
    ghost use Rattle.std.specs.Prelude.{List};
    ghost use Rattle.built_code.specs.declared.code.Instruction.{Instruction};

    ghost Value = { List Instruction };

    ghost view = { λ l. l.items.items };
}

impl InstructionList {
    /// The list without instructions; it takes no memory.
    pub fn new(alloc: Global) -> InstructionList
        ensures { result ≡ [] }
    {
        InstructionList {
            items: Vec::new(alloc),
        }
    }

    /// How many instructions there are.
    pub fn len(&self) -> usize
        ensures { result ≡ length self.now }
    {
        self.items.len()
    }

    /// Adds an instruction at the end; where memory is refused, the list stays as it was.
    pub fn push(&mut self, instruction: Instruction) -> Result<(), AllocError>
        ensures ok { OnOk result (self.new ≡ self.old ++ instruction ∷ []) }
        ensures err { OnErr result (self.new ≡ self.old) }
    {
        self.items.push(instruction)?;
        Ok(())
    }

    /// The instructions in order.
    pub fn as_slice(&self) -> &[Instruction]
        ensures { result.now ≡ self.now }
    {
        self.items.as_slice()
    }
}

/// A list of entries: for each function the pc of its first instruction, none for one without a definition.
#[derive(Drop)]
pub struct EntryList {
    items: Vec<Option<u32>>,
}

impl Model for EntryList {
    ghost use Rattle.std.specs.Prelude.{List, Option, ℕ};

    ghost Value = { List (Option ℕ) };

    ghost view = { λ l. l.items.items };
}

impl EntryList {
    /// The list without entries; it takes no memory.
    pub fn new(alloc: Global) -> EntryList
        ensures { result ≡ [] }
    {
        EntryList {
            items: Vec::new(alloc),
        }
    }

    /// Adds the entry of the next function; where memory is refused, the list stays as it was.
    pub fn push(&mut self, pc: Option<u32>) -> Result<(), AllocError>
        ensures ok { OnOk result (self.new ≡ self.old ++ pc ∷ []) }
        ensures err { OnErr result (self.new ≡ self.old) }
    {
        self.items.push(pc)?;
        Ok(())
    }

    /// The entries in order of the functions' numbers.
    pub fn as_slice(&self) -> &[Option<u32>]
        ensures { result.now ≡ self.now }
    {
        self.items.as_slice()
    }
}

/// Code: at most 2^21 instructions, the pc of each function's first one, and the entry function.
#[derive(Drop)]
pub struct Code {
    instructions: InstructionList,
    entries: EntryList,
    entry: u32,
}

impl Model for Code {
    ghost use Rattle.std.specs.Prelude.{◌≤◌, ◌^◌, length};
    ghost use Rattle.built_code.specs.Machine.{Program};

    ghost Value = { Program };

    ghost view = { λ c. record { instructions = c.instructions; entries = c.entries; entry = c.entry } };

    ghost invariant = { λ c. length c.instructions ≤ 2 ^ 21 };
}

impl Code {
    ghost use Rattle.built_code.specs.Machine.{Program, entry_of};

    /// The code of these instructions, entries and entry function.
    pub fn new(instructions: InstructionList, entries: EntryList, entry: u32) -> Code
        requires { length instructions ≤ 2 ^ 21 }
        ensures instructions { result.instructions ≡ instructions }
        ensures entries { result.entries ≡ entries }
        ensures entry { result.entry ≡ entry }
    {
        Code {
            instructions,
            entries,
            entry,
        }
    }

    /// The number of the entry function that the code was compiled for.
    pub fn entry(&self) -> u32
        ensures { result ≡ self.now.entry }
    {
        self.entry
    }

    /// The instruction at this pc, which counts from 0; none behind the last one, of at most 2^21.
    pub fn instruction(&self, pc: u32) -> Option<Instruction>
        ensures found { result ≡ slice_get self.now.instructions pc }
        ensures low { OnSome result (pc < 2 ^ 21) }
        ensures within { OnSome result (pc < length self.now.instructions) }
    {
        self.instructions.as_slice().get(pc as usize).copied()
    }

    /// The pc of the first instruction of a function; none where it has no definition.
    pub fn entry_of(&self, function: u32) -> Option<u32>
        ensures { result ≡ entry_of self.now function }
    {
        match self.entries.as_slice().get(function as usize) {
            Some(pc) => *pc,
            None => None,
        }
    }
}
