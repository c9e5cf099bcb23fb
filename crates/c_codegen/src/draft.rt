// Code while it is laid down.

ghost use Rattle.std.specs.Prelude.{◌≡◌, ◌++◌, ◌≤◌, ◌+◌, ◌^◌, [], length, OnOk, IfOk};
ghost use Rattle.c_codegen.specs.Emits as spec;
ghost use Rattle.c_codegen.specs.Emits.{EmitsOne};
ghost use Rattle.c_codegen.specs.Lies.{text_limit};

use machine_code::CodeList;
use mcode::Instruction;
use std::alloc::{AllocError, Global};

/// Instructions, and characters of texts, as far as they are there.
#[derive(Drop)]
pub struct Draft {
    pub instructions: CodeList<Instruction>,
    pub texts: CodeList<u8>,
}

impl Draft {
    /// Nothing yet.
    pub fn new(alloc: Global) -> Draft
        ensures instructions { result.instructions ≡ [] }
        ensures texts { result.texts ≡ [] }
    {
        Draft {
            instructions: CodeList::new(alloc),
            texts: CodeList::new(alloc),
        }
    }

    /// The place of the next instruction.
    pub fn here(&self) -> u32
        requires { length self.now.instructions ≤ 2 ^ 21 }
        ensures { result ≡ spec.here self.now }
    {
        self.instructions.len() as u32
    }

    /// Appends an instruction.
    #[tactic(auto, using(crate::proofs::Emitted::emits_one))]
    pub fn put(&mut self, instruction: Instruction) -> Result<(), AllocError>
        ensures code { OnOk result (EmitsOne self.old self.new instruction) }
        ensures long { OnOk result (spec.here self.new ≡ spec.here self.old + 1) }
    {
        self.instructions.push(instruction)?;
        Ok(())
    }
}
