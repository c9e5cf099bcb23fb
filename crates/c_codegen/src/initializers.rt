// The code of block variables: what their initializers store.

ghost use Rattle.std.specs.Prelude.{◌≡◌, ◌++◌, ◌+◌, ◌≤◌, ◌^◌, length, OnOk, IfOk};
ghost use Rattle.core_unit.specs.Shapes as shapes;
ghost use Rattle.core_unit.specs.Stores.{stores};
ghost use Rattle.core_unit.specs.Typing as typing;
ghost use Rattle.c_codegen.specs.Emits.{here, listed_stores, EmitsInitializer, EmitsInitializers, EmitsStatement};
ghost use Rattle.c_codegen.specs.Frames.{variable_end};
ghost use Rattle.c_codegen.specs.Lies.{text_limit};
ghost use Rattle.c_codegen.specs.Sizes as spec;

use crate::draft::Draft;
use crate::values::emit_value;
use core_unit::{Expr, Initializer, LocalVariable, Stmt, Storage, Unit, Word, level_of, pack};
use eff_types::Level;
use mcode::Instruction;
use std::alloc::{AllocError, Global};
use unit_spots::type_of;

// Characters of texts begin at most here.
const TEXT_LIMIT: usize = 1 << 31;

// Appends the characters of a text, and gives the index of the first one. The one error is that no memory is left; texts of more than
// 2^31 characters, which no memory holds, are answered so too.
fn append_text(bytes: &[u8], draft: &mut Draft) -> Result<u32, AllocError>
    ensures begins { IfOk result (λ at. at ≡ length draft.old.texts) }
    ensures low { IfOk result (λ at. at ≤ text_limit) }
    ensures code { OnOk result (draft.new.instructions ≡ draft.old.instructions) }
    ensures texts { OnOk result (draft.new.texts ≡ draft.old.texts ++ bytes.now) }
{
    let at = draft.texts.len();
    if TEXT_LIMIT < at {
        return Err(AllocError);
    }
    'each: for byte in bytes {
        draft.texts.push(*byte)?;
    }
    Ok(at as u32)
}

// The level at which the value of an expression is stored.
fn level_of_value(alloc: Global, expression: &Expr) -> Result<Level, AllocError>
    ensures { IfOk result (λ level. level ≡ shapes.level_of (typing.type_of expression.now)) }
{
    let kind = type_of(alloc, expression)?;
    Ok(level_of(kind.get()))
}

// Appends what stores the words of an initializer from an offset of the frame on, and gives the offset behind them.
#[cycle(initializing)]
#[tactic(auto, using(crate::proofs::SizeEquations::initializer_size_rules, crate::proofs::StatedInitializers::initializer_emissions))]
pub fn emit_initializer(
    alloc: Global,
    initializer: &Initializer,
    offset: u32,
    draft: &mut Draft,
    unit: &Unit,
) -> Result<u32, AllocError>
    requires room { here draft.old + spec.initializer_size initializer.now ≤ 2 ^ 21 }
    requires frame { offset + length (stores initializer.now) ≤ 2 ^ 20 }
    ensures next { IfOk result (λ next. next ≡ offset + length (stores initializer.now)) }
    ensures code { OnOk result (EmitsInitializer unit.now draft.old draft.new offset initializer.now) }
    ensures long { OnOk result (here draft.new ≡ here draft.old + spec.initializer_size initializer.now) }
{
    match initializer {
        Initializer::Absent(words) => {
            draft.put(Instruction::Fill(offset, pack(Word::Undefined), *words))?;
            Ok(offset + *words)
        }
        Initializer::Value(_, e) => {
            let level = level_of_value(alloc, e)?;
            emit_value(alloc, e, draft, unit)?;
            draft.put(Instruction::Put(offset, level))?;
            Ok(offset + 1)
        }
        Initializer::List(initializers, zeros) => {
            let next = emit_initializers(alloc, initializers.as_slice(), offset, draft, unit)?;
            draft.put(Instruction::Fill(next, pack(Word::Zero), *zeros))?;
            Ok(next + *zeros)
        }
        Initializer::Text(bytes, zeros) => {
            let count = bytes.len() as u32;
            let next = offset + count;
            let at = append_text(bytes.as_slice(), draft)?;
            draft.put(Instruction::FillText(offset, at, count))?;
            draft.put(Instruction::Fill(next, pack(Word::Zero), *zeros))?;
            Ok(next + *zeros)
        }
        Initializer::Zeros(words) => {
            draft.put(Instruction::Fill(offset, pack(Word::Zero), *words))?;
            Ok(offset + *words)
        }
        Initializer::Mutex => {
            draft.put(Instruction::Fill(offset, pack(Word::Zero), 1))?;
            Ok(offset + 1)
        }
    }
}

// The same of the first members or elements of an object, one after another.
#[cycle(initializing)]
#[tactic(auto, using(crate::proofs::StatedInitializers::list_emissions))]
fn emit_initializers(
    alloc: Global,
    initializers: &[Initializer],
    offset: u32,
    draft: &mut Draft,
    unit: &Unit,
) -> Result<u32, AllocError>
    requires room { here draft.old + spec.listed_size initializers.now ≤ 2 ^ 21 }
    requires frame { offset + length (listed_stores initializers.now) ≤ 2 ^ 20 }
    ensures next { IfOk result (λ next. next ≡ offset + length (listed_stores initializers.now)) }
    ensures code { OnOk result (EmitsInitializers unit.now draft.old draft.new offset initializers.now) }
    ensures long { OnOk result (here draft.new ≡ here draft.old + spec.listed_size initializers.now) }
{
    let mut next = offset;
    'each: for initializer in initializers {
        next = emit_initializer(alloc, initializer, next, draft, unit)?;
    }
    Ok(next)
}

// Appends what a declaration stores when it is reached: nothing where the variable isn't automatic.
#[tactic(auto, using(crate::proofs::StatedInitializers::variable_emissions))]
pub fn emit_variable(
    alloc: Global,
    variable: &LocalVariable,
    draft: &mut Draft,
    unit: &Unit,
) -> Result<(), AllocError>
    requires room { here draft.old + spec.variable_size variable.now.storage variable.now.initializer ≤ 2 ^ 21 }
    requires frame { variable_end variable.now.storage variable.now.initializer ≤ 2 ^ 20 }
    ensures code { OnOk result (EmitsStatement unit.now draft.old draft.new (Stmt.Variable variable.now) 0 0) }
    ensures long { OnOk result (here draft.new ≡ here draft.old + spec.variable_size variable.now.storage variable.now.initializer) }
{
    match variable.storage {
        Storage::Automatic(offset) => {
            emit_initializer(alloc, &variable.initializer, offset, draft, unit)?;
            Ok(())
        }
        Storage::Static(_) => Ok(()),
        Storage::ThreadLocal(_) => Ok(()),
    }
}
