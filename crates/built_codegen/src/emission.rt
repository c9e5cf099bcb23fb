// The instructions of a unit, one function after another.

ghost use Rattle.std.specs.Prelude.{◌≡◌, [], ◌∷◌, ◌++◌, ◌<◌, ◌≤◌, length, OnOk, IfOk, Some, slice_get};
ghost use Rattle.built_model.specs.Source.{callee_at, named, calls, return_of, meets, tasks_in, tasks_of};
ghost use Rattle.built_codegen.specs.Instructions.{task_code, tasks_code, function_code, entry_at, unit_code, unit_entries};
ghost use Rattle.built_codegen.specs.Unit.{unit_nodes, node_limit};

use built_code::{Code, EntryList, Instruction, InstructionList, TrapKind};
use built_unit::{Body, FunctionInfo, Unit};
use std::alloc::{AllocError, Global};

// The code of a unit that isn't too long.
pub fn emit_unit(alloc: Global, unit: &Unit, entry: u32) -> Result<Code, AllocError>
    requires { unit_nodes unit.now ≤ node_limit }
    ensures instructions { IfOk result (λ code. code.instructions ≡ unit_code unit.now (length unit.now.functions)) }
    ensures entries { IfOk result (λ code. code.entries ≡ unit_entries unit.now (length unit.now.functions)) }
    ensures entry { IfOk result (λ code. code.entry ≡ entry) }
{
    let mut instructions = InstructionList::new(alloc);
    let mut entries = EntryList::new(alloc);
    for id in 0..unit.functions() {
        emit_function(&mut instructions, &mut entries, unit, id)?;
    }
    Ok(Code::new(instructions, entries, entry))
}

// Adds the code of a function, and the pc where it begins.
fn emit_function(
    instructions: &mut InstructionList,
    entries: &mut EntryList,
    unit: &Unit,
    id: u32,
) -> Result<(), AllocError>
    requires known { id < length unit.now.functions }
    requires low { length instructions.old ≤ node_limit }
    ensures code { OnOk result (instructions.new ≡ instructions.old ++ function_code unit.now id) }
    ensures entry { OnOk result (entries.new ≡ entries.old ++ entry_at (length instructions.old) (tasks_of unit.now id) ∷ []) }
{
    let function = unit.function(id);
    match &function.body {
        Some(body) => {
            entries.push(Some(instructions.len() as u32))?;
            emit_body(instructions, unit, id, function, body)?;
            Ok(())
        }
        None => {
            entries.push(None)?;
            Ok(())
        }
    }
}

// Adds the code of a function with a body.
fn emit_body(
    code: &mut InstructionList,
    unit: &Unit,
    id: u32,
    function: &FunctionInfo,
    body: &Body,
) -> Result<(), AllocError>
    ensures { OnOk result (code.new ≡ code.old ++ tasks_code (tasks_in unit.now id function.now body.now)) }
{
    emit_meeting(code, function.effects.no_block_inference, id)?;
    emit_calls(code, unit, body.calls.as_slice())?;
    emit_return(code, body.returns)?;
    Ok(())
}

// A blocking function is reached when it is entered.
fn emit_meeting(code: &mut InstructionList, blocking: bool, id: u32) -> Result<(), AllocError>
    ensures { OnOk result (code.new ≡ code.old ++ tasks_code (meets blocking id [])) }
{
    if blocking {
        code.push(Instruction::ReachFunction { function: id })?;
    }
    Ok(())
}

// Adds the code of calls, in their order.
fn emit_calls(code: &mut InstructionList, unit: &Unit, sites: &[u32]) -> Result<(), AllocError>
    ensures { OnOk result (code.new ≡ code.old ++ tasks_code (calls unit.now sites.now [])) }
{
    for site in sites {
        emit_call(code, unit, *site)?;
    }
    Ok(())
}

// Adds the code of the call at a site.
fn emit_call(code: &mut InstructionList, unit: &Unit, site: u32) -> Result<(), AllocError>
    ensures { OnOk result (code.new ≡ code.old ++ task_code (named (callee_at unit.now site) site)) }
{
    match callee_at(unit, site) {
        Some(function) => {
            code.push(Instruction::CheckHalt)?;
            code.push(Instruction::EnterFunction { function, site })?;
            Ok(())
        }
        None => {
            code.push(Instruction::FailWith(TrapKind::NullCall))?;
            Ok(())
        }
    }
}

// The function that is called at a site.
fn callee_at(unit: &Unit, site: u32) -> Option<u32>
    ensures { result ≡ callee_at unit.now site }
{
    match unit.all_sites().get(site.saturating_sub(1) as usize) {
        Some(info) => info.direct,
        None => None,
    }
}

// Adds the code of what follows the calls.
fn emit_return(code: &mut InstructionList, returns: Option<u32>) -> Result<(), AllocError>
    ensures { OnOk result (code.new ≡ code.old ++ tasks_code (return_of returns)) }
{
    match returns {
        Some(number) => {
            code.push(Instruction::SetValue(number))?;
            code.push(Instruction::LeaveFunction)?;
            Ok(())
        }
        None => {
            code.push(Instruction::LeaveFunction)?;
            Ok(())
        }
    }
}
