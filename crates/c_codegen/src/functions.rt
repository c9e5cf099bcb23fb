// The code of functions, and what is known of them.

ghost use Rattle.std.specs.Prelude.{◌≡◌, [], ◌+◌, ◌≤◌, ◌^◌, length, OnOk};
ghost use Rattle.core_unit.specs.Units.{IsFunction};
ghost use Rattle.src_model.specs.Source as source;
ghost use Rattle.c_codegen.specs.Emits.{here, EmitsBinds, EmitsMeets, EmitsFunction, AddsFunction};
ghost use Rattle.c_codegen.specs.Entries.{entry_at as entry_for};
ghost use Rattle.c_codegen.specs.Functions.{AddsFunctions};
ghost use Rattle.c_codegen.specs.Frames.{list_end};
ghost use Rattle.c_codegen.specs.Sizes as spec;

use crate::draft::Draft;
use crate::sizes::list_size;
use crate::statements::{Jumps, emit_statements};
use crate::types::signature_number;
use core_unit::{Body, FunctionInfo, Unit, level_of};
use eff_types::CType;
use machine_code::CodeList;
use mcode::{Entry, Instruction};
use std::alloc::{AllocError, Global};

// Whether the function is `main`, the end of whose body returns 0 (C17 5.1.2.2.3).
fn is_main(function: &FunctionInfo) -> bool
    ensures { result ≡ source.is_main function.now }
{
    function.name.as_str() == "main"
}

// What code knows of a function with a definition, whose instructions begin at this place.
fn entry_at(unit: &Unit, function: &FunctionInfo, place: u32) -> Entry
    ensures { result ≡ entry_for unit.now place function.now }
{
    let kind = &function.kind;
    let result = kind.result.get();
    Entry {
        place,
        frame_words: function.frame_words,
        signature: signature_number(unit, kind),
        noreturn: function.noreturn,
        falls: result.is_void() || is_main(function),
        gives_number: result.is_number(),
        result_level: level_of(result),
    }
}

// Appends what reaches a blocking function when it was entered.
#[tactic(auto, using(crate::proofs::StatedFunctions::meeting_emissions))]
fn emit_meeting(blocks: bool, function: u32, draft: &mut Draft) -> Result<(), AllocError>
    ensures code { OnOk result (EmitsMeets draft.old draft.new blocks function) }
    ensures long { OnOk result (here draft.new ≡ here draft.old + spec.meets_size blocks) }
{
    if blocks {
        draft.put(Instruction::ReachFunction(function))?;
        Ok(())
    } else {
        Ok(())
    }
}

// Appends what stores the arguments, of which the last one is held latest, in the parameters.
#[tactic(auto, using(crate::proofs::StatedFunctions::binding_emissions))]
fn emit_binds(parameters: &[CType], draft: &mut Draft) -> Result<(), AllocError>
    requires { length parameters.now ≤ 16 }
    ensures code { OnOk result (EmitsBinds draft.old draft.new (length parameters.now) parameters.now []) }
    ensures long { OnOk result (here draft.new ≡ here draft.old + length parameters.now) }
{
    let count = parameters.len() as u32;
    let mut offset = 0;
    'each: for parameter in parameters {
        let behind = count - offset - 1;
        draft.put(Instruction::Bind(offset, behind, level_of(parameter)))?;
        offset += 1;
    }
    Ok(())
}

// Appends the code of a function with a body. No jump of the body goes behind its end.
#[tactic(auto, using(crate::proofs::StatedFunctions::body_emissions))]
fn emit_body(
    alloc: Global,
    unit: &Unit,
    id: u32,
    function: &FunctionInfo,
    body: &Body,
    draft: &mut Draft,
) -> Result<(), AllocError>
    requires room { here draft.old + spec.body_size function.now body.now ≤ 2 ^ 21 }
    requires frame { list_end body.now.items ≤ 2 ^ 20 }
    requires few { length function.now.kind.params ≤ 16 }
    ensures code { OnOk result (EmitsFunction unit.now draft.old draft.new id function.now body.now) }
    ensures long { OnOk result (here draft.new ≡ here draft.old + spec.body_size function.now body.now) }
{
    let parameters = function.kind.params.as_slice();
    let items = body.items.as_slice();
    emit_meeting(function.kind.effects.no_block_inference, id, draft)?;
    emit_binds(parameters, draft)?;
    draft.put(Instruction::Forget(parameters.len() as u32))?;
    let end = draft.here() + list_size(items);
    let jumps = Jumps {
        out: end,
        back: end,
    };
    emit_statements(alloc, items, draft, unit, jumps)?;
    draft.put(Instruction::FallOff)?;
    draft.put(Instruction::LeaveFunction)?;
    Ok(())
}

// Appends the code of a function that is defined, and what is known of it; of another one nothing is known.
#[tactic(auto, using(crate::proofs::StatedFunctions::definition_emissions))]
fn emit_function(
    alloc: Global,
    unit: &Unit,
    id: u32,
    function: &FunctionInfo,
    draft: &mut Draft,
    entries: &mut CodeList<Option<Entry>>,
) -> Result<(), AllocError>
    requires room { here draft.old + spec.function_size function.now ≤ 2 ^ 21 }
    requires lawful { IsFunction unit.now function.now }
    ensures { OnOk result (AddsFunction unit.now id function.now function.now.body draft.old draft.new entries.old entries.new) }
{
    match &function.body {
        Some(body) => {
            let entry = entry_at(unit, function, draft.here());
            emit_body(alloc, unit, id, function, body, draft)?;
            entries.push(Some(entry))?;
            Ok(())
        }
        None => {
            entries.push(None)?;
            Ok(())
        }
    }
}

/// Appends the code of all functions of the unit, and what is known of each. The one error is that no memory is left.
#[tactic(auto, using(crate::proofs::Appended::function_emissions, crate::proofs::StatedFunctions::listed_lawful, crate::proofs::StatedFunctions::listed_known))]
pub fn emit_functions(
    alloc: Global,
    unit: &Unit,
    draft: &mut Draft,
    entries: &mut CodeList<Option<Entry>>,
) -> Result<(), AllocError>
    requires room { here draft.old + spec.unit_size unit.now.functions ≤ 2 ^ 21 }
    ensures { OnOk result (AddsFunctions unit.now (length unit.now.functions) draft.old draft.new entries.old entries.new) }
{
    let functions = unit.parts().functions.as_slice();
    let mut id = 0;
    'each: for function in functions {
        emit_function(alloc, unit, id, function, draft, entries)?;
        id += 1;
    }
    Ok(())
}
