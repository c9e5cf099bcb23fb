//! Definitions of functions (C17 6.9.1): what stands in the scope of a body, and the body.

ghost use Rattle.std.specs.Prelude.{◌≡◌, OnOk};
ghost use Rattle.type_rules.specs.Functions as spec;
ghost use Rattle.type_rules.specs.Reading as reading;
ghost use Rattle.typing_state.specs.Answers.{Gives};

use core_unit::{Body, Stmt, Storage};
use eff_types::{FnType, copy};
use sqlite_items::Items;
use std::alloc::{AllocError, Global};
use type_operands::boxed_copy;
use type_rules::{Entity, Parameter};
use typing_state::{Stop, Typing};

/// Declares a parameter at its word of the frame, where it has a name. The one error is that no memory is left.
fn declare_at(
    alloc: Global,
    typing: &mut Typing,
    offset: u32,
    parameter: &Parameter,
) -> Result<(), AllocError>
    ensures { OnOk result (spec.declared_at offset parameter.now.name parameter.now.kind typing.old ≡ reading.Good tt typing.new) }
{
    match parameter.name {
        Some(name) => {
            let kind = copy(alloc, parameter.kind.get())?;
            let storage = Storage::Automatic(offset);
            typing.declare(name, Entity::Variable(kind, storage, None))
        }
        None => Ok(()),
    }
}

/// Declares the parameters, each at the next word of the frame. The one error is that no memory is left, as for a number past 32
/// bits.
#[tactic(auto, unfolding(type_rules::specs::Reading::and_then))]
fn declare_parameters(
    alloc: Global,
    typing: &mut Typing,
    parameters: &[Parameter],
) -> Result<(), AllocError>
    ensures { OnOk result (spec.parameters_declared 0 parameters.now typing.old ≡ reading.Good tt typing.new) }
{
    let mut offset: u32 = 0;
    'each: for parameter in parameters {
        declare_at(alloc, typing, offset, parameter)?;
        match offset.checked_add(1) {
            Some(next) => offset = next,
            None => return Err(AllocError),
        }
    }
    Ok(())
}

/// What stands in the scope of a body before its block: its parameters, and its frame. The one error is that no memory is left, as for
/// a number past 32 bits.
#[tactic(auto, unfolding(type_rules::specs::Reading::and_then))]
pub fn body_opened(
    alloc: Global,
    typing: &mut Typing,
    kind: &FnType,
    parameters: &[Parameter],
) -> Result<(), Stop>
    ensures { Gives (spec.body_opened kind.now parameters.now typing.old) result typing.new }
{
    let Ok(words) = u32::try_from(kind.params.len()) else {
        return Err(Stop::NoMemory);
    };
    declare_parameters(alloc, typing, parameters)?;
    let returns = boxed_copy(alloc, kind.result.get())?;
    typing.begin_frame(words, returns);
    Ok(())
}

/// Gives a function its body, once its block is read. The one error is that no memory is left.
#[tactic(auto, using(crate::proofs::Defined::with_body_is), unfolding(type_rules::specs::Reading::and_then))]
pub fn function_defined(typing: &mut Typing, number: u32, items: Items<Stmt>) -> Result<(), Stop>
    ensures { Gives (spec.function_defined number items typing.old) result typing.new }
{
    let frame = typing.frame();
    typing.set_body(number, Body { items }, frame);
    typing.define(number)?;
    Ok(())
}
