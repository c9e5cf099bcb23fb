//! Bodies of functions (C17 6.9.1).

ghost use Rattle.std.specs.Prelude.{◌≡◌, IfOk};
ghost use Rattle.type_rules.specs.Functions as functions;
ghost use Rattle.type_rules.specs.Statements.{block_items as items};
ghost use Rattle.typing_state.specs.Answers.{Gives};

use crate::statements::block_items;
use c_tree::BlockItem;
use core_unit::Stmt;
use eff_types::FnType;
use sqlite_items::Items;
use std::alloc::{AllocError, Global};
use type_functions::{body_opened, function_defined};
use type_operands::boxed_copy;
use type_rules::Parameter;
use typing_state::{Stop, Typing};

/// What stands in a function's outermost block.
#[tactic(auto, using(crate::proofs::Forms::outermost))]
fn outermost_items(
    alloc: Global,
    typing: &mut Typing,
    body: &[BlockItem],
) -> Result<Items<Stmt>, Stop>
    ensures { Gives (items body.now typing.old) result typing.new }
{
    block_items(alloc, typing, false, body)
}

/// The body of a function: its parameters and its outermost block have one scope (C17 6.2.1).
#[tactic(auto, using(crate::proofs::Parts::body_rules))]
pub(crate) fn body_read(
    alloc: Global,
    typing: &mut Typing,
    number: u32,
    kind: &FnType,
    parameters: &[Parameter],
    body: &[BlockItem],
) -> Result<(), Stop>
    ensures { Gives (functions.body_read number kind.now parameters.now (items body.now) typing.old) result typing.new }
{
    typing.enter()?;
    body_opened(alloc, typing, kind, parameters)?;
    let inner = outermost_items(alloc, typing, body)?;
    typing.leave();
    function_defined(typing, number, inner)
}

fn copy_parameter(alloc: Global, parameter: &Parameter) -> Result<Parameter, AllocError>
    ensures { IfOk result (λ copy. copy ≡ parameter.now) }
{
    Ok(Parameter {
        name: parameter.name,
        kind: boxed_copy(alloc, parameter.kind.get())?,
    })
}

/// A copy of parameters. The one error is that no memory is left.
pub(crate) fn copy_parameters(
    alloc: Global,
    parameters: &[Parameter],
) -> Result<Items<Parameter>, AllocError>
    ensures { IfOk result (λ copies. copies ≡ parameters.now) }
{
    let mut copies = Items::new(alloc);
    'each: for parameter in parameters {
        copies.push(copy_parameter(alloc, parameter)?)?;
    }
    Ok(copies)
}
