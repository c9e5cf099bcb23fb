//! Parameters (C17 6.7.6.3) and type names (C17 6.7.7).

ghost use Rattle.std.specs.Prelude.{◌≡◌, ◌||◌, not, is_some, Some, None, IfOk, OnOk};
ghost use Rattle.core_unit.specs.Shapes as shapes;
ghost use Rattle.core_unit.specs.declared.expressions.Storage.TheVariants as storage;
ghost use Rattle.scopes.specs.Scope.{found_here};
ghost use Rattle.type_rules.specs.Declarators as spec;
ghost use Rattle.type_rules.specs.Reading as reading;
ghost use Rattle.type_rules.specs.Reading.{gives};
ghost use Rattle.type_rules.specs.Types as types;
ghost use Rattle.type_rules.specs.declared.names.Entity.TheVariants as entity;
ghost use Rattle.typing_state.specs.Answers.{Gives};

use crate::making::{faults, made};
use crate::parts::either;
use crate::shapes::anchor;
use c_tree::Span;
use core_unit::Storage;
use eff_types::{CType, copy};
use sqlite_items::{Boxed, Items};
use std::alloc::{AllocError, Global};
use type_operands::{element_of, is_array, is_scalar, is_unsized, pointer_to};
use type_rules::{Entity, Made, Parameter, Shape, Specifiers};
use typing_state::{Stop, Typing};

/// A parameter's type: an array is a pointer to its element, and a function a pointer to itself. The one error is that no memory
/// is left.
#[tactic(auto, using(crate::proofs::Adjusted::adjusted_lines))]
fn adjusted(alloc: Global, kind: Boxed<CType>) -> Result<Boxed<CType>, AllocError>
    ensures { IfOk result (λ t. t ≡ types.adjusted kind) }
{
    if is_array(kind.get()) {
        let element = element_of(alloc, kind.get())?;
        return pointer_to(alloc, element);
    }
    if kind.get().is_function() {
        return pointer_to(alloc, kind);
    }
    Ok(kind)
}

/// Whether a parameter of this adjusted type is a type mismatch: parameters are numbers and pointers, and `noreturn` isn't theirs.
fn is_mistyped(mistyped: bool, noreturn: bool, adjusted: &CType) -> bool
    ensures { result ≡ (mistyped || noreturn || not (shapes.is_scalar adjusted.now)) }
{
    either(either(mistyped, noreturn), !is_scalar(adjusted))
}

fn is_declared_here(typing: &Typing, number: u32) -> bool
    ensures { result ≡ is_some (found_here typing.now.scopes number) }
{
    match typing.meaning_here(number) {
        Some(_) => true,
        None => false,
    }
}

/// Declares a parameter, which has one word of the frame. The one error is that no memory is left, as for a number past 32 bits.
fn declare_parameter(
    alloc: Global,
    typing: &mut Typing,
    number: u32,
    kind: &CType,
    offset: usize,
) -> Result<(), AllocError>
    ensures { OnOk result (reading.declared number (entity.Variable kind.now (storage.Automatic offset) None) typing.old ≡ reading.Good tt typing.new) }
{
    if offset > u32::MAX as usize {
        return Err(AllocError);
    }
    let kind = copy(alloc, kind)?;
    let storage = Storage::Automatic(offset as u32);
    typing.declare(number, Entity::Variable(kind, storage, None))
}

/// A parameter with a name. Rule 2 at the name, where another parameter has it.
#[tactic(auto, unfolding(type_rules::specs::Reading::and_then))]
fn named_parameter(
    alloc: Global,
    typing: &mut Typing,
    name: Span,
    made: Made,
    before: Items<Parameter>,
) -> Result<Items<Parameter>, Stop>
    ensures { Gives (spec.parameter_declared (Some name) made before typing.old) result typing.new }
{
    let number = typing.name_number(name)?;
    let redefined = is_declared_here(typing, number);
    let kind = adjusted(alloc, made.kind)?;
    let mistyped = is_mistyped(made.mistyped, made.noreturn, kind.get());
    faults(
        typing,
        redefined,
        mistyped,
        made.conflicting,
        made.incomplete,
        made.place,
    )?;
    declare_parameter(alloc, typing, number, kind.get(), before.len())?;
    let mut parameters = before;
    parameters.push(Parameter {
        name: Some(number),
        kind,
    })?;
    Ok(parameters)
}

#[tactic(auto, unfolding(type_rules::specs::Reading::and_then))]
fn unnamed_parameter(
    alloc: Global,
    typing: &Typing,
    made: Made,
    before: Items<Parameter>,
) -> Result<Items<Parameter>, Stop>
    ensures { Gives (spec.parameter_declared None made before typing.now) result typing.now }
{
    let kind = adjusted(alloc, made.kind)?;
    let mistyped = is_mistyped(made.mistyped, made.noreturn, kind.get());
    faults(
        typing,
        false,
        mistyped,
        made.conflicting,
        made.incomplete,
        made.place,
    )?;
    let mut parameters = before;
    parameters.push(Parameter { name: None, kind })?;
    Ok(parameters)
}

/// A parameter behind those before it, once its specifiers and its declarator are read. Rules 2, 3, 4 and 10 at its name, or at
/// `place` without one.
#[tactic(auto, unfolding(type_rules::specs::Declarators::parameter, type_rules::specs::Reading::and_then))]
pub fn parameter(
    alloc: Global,
    typing: &mut Typing,
    place: u32,
    specifiers: &Specifiers,
    declarator: Shape,
    before: Items<Parameter>,
) -> Result<Items<Parameter>, Stop>
    ensures { Gives (spec.parameter place (gives specifiers.now) (gives declarator) before typing.old) result typing.new }
{
    let name = declarator.name;
    let place = anchor(&declarator, place);
    let made = made(alloc, typing.structures(), specifiers, declarator, place)?;
    match name {
        Some(name) => named_parameter(alloc, typing, name, made, before),
        None => unnamed_parameter(alloc, typing, made, before),
    }
}

/// The type that a type name says, once its specifiers and its declarator are read. Rules 3, 4 and 10 at its first token.
#[tactic(auto, unfolding(type_rules::specs::Declarators::type_name, type_rules::specs::Reading::and_then))]
pub fn type_name(
    alloc: Global,
    typing: &Typing,
    place: u32,
    specifiers: &Specifiers,
    declarator: Shape,
) -> Result<Boxed<CType>, Stop>
    ensures { Gives (spec.type_name place (gives specifiers.now) (gives declarator) typing.now) result typing.now }
{
    let made = made(alloc, typing.structures(), specifiers, declarator, place)?;
    let mistyped = either(made.mistyped, made.noreturn);
    let incomplete = either(made.incomplete, is_unsized(made.kind.get()));
    faults(typing, false, mistyped, made.conflicting, incomplete, place)?;
    Ok(made.kind)
}
