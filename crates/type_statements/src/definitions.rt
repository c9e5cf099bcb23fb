//! Definitions of functions (C17 6.9.1).

ghost use Rattle.std.specs.Prelude.{◌≡◌, IfOk, Some, None, slice_get};
ghost use Rattle.core_unit.specs.Shapes.{function_in};
ghost use Rattle.scopes.specs.Scope.{found_here};
ghost use Rattle.type_declarations.specs.Declared.{named};
ghost use Rattle.type_rules.specs.Declarations as spec;
ghost use Rattle.type_rules.specs.Statements.{block_items as items};
ghost use Rattle.type_statements.specs.Defining as defining;
ghost use Rattle.typing_state.specs.Answers.{Gives};

use crate::bodies::{body_read, copy_parameters};
use c_tree::{BlockItem, FunctionDefinition, Span};
use eff_types::FnType;
use sqlite_items::{Items, at};
use std::alloc::{AllocError, Global};
use type_declarations::{function_copy, function_of, is_other_type, said_in};
use type_declarators::made;
use type_functions::function_declared;
use type_operands::copy_function;
use type_recursion::declarator;
use type_rules::{Entity, Made, Parameter, Shape, Specifiers};
use typing_state::{Stop, Typing};

/// A definition whose declarator makes the name a function by a parameter list of its own.
#[tactic(auto, using(type_recursion::proofs::Continued::then_rules))]
fn function_with_body(
    alloc: Global,
    typing: &mut Typing,
    name: Span,
    number: u32,
    said: &Specifiers,
    made: Made,
    kind: FnType,
    parameters: &[Parameter],
    body: &[BlockItem],
) -> Result<(), Stop>
    ensures { Gives (spec.defined_as (named name number said.now made None) (Some kind) (Some parameters.now) (items body.now) (found_here typing.old.scopes number) typing.old) result typing.new }
{
    let declared = copy_function(alloc, &kind)?;
    let declaration = function_of(name, number, said, made, declared, true);
    let number = function_declared(alloc, typing, declaration)?;
    body_read(alloc, typing, number, &kind, parameters, body)
}

fn is_defined(typing: &Typing, number: u32) -> bool
    ensures { result ≡ spec.is_defined (slice_get typing.now.functions number) }
{
    match at(typing.functions(), number as usize) {
        Some(function) => function.body.is_some(),
        None => false,
    }
}

/// Whether a function that is declared already has a body; `is_function`: a function is defined.
fn function_redefined(typing: &Typing, is_function: bool, number: u32) -> bool
    ensures { result ≡ defining.function_redefined typing.now.functions is_function number }
{
    if is_function {
        is_defined(typing, number)
    } else {
        true
    }
}

/// Whether a variable is declared as another kind of name; one of file scope may be a variable again.
fn variable_redefined(is_function: bool, variable: Option<u32>) -> bool
    ensures { result ≡ defining.variable_redefined is_function variable }
{
    match variable {
        Some(_) => is_function,
        None => true,
    }
}

/// Whether a name is declared here already as another kind than a definition says, or as a function with a body.
#[tactic(auto, using(crate::proofs::Redefined::redefined_rules))]
fn means_otherwise(typing: &Typing, is_function: bool, entity: &Entity) -> bool
    ensures { result ≡ spec.is_redefined typing.now.functions is_function (Some entity.now) }
{
    match entity {
        Entity::Function(number) => function_redefined(typing, is_function, *number),
        Entity::Variable(_, _, variable) => variable_redefined(is_function, *variable),
        Entity::TypeName(_) => true,
        Entity::Enumerator(_) => true,
        Entity::Library(_) => true,
        Entity::NullPointer => true,
        Entity::MutexInitializer => true,
    }
}

fn is_redefined(typing: &Typing, is_function: bool, number: u32) -> bool
    ensures { result ≡ spec.is_redefined typing.now.functions is_function (found_here typing.now.scopes number) }
{
    match typing.meaning_here(number) {
        None => false,
        Some(entity) => means_otherwise(typing, is_function, entity),
    }
}

/// A definition that makes no function: rule 2 at its name where that is declared as another kind, or as a function with a body; else rule 3.
#[tactic(auto, unfolding(type_rules::specs::Reading::and_then))]
fn not_defined(typing: &Typing, name: Span, number: u32, is_function: bool) -> Result<(), Stop>
    ensures { Gives (spec.not_defined name is_function (found_here typing.now.scopes number) typing.now) result typing.now }
{
    let place = name.start;
    if is_redefined(typing, is_function, number) {
        Err(Stop::Fault { number: 2, place })
    } else {
        Err(Stop::Fault { number: 3, place })
    }
}

/// A definition with `typedef`: rule 2 at its name where that is declared as something else, else rule 3.
#[tactic(auto, unfolding(type_rules::specs::Reading::and_then))]
fn typedef_defined(typing: &Typing, name: Span, number: u32, made: &Made) -> Result<(), Stop>
    ensures { Gives (spec.typedef_defined name made.now (found_here typing.now.scopes number) typing.now) result typing.now }
{
    let place = name.start;
    if is_other_type(typing, number, made.kind.get()) {
        Err(Stop::Fault { number: 2, place })
    } else {
        Err(Stop::Fault { number: 3, place })
    }
}

/// A copy of the parameters of the name's own list, where it has one. The one error is that no memory is left.
fn own_parameters(alloc: Global, made: &Made) -> Result<Option<Items<Parameter>>, AllocError>
    ensures { IfOk result (λ parameters. parameters ≡ made.now.parameters) }
{
    match &made.parameters {
        Some(parameters) => Ok(Some(copy_parameters(alloc, parameters.as_slice())?)),
        None => Ok(None),
    }
}

/// A name that is defined and has this type as a function type, if it is one.
fn defined_as(
    alloc: Global,
    typing: &mut Typing,
    name: Span,
    number: u32,
    said: &Specifiers,
    made: Made,
    kind: FnType,
    body: &[BlockItem],
) -> Result<(), Stop>
    ensures { Gives (spec.defined_as (named name number said.now made None) (Some kind) made.parameters (items body.now) (found_here typing.old.scopes number) typing.old) result typing.new }
{
    match own_parameters(alloc, &made)? {
        Some(parameters) => function_with_body(
            alloc,
            typing,
            name,
            number,
            said,
            made,
            kind,
            parameters.as_slice(),
            body,
        ),
        None => not_defined(typing, name, number, true),
    }
}

/// A name that is defined, without `typedef`.
fn defined_by(
    alloc: Global,
    typing: &mut Typing,
    name: Span,
    number: u32,
    said: &Specifiers,
    made: Made,
    body: &[BlockItem],
) -> Result<(), Stop>
    ensures { Gives (spec.defined_as (named name number said.now made None) (function_in made.kind) made.parameters (items body.now) (found_here typing.old.scopes number) typing.old) result typing.new }
{
    match function_copy(alloc, made.kind.get())? {
        Some(kind) => defined_as(alloc, typing, name, number, said, made, kind, body),
        None => not_defined(typing, name, number, false),
    }
}

/// A name that is defined.
#[tactic(auto, unfolding(type_rules::specs::Declarations::defined_name), using(type_recursion::proofs::Continued::then_rules))]
fn defined_name(
    alloc: Global,
    typing: &mut Typing,
    name: Span,
    number: u32,
    said: &Specifiers,
    made: Made,
    body: &[BlockItem],
) -> Result<(), Stop>
    ensures { Gives (spec.defined_name (items body.now) (named name number said.now made None) typing.old) result typing.new }
{
    if said.is_typedef {
        typedef_defined(typing, name, number, &made)
    } else {
        defined_by(alloc, typing, name, number, said, made, body)
    }
}

/// What a definition declares under a name.
#[tactic(auto, unfolding(crate::specs::Defining::defined_at), using(type_recursion::proofs::Continued::then_rules))]
fn defined_at(
    alloc: Global,
    typing: &mut Typing,
    said: &Specifiers,
    shape: Shape,
    body: &[BlockItem],
    name: Span,
) -> Result<(), Stop>
    ensures { Gives (defining.defined_at said.now shape body.now name typing.old) result typing.new }
{
    let made = made(alloc, typing.structures(), said, shape, name.start)?;
    let number = typing.name_number(name)?;
    defined_name(alloc, typing, name, number, said, made, body)
}

/// What a definition declares, if its declarator has a name.
fn defined(
    alloc: Global,
    typing: &mut Typing,
    said: &Specifiers,
    shape: Shape,
    body: &[BlockItem],
) -> Result<(), Stop>
    ensures { Gives (defining.defined said.now shape body.now typing.old) result typing.new }
{
    match shape.name {
        None => Ok(()),
        Some(name) => defined_at(alloc, typing, said, shape, body, name),
    }
}

/// The definition of a function (C17 6.9.1).
#[tactic(auto, using(crate::proofs::Parts::definition_rules))]
pub(crate) fn definition(
    alloc: Global,
    typing: &mut Typing,
    f: &FunctionDefinition,
) -> Result<(), Stop>
    ensures { Gives (spec.definition items f.now typing.old) result typing.new }
{
    let said = said_in(alloc, typing, f.specs.as_slice())?;
    let shape = declarator(alloc, typing, f.declarator.get())?;
    defined(alloc, typing, &said, shape, f.body.as_slice())
}
