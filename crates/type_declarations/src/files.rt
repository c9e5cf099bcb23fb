//! Names at file scope: typedefs, functions and variables (C17 6.7 and 6.9).

ghost use Rattle.std.specs.Prelude.{◌≡◌, [], IfOk, Some};
ghost use Rattle.core_unit.specs.Shapes.{function_in};
ghost use Rattle.scopes.specs.Scope.{found_here};
ghost use Rattle.type_declarations.specs.Declared.{named};
ghost use Rattle.type_rules.specs.Declarations as spec;
ghost use Rattle.typing_state.specs.Answers.{Gives};

use crate::bools::either;
use crate::variables::variable_named;
use c_tree::{Init, Span};
use core_unit::Stmt;
use eff_types::{CType, FnType, copy, equal};
use sqlite_items::{Boxed, Items};
use std::alloc::{AllocError, Global};
use type_declarators::faults;
use type_functions::function_declared;
use type_initializers::init_place;
use type_operands::{copy_function, is_unsized};
use type_rules::{Entity, FunctionDeclaration, Made, Specifiers};
use typing_state::{Stop, Typing};

fn means_otherwise(entity: &Entity, kind: &CType) -> bool
    ensures { result ≡ spec.is_other_type (Some entity.now) kind.now }
{
    match entity {
        Entity::TypeName(before) => !equal(before, kind),
        Entity::Variable(_, _, _) => true,
        Entity::Function(_) => true,
        Entity::Enumerator(_) => true,
        Entity::Library(_) => true,
        Entity::NullPointer => true,
        Entity::MutexInitializer => true,
    }
}

/// Whether a name means something else here than a typedef of this type.
pub fn is_other_type(typing: &Typing, number: u32, kind: &CType) -> bool
    ensures { result ≡ spec.is_other_type (found_here typing.now.scopes number) kind.now }
{
    match typing.meaning_here(number) {
        None => false,
        Some(entity) => means_otherwise(entity, kind),
    }
}

/// A typedef and a function have no initializer: rule 9 at one, which isn't read.
fn no_initializer(typing: &Typing, initializer: &Option<Boxed<Init>>) -> Result<(), Stop>
    ensures { Gives (spec.no_initializer initializer.now typing.now) result typing.now }
{
    match initializer {
        None => Ok(()),
        Some(initializer) => Err(Stop::Fault {
            number: 9,
            place: init_place(initializer.get()),
        }),
    }
}

/// A typedef (C17 6.7.8). Rules 2, 3, 4 and 10 at its name.
#[tactic(auto, unfolding(type_rules::specs::Declarations::typedef_declared), using(type_recursion::proofs::Continued::then_rules))]
fn typedef_declared(
    alloc: Global,
    typing: &mut Typing,
    name: Span,
    number: u32,
    said: &Specifiers,
    made: &Made,
    initializer: &Option<Boxed<Init>>,
) -> Result<(), Stop>
    ensures { Gives (spec.typedef_declared (named name number said.now made.now initializer.now) (found_here typing.old.scopes number) typing.old) result typing.new }
{
    let other = is_other_type(typing, number, made.kind.get());
    let mistyped = either(either(made.mistyped, made.noreturn), said.is_thread_local);
    let incomplete = either(made.incomplete, is_unsized(made.kind.get()));
    faults(
        typing,
        other,
        mistyped,
        made.conflicting,
        incomplete,
        name.start,
    )?;
    typing.declare(number, Entity::TypeName(copy(alloc, made.kind.get())?))?;
    no_initializer(typing, initializer)
}

/// A function, as one declaration has it.
pub fn function_of(
    name: Span,
    number: u32,
    said: &Specifiers,
    made: Made,
    kind: FnType,
    has_body: bool,
) -> FunctionDeclaration
    ensures { result ≡ spec.function_of name number said.now made kind has_body }
{
    let mistyped = either(made.mistyped, said.is_thread_local);
    FunctionDeclaration {
        name,
        number,
        made,
        kind,
        internal: said.is_static,
        has_body,
        mistyped,
    }
}

/// A function that is declared.
#[tactic(auto, unfolding(type_rules::specs::Declarations::function_named), using(type_recursion::proofs::Continued::then_rules))]
fn function_named(
    alloc: Global,
    typing: &mut Typing,
    name: Span,
    number: u32,
    said: &Specifiers,
    made: Made,
    kind: FnType,
    initializer: &Option<Boxed<Init>>,
) -> Result<(), Stop>
    ensures { Gives (spec.function_named (named name number said.now made initializer.now) kind (found_here typing.old.scopes number) typing.old) result typing.new }
{
    let declaration = function_of(name, number, said, made, kind, false);
    function_declared(alloc, typing, declaration)?;
    no_initializer(typing, initializer)
}

/// A copy of the type as a function type, if it is one. The one error is that no memory is left.
#[tactic(auto, using(core_unit::proofs::Callees::callee_rules))]
pub fn function_copy(alloc: Global, kind: &CType) -> Result<Option<FnType>, AllocError>
    ensures { IfOk result (λ f. f ≡ function_in kind.now) }
{
    match kind {
        CType::Function(function) => Ok(Some(copy_function(alloc, function)?)),
        CType::Pointer(_) => Ok(None),
        CType::Array(_, _) => Ok(None),
        CType::Void => Ok(None),
        CType::Char => Ok(None),
        CType::Int => Ok(None),
        CType::Unsigned => Ok(None),
        CType::Mutex => Ok(None),
        CType::Struct(_) => Ok(None),
    }
}

/// A name at file scope that isn't a typedef name: a function or a variable.
fn object_named(
    alloc: Global,
    typing: &mut Typing,
    name: Span,
    number: u32,
    said: &Specifiers,
    made: Made,
    initializer: &Option<Boxed<Init>>,
) -> Result<(), Stop>
    ensures { Gives (spec.name_declared (named name number said.now made initializer.now) (function_in made.kind) (found_here typing.old.scopes number) typing.old) result typing.new }
{
    match function_copy(alloc, made.kind.get())? {
        Some(kind) => function_named(alloc, typing, name, number, said, made, kind, initializer),
        None => variable_named(alloc, typing, name, number, said, &made, initializer),
    }
}

/// A name at file scope: a typedef name, a function or a variable.
#[tactic(auto, unfolding(type_rules::specs::Reading::and_then))]
fn name_of_file(
    alloc: Global,
    typing: &mut Typing,
    name: Span,
    number: u32,
    said: &Specifiers,
    made: Made,
    initializer: &Option<Boxed<Init>>,
) -> Result<(), Stop>
    ensures { Gives (spec.file_name (named name number said.now made initializer.now) typing.old) result typing.new }
{
    if said.is_typedef {
        typedef_declared(alloc, typing, name, number, said, &made, initializer)
    } else {
        object_named(alloc, typing, name, number, said, made, initializer)
    }
}

/// A name at file scope, which gives no statement.
#[tactic(auto, using(type_recursion::proofs::Continued::then_rules))]
pub(crate) fn file_name(
    alloc: Global,
    typing: &mut Typing,
    name: Span,
    number: u32,
    said: &Specifiers,
    made: Made,
    initializer: &Option<Boxed<Init>>,
) -> Result<Items<Stmt>, Stop>
    ensures { Gives (spec.without_statements (λ d. spec.file_name d) (named name number said.now made initializer.now) typing.old) result typing.new }
{
    name_of_file(alloc, typing, name, number, said, made, initializer)?;
    Ok(Items::new(alloc))
}
