//! Variables of file scope (C17 6.7 and 6.9.2).

ghost use Rattle.std.specs.Prelude.{◌≡◌, IfOk, Some, slice_get};
ghost use Rattle.scopes.specs.Scope.{found_here};
ghost use Rattle.type_declarations.specs.Declared as kept;
ghost use Rattle.type_declarations.specs.Declared.{named};
ghost use Rattle.type_rules.specs.Declarations as spec;
ghost use Rattle.type_rules.specs.Reading.{Good};
ghost use Rattle.typing_state.specs.Answers.{Gives};

use crate::bools::{both, either};
use crate::kept::{array_completed, kept_for, sized};
use c_tree::{Init, Span};
use core_unit::{Name, Storage, VariableInfo};
use eff_types::{CType, copy, equal};
use sqlite_items::{Boxed, at};
use std::alloc::{AllocError, Global};
use type_declarators::faults;
use type_initializers::{initialized, initially};
use type_operands::{is_incomplete, is_unsized, words_of};
use type_rules::{Duration, Entity, Made, Specifiers};
use typing_state::{Stop, Typing};

/// How long a variable of file scope is kept: as long as the program runs, without `_Thread_local`.
fn file_duration(said: &Specifiers) -> Duration
    ensures { result ≡ spec.file_duration said.now }
{
    if said.is_thread_local {
        Duration::ThreadLocal
    } else {
        Duration::Static
    }
}

/// Notes a variable that wasn't declared before, which has so many words and this number: zero words, until an initializer says otherwise. The one
/// error is that no memory is left.
#[tactic(auto, unfolding(crate::specs::Declared::first_noted, type_rules::specs::Reading::and_then))]
fn first_noted(
    alloc: Global,
    typing: &mut Typing,
    name: Span,
    number: u32,
    said: &Specifiers,
    made: &Made,
    initialized: bool,
    kind: &CType,
    words: u32,
    variable: u32,
) -> Result<Storage, AllocError>
    ensures { IfOk result (λ storage. kept.first_noted name number said.now made.now initialized kind.now words variable typing.old ≡ Good storage typing.new) }
{
    let storage = kept_for(typing, file_duration(said), words, Some(variable))?;
    let text = Name::from_bytes(alloc, typing.text(name))?;
    typing.add_variable(VariableInfo {
        name: text,
        kind: copy(alloc, kind)?,
        internal: said.is_static,
        thread_local: said.is_thread_local,
        initialized,
    })?;
    let entity = Entity::Variable(copy(alloc, made.kind.get())?, storage, Some(variable));
    typing.declare(number, entity)?;
    Ok(storage)
}

/// The first declaration of a variable. Rules 3, 4 and 10 at its name.
#[tactic(auto, unfolding(crate::specs::Declared::first_noted, type_rules::specs::Reading::and_then))]
fn first_variable(
    alloc: Global,
    typing: &mut Typing,
    name: Span,
    number: u32,
    said: &Specifiers,
    made: &Made,
    initialized: bool,
    kind: &CType,
) -> Result<Storage, Stop>
    ensures { Gives (spec.first_variable name number said.now made.now initialized kind.now typing.old) result typing.new }
{
    let mistyped = either(made.mistyped, made.noreturn);
    let incomplete = either(made.incomplete, is_incomplete(typing.structures(), kind));
    let words = words_of(typing.structures(), kind);
    let Ok(variable) = u32::try_from(typing.variables().len()) else {
        return Err(Stop::NoMemory);
    };
    faults(
        typing,
        false,
        mistyped,
        made.conflicting,
        incomplete,
        name.start,
    )?;
    Ok(first_noted(
        alloc,
        typing,
        name,
        number,
        said,
        made,
        initialized,
        kind,
        words,
        variable,
    )?)
}

fn same_words(a: bool, b: bool) -> bool
    ensures { result ≡ spec.same_words a b }
{
    if a { b } else { !b }
}

/// The fault of a further declaration at its name: rule 2, where both have an initializer, 3, where the type is another or one alone is thread-local,
/// 4 and 10.
fn further_faults(
    typing: &Typing,
    name: Span,
    said: &Specifiers,
    made: &Made,
    initialized: bool,
    kind: &CType,
    before: &VariableInfo,
) -> Result<(), Stop>
    ensures { Gives (kept.further_faults name said.now made.now initialized kind.now before.now typing.now) result typing.now }
{
    let redefined = both(before.initialized, initialized);
    let other = !equal(&before.kind, kind);
    let otherwise_kept = !same_words(before.thread_local, said.is_thread_local);
    let mistyped = either(
        either(either(made.mistyped, made.noreturn), other),
        otherwise_kept,
    );
    faults(
        typing,
        redefined,
        mistyped,
        made.conflicting,
        made.incomplete,
        name.start,
    )
}

/// A further declaration of a variable: of the same type, thread-local where the first is, at most one with an initializer.
#[tactic(auto, unfolding(type_rules::specs::Reading::and_then))]
fn further_variable(
    typing: &mut Typing,
    name: Span,
    said: &Specifiers,
    made: &Made,
    initialized: bool,
    kind: &CType,
    number: u32,
    storage: Storage,
) -> Result<Storage, Stop>
    ensures { Gives (spec.further_variable name said.now made.now initialized kind.now number storage (slice_get typing.old.variables number) typing.old) result typing.new }
{
    let Some(before) = at(typing.variables(), number as usize) else {
        return Err(Stop::Fault {
            number: 2,
            place: name.start,
        });
    };
    let internal = either(before.internal, said.is_static);
    let known = either(before.initialized, initialized);
    further_faults(typing, name, said, made, initialized, kind, before)?;
    typing.redeclare_variable(number, internal, known);
    Ok(storage)
}

fn with_number(storage: Storage, number: Option<u32>) -> Option<(Storage, u32)>
    ensures { result ≡ kept.with_number storage number }
{
    match number {
        Some(number) => Some((storage, number)),
        None => None,
    }
}

/// Where a variable of file scope is kept, and its number, if the name is one.
fn file_place(entity: &Entity) -> Option<(Storage, u32)>
    ensures { result ≡ kept.file_place entity.now }
{
    match entity {
        Entity::Variable(_, storage, variable) => with_number(*storage, *variable),
        Entity::Function(_) => None,
        Entity::TypeName(_) => None,
        Entity::Enumerator(_) => None,
        Entity::Library(_) => None,
        Entity::NullPointer => None,
        Entity::MutexInitializer => None,
    }
}

/// A name that is declared already is declared again, as the variable that it is. Rule 2 at a name that isn't a variable's.
fn declared_again(
    typing: &mut Typing,
    name: Span,
    said: &Specifiers,
    made: &Made,
    initialized: bool,
    kind: &CType,
    variable: Option<(Storage, u32)>,
) -> Result<Storage, Stop>
    ensures { Gives (kept.declared_again name said.now made.now initialized kind.now variable typing.old) result typing.new }
{
    match variable {
        Some((storage, number)) => {
            further_variable(typing, name, said, made, initialized, kind, number, storage)
        }
        None => Err(Stop::Fault {
            number: 2,
            place: name.start,
        }),
    }
}

/// Where the variable that a name declares is kept. Rule 2 at a name that isn't a variable's.
#[tactic(auto, using(crate::proofs::Further::further_rules))]
fn file_variable(
    alloc: Global,
    typing: &mut Typing,
    name: Span,
    number: u32,
    said: &Specifiers,
    made: &Made,
    initialized: bool,
    kind: &CType,
) -> Result<Storage, Stop>
    ensures { Gives (spec.file_variable name number said.now made.now initialized kind.now (found_here typing.old.scopes number) typing.old) result typing.new }
{
    match typing.meaning_here(number) {
        None => first_variable(alloc, typing, name, number, said, made, initialized, kind),
        Some(entity) => {
            let variable = file_place(entity);
            declared_again(typing, name, said, made, initialized, kind, variable)
        }
    }
}

/// What an object of static storage holds at first is constant.
#[tactic(auto, using(type_recursion::proofs::Continued::then_rules))]
fn statically(
    alloc: Global,
    typing: &mut Typing,
    initializer: &Option<Boxed<Init>>,
    kind: &CType,
    storage: Storage,
) -> Result<(), Stop>
    ensures { Gives (spec.statically initializer.now kind.now storage typing.old) result typing.new }
{
    match initializer {
        None => Ok(()),
        Some(initializer) => {
            let given = initialized(alloc, typing, true, initializer.get(), kind)?;
            Ok(initially(typing, storage, given.get())?)
        }
    }
}

/// A variable of file scope.
#[tactic(auto, unfolding(type_rules::specs::Declarations::variable_named), using(type_recursion::proofs::Continued::then_rules))]
pub(crate) fn variable_named(
    alloc: Global,
    typing: &mut Typing,
    name: Span,
    number: u32,
    said: &Specifiers,
    made: &Made,
    initializer: &Option<Boxed<Init>>,
) -> Result<(), Stop>
    ensures { Gives (spec.variable_named (named name number said.now made.now initializer.now) (found_here typing.old.scopes number) typing.old) result typing.new }
{
    let kind = sized(alloc, typing, initializer, made.kind.get())?;
    let given = initializer.is_some();
    let storage = file_variable(alloc, typing, name, number, said, made, given, kind.get())?;
    statically(alloc, typing, initializer, kind.get(), storage)?;
    let waits = is_unsized(made.kind.get());
    array_completed(alloc, typing, number, kind.get(), waits)
}
