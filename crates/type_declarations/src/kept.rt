//! Where variables are kept, and what they hold at first (C17 6.2.4 and 6.7.9).

ghost use Rattle.std.specs.Prelude.{◌≡◌, IfOk, is_some, true};
ghost use Rattle.scopes.specs.Scope.{found_here};
ghost use Rattle.type_declarations.specs.Declared as kept;
ghost use Rattle.type_rules.specs.Declarations as spec;
ghost use Rattle.type_rules.specs.Reading.{Good};
ghost use Rattle.type_rules.specs.Storage as places;
ghost use Rattle.typing_state.specs.Answers.{Gives};

use c_tree::Init;
use core_unit::{Initializer, Storage};
use eff_types::{CType, copy};
use sqlite_items::Boxed;
use std::alloc::{AllocError, Global};
use type_initializers::{initial_size, initialized, initially};
use type_operands::{array_of, boxed_copy, element_of, is_unsized};
use type_rules::{Duration, Entity};
use typing_state::{Stop, Typing};

/// Where an object of so many words is kept (C17 6.2.4). The one error is that no memory is left.
#[tactic(auto, unfolding(type_rules::specs::Reading::and_then))]
pub(crate) fn kept_for(
    typing: &mut Typing,
    duration: Duration,
    words: u32,
    variable: Option<u32>,
) -> Result<Storage, AllocError>
    ensures { IfOk result (λ storage. places.kept_for duration words variable typing.old ≡ Good storage typing.new) }
{
    match duration {
        Duration::Automatic => Ok(Storage::Automatic(typing.allot_automatic(words))),
        Duration::Static => Ok(Storage::Static(typing.allot_static(words, variable)?)),
        Duration::ThreadLocal => Ok(Storage::ThreadLocal(typing.allot_thread_local(
            words, variable,
        )?)),
    }
}

/// An array of so many elements as its initializer tells (C17 6.7.9).
#[tactic(auto, unfolding(type_rules::specs::Reading::and_then))]
fn sized_by(
    alloc: Global,
    typing: &Typing,
    initializer: &Init,
    kind: &CType,
) -> Result<Boxed<CType>, Stop>
    ensures { Gives (spec.sized_by initializer.now kind.now true typing.now) result typing.now }
{
    let element = element_of(alloc, kind)?;
    let count = initial_size(alloc, typing, element.get(), initializer)?;
    Ok(array_of(alloc, element, count)?)
}

/// The type of a variable: of an array without a size, as its initializer tells it.
pub(crate) fn sized(
    alloc: Global,
    typing: &Typing,
    initializer: &Option<Boxed<Init>>,
    kind: &CType,
) -> Result<Boxed<CType>, Stop>
    ensures { Gives (spec.sized initializer.now kind.now typing.now) result typing.now }
{
    match initializer {
        Some(initializer) => {
            if is_unsized(kind) {
                sized_by(alloc, typing, initializer.get(), kind)
            } else {
                Ok(boxed_copy(alloc, kind)?)
            }
        }
        None => Ok(boxed_copy(alloc, kind)?),
    }
}

/// What an object of static storage holds at first, once its initializer is read.
#[tactic(auto, using(type_recursion::proofs::Continued::then_rules))]
pub(crate) fn statically_initialized(
    alloc: Global,
    typing: &mut Typing,
    kind: &CType,
    initializer: &Init,
    storage: Storage,
) -> Result<Boxed<Initializer>, Stop>
    ensures { Gives (kept.statically kind.now initializer.now storage typing.old) result typing.new }
{
    let given = initialized(alloc, typing, true, initializer, kind)?;
    initially(typing, storage, given.get())?;
    Ok(given)
}

/// Whether a name is declared in the innermost scope.
pub(crate) fn is_declared_here(typing: &Typing, number: u32) -> bool
    ensures { result ≡ is_some (found_here typing.now.scopes number) }
{
    match typing.meaning_here(number) {
        Some(_) => true,
        None => false,
    }
}

/// Where a variable is kept, and its number, if it has one.
fn variable_in(entity: &Entity) -> Option<(Storage, Option<u32>)>
    ensures { result ≡ kept.variable_in entity.now }
{
    match entity {
        Entity::Variable(_, storage, variable) => Some((*storage, *variable)),
        Entity::Function(_) => None,
        Entity::TypeName(_) => None,
        Entity::Enumerator(_) => None,
        Entity::Library(_) => None,
        Entity::NullPointer => None,
        Entity::MutexInitializer => None,
    }
}

/// The variable that a name is here: where it is kept, and its number, if it has one.
fn variable_here(typing: &Typing, number: u32) -> Option<(Storage, Option<u32>)>
    ensures { result ≡ kept.variable_of (found_here typing.now.scopes number) }
{
    match typing.meaning_here(number) {
        Some(entity) => variable_in(entity),
        None => None,
    }
}

/// The variable has this type from now on.
fn typed_again(
    alloc: Global,
    typing: &mut Typing,
    kind: &CType,
    number: u32,
    variable: Option<(Storage, Option<u32>)>,
) -> Result<(), Stop>
    ensures { Gives (kept.typed_again kind.now number variable typing.old) result typing.new }
{
    match variable {
        Some((storage, variable)) => {
            let kind = copy(alloc, kind)?;
            typing.declare(number, Entity::Variable(kind, storage, variable))?;
            Ok(())
        }
        None => Ok(()),
    }
}

/// An array without a size has it behind its initializer, and is incomplete before (C17 6.7.9).
#[tactic(auto, using(crate::proofs::Completed::completed_rules))]
pub(crate) fn array_completed(
    alloc: Global,
    typing: &mut Typing,
    number: u32,
    kind: &CType,
    unsized_before: bool,
) -> Result<(), Stop>
    ensures { Gives (spec.array_completed number kind.now unsized_before typing.old) result typing.new }
{
    if !unsized_before {
        return Ok(());
    }
    let variable = variable_here(typing, number);
    typed_again(alloc, typing, kind, number, variable)
}
