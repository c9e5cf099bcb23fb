//! Block variables (C17 6.7 and 6.8.2).

ghost use Rattle.std.specs.Prelude.{◌≡◌, ◌∷◌, [], IfOk};
ghost use Rattle.core_unit.specs.declared.body.Stmt.TheVariants as stmt;
ghost use Rattle.type_declarations.specs.Declared.{named};
ghost use Rattle.type_rules.specs.Declarations as spec;
ghost use Rattle.type_rules.specs.Reading.{Good};
ghost use Rattle.typing_state.specs.Answers.{Gives};

use crate::bools::either;
use crate::kept::{array_completed, is_declared_here, kept_for, sized, statically_initialized};
use c_tree::{Init, Span};
use core_unit::{Initializer, LocalVariable, Stmt, Storage};
use eff_types::{CType, copy};
use sqlite_items::{Boxed, Items};
use std::alloc::{AllocError, Global};
use type_declarators::faults;
use type_initializers::initialized;
use type_operands::{is_incomplete, is_unsized, words_of};
use type_rules::{Duration, Entity, Made, Specifiers};
use typing_state::{Stop, Typing};

/// How long a variable of a block is kept: without `static` and `_Thread_local` it is automatic.
fn block_duration(said: &Specifiers) -> Duration
    ensures { result ≡ spec.block_duration said.now }
{
    if said.is_thread_local {
        Duration::ThreadLocal
    } else if said.is_static {
        Duration::Static
    } else {
        Duration::Automatic
    }
}

/// How many words a variable of a block has, where it may be declared. Of the rules that fail the lowest is answered.
#[tactic(auto, unfolding(type_rules::specs::Reading::and_then))]
fn block_words(
    typing: &Typing,
    name: Span,
    number: u32,
    made: &Made,
    kind: &CType,
) -> Result<u32, Stop>
    ensures { Gives (spec.block_words name number made.now kind.now typing.now) result typing.now }
{
    let redefined = is_declared_here(typing, number);
    let mistyped = either(either(made.mistyped, made.noreturn), kind.is_function());
    let incomplete = either(made.incomplete, is_incomplete(typing.structures(), kind));
    faults(
        typing,
        redefined,
        mistyped,
        made.conflicting,
        incomplete,
        name.start,
    )?;
    Ok(words_of(typing.structures(), kind))
}

/// Keeps a variable of a block, and declares its name. The one error is that no memory is left.
#[tactic(auto, unfolding(type_rules::specs::Reading::and_then))]
fn block_kept(
    alloc: Global,
    typing: &mut Typing,
    number: u32,
    duration: Duration,
    kind: &CType,
    words: u32,
) -> Result<Storage, AllocError>
    ensures { IfOk result (λ storage. spec.block_kept number duration kind.now words typing.old ≡ Good storage typing.new) }
{
    let storage = kept_for(typing, duration, words, None)?;
    let entity = Entity::Variable(copy(alloc, kind)?, storage, None);
    typing.declare(number, entity)?;
    Ok(storage)
}

/// The initializer of a variable of a block; that of one that isn't automatic is constant.
fn block_initializer(
    alloc: Global,
    typing: &mut Typing,
    duration: Duration,
    kind: &CType,
    initializer: &Option<Boxed<Init>>,
    storage: Storage,
    words: u32,
) -> Result<Boxed<Initializer>, Stop>
    ensures { Gives (spec.block_initializer duration kind.now initializer.now storage words typing.old) result typing.new }
{
    match initializer {
        None => Ok(Boxed::new(alloc, Initializer::Absent(words))?),
        Some(initializer) => match duration {
            Duration::Automatic => initialized(alloc, typing, false, initializer.get(), kind),
            Duration::Static => {
                statically_initialized(alloc, typing, kind, initializer.get(), storage)
            }
            Duration::ThreadLocal => {
                statically_initialized(alloc, typing, kind, initializer.get(), storage)
            }
        },
    }
}

/// The initializer of a variable of a block, behind which an array has its size.
#[tactic(auto, using(type_recursion::proofs::Continued::then_rules))]
fn block_initialized(
    alloc: Global,
    typing: &mut Typing,
    number: u32,
    duration: Duration,
    unsized_before: bool,
    kind: &CType,
    initializer: &Option<Boxed<Init>>,
    storage: Storage,
    words: u32,
) -> Result<Boxed<Initializer>, Stop>
    ensures { Gives (spec.block_initialized number duration unsized_before kind.now initializer.now storage words typing.old) result typing.new }
{
    let given = block_initializer(alloc, typing, duration, kind, initializer, storage, words)?;
    array_completed(alloc, typing, number, kind, unsized_before)?;
    Ok(given)
}

/// A list of this variable alone. The one error is that no memory is left.
fn variable_alone(
    alloc: Global,
    place: u32,
    storage: Storage,
    kind: Boxed<CType>,
    initializer: Boxed<Initializer>,
) -> Result<Items<Stmt>, AllocError>
    ensures { IfOk result (λ list. list ≡ stmt.Variable (record { place = place; storage = storage; kind = kind; initializer = initializer }) ∷ []) }
{
    let mut list = Items::new(alloc);
    list.push(Stmt::Variable(LocalVariable {
        place,
        storage,
        kind: kind.into_inner(),
        initializer: initializer.into_inner(),
    }))?;
    Ok(list)
}

/// A variable of a block (C17 6.7 and 6.8.2): one of a name in each block.
#[tactic(auto, unfolding(type_rules::specs::Declarations::block_name), using(type_recursion::proofs::Continued::then_rules))]
pub(crate) fn block_name(
    alloc: Global,
    typing: &mut Typing,
    name: Span,
    number: u32,
    said: &Specifiers,
    made: &Made,
    initializer: &Option<Boxed<Init>>,
) -> Result<Items<Stmt>, Stop>
    ensures { Gives (spec.block_name (named name number said.now made.now initializer.now) typing.old) result typing.new }
{
    let kind = sized(alloc, typing, initializer, made.kind.get())?;
    let words = block_words(typing, name, number, made, kind.get())?;
    let duration = block_duration(said);
    let storage = block_kept(alloc, typing, number, duration, made.kind.get(), words)?;
    let waits = is_unsized(made.kind.get());
    let given = block_initialized(
        alloc,
        typing,
        number,
        duration,
        waits,
        kind.get(),
        initializer,
        storage,
        words,
    )?;
    Ok(variable_alone(alloc, name.start, storage, kind, given)?)
}
