//! What the specifiers of a declaration say, one by one (C17 6.7).

ghost use Rattle.std.specs.Prelude.{◌≡◌, IfOk};
ghost use Rattle.scopes.specs.Scope.{found};
ghost use Rattle.type_rules.specs.Specifiers as spec;
ghost use Rattle.typing_state.specs.Answers.{Gives};
ghost use Rattle.typing_state.specs.declared.stop.Stop.TheVariants as stop;

use crate::attributes::copy_attribute;
use c_tree::{Attr, FunctionWord, Span, StorageWord, TypeWord};
use eff_types::{CType, copy};
use sqlite_items::{Boxed, Items};
use std::alloc::{AllocError, Global};
use type_operands::boxed_copy;
use type_rules::{Entity, Specifiers};
use typing_state::{Stop, Typing};

/// No specifier was read.
pub fn no_specifiers(alloc: Global) -> Specifiers
    ensures { result ≡ spec.no_specifiers }
{
    Specifiers {
        is_typedef: false,
        is_static: false,
        is_thread_local: false,
        is_noreturn: false,
        kind: None,
        attributes: Items::new(alloc),
    }
}

/// With a storage-class specifier (C17 6.7.1). `extern` makes no difference.
pub fn with_storage(word: StorageWord, specifiers: Specifiers) -> Specifiers
    ensures { result ≡ spec.with_storage word specifiers }
{
    match word {
        StorageWord::Typedef => Specifiers {
            is_typedef: true,
            ..specifiers
        },
        StorageWord::Static => Specifiers {
            is_static: true,
            ..specifiers
        },
        StorageWord::ThreadLocal => Specifiers {
            is_thread_local: true,
            ..specifiers
        },
        StorageWord::Extern => specifiers,
    }
}

/// With a function specifier (C17 6.7.4). `inline` makes no difference.
pub fn with_function_word(word: FunctionWord, specifiers: Specifiers) -> Specifiers
    ensures { result ≡ spec.with_function_word word specifiers }
{
    match word {
        FunctionWord::NoReturn => Specifiers {
            is_noreturn: true,
            ..specifiers
        },
        FunctionWord::Inline => specifiers,
    }
}

/// With a type. The one error is that no memory is left.
pub fn with_type(
    alloc: Global,
    kind: CType,
    specifiers: Specifiers,
) -> Result<Specifiers, AllocError>
    ensures { IfOk result (λ b. b ≡ spec.with_type kind specifiers) }
{
    let mut specifiers = specifiers;
    specifiers.kind = Some(Boxed::new(alloc, kind)?);
    Ok(specifiers)
}

/// With `int` or `signed`, which leave another type word as it is.
#[tactic(auto, using(crate::proofs::Words::plain_words))]
fn with_plain_word(alloc: Global, specifiers: Specifiers) -> Result<Specifiers, AllocError>
    ensures { IfOk result (λ b. b ≡ record specifiers { kind = Some (spec.or_int specifiers.kind) }) }
{
    match specifiers.kind {
        Some(_) => Ok(specifiers),
        None => with_type(alloc, CType::Int, specifiers),
    }
}

/// With one type word more (C17 6.7.2), in any order. The one error is that no memory is left.
#[tactic(auto, using(crate::proofs::Words::plain_words))]
pub fn with_type_word(
    alloc: Global,
    word: TypeWord,
    specifiers: Specifiers,
) -> Result<Specifiers, AllocError>
    ensures { IfOk result (λ b. b ≡ spec.with_type_word word specifiers) }
{
    match word {
        TypeWord::Void => with_type(alloc, CType::Void, specifiers),
        TypeWord::Char => with_type(alloc, CType::Char, specifiers),
        TypeWord::Unsigned => with_type(alloc, CType::Unsigned, specifiers),
        TypeWord::Int => with_plain_word(alloc, specifiers),
        TypeWord::Signed => with_plain_word(alloc, specifiers),
    }
}

/// With an attribute, behind those before it. The one error is that no memory is left.
pub fn with_attribute(
    alloc: Global,
    attribute: &Attr,
    specifiers: Specifiers,
) -> Result<Specifiers, AllocError>
    ensures { IfOk result (λ b. b ≡ spec.with_attribute attribute.now specifiers) }
{
    let mut specifiers = specifiers;
    specifiers
        .attributes
        .push(copy_attribute(alloc, attribute)?)?;
    Ok(specifiers)
}

/// A copy of the type that the specifiers say. The one error is that no memory is left.
pub fn base_type(alloc: Global, specifiers: &Specifiers) -> Result<Boxed<CType>, AllocError>
    ensures { IfOk result (λ t. t ≡ spec.base_type specifiers.now) }
{
    match &specifiers.kind {
        Some(kind) => boxed_copy(alloc, kind.get()),
        None => Boxed::new(alloc, CType::Int),
    }
}

fn no_type(place: u32) -> Stop
    ensures { result ≡ stop.Fault 1 place }
{
    Stop::Fault { number: 1, place }
}

/// The type that a typedef name was given (C17 6.7.8). Rule 1 at the name, where it is none.
fn named_type(alloc: Global, typing: &Typing, number: u32, place: u32) -> Result<CType, Stop>
    ensures { Gives (spec.named_type (found typing.now.scopes number) place typing.now) result typing.now }
{
    match typing.meaning(number) {
        Some(Entity::TypeName(kind)) => Ok(copy(alloc, kind)?),
        Some(Entity::Variable(_, _, _)) => Err(no_type(place)),
        Some(Entity::Function(_)) => Err(no_type(place)),
        Some(Entity::Enumerator(_)) => Err(no_type(place)),
        Some(Entity::Library(_)) => Err(no_type(place)),
        Some(Entity::NullPointer) => Err(no_type(place)),
        Some(Entity::MutexInitializer) => Err(no_type(place)),
        None => Err(no_type(place)),
    }
}

/// With a typedef name's type. Rule 1 at the name, where it is no typedef name.
#[tactic(auto, unfolding(type_rules::specs::Specifiers::typedef_name, type_rules::specs::Reading::and_then))]
pub fn typedef_name(
    alloc: Global,
    typing: &mut Typing,
    name: Span,
    specifiers: Specifiers,
) -> Result<Specifiers, Stop>
    ensures { Gives (spec.typedef_name name specifiers typing.old) result typing.new }
{
    let number = typing.name_number(name)?;
    let kind = named_type(alloc, typing, number, name.start)?;
    Ok(with_type(alloc, kind, specifiers)?)
}
