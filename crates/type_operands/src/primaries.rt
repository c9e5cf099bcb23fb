//! Names, and what stands in parentheses (C17 6.5.1).

ghost use Rattle.std.specs.Prelude.{◌≡◌, IfOk, Some, None};
ghost use Rattle.std.specs.Option.{option_copied};
ghost use Rattle.eff_types.specs.declared.types.CType.TheVariants as a_type;
ghost use Rattle.core_unit.specs.Shapes as shapes;
ghost use Rattle.core_unit.specs.declared.expressions.Expr.TheVariants as expr;
ghost use Rattle.core_unit.specs.declared.expressions.Place.TheVariants as object;
ghost use Rattle.type_rules.specs.Functions as functions;
ghost use Rattle.type_rules.specs.Operands as operands;
ghost use Rattle.type_rules.specs.Primaries as spec;
ghost use Rattle.type_rules.specs.Reading.{Good};
ghost use Rattle.type_rules.specs.declared.names.Entity.TheVariants as entity;
ghost use Rattle.typing_state.specs.Answers.{Gives};

use crate::copies::{boxed_copy, copy_function};
use crate::shapes::pointer_to;
use crate::values::{found_object, found_value};
use c_tree::Span;
use core_unit::{Expr, Place, Sign, Storage};
use eff_types::{CType, Effects, FnType, copy};
use sqlite_items::{Boxed, at};
use std::alloc::{AllocError, Global};
use type_rules::{Entity, Found};
use typing_state::{Stop, Typing};

/// A function type with the effects that are known, where they are.
fn with_known_effects(
    alloc: Global,
    kind: &FnType,
    known: Option<Effects>,
) -> Result<Boxed<CType>, AllocError>
    ensures { IfOk result (λ t. t ≡ a_type.Function (functions.effects_at known kind.now)) }
{
    let mut kind = copy_function(alloc, kind)?;
    match known {
        Some(effects) => {
            kind.effects = effects;
            Boxed::new(alloc, CType::Function(kind))
        }
        None => Boxed::new(alloc, CType::Function(kind)),
    }
}

/// The type of the name of a function: with its effects in the whole unit, where they are known, and else with those of the declarations
/// before. The one error is that no memory is left.
#[tactic(auto, unfolding(type_rules::specs::Functions::function_type))]
pub fn function_type(
    alloc: Global,
    typing: &Typing,
    number: u32,
) -> Result<Boxed<CType>, AllocError>
    ensures { IfOk result (λ t. functions.function_type number typing.now ≡ Good t typing.now) }
{
    match at(typing.functions(), number as usize) {
        Some(function) => {
            with_known_effects(alloc, &function.kind, typing.whole_effects(number))
        }
        None => Boxed::new(alloc, CType::Void),
    }
}

fn variable_found(
    alloc: Global,
    place: u32,
    kind: &CType,
    storage: Storage,
) -> Result<Found, AllocError>
    ensures { IfOk result (λ f. f ≡ operands.found_object place kind.now (object.Variable place storage kind.now)) }
{
    let object = Place::Variable(place, storage, copy(alloc, kind)?);
    found_object(alloc, place, boxed_copy(alloc, kind)?, object)
}

#[tactic(auto, unfolding(type_rules::specs::Reading::and_then))]
fn function_found(
    alloc: Global,
    typing: &Typing,
    called: bool,
    place: u32,
    number: u32,
) -> Result<Found, AllocError>
    ensures { IfOk result (λ f. spec.named called place (Some (entity.Function number)) typing.now ≡ Good f typing.now) }
{
    let kind = function_type(alloc, typing, number)?;
    let node = Expr::Function(number, copy(alloc, kind.get())?);
    found_value(alloc, place, kind, node)
}

/// A value of a type without parts.
fn plain_found(alloc: Global, place: u32, kind: CType, node: Expr) -> Result<Found, AllocError>
    ensures { IfOk result (λ f. f ≡ operands.found_value place kind node) }
{
    let kind = Boxed::new(alloc, kind)?;
    found_value(alloc, place, kind, node)
}

fn null_found(alloc: Global, place: u32) -> Result<Found, AllocError>
    ensures { IfOk result (λ f. f ≡ operands.found_value place (shapes.pointer_to CType.Void) expr.Null) }
{
    let void = Boxed::new(alloc, CType::Void)?;
    found_value(alloc, place, pointer_to(alloc, void)?, Expr::Null)
}

/// A function of the library, which is nothing else than called (this project's own rule).
fn library_found(
    alloc: Global,
    typing: &Typing,
    called: bool,
    place: u32,
    row: u32,
) -> Result<Found, Stop>
    ensures { Gives (spec.named called place (Some (entity.Library row)) typing.now) result typing.now }
{
    if called {
        Ok(plain_found(alloc, place, CType::Void, Expr::LibraryFunction(row))?)
    } else {
        Err(Stop::Fault { number: 11, place })
    }
}

/// What a declared name stands for at a place.
fn named(
    alloc: Global,
    typing: &Typing,
    called: bool,
    place: u32,
    entity: &Entity,
) -> Result<Found, Stop>
    ensures { Gives (spec.named called place (Some entity.now) typing.now) result typing.now }
{
    match entity {
        Entity::Variable(kind, storage, _) => Ok(variable_found(alloc, place, kind, *storage)?),
        Entity::Function(number) => Ok(function_found(alloc, typing, called, place, *number)?),
        Entity::TypeName(_) => Err(Stop::Fault { number: 1, place }),
        Entity::Enumerator(bits) => {
            let node = Expr::Number(Sign::Signed, *bits);
            Ok(plain_found(alloc, place, CType::Int, node)?)
        }
        Entity::Library(row) => library_found(alloc, typing, called, place, *row),
        Entity::NullPointer => Ok(null_found(alloc, place)?),
        Entity::MutexInitializer => Err(Stop::Fault { number: 9, place }),
    }
}

/// A name. `called`: it is what a call calls, parentheses aside. Rule 1 where it is undeclared or names a type; rule 11 at a library
/// function that isn't called; rule 9 at `PTHREAD_MUTEX_INITIALIZER`, which is no expression.
#[tactic(auto, unfolding(type_rules::specs::Primaries::name, type_rules::specs::Reading::and_then))]
pub fn name(alloc: Global, typing: &mut Typing, called: bool, at: Span) -> Result<Found, Stop>
    ensures { Gives (spec.name called at typing.old) result typing.new }
{
    let number = typing.name_number(at)?;
    let place = at.start;
    match typing.meaning(number) {
        Some(entity) => named(alloc, typing, called, place, entity),
        None => Err(Stop::Fault { number: 1, place }),
    }
}

/// An expression in parentheses, whose first token is the `(`.
pub fn in_parentheses(place: u32, found: Found) -> Found
    ensures { result ≡ record found { place = place } }
{
    Found {
        place,
        kind: found.kind,
        form: found.form,
    }
}
