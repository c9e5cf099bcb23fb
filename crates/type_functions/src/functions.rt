//! Declarations of functions at file scope, with their effects (C17 6.7; Clang's manual 'Function Effect Analysis').

ghost use Rattle.std.specs.Prelude.{◌≡◌, ◌&&◌, ◌||◌, OnOk, nat_eq, slice_get};
ghost use Rattle.std.specs.List.{list_any};
ghost use Rattle.scopes.specs.Scope.{found_here};
ghost use Rattle.type_functions.specs.Noted as parts;
ghost use Rattle.type_rules.specs.Functions as spec;
ghost use Rattle.type_rules.specs.Reading as reading;
ghost use Rattle.type_rules.specs.declared.notes.TypeWarning.TheVariants as warning;
ghost use Rattle.typing_state.specs.Answers.{Gives};
ghost use Rattle.typing_state.specs.declared.stop.Stop.TheVariants as stop;

use core_unit::{FunctionInfo, Name};
use eff_types::{Effects, FnType, Level, adds, equal_signatures};
use sqlite_items::at;
use std::alloc::{AllocError, Global};
use type_declarators::faults;
use type_rules::{Entity, FunctionDeclaration, TypeWarning};
use type_specifiers::{conflicts, union};
use typing_state::{Stop, Typing};

fn is_marked(marks: &[u32], number: u32) -> bool
    ensures { result ≡ list_any (nat_eq number) marks.now }
{
    marks.iter().any(|mark| number == *mark)
}

/// A marked function has the level `NonBlocking` in each of its declarations.
fn marked(marks: &[u32], number: u32, effects: Effects) -> Effects
    ensures { result ≡ spec.marked marks.now number effects }
{
    if is_marked(marks, number) {
        Effects {
            level: Level::NonBlocking,
            ..effects
        }
    } else {
        effects
    }
}

/// Adds a function to those before it, with these effects: its number, which is the next one.
#[tactic(auto, unfolding(type_rules::specs::Reading::and_then))]
fn first_noted(
    alloc: Global,
    typing: &mut Typing,
    declaration: FunctionDeclaration,
    effects: Effects,
) -> Result<u32, Stop>
    ensures { Gives (parts.first_noted declaration effects typing.old) result typing.new }
{
    let name = Name::from_bytes(alloc, typing.text(declaration.name))?;
    let number = typing.add_function(FunctionInfo {
        name,
        kind: FnType {
            result: declaration.kind.result,
            params: declaration.kind.params,
            effects,
        },
        noreturn: declaration.made.noreturn,
        internal: declaration.internal,
        place: declaration.name.start,
        body: None,
        frame_words: 0,
    })?;
    typing.declare(declaration.number, Entity::Function(number))?;
    Ok(number)
}

/// The fault of the first declaration of a function at its name: rule 3, 4, where its effects conflict, or 10.
fn first_faults(
    typing: &Typing,
    declaration: &FunctionDeclaration,
    effects: Effects,
) -> Result<(), Stop>
    ensures { Gives (parts.first_faults declaration.now effects typing.now) result typing.now }
{
    let conflicting = either(declaration.made.conflicting, conflicts(&[effects]));
    let incomplete = declaration.made.incomplete;
    let place = declaration.name.start;
    faults(
        typing,
        false,
        declaration.mistyped,
        conflicting,
        incomplete,
        place,
    )
}

/// The first declaration of a function: its number. Rules 3, 4 and 10 at its name.
fn first_declaration(
    alloc: Global,
    typing: &mut Typing,
    declaration: FunctionDeclaration,
) -> Result<u32, Stop>
    ensures { Gives (spec.first_declaration declaration typing.old) result typing.new }
{
    let Ok(number) = u32::try_from(typing.functions().len()) else {
        return Err(Stop::NoMemory);
    };
    let effects = marked(typing.marks(), number, declaration.kind.effects);
    match first_faults(typing, &declaration, effects) {
        Ok(()) => first_noted(alloc, typing, declaration, effects),
        Err(stop) => Err(stop),
    }
}

/// Warns of a level that the declarations before have and this one is below, if it is.
fn warn_of_level(typing: &mut Typing, level: Option<Level>, place: u32) -> Result<(), AllocError>
    ensures functions { OnOk result (typing.new.functions ≡ typing.old.functions) }
    ensures warned { OnOk result (reading.warned level (warning.Redeclaration place) typing.old ≡ reading.Good tt typing.new) }
{
    match level {
        Some(level) => typing.warn(TypeWarning::Redeclaration { place, level }),
        None => Ok(()),
    }
}

fn either(a: bool, b: bool) -> bool
    ensures { result ≡ (a || b) }
{
    a || b
}

fn both(a: bool, b: bool) -> bool
    ensures { result ≡ (a && b) }
{
    a && b
}

/// The fault of a further declaration at its name: rule 2, where it is a second definition, 3, where the type is another, 4, where the
/// effects of both conflict, and 10.
fn faults_beside(
    typing: &Typing,
    declaration: &FunctionDeclaration,
    function: &FunctionInfo,
    effects: Effects,
) -> Result<(), Stop>
    ensures { Gives (parts.faults_beside declaration.now effects function.now typing.now) result typing.now }
{
    let second = both(function.body.is_some(), declaration.has_body);
    let alike = equal_signatures(&function.kind, &declaration.kind);
    let mistyped = either(declaration.mistyped, !alike);
    let clashing = conflicts(&[function.kind.effects, effects]);
    let conflicting = either(declaration.made.conflicting, clashing);
    let incomplete = declaration.made.incomplete;
    let place = declaration.name.start;
    faults(typing, second, mistyped, conflicting, incomplete, place)
}

/// The same, beside the function of this number.
fn further_faults(
    typing: &Typing,
    declaration: &FunctionDeclaration,
    number: u32,
    effects: Effects,
) -> Result<(), Stop>
    ensures { Gives (parts.further_faults declaration.now effects (slice_get typing.now.functions number) typing.now) result typing.now }
{
    match at(typing.functions(), number as usize) {
        Some(function) => faults_beside(typing, declaration, function, effects),
        None => Err(redefined(declaration.name.start)),
    }
}

/// Adds to a function what a further declaration says: its number. The effects of all declarations come together, and a level below that
/// of the ones before is warned of.
#[tactic(auto, unfolding(type_rules::specs::Reading::and_then))]
fn further_noted(
    typing: &mut Typing,
    declaration: &FunctionDeclaration,
    number: u32,
    effects: Effects,
) -> Result<u32, Stop>
    ensures { Gives (parts.further_noted declaration.now number effects (slice_get typing.old.functions number) typing.old) result typing.new }
{
    let place = declaration.name.start;
    let Some(function) = at(typing.functions(), number as usize) else {
        return Err(redefined(place));
    };
    let before = function.kind.effects;
    let noreturn = either(function.noreturn, declaration.made.noreturn);
    let internal = either(function.internal, declaration.internal);
    warn_of_level(typing, adds(effects, before), place)?;
    typing.redeclare_function(number, union(&[before, effects]), noreturn, internal);
    Ok(number)
}

/// A further declaration of a function: its number. Rules 2, 3, 4 and 10 at its name.
fn further_declaration(
    typing: &mut Typing,
    declaration: &FunctionDeclaration,
    number: u32,
) -> Result<u32, Stop>
    ensures { Gives (spec.further_declaration declaration.now typing.old.marks number (slice_get typing.old.functions number) typing.old) result typing.new }
{
    let effects = marked(typing.marks(), number, declaration.kind.effects);
    match further_faults(typing, declaration, number, effects) {
        Ok(()) => further_noted(typing, declaration, number, effects),
        Err(stop) => Err(stop),
    }
}

fn redefined(place: u32) -> Stop
    ensures { result ≡ stop.Fault 2 place }
{
    Stop::Fault { number: 2, place }
}

/// A declaration of a function at file scope: its number. Rules 2, 3, 4 and 10 at its name.
#[tactic(auto, unfolding(type_rules::specs::Reading::and_then))]
pub fn function_declared(
    alloc: Global,
    typing: &mut Typing,
    declaration: FunctionDeclaration,
) -> Result<u32, Stop>
    ensures { Gives (spec.function_declared declaration (found_here typing.old.scopes declaration.number) typing.old) result typing.new }
{
    match typing.meaning_here(declaration.number) {
        None => first_declaration(alloc, typing, declaration),
        Some(Entity::Function(number)) => {
            let number = *number;
            further_declaration(typing, &declaration, number)
        }
        Some(Entity::Variable(_, _, _)) => Err(redefined(declaration.name.start)),
        Some(Entity::TypeName(_)) => Err(redefined(declaration.name.start)),
        Some(Entity::Enumerator(_)) => Err(redefined(declaration.name.start)),
        Some(Entity::Library(_)) => Err(redefined(declaration.name.start)),
        Some(Entity::NullPointer) => Err(redefined(declaration.name.start)),
        Some(Entity::MutexInitializer) => Err(redefined(declaration.name.start)),
    }
}
