//! What specifiers and a declarator make of a name together (C17 6.7.6), and the faults at it.

ghost use Rattle.std.specs.Prelude.{◌≡◌, IfOk};
ghost use Rattle.type_rules.specs.Declarators as spec;
ghost use Rattle.type_rules.specs.Types as types;
ghost use Rattle.typing_state.specs.Answers.{Gives};

use crate::parts::{build, either, is_inner_noreturn, is_own_noreturn};
use core_unit::StructInfo;
use eff_types::Effects;
use sqlite_items::Items;
use std::alloc::{AllocError, Global};
use type_rules::{Made, Parameter, Part, Shape, Specifiers};
use type_specifiers::{
    attributed, base_type, conflicts_with, effects_in, outermost_effects, says_noreturn,
};
use typing_state::{Stop, Typing};

/// Whether the name is said not to return, by its specifiers or on its own parameter list.
fn all_noreturn(specifiers: &Specifiers, declarator: &Shape) -> bool
    ensures { result ≡ spec.all_noreturn specifiers.now declarator.now }
{
    let before = either(
        specifiers.is_noreturn,
        says_noreturn(specifiers.attributes.as_slice()),
    );
    either(before, is_own_noreturn(declarator.parts.as_slice()))
}

/// Whether effects are asked of a type that has no function type.
fn lacks_function(more: &[Effects], own: Option<Effects>) -> bool
    ensures { result ≡ types.lacks_function more.now own }
{
    match more {
        [] => false,
        [_, ..] => own.is_none(),
    }
}

fn part_parameters(part: Part) -> Option<Items<Parameter>>
    ensures { result ≡ spec.part_parameters part }
{
    match part {
        Part::FunctionOf(parameters, _) => Some(parameters),
        Part::PointerTo => None,
        Part::ArrayOf(_) => None,
    }
}

/// The parameters of the name's own list, where the declarator makes the name a function by one.
#[tactic(auto, using(crate::proofs::FirstPart::parameters_by_part))]
fn own_parameters(parts: Items<Part>) -> Option<Items<Parameter>>
    ensures { result ≡ spec.own_parameters parts }
{
    if parts.len() == 0 {
        return None;
    }
    let mut parts = parts;
    part_parameters(parts.remove(0))
}

/// What specifiers and a declarator make of a name, whose faults are named at `place`. The one error is that no memory is left.
#[tactic(auto, unfolding(type_rules::specs::Declarators::made))]
pub fn made(
    alloc: Global,
    structures: &[StructInfo],
    specifiers: &Specifiers,
    declarator: Shape,
    place: u32,
) -> Result<Made, AllocError>
    ensures { IfOk result (λ m. m ≡ spec.made structures.now specifiers.now declarator place) }
{
    let base = base_type(alloc, specifiers)?;
    let more = effects_in(alloc, specifiers.attributes.as_slice())?;
    let noreturn = all_noreturn(specifiers, &declarator);
    let inner_noreturn = is_inner_noreturn(declarator.parts.as_slice());
    let built = build(alloc, structures, base, declarator.parts.as_slice())?;
    let own = outermost_effects(built.kind.get());
    let lacking = lacks_function(more.as_slice(), own);
    let clashing = conflicts_with(more.as_slice(), own);
    let kind = attributed(alloc, more.as_slice(), built.kind)?;
    Ok(Made {
        place,
        kind,
        noreturn,
        parameters: own_parameters(declarator.parts),
        mistyped: either(either(built.misplaced, lacking), inner_noreturn),
        conflicting: either(built.conflicting, clashing),
        incomplete: built.incomplete,
    })
}

/// The fault at a declared name: of the rules that fail there the one with the lowest number, 2 for a redefinition, 3 for a type
/// mismatch, 4 for conflicting effects and 10 for an incomplete type (this project's own rule).
#[tactic(auto, unfolding(type_rules::specs::Reading::and_then))]
pub fn faults(
    typing: &Typing,
    redefined: bool,
    mistyped: bool,
    conflicting: bool,
    incomplete: bool,
    place: u32,
) -> Result<(), Stop>
    ensures { Gives (spec.faults redefined mistyped conflicting incomplete place typing.now) result typing.now }
{
    if redefined {
        return Err(Stop::Fault { number: 2, place });
    }
    if mistyped {
        return Err(Stop::Fault { number: 3, place });
    }
    if conflicting {
        return Err(Stop::Fault { number: 4, place });
    }
    if incomplete {
        return Err(Stop::Fault { number: 10, place });
    }
    Ok(())
}
