//! The effects that several declarations or attributes come to, and types with further effects (Clang's manual 'Function Effect
//! Analysis').

ghost use Rattle.std.specs.Prelude.{◌≡◌, ◌∷◌, IfOk};
ghost use Rattle.eff_types.specs.Effects as effects;
ghost use Rattle.type_rules.specs.Types as spec;

use crate::attributes::PLAIN;
use eff_types::{CType, Effects, FnType, law_of_conflicts};
use sqlite_items::Boxed;
use std::alloc::{AllocError, Global};
use type_operands::copy_function;

#[tactic(auto, unfolding(eff_types::specs::Effects::union))]
fn joined(a: Effects, b: Effects) -> Effects
    ensures { result ≡ effects.joined a b }
{
    Effects {
        level: a.level.max(b.level),
        no_block_inference: a.no_block_inference || b.no_block_inference,
        no_alloc_inference: a.no_alloc_inference || b.no_alloc_inference,
    }
}

/// The union of these effects and further ones.
pub fn union_with(first: Effects, more: &[Effects]) -> Effects
    ensures { result ≡ effects.union (first ∷ more.now) }
{
    let mut union = first;
    'each: for effects in more {
        union = joined(union, *effects);
    }
    union
}

/// The union of effects: the greatest level, and each flag that any of them sets.
#[tactic(auto, using(crate::proofs::Unions::union_of_plain))]
pub fn union(all: &[Effects]) -> Effects
    ensures { result ≡ effects.union all.now }
{
    union_with(PLAIN, all)
}

/// Whether the flags of one forbid the level that one of them asks for.
pub fn conflicts(all: &[Effects]) -> bool
    ensures { result ≡ effects.conflict all.now }
{
    law_of_conflicts();
    let union = union(all);
    union.forbids(union.level)
}

/// Whether the effects of a function type conflict with further ones; where there is no function type, nothing conflicts.
pub fn conflicts_with(more: &[Effects], own: Option<Effects>) -> bool
    ensures { result ≡ spec.conflicts_with more.now own }
{
    law_of_conflicts();
    match own {
        Some(own) => {
            let union = union_with(own, more);
            union.forbids(union.level)
        }
        None => false,
    }
}

/// The effects of the outermost function type, met through pointers and arrays; None where there is none.
#[tactic(auto, using(crate::proofs::KindEffects::outermost))]
pub fn outermost_effects(kind: &CType) -> Option<Effects>
    ensures { result ≡ spec.outermost_effects kind.now }
{
    match kind {
        CType::Pointer(target) => outermost_effects(target.get()),
        CType::Array(element, _) => outermost_effects(element.get()),
        CType::Function(function) => Some(function.effects),
        CType::Void => None,
        CType::Char => None,
        CType::Int => None,
        CType::Unsigned => None,
        CType::Mutex => None,
        CType::Struct(_) => None,
    }
}

fn function_with_effects(
    alloc: Global,
    more: &[Effects],
    kind: &FnType,
) -> Result<FnType, AllocError>
    ensures { IfOk result (λ f. f ≡ record kind.now { effects = effects.union (kind.now.effects ∷ more.now) }) }
{
    let mut function = copy_function(alloc, kind)?;
    function.effects = union_with(kind.effects, more);
    Ok(function)
}

/// The type whose outermost function type has further effects.
#[tactic(auto, using(crate::proofs::KindEffects::with_further))]
fn with_effects(alloc: Global, more: &[Effects], kind: &CType) -> Result<CType, AllocError>
    ensures { IfOk result (λ t. t ≡ spec.with_effects more.now kind.now) }
{
    match kind {
        CType::Pointer(target) => {
            let target = with_effects(alloc, more, target.get())?;
            Ok(CType::Pointer(Boxed::new(alloc, target)?))
        }
        CType::Array(element, count) => {
            let element = with_effects(alloc, more, element.get())?;
            Ok(CType::Array(Boxed::new(alloc, element)?, *count))
        }
        CType::Function(function) => {
            Ok(CType::Function(function_with_effects(alloc, more, function)?))
        }
        CType::Void => Ok(CType::Void),
        CType::Char => Ok(CType::Char),
        CType::Int => Ok(CType::Int),
        CType::Unsigned => Ok(CType::Unsigned),
        CType::Mutex => Ok(CType::Mutex),
        CType::Struct(number) => Ok(CType::Struct(*number)),
    }
}

/// The type with what attributes say; without any it stays as it is. The one error is that no memory is left.
pub fn attributed(
    alloc: Global,
    more: &[Effects],
    kind: Boxed<CType>,
) -> Result<Boxed<CType>, AllocError>
    ensures { IfOk result (λ t. t ≡ spec.attributed more.now kind) }
{
    match more {
        [] => Ok(kind),
        [_, ..] => Boxed::new(alloc, with_effects(alloc, more, kind.get())?),
    }
}
