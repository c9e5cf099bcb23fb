//! The type that a declarator makes of the type that the specifiers say, part by part (C17 6.7.6).

ghost use Rattle.std.specs.Prelude.{◌≡◌, ◌||◌, IfOk, map};
ghost use Rattle.std.specs.List.{list_any};
ghost use Rattle.type_declarators.specs.Built.{built_around, built_of};
ghost use Rattle.type_rules.specs.Declarators as spec;

use core_unit::StructInfo;
use eff_types::{CType, FnType, TypeList, copy};
use sqlite_items::{Boxed, Items};
use std::alloc::{AllocError, Global};
use type_operands::{array_of, is_incomplete, is_result, is_unsized, pointer_to};
use type_rules::{Parameter, Part};
use type_specifiers::{conflicts, effects_in, says_noreturn, union};

/// What parts of a declarator make of a type, and what is wrong with them.
#[derive(Drop)]
pub(crate) struct Built {
    pub(crate) kind: Boxed<CType>,
    /// Whether a part doesn't fit what it is of.
    pub(crate) misplaced: bool,
    /// Whether the attributes of one parameter list conflict.
    pub(crate) conflicting: bool,
    /// Whether a part is of an incomplete type.
    pub(crate) incomplete: bool,
}

/// Whether a part doesn't fit what it is of: a function gives an array, a function or a structure; an array has functions as
/// elements.
fn is_misplaced(part: &Part, kind: &CType) -> bool
    ensures { result ≡ spec.is_misplaced part.now kind.now }
{
    match part {
        Part::PointerTo => false,
        Part::ArrayOf(_) => kind.is_function(),
        Part::FunctionOf(_, _) => !is_result(kind),
    }
}

/// Whether an array has elements of an incomplete type, or a pointer leads to an array without a size.
fn is_of_incomplete(structures: &[StructInfo], part: &Part, kind: &CType) -> bool
    ensures { result ≡ spec.part_is_incomplete structures.now part.now kind.now }
{
    match part {
        Part::PointerTo => is_unsized(kind),
        Part::ArrayOf(_) => is_incomplete(structures, kind),
        Part::FunctionOf(_, _) => false,
    }
}

fn parameter_types(alloc: Global, parameters: &[Parameter]) -> Result<TypeList, AllocError>
    ensures { IfOk result (λ types. types ≡ map (λ p. p.kind) parameters.now) }
{
    let mut types = Items::new(alloc);
    'each: for parameter in parameters {
        types.push(copy(alloc, parameter.kind.get())?)?;
    }
    Ok(types)
}

/// The type that a part makes of another, and whether its attributes conflict.
#[derive(Drop)]
struct Wrapped {
    kind: Boxed<CType>,
    conflicting: bool,
}

fn around(alloc: Global, part: &Part, kind: Boxed<CType>) -> Result<Wrapped, AllocError>
    ensures { IfOk result (λ a. a ≡ record { kind = spec.part_type part.now kind; conflicting = spec.part_conflicts part.now }) }
{
    match part {
        Part::PointerTo => {
            let kind = pointer_to(alloc, kind)?;
            Ok(Wrapped {
                kind,
                conflicting: false,
            })
        }
        Part::ArrayOf(count) => {
            let kind = array_of(alloc, kind, *count)?;
            Ok(Wrapped {
                kind,
                conflicting: false,
            })
        }
        Part::FunctionOf(parameters, attributes) => {
            let effects = effects_in(alloc, attributes.as_slice())?;
            let params = parameter_types(alloc, parameters.as_slice())?;
            let function = CType::Function(FnType {
                result: kind,
                params,
                effects: union(effects.as_slice()),
            });
            let kind = Boxed::new(alloc, function)?;
            let conflicting = conflicts(effects.as_slice());
            Ok(Wrapped { kind, conflicting })
        }
    }
}

pub(crate) fn either(a: bool, b: bool) -> bool
    ensures { result ≡ (a || b) }
{
    a || b
}

/// What a part makes of what the parts inside it made.
fn with_part(
    alloc: Global,
    structures: &[StructInfo],
    part: &Part,
    inside: Built,
) -> Result<Built, AllocError>
    ensures { IfOk result (λ b. b ≡ built_around structures.now part.now inside) }
{
    let misplaced = either(is_misplaced(part, inside.kind.get()), inside.misplaced);
    let incomplete = either(
        is_of_incomplete(structures, part, inside.kind.get()),
        inside.incomplete,
    );
    let wrapped = around(alloc, part, inside.kind)?;
    Ok(Built {
        kind: wrapped.kind,
        misplaced,
        conflicting: either(wrapped.conflicting, inside.conflicting),
        incomplete,
    })
}

/// What the parts of a declarator, from the name outwards, make of the type that the specifiers say.
pub(crate) fn build(
    alloc: Global,
    structures: &[StructInfo],
    base: Boxed<CType>,
    parts: &[Part],
) -> Result<Built, AllocError>
    ensures { IfOk result (λ b. b ≡ built_of structures.now base parts.now) }
{
    match parts {
        [] => Ok(Built {
            kind: base,
            misplaced: false,
            conflicting: false,
            incomplete: false,
        }),
        [part, later @ ..] => {
            let inside = build(alloc, structures, base, later)?;
            with_part(alloc, structures, part, inside)
        }
    }
}

/// Whether `noreturn` stands on a parameter list.
fn is_noreturn(part: &Part) -> bool
    ensures { result ≡ spec.part_is_noreturn part.now }
{
    match part {
        Part::FunctionOf(_, attributes) => says_noreturn(attributes.as_slice()),
        Part::PointerTo => false,
        Part::ArrayOf(_) => false,
    }
}

fn is_any_noreturn(parts: &[Part]) -> bool
    ensures { result ≡ list_any spec.part_is_noreturn parts.now }
{
    parts.iter().any(|part| is_noreturn(part))
}

/// Whether `noreturn` stands on the list of a function type that isn't the declared name's own.
pub(crate) fn is_inner_noreturn(parts: &[Part]) -> bool
    ensures { result ≡ spec.is_inner_noreturn parts.now }
{
    match parts {
        [] => false,
        [_, later @ ..] => is_any_noreturn(later),
    }
}

/// Whether `noreturn` stands on the declared name's own list.
pub(crate) fn is_own_noreturn(parts: &[Part]) -> bool
    ensures { result ≡ spec.is_own_noreturn parts.now }
{
    match parts {
        [] => false,
        [part, ..] => is_noreturn(part),
    }
}
