//! Types made of types, and taken apart. The one error is that no memory is left.

ghost use Rattle.std.specs.Prelude.{◌≡◌, IfOk, MatchOption};
ghost use Rattle.core_unit.specs.Shapes as spec;

use crate::copies::boxed_copy;
use eff_types::CType;
use sqlite_items::Boxed;
use std::alloc::{AllocError, Global};

/// A pointer to a type.
pub fn pointer_to(alloc: Global, target: Boxed<CType>) -> Result<Boxed<CType>, AllocError>
    ensures { IfOk result (λ t. t ≡ spec.pointer_to target) }
{
    let kind = Boxed::new(alloc, CType::Pointer(target))?;
    Ok(kind)
}

/// An array of so many elements of a type.
pub fn array_of(
    alloc: Global,
    element: Boxed<CType>,
    count: u32,
) -> Result<Boxed<CType>, AllocError>
    ensures { IfOk result (λ t. t ≡ spec.array_of element count) }
{
    let kind = Boxed::new(alloc, CType::Array(element, count))?;
    Ok(kind)
}

/// What an array is made of; `void` of another type.
#[tactic(auto, using(crate::proofs::KindEquations::parts_of_kinds))]
pub fn element_of(alloc: Global, kind: &CType) -> Result<Boxed<CType>, AllocError>
    ensures { IfOk result (λ t. t ≡ spec.element_of kind.now) }
{
    match kind {
        CType::Array(element, _) => boxed_copy(alloc, element.get()),
        CType::Pointer(_) => Boxed::new(alloc, CType::Void),
        CType::Function(_) => Boxed::new(alloc, CType::Void),
        CType::Void => Boxed::new(alloc, CType::Void),
        CType::Char => Boxed::new(alloc, CType::Void),
        CType::Int => Boxed::new(alloc, CType::Void),
        CType::Unsigned => Boxed::new(alloc, CType::Void),
        CType::Mutex => Boxed::new(alloc, CType::Void),
        CType::Struct(_) => Boxed::new(alloc, CType::Void),
    }
}

/// What a pointer points to, or none of another type.
#[tactic(auto, using(crate::proofs::KindEquations::parts_of_kinds))]
pub fn pointed(kind: &CType) -> Option<&CType>
    ensures { MatchOption result (spec.target_of kind.now ≡ CType.Void) (λ t. spec.target_of kind.now ≡ t.now) }
{
    match kind {
        CType::Pointer(target) => Some(target.get()),
        CType::Array(_, _) => None,
        CType::Function(_) => None,
        CType::Void => None,
        CType::Char => None,
        CType::Int => None,
        CType::Unsigned => None,
        CType::Mutex => None,
        CType::Struct(_) => None,
    }
}

/// A copy of what a pointer points to; `void` of another type.
pub fn target_of(alloc: Global, kind: &CType) -> Result<Boxed<CType>, AllocError>
    ensures { IfOk result (λ t. t ≡ spec.target_of kind.now) }
{
    match pointed(kind) {
        Some(target) => boxed_copy(alloc, target),
        None => Boxed::new(alloc, CType::Void),
    }
}
