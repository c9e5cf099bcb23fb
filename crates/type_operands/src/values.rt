//! What is found of an expression, and what it is once it is used for its value (C17 6.3.2.1). The one error is that no memory is left.

ghost use Rattle.std.specs.Prelude.{◌≡◌, IfOk};
ghost use Rattle.type_rules.specs.Operands as spec;
ghost use Rattle.type_rules.specs.declared.found.Form.TheVariants as form;

use crate::kinds::is_array;
use crate::shapes::{element_of, pointer_to};
use core_unit::{Expr, Place};
use eff_types::CType;
use sqlite_items::Boxed;
use std::alloc::{AllocError, Global};
use type_rules::{Form, Found, Operand};

/// What is found of an expression that designates an object.
pub fn found_object(
    alloc: Global,
    place: u32,
    kind: Boxed<CType>,
    object: Place,
) -> Result<Found, AllocError>
    ensures { IfOk result (λ f. f ≡ spec.found_object place kind object) }
{
    let form = Form::Lvalue(Boxed::new(alloc, object)?);
    Ok(Found { place, kind, form })
}

/// What is found of an expression that designates no object.
pub fn found_value(
    alloc: Global,
    place: u32,
    kind: Boxed<CType>,
    node: Expr,
) -> Result<Found, AllocError>
    ensures { IfOk result (λ f. f ≡ spec.found_value place kind node) }
{
    let form = Form::Value(Boxed::new(alloc, node)?);
    Ok(Found { place, kind, form })
}

/// The value of an object; of an array, a pointer to its first element.
fn object_value(
    alloc: Global,
    place: u32,
    kind: Boxed<CType>,
    object: Boxed<Place>,
) -> Result<Operand, AllocError>
    ensures { IfOk result (λ o. o ≡ spec.value_in place kind (form.Lvalue object)) }
{
    if is_array(kind.get()) {
        let kind = pointer_to(alloc, element_of(alloc, kind.get())?)?;
        let node = Boxed::new(alloc, Expr::ArrayPointer(object))?;
        Ok(Operand { place, kind, node })
    } else {
        let node = Boxed::new(alloc, Expr::Load(object))?;
        Ok(Operand { place, kind, node })
    }
}

/// A value as it is; of a function, a pointer to it.
fn plain_value(
    alloc: Global,
    place: u32,
    kind: Boxed<CType>,
    node: Boxed<Expr>,
) -> Result<Operand, AllocError>
    ensures { IfOk result (λ o. o ≡ spec.value_in place kind (form.Value node)) }
{
    if kind.get().is_function() {
        let kind = pointer_to(alloc, kind)?;
        let node = Boxed::new(alloc, Expr::FunctionPointer(node))?;
        Ok(Operand { place, kind, node })
    } else {
        Ok(Operand { place, kind, node })
    }
}

/// What is found, used for its value: an array becomes a pointer to its first element, a function a pointer to itself, and of another
/// object its value is taken (C17 6.3.2.1).
#[tactic(auto, unfolding(type_rules::specs::Operands::as_value))]
pub fn as_value(alloc: Global, found: Found) -> Result<Operand, AllocError>
    ensures { IfOk result (λ o. o ≡ spec.as_value found) }
{
    let Found { place, kind, form } = found;
    match form {
        Form::Lvalue(object) => object_value(alloc, place, kind, object),
        Form::Value(node) => plain_value(alloc, place, kind, node),
    }
}
