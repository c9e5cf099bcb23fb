//! The type that two pointers have in common (C17 6.5.9 and 6.5.15).

ghost use Rattle.std.specs.Prelude.{◌≡◌, IfOk};
ghost use Rattle.type_operators.specs.Common.{type_of};
ghost use Rattle.type_rules.specs.Operators as spec;

use core_unit::{Cause, Comparands};
use eff_types::{CType, equal, equal_up_to_outer_effects};
use std::alloc::{AllocError, Global};
use type_operands::{is_data_pointer, is_null_constant, is_void_pointer, null_cause, turned};
use type_rules::Operand;

/// What a comparison of two pointers of this type compares.
pub(crate) fn pointers_of(kind: &CType) -> Comparands
    ensures { result ≡ spec.pointers_of kind.now }
{
    if kind.is_function_pointer() {
        Comparands::FunctionPointers
    } else {
        Comparands::DataPointers
    }
}

/// The operand in the type that it has in common with another. The one error is that no memory is left.
pub(crate) fn brought(alloc: Global, to: &CType, operand: Operand) -> Result<Operand, AllocError>
    ensures { IfOk result (λ o. o ≡ spec.brought to.now operand) }
{
    if equal(operand.kind.get(), to) {
        Ok(operand)
    } else {
        let why = null_cause(Cause::Implicit, operand.kind.get(), to);
        turned(alloc, why, to, operand)
    }
}

/// Whether both types are pointers to functions that are equal up to outer effects.
pub(crate) fn alike_outside(left: &CType, right: &CType) -> bool
    ensures { result ≡ spec.alike_outside left.now right.now }
{
    left.is_function_pointer()
        && right.is_function_pointer()
        && equal_up_to_outer_effects(left, right)
}

/// Which of two operands has the type that both have in common.
#[derive(Clone, Copy)]
pub(crate) enum Common {
    First,
    Second,
    Neither,
}

/// The pointer type of two operands: the one that both have, that of the one beside a null constant, or `void *`. Whether an operand is a
/// null constant is asked only where the other one is a pointer.
#[tactic(auto, unfolding(type_rules::specs::Operators::pointer_in_common))]
pub(crate) fn pointer_in_common(left: &Operand, right: &Operand) -> Common
    ensures { type_of result left.now.kind right.now.kind ≡ spec.pointer_in_common left.now right.now }
{
    let (first, second) = (left.kind.get(), right.kind.get());
    if first.is_pointer() && equal(first, second) {
        Common::First
    } else if first.is_pointer() && is_null_constant(right) {
        Common::First
    } else if second.is_pointer() && is_null_constant(left) {
        Common::Second
    } else if is_data_pointer(first) && is_void_pointer(second) {
        Common::Second
    } else if is_void_pointer(first) && is_data_pointer(second) {
        Common::First
    } else {
        Common::Neither
    }
}
