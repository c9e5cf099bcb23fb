//! Objects and functions through pointers, elements, and addresses (C17 6.5.2.1 and 6.5.3.2), once their operands were read.

ghost use Rattle.std.specs.Prelude.{◌≡◌, IfOk};
ghost use Rattle.core_unit.specs.declared.expressions.Place.TheVariants as object;
ghost use Rattle.type_rules.specs.Access as spec;
ghost use Rattle.type_rules.specs.Operands as operands;
ghost use Rattle.type_rules.specs.declared.found.Pair.TheVariants as pair;
ghost use Rattle.typing_state.specs.Answers.{Gives};

use core_unit::{Expr, Place, PointerSide};
use eff_types::{CType, copy};
use sqlite_items::Boxed;
use std::alloc::{AllocError, Global};
use type_operands::{
    found_object, found_value, is_object_pointer, pointer_to, promoted, target_of,
};
use type_operators::{pair_of, stride};
use type_rules::{Form, Found, Operand, Pair};
use typing_state::{Stop, Typing};

/// The object of this type that a pointer designates. The one error is that no memory is left.
fn object_at(
    alloc: Global,
    place: u32,
    kind: Boxed<CType>,
    pointer: Boxed<Expr>,
) -> Result<Found, AllocError>
    ensures { IfOk result (λ f. f ≡ operands.found_object place kind (object.Indirection pointer kind)) }
{
    let target = copy(alloc, kind.get())?;
    found_object(alloc, place, kind, Place::Indirection(pointer, target))
}

/// `*`: of a pointer to an object, which it designates, or of a pointer to a function. Rule 3 at `place` of others; `void` is no object.
#[tactic(auto, unfolding(type_rules::specs::Reading::and_then))]
pub(crate) fn indirection_of(
    alloc: Global,
    typing: &Typing<'_>,
    place: u32,
    operand: Operand,
) -> Result<Found, Stop>
    ensures { Gives (spec.indirection_of place operand typing.now) result typing.now }
{
    let Operand {
        place: _,
        kind,
        node,
    } = operand;
    if kind.get().is_function_pointer() {
        let target = target_of(alloc, kind.get())?;
        Ok(found_value(alloc, place, target, Expr::TargetFunction(node))?)
    } else if is_object_pointer(kind.get()) {
        let target = target_of(alloc, kind.get())?;
        Ok(object_at(alloc, place, target, node)?)
    } else {
        Err(Stop::Fault { number: 3, place })
    }
}

/// The element of this type, of so many words. The one error is that no memory is left.
fn element_at(
    alloc: Global,
    place: u32,
    kind: Boxed<CType>,
    left: Boxed<Expr>,
    right: Boxed<Expr>,
    side: PointerSide,
    words: u32,
) -> Result<Found, AllocError>
    ensures { IfOk result (λ f. f ≡ operands.found_object place kind (object.Element left right side words kind)) }
{
    let element = copy(alloc, kind.get())?;
    let object = Place::Element(left, right, side, words, element);
    found_object(alloc, place, kind, object)
}

#[tactic(auto, unfolding(type_rules::specs::Reading::and_then))]
fn element_of_left(
    alloc: Global,
    typing: &Typing<'_>,
    place: u32,
    left: Operand,
    right: Operand,
) -> Result<Found, Stop>
    ensures { Gives (spec.element_as place left right pair.PointerFirst typing.now) result typing.now }
{
    let words = stride(typing, place, left.kind.get())?;
    let kind = target_of(alloc, left.kind.get())?;
    let right = promoted(alloc, right)?.node;
    let side = PointerSide::Left;
    Ok(element_at(alloc, place, kind, left.node, right, side, words)?)
}

#[tactic(auto, unfolding(type_rules::specs::Reading::and_then))]
fn element_of_right(
    alloc: Global,
    typing: &Typing<'_>,
    place: u32,
    left: Operand,
    right: Operand,
) -> Result<Found, Stop>
    ensures { Gives (spec.element_as place left right pair.PointerSecond typing.now) result typing.now }
{
    let words = stride(typing, place, right.kind.get())?;
    let kind = target_of(alloc, right.kind.get())?;
    let left = promoted(alloc, left)?.node;
    let side = PointerSide::Right;
    Ok(element_at(alloc, place, kind, left, right.node, side, words)?)
}

/// `a[i]`, once both operands were read: what remains of `element`. Either may be the pointer. Rule 3 at `place` where neither is one or the other
/// is no number; what `stride` refuses of the pointer.
pub fn element_by(
    alloc: Global,
    typing: &Typing<'_>,
    place: u32,
    left: Operand,
    right: Operand,
) -> Result<Found, Stop>
    ensures { Gives (spec.element_by place left right typing.now) result typing.now }
{
    match pair_of(left.kind.get(), right.kind.get()) {
        Pair::PointerFirst => element_of_left(alloc, typing, place, left, right),
        Pair::PointerSecond => element_of_right(alloc, typing, place, left, right),
        Pair::Numbers => Err(Stop::Fault { number: 3, place }),
        Pair::Pointers => Err(Stop::Fault { number: 3, place }),
        Pair::Others => Err(Stop::Fault { number: 3, place }),
    }
}

/// `&`: of an expression that designates an object, or of a function. Rule 6 at the operand, which begins at `at`, of others.
#[tactic(auto, unfolding(type_rules::specs::Reading::and_then))]
pub(crate) fn address_of(
    alloc: Global,
    typing: &Typing<'_>,
    place: u32,
    found: Found,
) -> Result<Found, Stop>
    ensures { Gives (spec.address_of place found.place found.kind found.form typing.now) result typing.now }
{
    let Found {
        place: at,
        kind,
        form,
    } = found;
    match form {
        Form::Lvalue(base) => {
            let kind = pointer_to(alloc, kind)?;
            Ok(found_value(alloc, place, kind, Expr::AddressOf(base))?)
        }
        Form::Value(node) => {
            if !kind.get().is_function() {
                return Err(Stop::Fault {
                    number: 6,
                    place: at,
                });
            }
            let kind = pointer_to(alloc, kind)?;
            Ok(found_value(alloc, place, kind, Expr::FunctionPointer(node))?)
        }
    }
}
