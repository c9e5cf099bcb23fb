//! `?:` (C17 6.5.15), once its operands were read.

ghost use Rattle.std.specs.Prelude.{◌≡◌, IfOk};
ghost use Rattle.core_unit.specs.Shapes as shapes;
ghost use Rattle.core_unit.specs.declared.expressions.Expr.TheVariants as expr;
ghost use Rattle.eff_types.specs.Types as types;
ghost use Rattle.type_rules.specs.Operands as operands;
ghost use Rattle.type_rules.specs.Operators as spec;
ghost use Rattle.typing_state.specs.Answers.{Gives};

use crate::pointers::{Common, alike_outside, brought, pointer_in_common};
use core_unit::Expr;
use eff_types::{CType, Effects, FnType, Level, common};
use sqlite_items::Boxed;
use std::alloc::{AllocError, Global};
use type_operands::{
    boxed_copy, common_sign, copy_function, found_value, in_sign, is_scalar, number_type,
    pointer_to,
};
use type_rules::{Found, Operand};
use typing_state::{Stop, Typing};

const NO_EFFECTS: Effects = Effects {
    level: Level::Plain,
    no_block_inference: false,
    no_alloc_inference: false,
};

/// The effects of a function type; of another type none.
#[tactic(auto, using(crate::proofs::Shared::shared_rules))]
fn own_effects(kind: &CType) -> Effects
    ensures { result ≡ types.own_effects kind.now }
{
    match kind {
        CType::Function(function) => function.effects,
        CType::Pointer(_) => NO_EFFECTS,
        CType::Array(_, _) => NO_EFFECTS,
        CType::Void => NO_EFFECTS,
        CType::Char => NO_EFFECTS,
        CType::Int => NO_EFFECTS,
        CType::Unsigned => NO_EFFECTS,
        CType::Mutex => NO_EFFECTS,
        CType::Struct(_) => NO_EFFECTS,
    }
}

/// The effects of the function type that a type points to.
#[tactic(auto, using(crate::proofs::Shared::shared_rules))]
fn target_effects(kind: &CType) -> Effects
    ensures { result ≡ types.target_effects kind.now }
{
    match kind {
        CType::Pointer(target) => own_effects(target.get()),
        CType::Function(_) => NO_EFFECTS,
        CType::Array(_, _) => NO_EFFECTS,
        CType::Void => NO_EFFECTS,
        CType::Char => NO_EFFECTS,
        CType::Int => NO_EFFECTS,
        CType::Unsigned => NO_EFFECTS,
        CType::Mutex => NO_EFFECTS,
        CType::Struct(_) => NO_EFFECTS,
    }
}

/// A function type with these effects in place of its own. The one error is that no memory is left.
fn with_effects(
    alloc: Global,
    function: &FnType,
    effects: Effects,
) -> Result<Boxed<CType>, AllocError>
    ensures { IfOk result (λ t. t ≡ CType.Function (record function.now { effects = effects })) }
{
    let mut other = copy_function(alloc, function)?;
    other.effects = effects;
    Boxed::new(alloc, CType::Function(other))
}

/// The pointer to the first of two functions, with the effects that both share. The one error is that no memory is left.
#[tactic(auto, using(crate::proofs::Shared::shared_rules))]
fn shared_target(alloc: Global, target: &CType, other: &CType) -> Result<Boxed<CType>, AllocError>
    ensures { IfOk result (λ t. shapes.pointer_to t ≡ spec.shared_pointer (CType.Pointer target.now) other.now) }
{
    match target {
        CType::Function(function) => {
            let effects = common(function.effects, target_effects(other));
            with_effects(alloc, function, effects)
        }
        CType::Pointer(_) => boxed_copy(alloc, target),
        CType::Array(_, _) => boxed_copy(alloc, target),
        CType::Void => boxed_copy(alloc, target),
        CType::Char => boxed_copy(alloc, target),
        CType::Int => boxed_copy(alloc, target),
        CType::Unsigned => boxed_copy(alloc, target),
        CType::Mutex => boxed_copy(alloc, target),
        CType::Struct(_) => boxed_copy(alloc, target),
    }
}

/// A pointer to a function by which either of two may be called: the lesser level, and no flags. Another type stays. The one error is that
/// no memory is left.
#[tactic(auto, using(crate::proofs::Shared::shared_rules))]
fn shared_pointer(alloc: Global, left: &CType, right: &CType) -> Result<Boxed<CType>, AllocError>
    ensures { IfOk result (λ t. t ≡ spec.shared_pointer left.now right.now) }
{
    match left {
        CType::Pointer(target) => {
            let shared = shared_target(alloc, target.get(), right)?;
            pointer_to(alloc, shared)
        }
        CType::Function(_) => boxed_copy(alloc, left),
        CType::Array(_, _) => boxed_copy(alloc, left),
        CType::Void => boxed_copy(alloc, left),
        CType::Char => boxed_copy(alloc, left),
        CType::Int => boxed_copy(alloc, left),
        CType::Unsigned => boxed_copy(alloc, left),
        CType::Mutex => boxed_copy(alloc, left),
        CType::Struct(_) => boxed_copy(alloc, left),
    }
}

/// `?:` of this type. The one error is that no memory is left.
fn conditional(
    alloc: Global,
    place: u32,
    kind: Boxed<CType>,
    test: Operand,
    left: Operand,
    right: Operand,
) -> Result<Found, AllocError>
    ensures { IfOk result (λ f. f ≡ operands.found_value place kind (expr.Conditional test.node left.node right.node)) }
{
    found_value(
        alloc,
        place,
        kind,
        Expr::Conditional(test.node, left.node, right.node),
    )
}

/// `?:` of two numbers, in the sign that they have in common. The one error is that no memory is left.
fn numbers_chosen(
    alloc: Global,
    place: u32,
    test: Operand,
    left: Operand,
    right: Operand,
) -> Result<Found, AllocError>
    ensures { IfOk result (λ f. f ≡ spec.numbers_chosen place test (operands.common_sign left right) left right) }
{
    let sign = common_sign(&left, &right);
    let left = in_sign(alloc, sign, left)?;
    let right = in_sign(alloc, sign, right)?;
    let kind = Boxed::new(alloc, number_type(sign))?;
    conditional(alloc, place, kind, test, left, right)
}

/// `?:` of two operands that are brought to this type. The one error is that no memory is left.
fn chosen_in(
    alloc: Global,
    place: u32,
    kind: Boxed<CType>,
    test: Operand,
    left: Operand,
    right: Operand,
) -> Result<Found, AllocError>
    ensures { IfOk result (λ f. f ≡ operands.found_value place kind (expr.Conditional test.node (spec.brought kind left).node (spec.brought kind right).node)) }
{
    let left = brought(alloc, kind.get(), left)?;
    let right = brought(alloc, kind.get(), right)?;
    conditional(alloc, place, kind, test, left, right)
}

/// `?:` in the type of what stands before the colon. The one error is that no memory is left.
#[tactic(auto, using(crate::proofs::Sames::same_self))]
fn chosen_in_first(
    alloc: Global,
    place: u32,
    test: Operand,
    left: Operand,
    right: Operand,
) -> Result<Found, AllocError>
    ensures { IfOk result (λ f. f ≡ operands.found_value place left.kind (expr.Conditional test.node (spec.brought left.kind left).node (spec.brought left.kind right).node)) }
{
    let right = brought(alloc, left.kind.get(), right)?.node;
    let Operand {
        place: _,
        kind,
        node,
    } = left;
    found_value(
        alloc,
        place,
        kind,
        Expr::Conditional(test.node, node, right),
    )
}

/// `?:` in the type of what stands behind the colon. The one error is that no memory is left.
#[tactic(auto, using(crate::proofs::Sames::same_self))]
fn chosen_in_second(
    alloc: Global,
    place: u32,
    test: Operand,
    left: Operand,
    right: Operand,
) -> Result<Found, AllocError>
    ensures { IfOk result (λ f. f ≡ operands.found_value place right.kind (expr.Conditional test.node (spec.brought right.kind left).node (spec.brought right.kind right).node)) }
{
    let left = brought(alloc, right.kind.get(), left)?.node;
    let Operand {
        place: _,
        kind,
        node,
    } = right;
    found_value(alloc, place, kind, Expr::Conditional(test.node, left, node))
}

/// `?:` of pointers, in the type that they have in common. Rule 3 at `place` where there is none.
fn pointers_chosen(
    alloc: Global,
    typing: &Typing<'_>,
    place: u32,
    test: Operand,
    left: Operand,
    right: Operand,
) -> Result<Found, Stop>
    ensures { Gives (spec.chosen_as place test left right (spec.pointer_in_common left right) typing.now) result typing.now }
{
    match pointer_in_common(&left, &right) {
        Common::First => Ok(chosen_in_first(alloc, place, test, left, right)?),
        Common::Second => Ok(chosen_in_second(alloc, place, test, left, right)?),
        Common::Neither => Err(Stop::Fault { number: 3, place }),
    }
}

/// `?:` of what isn't two numbers: `void` of two; of two pointers to functions that are equal up to outer effects the one that promises what
/// both do; other pointers in the type that they have in common. Rule 3 at `place` of others.
#[tactic(auto, unfolding(type_rules::specs::Operators::chosen_type))]
fn others_chosen(
    alloc: Global,
    typing: &Typing<'_>,
    place: u32,
    test: Operand,
    left: Operand,
    right: Operand,
) -> Result<Found, Stop>
    ensures { Gives (spec.chosen_as place test left right (spec.chosen_type left right) typing.now) result typing.now }
{
    if left.kind.get().is_void() && right.kind.get().is_void() {
        let kind = Boxed::new(alloc, CType::Void)?;
        Ok(chosen_in(alloc, place, kind, test, left, right)?)
    } else if alike_outside(left.kind.get(), right.kind.get()) {
        let kind = shared_pointer(alloc, left.kind.get(), right.kind.get())?;
        Ok(chosen_in(alloc, place, kind, test, left, right)?)
    } else {
        pointers_chosen(alloc, typing, place, test, left, right)
    }
}

/// `?:`, once its three operands were read: a condition that is a number or a pointer, and what stands before and behind the colon. Rule 3 at
/// `place` where one doesn't fit.
#[tactic(auto, unfolding(type_rules::specs::Operators::chosen, type_rules::specs::Reading::and_then))]
pub fn chosen(
    alloc: Global,
    typing: &Typing<'_>,
    place: u32,
    test: Operand,
    left: Operand,
    right: Operand,
) -> Result<Found, Stop>
    ensures { Gives (spec.chosen place test left right typing.now) result typing.now }
{
    if !is_scalar(test.kind.get()) {
        return Err(Stop::Fault { number: 3, place });
    }
    if left.kind.get().is_number() && right.kind.get().is_number() {
        Ok(numbers_chosen(alloc, place, test, left, right)?)
    } else {
        others_chosen(alloc, typing, place, test, left, right)
    }
}
