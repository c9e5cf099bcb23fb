// What code is told of types.

ghost use Rattle.std.specs.Prelude.{◌≡◌, Some, IfOk};
ghost use Rattle.core_unit.specs.Shapes as shapes;
ghost use Rattle.core_unit.specs.Typing.{place_type};
ghost use Rattle.c_codegen.specs.Entries as spec;
ghost use Rattle.src_model.specs.Rules as rules;

use arithmetic::Operation;
use core_unit::{BinaryOperator, Expr, Place, Sign, Unit, Update, callee_of, level_of};
use eff_types::{CType, FnType, Level, equal_signatures};
use mcode::Served;
use std::alloc::{AllocError, Global};
use unit_spots::type_of;

// The number of a function type.
#[tactic(auto, unfolding(crate::specs::Entries::signature_number), using(crate::proofs::Shown::number_found, crate::proofs::Shown::number_next, crate::proofs::Shown::number_last))]
pub fn signature_number(unit: &Unit, signature: &FnType) -> u32
    ensures { result ≡ spec.signature_number unit.now (Some signature.now) }
{
    'each: for id in 0..unit.functions() {
        if equal_signatures(&unit.function(id).kind, signature) {
            return id;
        }
    }
    unit.functions()
}

// The words that serve a load of a type.
#[tactic(auto, using(crate::proofs::Shown::served_is))]
fn served(unit: &Unit, kind: &CType) -> Served
    ensures { result ≡ spec.served unit.now kind.now }
{
    if kind.is_number() {
        return Served::Number;
    }
    if !kind.is_pointer() {
        return Served::Nothing;
    }
    match callee_of(kind) {
        Some(signature) => {
            Served::FunctionPointer(signature_number(unit, signature), level_of(kind))
        }
        None => Served::DataPointer,
    }
}

// The same for an object.
#[tactic(auto, using(crate::proofs::Shown::aggregate_served))]
pub fn served_at(unit: &Unit, place: &Place) -> Served
    ensures { result ≡ spec.served unit.now (place_type place.now) }
{
    match place.kept_type() {
        Some(kind) => served(unit, kind),
        None => Served::Nothing,
    }
}

// The level at which an object is stored.
#[tactic(auto, using(crate::proofs::Shown::aggregate_level))]
pub fn level_at(place: &Place) -> Level
    ensures { result ≡ shapes.level_of (place_type place.now) }
{
    match place.kept_type() {
        Some(kind) => level_of(kind),
        None => Level::Plain,
    }
}

// The sign that a number of a type has once it is promoted.
fn sign_of(kind: &CType) -> Sign
    ensures { result ≡ shapes.sign_of kind.now }
{
    match kind {
        CType::Unsigned => Sign::Unsigned,
        CType::Void => Sign::Signed,
        CType::Char => Sign::Signed,
        CType::Int => Sign::Signed,
        CType::Mutex => Sign::Signed,
        CType::Pointer(_) => Sign::Signed,
        CType::Array(_, _) => Sign::Signed,
        CType::Struct(_) => Sign::Signed,
        CType::Function(_) => Sign::Signed,
    }
}

// The operation of an operator; the sign of a number is asked where it moves a pointer.
pub fn operation(
    alloc: Global,
    operator: BinaryOperator,
    left: &Expr,
    right: &Expr,
) -> Result<Operation, AllocError>
    ensures { IfOk result (λ o. o ≡ rules.binary_operation operator left.now right.now) }
{
    match operator {
        BinaryOperator::Arithmetic(operator, sign) => Ok(Operation::Arithmetic(operator, sign)),
        BinaryOperator::Difference(words) => Ok(Operation::Difference(words)),
        BinaryOperator::Compare(operator, comparands) => {
            Ok(Operation::Compare(operator, comparands))
        }
        BinaryOperator::PointerPlus(side, words) => {
            let a = sign_of(type_of(alloc, left)?.get());
            let b = sign_of(type_of(alloc, right)?.get());
            Ok(Operation::of_binary(BinaryOperator::PointerPlus(side, words), a, b))
        }
        BinaryOperator::PointerMinus(words) => {
            let b = sign_of(type_of(alloc, right)?.get());
            Ok(Operation::of_binary(BinaryOperator::PointerMinus(words), Sign::Signed, b))
        }
    }
}

// The same of an assignment operator.
pub fn update_operation(alloc: Global, how: Update, operand: &Expr) -> Result<Operation, AllocError>
    ensures { IfOk result (λ o. o ≡ rules.update_operation how operand.now) }
{
    match how {
        Update::Arithmetic(operator, sign) => Ok(Operation::Arithmetic(operator, sign)),
        Update::Forward(words) => {
            let sign = sign_of(type_of(alloc, operand)?.get());
            Ok(Operation::of_update(Update::Forward(words), sign))
        }
        Update::Backward(words) => {
            let sign = sign_of(type_of(alloc, operand)?.get());
            Ok(Operation::of_update(Update::Backward(words), sign))
        }
    }
}
