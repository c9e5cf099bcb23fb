// The level that the callee of a call promises, by the type of the expression.
ghost use Rattle.std.specs.Prelude.{◌≡◌, IfOk};
ghost use Rattle.core_unit.specs.Library.{row_type as type_of_row};
ghost use Rattle.core_unit.specs.Places.{callee as callee_in};
ghost use Rattle.core_unit.specs.Shapes.{callee_of as callee_in_type, target_of as target_in, element_of as element_in, pointer_to, array_of, number_type, result_of};
ghost use Rattle.core_unit.specs.Typing as typing;
ghost use Rattle.unit_spots.specs.Spots.{call_of};

use crate::spots::Action;
use core_unit::{
    BinaryOperator, Expr, Place, PointerSide, Sign, UnaryOperator, callee_of, level_of, row_type,
};
use eff_types::{CType, copy};
use sqlite_items::Boxed;
use std::alloc::{AllocError, Global};

// What a call of this callee does.
#[tactic(auto, using(core_unit::proofs::Equations::type_rules))]
pub fn call_action(alloc: Global, callee: &Expr) -> Result<Action, AllocError>
    ensures { IfOk result (λ action. action ≡ call_of (callee_in callee.now)) }
{
    match callee {
        Expr::Function(function, _) => Ok(Action::Calls(*function)),
        Expr::LibraryFunction(row) => Ok(Action::CallsLibrary(*row)),
        _ => {
            let kind = type_of(alloc, callee)?;
            Ok(Action::CallsThrough(level_of(kind.get())))
        }
    }
}

fn boxed(alloc: Global, kind: &CType) -> Result<Boxed<CType>, AllocError>
    ensures { IfOk result (λ t. t ≡ kind.now) }
{
    Boxed::new(alloc, copy(alloc, kind)?)
}

#[tactic(auto, using(core_unit::proofs::Signed::pointer_is))]
fn pointer(alloc: Global, target: Boxed<CType>) -> Result<Boxed<CType>, AllocError>
    ensures { IfOk result (λ t. t ≡ pointer_to target) }
{
    Boxed::new(alloc, CType::Pointer(target))
}

#[tactic(auto, using(crate::proofs::Types::target_rules))]
fn target_of(alloc: Global, kind: &CType) -> Result<Boxed<CType>, AllocError>
    ensures { IfOk result (λ t. t ≡ target_in kind.now) }
{
    match kind {
        CType::Void => Boxed::new(alloc, CType::Void),
        CType::Char => Boxed::new(alloc, CType::Void),
        CType::Int => Boxed::new(alloc, CType::Void),
        CType::Unsigned => Boxed::new(alloc, CType::Void),
        CType::Mutex => Boxed::new(alloc, CType::Void),
        CType::Pointer(target) => boxed(alloc, target.get()),
        CType::Array(_, _) => Boxed::new(alloc, CType::Void),
        CType::Struct(_) => Boxed::new(alloc, CType::Void),
        CType::Function(_) => Boxed::new(alloc, CType::Void),
    }
}

#[tactic(auto, using(crate::proofs::Types::element_rules))]
fn element_of(alloc: Global, kind: &CType) -> Result<Boxed<CType>, AllocError>
    ensures { IfOk result (λ t. t ≡ element_in kind.now) }
{
    match kind {
        CType::Void => Boxed::new(alloc, CType::Void),
        CType::Char => Boxed::new(alloc, CType::Void),
        CType::Int => Boxed::new(alloc, CType::Void),
        CType::Unsigned => Boxed::new(alloc, CType::Void),
        CType::Mutex => Boxed::new(alloc, CType::Void),
        CType::Pointer(_) => Boxed::new(alloc, CType::Void),
        CType::Array(element, _) => boxed(alloc, element.get()),
        CType::Struct(_) => Boxed::new(alloc, CType::Void),
        CType::Function(_) => Boxed::new(alloc, CType::Void),
    }
}

// What a function of this type, or one that it points to, gives.
fn given(alloc: Global, kind: &CType) -> Result<Boxed<CType>, AllocError>
    ensures { IfOk result (λ t. t ≡ result_of (callee_in_type kind.now)) }
{
    match callee_of(kind) {
        Some(function) => boxed(alloc, function.result.get()),
        None => Boxed::new(alloc, CType::Void),
    }
}

fn number(alloc: Global, sign: Sign) -> Result<Boxed<CType>, AllocError>
    ensures { IfOk result (λ t. t ≡ number_type sign) }
{
    match sign {
        Sign::Signed => Boxed::new(alloc, CType::Int),
        Sign::Unsigned => Boxed::new(alloc, CType::Unsigned),
    }
}

fn unary_type(alloc: Global, operator: UnaryOperator) -> Result<Boxed<CType>, AllocError>
    ensures { IfOk result (λ t. t ≡ typing.unary_type operator) }
{
    match operator {
        UnaryOperator::Plus(sign) => number(alloc, sign),
        UnaryOperator::Minus(sign) => number(alloc, sign),
        UnaryOperator::Complement(sign) => number(alloc, sign),
        UnaryOperator::Not => Boxed::new(alloc, CType::Int),
    }
}

fn binary_type(
    alloc: Global,
    operator: BinaryOperator,
    left: &CType,
    right: &CType,
) -> Result<Boxed<CType>, AllocError>
    ensures { IfOk result (λ t. t ≡ typing.binary_type operator left.now right.now) }
{
    match operator {
        BinaryOperator::Arithmetic(_, sign) => number(alloc, sign),
        BinaryOperator::PointerPlus(side, _) => match side {
            PointerSide::Left => boxed(alloc, left),
            PointerSide::Right => boxed(alloc, right),
        },
        BinaryOperator::PointerMinus(_) => boxed(alloc, left),
        BinaryOperator::Difference(_) => Boxed::new(alloc, CType::Int),
        BinaryOperator::Compare(_, _) => Boxed::new(alloc, CType::Int),
    }
}

#[tactic(auto, using(crate::proofs::Types::no_row))]
fn library_result(alloc: Global, row: u32) -> Result<Boxed<CType>, AllocError>
    ensures { IfOk result (λ t. t ≡ result_of (type_of_row row)) }
{
    if row < 15 {
        let function = row_type(alloc, row)?;
        boxed(alloc, function.result.get())
    } else {
        Boxed::new(alloc, CType::Void)
    }
}

#[tactic(auto, using(crate::proofs::Types::array_is))]
fn array(alloc: Global, element: Boxed<CType>, count: u32) -> Result<Boxed<CType>, AllocError>
    ensures { IfOk result (λ t. t ≡ array_of element count) }
{
    let kind = Boxed::new(alloc, CType::Array(element, count))?;
    Ok(kind)
}

#[tactic(auto, using(core_unit::proofs::Equations::type_rules))]
fn place_type(alloc: Global, place: &Place) -> Result<Boxed<CType>, AllocError>
    ensures { IfOk result (λ t. t ≡ typing.place_type place.now) }
{
    match place {
        Place::Variable(_, _, kind) => boxed(alloc, kind),
        Place::Text(_, words) => array(alloc, Boxed::new(alloc, CType::Char)?, *words),
        Place::Indirection(_, kind) => boxed(alloc, kind),
        Place::Arrow(_, number) => Boxed::new(alloc, CType::Struct(*number)),
        Place::Element(_, _, _, _, kind) => boxed(alloc, kind),
        Place::Member(_, _, kind) => boxed(alloc, kind),
    }
}

/// The type of an expression, by its form alone (C17 6.5). Err where memory lacks.
#[cycle(typing)]
#[tactic(auto, using(core_unit::proofs::Equations::type_rules))]
pub fn type_of(alloc: Global, expression: &Expr) -> Result<Boxed<CType>, AllocError>
    ensures { IfOk result (λ t. t ≡ typing.type_of expression.now) }
{
    match expression {
        Expr::Number(sign, _) => number(alloc, *sign),
        Expr::Null => pointer(alloc, Boxed::new(alloc, CType::Void)?),
        Expr::Sizeof(_) => Boxed::new(alloc, CType::Unsigned),
        Expr::Function(_, kind) => boxed(alloc, kind),
        Expr::LibraryFunction(_) => Boxed::new(alloc, CType::Void),
        Expr::TargetFunction(e) => target_of(alloc, type_of(alloc, e.get())?.get()),
        Expr::FunctionPointer(e) => pointer(alloc, type_of(alloc, e.get())?),
        Expr::ArrayPointer(place) => {
            let kind = place_type(alloc, place.get())?;
            pointer(alloc, element_of(alloc, kind.get())?)
        }
        Expr::AddressOf(place) => pointer(alloc, place_type(alloc, place.get())?),
        Expr::Load(place) => place_type(alloc, place.get()),
        Expr::Assign(place, _) => place_type(alloc, place.get()),
        Expr::Compound(place, _, _) => place_type(alloc, place.get()),
        Expr::Step(place, _, _) => place_type(alloc, place.get()),
        Expr::Unary(operator, _) => unary_type(alloc, *operator),
        Expr::Binary(operator, a, b) => {
            let left = type_of(alloc, a.get())?;
            let right = type_of(alloc, b.get())?;
            binary_type(alloc, *operator, left.get(), right.get())
        }
        Expr::Logical(_, _, _) => Boxed::new(alloc, CType::Int),
        Expr::Conditional(_, a, _) => type_of(alloc, a.get()),
        Expr::Comma(_, b) => type_of(alloc, b.get()),
        Expr::Call(_, _, callee, _) => match callee.get() {
            Expr::LibraryFunction(row) => library_result(alloc, *row),
            _ => given(alloc, type_of(alloc, callee.get())?.get()),
        },
        Expr::Convert(_, kind, _) => boxed(alloc, kind),
        Expr::Discard(_) => Boxed::new(alloc, CType::Void),
    }
}
