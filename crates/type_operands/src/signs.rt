//! Whether a constant expression is a number, and of which sign, read off its form.

ghost use Rattle.std.specs.Prelude.{◌≡◌};
ghost use Rattle.type_operands.specs.Signs as spec;

use core_unit::{BinaryOperator, Expr, PointerSide, Sign, UnaryOperator};
use eff_types::CType;

/// The sign of a type of numbers, once they are promoted; none of another type (C17 6.3.1.1).
pub(crate) fn number_sign(kind: &CType) -> Option<Sign>
    ensures { result ≡ spec.number_sign kind.now }
{
    match kind {
        CType::Char => Some(Sign::Signed),
        CType::Int => Some(Sign::Signed),
        CType::Unsigned => Some(Sign::Unsigned),
        _ => None,
    }
}

fn unary_sign(operator: UnaryOperator) -> Sign
    ensures { result ≡ spec.unary_sign operator }
{
    match operator {
        UnaryOperator::Plus(sign) => sign,
        UnaryOperator::Minus(sign) => sign,
        UnaryOperator::Complement(sign) => sign,
        UnaryOperator::Not => Sign::Signed,
    }
}

/// Where the result of an operator has its sign from, if it is a number.
#[derive(Clone, Copy)]
enum SignSource {
    Own(Sign),
    Left,
    Right,
}

fn sign_source(operator: BinaryOperator) -> SignSource
    ensures { result ≡ spec.sign_source operator }
{
    match operator {
        BinaryOperator::Arithmetic(_, sign) => SignSource::Own(sign),
        BinaryOperator::PointerPlus(PointerSide::Left, _) => SignSource::Left,
        BinaryOperator::PointerPlus(PointerSide::Right, _) => SignSource::Right,
        BinaryOperator::PointerMinus(_) => SignSource::Left,
        BinaryOperator::Difference(_) => SignSource::Own(Sign::Signed),
        BinaryOperator::Compare(_, _) => SignSource::Own(Sign::Signed),
    }
}

/// The sign of a constant expression that is a number; none of another.
#[tactic(auto, using(crate::proofs::Forms::sign_rules))]
pub(crate) fn constant_sign(expression: &Expr) -> Option<Sign>
    ensures { result ≡ spec.constant_sign expression.now }
{
    match expression {
        Expr::Number(sign, _) => Some(*sign),
        Expr::Null => None,
        Expr::Sizeof(_) => Some(Sign::Unsigned),
        Expr::Function(_, _) => None,
        Expr::LibraryFunction(_) => None,
        Expr::TargetFunction(_) => None,
        Expr::FunctionPointer(_) => None,
        Expr::ArrayPointer(_) => None,
        Expr::AddressOf(_) => None,
        Expr::Load(_) => None,
        Expr::Assign(_, _) => None,
        Expr::Compound(_, _, _) => None,
        Expr::Step(_, _, _) => None,
        Expr::Unary(operator, _) => Some(unary_sign(*operator)),
        Expr::Binary(operator, left, right) => match sign_source(*operator) {
            SignSource::Own(sign) => Some(sign),
            SignSource::Left => constant_sign(left.get()),
            SignSource::Right => constant_sign(right.get()),
        },
        Expr::Logical(_, _, _) => Some(Sign::Signed),
        Expr::Conditional(_, second, _) => constant_sign(second.get()),
        Expr::Comma(_, _) => None,
        Expr::Call(_, _, _, _) => None,
        Expr::Convert(_, kind, _) => number_sign(kind),
        Expr::Discard(_) => None,
    }
}
