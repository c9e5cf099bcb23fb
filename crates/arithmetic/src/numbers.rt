//! Operators on numbers of 32 bits, which are given by their bits.

ghost use Rattle.std.specs.Prelude.{◌≡◌, ℤ, SomeIff, FitsSigned, MatchOption, Ok, Err};
ghost use Rattle.std.specs.Int.{w32, cast_unsigned};
ghost use Rattle.arithmetic.specs.Numbers as numbers;
ghost use Rattle.arithmetic.specs.Operators as spec;
ghost use Rattle.core_unit.specs.declared.operators.ArithmeticOperator.TheVariants.{LeftShift};
ghost use Rattle.core_unit.specs.declared.operators.Sign.TheVariants.{Signed, Unsigned as Without};

use crate::traps::TrapKind;
use core_unit::{ArithmeticOperator, ComparisonOperator, Sign};

/// The value of a number.
pub(crate) fn value(sign: Sign, bits: u32) -> i64
    ensures { result ≡ numbers.value_of sign bits }
{
    match sign {
        Sign::Signed => bits.cast_signed() as i64,
        Sign::Unsigned => bits as i64,
    }
}

/// The bits of a value modulo 2^32.
pub(crate) fn wrapped(value: i64) -> u32
    ensures { result ≡ numbers.bits_of value }
{
    value.rem_euclid(1 << 32) as u32
}

/// The bits of a signed result, or the trap where there is none.
fn signed_bits(exact: Option<i32>, trap: TrapKind) -> Result<u32, TrapKind>
    ensures { MatchOption exact (result ≡ Err trap) (λ z. result ≡ Ok (cast_unsigned w32 z)) }
{
    match exact {
        Some(value) => Ok(value.cast_unsigned()),
        None => Err(trap),
    }
}

/// A signed number is shifted to the left where it isn't negative, also afterwards.
fn shift_left(left: u32, count: u32) -> Result<u32, TrapKind>
    ensures { result ≡ spec.computed LeftShift Signed left count }
{
    if count < 32 && left >> (31 - count) == 0 {
        Ok(left << count)
    } else {
        Err(TrapKind::Shift)
    }
}

/// An operator on two signed numbers.
fn compute_signed(operator: ArithmeticOperator, left: u32, right: u32) -> Result<u32, TrapKind>
    ensures { result ≡ spec.computed operator Signed left right }
{
    let (a, b) = (left.cast_signed(), right.cast_signed());
    match operator {
        ArithmeticOperator::Multiply => signed_bits(a.checked_mul(b), TrapKind::Overflow),
        ArithmeticOperator::Divide => signed_bits(a.checked_div(b), TrapKind::Division),
        ArithmeticOperator::Remainder => signed_bits(a.checked_rem(b), TrapKind::Division),
        ArithmeticOperator::Add => signed_bits(a.checked_add(b), TrapKind::Overflow),
        ArithmeticOperator::Subtract => signed_bits(a.checked_sub(b), TrapKind::Overflow),
        ArithmeticOperator::LeftShift => shift_left(left, right),
        ArithmeticOperator::RightShift => signed_bits(a.checked_shr(right), TrapKind::Shift),
        ArithmeticOperator::And => Ok(left & right),
        ArithmeticOperator::ExclusiveOr => Ok(left ^ right),
        ArithmeticOperator::Or => Ok(left | right),
    }
}

/// An operator on two unsigned numbers.
fn compute_unsigned(operator: ArithmeticOperator, left: u32, right: u32) -> Result<u32, TrapKind>
    ensures { result ≡ spec.computed operator Without left right }
{
    match operator {
        ArithmeticOperator::Multiply => Ok(left.wrapping_mul(right)),
        ArithmeticOperator::Divide => left.checked_div(right).ok_or(TrapKind::Division),
        ArithmeticOperator::Remainder => left.checked_rem(right).ok_or(TrapKind::Division),
        ArithmeticOperator::Add => Ok(left.wrapping_add(right)),
        ArithmeticOperator::Subtract => Ok(left.wrapping_sub(right)),
        ArithmeticOperator::LeftShift => left.checked_shl(right).ok_or(TrapKind::Shift),
        ArithmeticOperator::RightShift => left.checked_shr(right).ok_or(TrapKind::Shift),
        ArithmeticOperator::And => Ok(left & right),
        ArithmeticOperator::ExclusiveOr => Ok(left ^ right),
        ArithmeticOperator::Or => Ok(left | right),
    }
}

/// An operator on the bits of two numbers of a sign, or its trap; of a shift, the sign is that of the left one (C17 6.5.5 to 6.5.7
/// and 6.5.10 to 6.5.12).
pub fn compute(
    operator: ArithmeticOperator,
    sign: Sign,
    left: u32,
    right: u32,
) -> Result<u32, TrapKind>
    ensures { result ≡ spec.computed operator sign left right }
{
    match sign {
        Sign::Signed => compute_signed(operator, left, right),
        Sign::Unsigned => compute_unsigned(operator, left, right),
    }
}

/// Unary `-` of a number (C17 6.5.3.3), or its trap.
pub fn negate(sign: Sign, bits: u32) -> Result<u32, TrapKind>
    ensures { result ≡ spec.negated sign bits }
{
    match sign {
        Sign::Signed => signed_bits(bits.cast_signed().checked_neg(), TrapKind::Overflow),
        Sign::Unsigned => Ok(bits.wrapping_neg()),
    }
}

/// `~` of a number (C17 6.5.3.3).
pub fn complement(bits: u32) -> u32
    ensures { result ≡ spec.complement bits }
{
    !bits
}

/// The absolute value of a signed number (C17 7.22.6.1), or its trap.
pub fn absolute(bits: u32) -> Result<u32, TrapKind>
    ensures { result ≡ spec.absolute bits }
{
    signed_bits(bits.cast_signed().checked_abs(), TrapKind::Overflow)
}

/// Whether a comparison of two values holds (C17 6.5.8 and 6.5.9).
pub(crate) fn holds(operator: ComparisonOperator, left: i64, right: i64) -> bool
    ensures { result ≡ spec.holds operator left right }
{
    match operator {
        ComparisonOperator::Equal => left == right,
        ComparisonOperator::NotEqual => left != right,
        ComparisonOperator::Less => left < right,
        ComparisonOperator::Greater => right < left,
        ComparisonOperator::LessOrEqual => left <= right,
        ComparisonOperator::GreaterOrEqual => right <= left,
    }
}
