//! Operations on the values that memory holds.

ghost use Rattle.std.specs.Prelude.{◌≡◌, IfOk};
ghost use Rattle.core_unit.specs.Words.{IsInRange};
ghost use Rattle.arithmetic.specs.Operators.{truth};
ghost use Rattle.arithmetic.specs.Values as spec;

use crate::operations::{Direction, Operation};
use crate::traps::TrapKind;
use crate::{numbers, pointers};
use core_unit::{Comparands, PointerSide, Sign, UnaryOperator, Word};

/// The value of the number with these bits.
pub fn number(bits: u32) -> Word
    ensures value { result ≡ spec.number bits }
    ensures in_range { IsInRange result }
{
    if bits == 0 {
        Word::Zero
    } else {
        Word::Number(bits)
    }
}

/// The number that a comparison or `!` gives.
fn truth(held: bool) -> Word
    ensures { result ≡ spec.number (truth held) }
{
    if held { Word::Number(1) } else { Word::Zero }
}

/// Whether a condition with this value holds (C17 6.8.4.1).
pub fn is_true(value: Word) -> bool
    ensures { result ≡ spec.is_true value }
{
    !matches!(value, Word::Zero)
}

/// The bits of a number.
pub fn bits_in(value: Word) -> u32
    ensures { result ≡ spec.bits_in value }
{
    match value {
        Word::Number(bits) => bits,
        _ => 0,
    }
}

/// The address of a data pointer; 0 of null.
pub fn address_in(value: Word) -> u32
    ensures { result ≡ spec.address_in value }
{
    match value {
        Word::DataPointer(address) => address,
        _ => 0,
    }
}

/// What a value is compared by.
fn comparand(comparands: Comparands, value: Word) -> i64
    ensures { result ≡ spec.comparand comparands value }
{
    match comparands {
        Comparands::Numbers(sign) => numbers::value(sign, bits_in(value)),
        Comparands::DataPointers => address_in(value) as i64,
        Comparands::FunctionPointers => match value {
            Word::FunctionPointer(function, _) => function as i64 + 1,
            _ => 0,
        },
    }
}

/// The pointer so many objects on or back, or its trap.
fn move_pointer(
    direction: Direction,
    pointer: Word,
    number: i64,
    words: u32,
) -> Result<Word, TrapKind>
    ensures value { result ≡ spec.moved_pointer direction pointer number words }
    ensures in_range { IfOk result IsInRange }
{
    let distance = pointers::distance(direction, number, words);
    let address = pointers::moved(address_in(pointer), distance)?;
    Ok(Word::DataPointer(address))
}

impl Operation {
    /// What the operation gives, or its trap.
    pub fn apply(self, left: Word, right: Word) -> Result<Word, TrapKind>
        ensures value { result ≡ spec.applied self left right }
        ensures in_range { IfOk result IsInRange }
    {
        match self {
            Operation::Arithmetic(operator, sign) => {
                let bits = numbers::compute(operator, sign, bits_in(left), bits_in(right))?;
                Ok(number(bits))
            }
            Operation::Compare(operator, comparands) => {
                let (a, b) = (comparand(comparands, left), comparand(comparands, right));
                Ok(truth(numbers::holds(operator, a, b)))
            }
            Operation::Move(direction, PointerSide::Left, sign, words) => {
                move_pointer(direction, left, numbers::value(sign, bits_in(right)), words)
            }
            Operation::Move(direction, PointerSide::Right, sign, words) => {
                move_pointer(direction, right, numbers::value(sign, bits_in(left)), words)
            }
            Operation::Difference(words) => {
                let (a, b) = (address_in(left), address_in(right));
                Ok(number(pointers::difference(words, a, b)))
            }
        }
    }
}

/// What a unary operator gives of a value (C17 6.5.3.3), or its trap.
pub fn apply_unary(operator: UnaryOperator, value: Word) -> Result<Word, TrapKind>
    ensures value { result ≡ spec.applied_to operator value }
    ensures in_range { IsInRange value → IfOk result IsInRange }
{
    match operator {
        UnaryOperator::Plus(_) => Ok(value),
        UnaryOperator::Minus(sign) => {
            let bits = numbers::negate(sign, bits_in(value))?;
            Ok(number(bits))
        }
        UnaryOperator::Complement(_) => Ok(number(numbers::complement(bits_in(value)))),
        UnaryOperator::Not => Ok(truth(!is_true(value))),
    }
}

/// The address of the member at an offset of the structure at which the pointer points (C17 6.5.2.3), or its trap.
pub fn member_address(pointer: Word, offset: u32) -> Result<Word, TrapKind>
    ensures value { result ≡ spec.member_of offset pointer }
    ensures in_range { IfOk result IsInRange }
{
    let address = pointers::moved(address_in(pointer), offset as i128)?;
    Ok(Word::DataPointer(address))
}
