//! Operations on two values: the operators of expressions and of assignments, with what they have to know of their operands.

ghost use Rattle.std.specs.Prelude.{◌≡◌};
ghost use Rattle.arithmetic.specs.Operations as spec;

use core_unit::{
    ArithmeticOperator, BinaryOperator, Comparands, ComparisonOperator, PointerSide, Sign, Update,
};

/// Which way a pointer moves.
#[derive(Clone, Copy)]
pub enum Direction {
    Forward,
    Backward,
}

/// An operation on two values.
#[derive(Clone, Copy)]
pub enum Operation {
    /// On two numbers of this sign; of a shift, the sign of its left operand (C17 6.5.5 to 6.5.7 and 6.5.10 to 6.5.12).
    Arithmetic(ArithmeticOperator, Sign),
    /// (C17 6.5.8 and 6.5.9.)
    Compare(ComparisonOperator, Comparands),
    /// A pointer moves by a number of objects: which operand is the pointer, the sign of the number, and the words of an object
    /// (C17 6.5.6).
    Move(Direction, PointerSide, Sign, u32),
    /// The difference of two pointers: the words of an object (C17 6.5.6).
    Difference(u32),
}

impl Operation {
    /// The operation of an operator between operands of these signs, where they are numbers. The number by which a pointer moves
    /// has a sign that the operator doesn't tell.
    pub fn of_binary(operator: BinaryOperator, left: Sign, right: Sign) -> Operation
        ensures { result ≡ spec.operation_of operator left right }
    {
        match operator {
            BinaryOperator::Arithmetic(operator, sign) => Operation::Arithmetic(operator, sign),
            BinaryOperator::PointerPlus(PointerSide::Left, words) => {
                Operation::Move(Direction::Forward, PointerSide::Left, right, words)
            }
            BinaryOperator::PointerPlus(PointerSide::Right, words) => {
                Operation::Move(Direction::Forward, PointerSide::Right, left, words)
            }
            BinaryOperator::PointerMinus(words) => {
                Operation::Move(Direction::Backward, PointerSide::Left, right, words)
            }
            BinaryOperator::Difference(words) => Operation::Difference(words),
            BinaryOperator::Compare(operator, comparands) => {
                Operation::Compare(operator, comparands)
            }
        }
    }

    /// The operation on the old value of a place and an operand of this sign, where it is a number.
    pub fn of_update(update: Update, operand: Sign) -> Operation
        ensures { result ≡ spec.operation_of_update update operand }
    {
        match update {
            Update::Arithmetic(operator, sign) => Operation::Arithmetic(operator, sign),
            Update::Forward(words) => {
                Operation::Move(Direction::Forward, PointerSide::Left, operand, words)
            }
            Update::Backward(words) => {
                Operation::Move(Direction::Backward, PointerSide::Left, operand, words)
            }
        }
    }
}
