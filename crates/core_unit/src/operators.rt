//! The operators of typed expressions, and how they work on their operands.

/// Whether a number is an `int` or an `unsigned int`, once it is promoted (C17 6.3.1.8).
#[derive(Clone, Copy)]
pub enum Sign {
    Signed,
    Unsigned,
}

/// A unary operator that gives a number (C17 6.5.3.3); `!` takes a pointer too.
#[derive(Clone, Copy)]
pub enum UnaryOperator {
    Plus(Sign),
    Minus(Sign),
    Complement(Sign),
    Not,
}

/// An operator on two numbers (C17 6.5.5 to 6.5.7 and 6.5.10 to 6.5.12).
#[derive(Clone, Copy)]
pub enum ArithmeticOperator {
    Multiply,
    Divide,
    Remainder,
    Add,
    Subtract,
    LeftShift,
    RightShift,
    And,
    ExclusiveOr,
    Or,
}

/// A comparison (C17 6.5.8 and 6.5.9).
#[derive(Clone, Copy)]
pub enum ComparisonOperator {
    Equal,
    NotEqual,
    Less,
    Greater,
    LessOrEqual,
    GreaterOrEqual,
}

/// What a comparison compares.
#[derive(Clone, Copy)]
pub enum Comparands {
    Numbers(Sign),
    DataPointers,
    FunctionPointers,
}

/// Which operand is the pointer, where a number is added to one or an index is taken (C17 6.5.6 and 6.5.2.1).
#[derive(Clone, Copy)]
pub enum PointerSide {
    Left,
    Right,
}

/// An operator on two values, both of which are found first, the left one before the right one.
#[derive(Clone, Copy)]
pub enum BinaryOperator {
    /// On two numbers of this sign; of a shift, the sign of its left operand.
    Arithmetic(ArithmeticOperator, Sign),
    /// A pointer plus a number: which is the pointer, and the words of its target.
    PointerPlus(PointerSide, u32),
    /// A pointer minus a number: the words of its target.
    PointerMinus(u32),
    /// The difference of two pointers: the words of their targets.
    Difference(u32),
    Compare(ComparisonOperator, Comparands),
}

/// `&&` or `||` (C17 6.5.13 and 6.5.14).
#[derive(Clone, Copy)]
pub enum LogicalOperator {
    And,
    Or,
}

/// What an assignment operator or a step does to the value of its place (C17 6.5.16.2, 6.5.2.4 and 6.5.3.1).
#[derive(Clone, Copy)]
pub enum Update {
    /// On numbers of this sign; of a shift, the sign of its left operand.
    Arithmetic(ArithmeticOperator, Sign),
    /// A pointer moves forward by a number: the words of its target.
    Forward(u32),
    /// The same, backward.
    Backward(u32),
}

/// Whether `++` or `--` stands before its operand, whose new value it has then, or behind it, where it has the old one.
#[derive(Clone, Copy)]
pub enum StepValue {
    Prefix,
    Postfix,
}

/// Why a value takes another type (C17 6.3 and 6.5.4).
#[derive(Clone, Copy)]
pub enum Cause {
    /// No cast is written.
    Implicit,
    Cast,
    /// A null pointer constant becomes a pointer, by a cast or without, where neither of the others gives it: a number, or a `void *` that
    /// becomes a pointer to a function. The value is null, whatever stands below: that isn't evaluated, and no operand is held.
    Null,
}
