//! Constant expressions (C17 6.6): what an expression is worth before the program runs, read off its typed tree.

ghost use Rattle.std.specs.Prelude.{◌≡◌, ◌||◌};
ghost use Rattle.arithmetic.specs.Operations as operations;
ghost use Rattle.arithmetic.specs.Operators as operators;
ghost use Rattle.arithmetic.specs.Values as values;
ghost use Rattle.eff_types.specs.Types as types;
ghost use Rattle.type_operands.specs.Signs as signs;
ghost use Rattle.type_operands.specs.Worths as worths;
ghost use Rattle.type_rules.specs.Constants as spec;
ghost use Rattle.type_rules.specs.Reading.{gives};
ghost use Rattle.typing_state.specs.Answers.{Gives};

use crate::kinds::{is_void_pointer, sign_of};
use crate::operands::operand;
use crate::signs::constant_sign;
use arithmetic::{Operation, TrapKind, apply_unary, bits_in, is_true, number};
use core_unit::{BinaryOperator, Expr, LogicalOperator, Sign, UnaryOperator, Word};
use eff_types::CType;
use std::alloc::Global;
use type_rules::{Constant, Found, Operand, Worth};
use typing_state::{Stop, Typing};

fn outcome(given: Result<Word, TrapKind>) -> Worth
    ensures { result ≡ spec.outcome given }
{
    match given {
        Ok(value) => Worth::Known(value),
        Err(_) => Worth::Trapped,
    }
}

#[tactic(auto, unfolding(crate::specs::Worths::of_unary))]
fn unary_worth(operator: UnaryOperator, operand: Worth) -> Worth
    ensures { result ≡ worths.of_unary operator operand }
{
    match operand {
        Worth::Known(value) => outcome(apply_unary(operator, value)),
        Worth::Trapped => Worth::Trapped,
        Worth::Varying => Worth::Varying,
    }
}

/// Of two operands, both of which are evaluated.
#[tactic(auto, unfolding(crate::specs::Worths::of_binary))]
fn binary_worth(operation: Operation, left: Worth, right: Worth) -> Worth
    ensures { result ≡ worths.of_binary operation left right }
{
    match (left, right) {
        (Worth::Varying, _) | (_, Worth::Varying) => Worth::Varying,
        (Worth::Known(a), Worth::Known(b)) => outcome(operation.apply(a, b)),
        (Worth::Trapped, _) | (_, Worth::Trapped) => Worth::Trapped,
    }
}

/// Whether the first operand alone tells what `&&` or `||` gives (C17 6.5.13 and 6.5.14).
fn decided(operator: LogicalOperator, first: bool) -> bool
    ensures { result ≡ spec.decided operator first }
{
    match operator {
        LogicalOperator::And => !first,
        LogicalOperator::Or => first,
    }
}

fn truth(held: bool) -> Worth
    ensures { result ≡ Worth.Known (values.number (operators.truth held)) }
{
    if held {
        Worth::Known(number(1))
    } else {
        Worth::Known(number(0))
    }
}

/// Both operands are constant; the right one may trap where the left one decides.
fn logical_worth(operator: LogicalOperator, left: Worth, right: Worth) -> Worth
    ensures { result ≡ spec.of_logical operator left right }
{
    match (left, right) {
        (Worth::Varying, _) | (_, Worth::Varying) => Worth::Varying,
        (Worth::Trapped, _) => Worth::Trapped,
        (Worth::Known(a), _) if decided(operator, is_true(a)) => truth(is_true(a)),
        (Worth::Known(_), Worth::Trapped) => Worth::Trapped,
        (Worth::Known(_), Worth::Known(b)) => truth(is_true(b)),
    }
}

/// All three operands are constant; the one that isn't chosen may trap (C17 6.5.15 and 6.6).
fn chosen_worth(test: Worth, second: Worth, third: Worth) -> Worth
    ensures { result ≡ spec.of_choice test second third }
{
    match (test, second, third) {
        (Worth::Varying, _, _) | (_, Worth::Varying, _) | (_, _, Worth::Varying) => Worth::Varying,
        (Worth::Trapped, _, _) => Worth::Trapped,
        (Worth::Known(value), _, _) if is_true(value) => second,
        (Worth::Known(_), _, _) => third,
    }
}

/// The sign of a number; of an operand that is none nothing depends on it.
fn operand_sign(expression: &Expr) -> Sign
    ensures { result ≡ signs.sign_or_signed (signs.constant_sign expression.now) }
{
    constant_sign(expression).unwrap_or(Sign::Signed)
}

/// The operation of an operator between constant operands.
fn operation_of(operator: BinaryOperator, left: &Expr, right: &Expr) -> Operation
    ensures { result ≡ operations.operation_of operator (signs.sign_or_signed (signs.constant_sign left.now)) (signs.sign_or_signed (signs.constant_sign right.now)) }
{
    Operation::of_binary(operator, operand_sign(left), operand_sign(right))
}

/// What an expression is worth before the program runs: a word, nothing since its evaluation traps, or what only the running program
/// tells. It is constant where it is made of constants, enumerators, `sizeof` and operators without assignment, comma and call.
#[tactic(auto, using(crate::proofs::Forms::worth_rules, crate::proofs::WorthLaws::worth_of_operators))]
pub fn worth(expression: &Expr) -> Worth
    ensures { result ≡ spec.worth expression.now }
{
    match expression {
        Expr::Number(_, bits) => Worth::Known(number(*bits)),
        Expr::Null => Worth::Known(Word::Zero),
        Expr::Sizeof(words) => Worth::Known(number(*words)),
        Expr::Function(_, _) => Worth::Varying,
        Expr::LibraryFunction(_) => Worth::Varying,
        Expr::TargetFunction(_) => Worth::Varying,
        Expr::FunctionPointer(_) => Worth::Varying,
        Expr::ArrayPointer(_) => Worth::Varying,
        Expr::AddressOf(_) => Worth::Varying,
        Expr::Load(_) => Worth::Varying,
        Expr::Assign(_, _) => Worth::Varying,
        Expr::Compound(_, _, _) => Worth::Varying,
        Expr::Step(_, _, _) => Worth::Varying,
        Expr::Unary(operator, e) => unary_worth(*operator, worth(e.get())),
        Expr::Binary(operator, a, b) => {
            let operation = operation_of(*operator, a.get(), b.get());
            binary_worth(operation, worth(a.get()), worth(b.get()))
        }
        Expr::Logical(operator, a, b) => logical_worth(*operator, worth(a.get()), worth(b.get())),
        Expr::Conditional(test, second, third) => {
            chosen_worth(worth(test.get()), worth(second.get()), worth(third.get()))
        }
        Expr::Comma(_, _) => Worth::Varying,
        Expr::Call(_, _, _, _) => Worth::Varying,
        Expr::Convert(_, _, e) => worth(e.get()),
        Expr::Discard(_) => Worth::Varying,
    }
}

fn is_known_zero(worth: Worth) -> bool
    ensures { result ≡ spec.is_known_zero worth }
{
    match worth {
        Worth::Known(value) => !is_true(value),
        Worth::Trapped => false,
        Worth::Varying => false,
    }
}

/// Whether it is a constant number of value 0.
#[tactic(auto, using(crate::proofs::WorthLaws::zero_number))]
fn is_zero_number(expression: &Expr) -> bool
    ensures { result ≡ spec.is_zero_number expression.now }
{
    if constant_sign(expression).is_some() {
        is_known_zero(worth(expression))
    } else {
        false
    }
}

fn is_null_type(kind: &CType) -> bool
    ensures { result ≡ (types.is_number kind.now || types.is_void_pointer kind.now) }
{
    kind.is_number() || is_void_pointer(kind)
}

/// Whether an expression is a null pointer constant (C17 6.3.2.3): `NULL`, a constant number of value 0, or that cast to `void *`.
#[tactic(auto, using(crate::proofs::WorthLaws::null_rules))]
fn is_null(expression: &Expr) -> bool
    ensures { result ≡ spec.is_null expression.now }
{
    match expression {
        Expr::Null => true,
        Expr::Convert(_, kind, e) => is_null_type(kind) && is_zero_number(e.get()),
        _ => is_zero_number(expression),
    }
}

/// Whether an operand is a null pointer constant.
pub fn is_null_constant(operand: &Operand) -> bool
    ensures { result ≡ spec.is_null_constant operand.now }
{
    is_null(operand.node.get())
}

/// A constant number, as the size of an array or the value of an enumerator is, once its expression is read. Rule 3 at the expression
/// where it is no number, rule 7 where it isn't constant or traps.
#[tactic(auto, unfolding(type_rules::specs::Constants::number_constant, type_rules::specs::Reading::and_then))]
pub fn number_constant(alloc: Global, typing: &Typing, found: Found) -> Result<Constant, Stop>
    ensures { Gives (spec.number_constant (gives found) typing.now) result typing.now }
{
    let value = operand(alloc, typing, found)?;
    let place = value.place;
    if !value.kind.get().is_number() {
        return Err(Stop::Fault { number: 3, place });
    }
    match worth(value.node.get()) {
        Worth::Known(word) => Ok(Constant {
            place,
            sign: sign_of(value.kind.get()),
            bits: bits_in(word),
        }),
        Worth::Trapped => Err(Stop::Fault { number: 7, place }),
        Worth::Varying => Err(Stop::Fault { number: 7, place }),
    }
}
