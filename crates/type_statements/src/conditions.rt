//! Expressions of statements (C17 6.8.3, 6.8.4.1 and 6.8.5).

ghost use Rattle.std.specs.Prelude.{◌≡◌, IfOk};
ghost use Rattle.type_rules.specs.Reading.{where_written};
ghost use Rattle.type_rules.specs.Operands as operands;
ghost use Rattle.type_rules.specs.Recursion as rules;
ghost use Rattle.type_rules.specs.Statements as spec;
ghost use Rattle.typing_state.specs.Answers.{Gives};

use c_tree::Expr as Written;
use core_unit::{Expr, Stmt};
use sqlite_items::Boxed;
use std::alloc::{AllocError, Global};
use type_operands::{is_scalar, operand};
use type_recursion::expression;
use type_rules::Operand;
use typing_state::{Stop, Typing};

/// An operand that begins where none around it does.
#[tactic(auto, using(crate::proofs::Forms::operand_rules))]
pub(crate) fn read_operand(alloc: Global, typing: &mut Typing, e: &Written) -> Result<Operand, Stop>
    ensures { Gives (operands.operand (rules.expression e.now) typing.old) result typing.new }
{
    let found = expression(alloc, typing, e)?;
    operand(alloc, typing, found)
}

/// An expression whose value is let go.
#[tactic(auto, unfolding(type_rules::specs::Statements::evaluated), using(type_recursion::proofs::Continued::then_rules))]
pub(crate) fn evaluated(
    alloc: Global,
    typing: &mut Typing,
    e: &Written,
) -> Result<Boxed<Expr>, Stop>
    ensures { Gives (spec.evaluated e.now typing.old) result typing.new }
{
    let value = read_operand(alloc, typing, e)?;
    Ok(value.node)
}

/// A condition: a number or a pointer, else rule 3.
#[tactic(auto, unfolding(type_rules::specs::Statements::condition), using(type_recursion::proofs::Continued::then_rules))]
pub(crate) fn condition(
    alloc: Global,
    typing: &mut Typing,
    e: &Written,
) -> Result<Boxed<Expr>, Stop>
    ensures { Gives (spec.condition e.now typing.old) result typing.new }
{
    let value = read_operand(alloc, typing, e)?;
    if is_scalar(value.kind.get()) {
        Ok(value.node)
    } else {
        Err(Stop::Fault {
            number: 3,
            place: value.place,
        })
    }
}

/// An expression whose value is let go, where one is written.
#[tactic(auto, using(type_recursion::proofs::Continued::then_rules))]
pub(crate) fn evaluated_where_written(
    alloc: Global,
    typing: &mut Typing,
    e: &Option<Boxed<Written>>,
) -> Result<Option<Boxed<Expr>>, Stop>
    ensures { Gives (where_written e.now spec.evaluated typing.old) result typing.new }
{
    match e {
        Some(e) => {
            let node = evaluated(alloc, typing, e.get())?;
            Ok(Some(node))
        }
        None => Ok(None),
    }
}

/// A condition, where one is written.
#[tactic(auto, using(type_recursion::proofs::Continued::then_rules))]
pub(crate) fn condition_where_written(
    alloc: Global,
    typing: &mut Typing,
    e: &Option<Boxed<Written>>,
) -> Result<Option<Boxed<Expr>>, Stop>
    ensures { Gives (where_written e.now spec.condition typing.old) result typing.new }
{
    match e {
        Some(e) => {
            let node = condition(alloc, typing, e.get())?;
            Ok(Some(node))
        }
        None => Ok(None),
    }
}

/// The statement of an expression, or an empty one. The one error is that no memory is left.
fn expression_or_nothing(
    alloc: Global,
    node: Option<Boxed<Expr>>,
) -> Result<Boxed<Stmt>, AllocError>
    ensures { IfOk result (λ s. s ≡ spec.expression_or_nothing node) }
{
    match node {
        Some(node) => Boxed::new(alloc, Stmt::Expression(node.into_inner())),
        None => Boxed::new(alloc, Stmt::Empty),
    }
}

/// An expression statement, or an empty one.
#[tactic(auto, unfolding(type_rules::specs::Statements::expression_statement), using(type_recursion::proofs::Continued::then_rules))]
pub(crate) fn expression_statement(
    alloc: Global,
    typing: &mut Typing,
    e: &Option<Boxed<Written>>,
) -> Result<Boxed<Stmt>, Stop>
    ensures { Gives (spec.expression_statement e.now typing.old) result typing.new }
{
    let node = evaluated_where_written(alloc, typing, e)?;
    Ok(expression_or_nothing(alloc, node)?)
}
