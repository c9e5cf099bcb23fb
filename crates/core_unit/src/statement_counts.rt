//! How many nodes initializers, statements and functions have, as far as 32 bits tell it.

ghost use Rattle.std.specs.Prelude.{◌≡◌, length};
ghost use Rattle.core_unit.specs.Layout.{told};
ghost use Rattle.core_unit.specs.Nodes as spec;
ghost use Rattle.core_unit.specs.Nodes.{nodes};
ghost use Rattle.core_unit.specs.declared.body.Initializer.TheVariants.{Value};
ghost use Rattle.core_unit.specs.declared.expressions.Expr.{Expr};

use crate::body::{Braces, Initializer, Stmt};
use crate::counts::{nodes, sum};
use crate::expressions::Expr;
use crate::tables::FunctionInfo;
use eff_types::CType;

/// Those of the initializer of a scalar, whose expression has this many.
#[tactic(auto, using(crate::proofs::StatementEquations::initializer_rules, crate::proofs::Sums::few))]
fn value_nodes(braces: Braces, count: u32) -> u32
    ensures { (e : Expr) → count ≡ told (nodes e) → result ≡ told (spec.initializer_nodes (Value braces e)) }
{
    match braces {
        Braces::Bare => sum(1, count),
        Braces::Braced => sum(2, count),
    }
}

/// The nodes of an initializer, or 2^32 - 1 where there are more.
#[cycle(initializers)]
#[tactic(auto, using(crate::proofs::StatementEquations::initializer_rules, crate::proofs::Sums::few))]
pub fn initializer_nodes(initializer: &Initializer) -> u32
    ensures { result ≡ told (spec.initializer_nodes initializer.now) }
{
    match initializer {
        Initializer::Absent(_) => 0,
        Initializer::Value(braces, e) => value_nodes(*braces, nodes(e)),
        Initializer::List(initializers, _) => sum(1, initializers_nodes(initializers.as_slice())),
        Initializer::Text(_, _) => 2,
        Initializer::Zeros(_) => 3,
        Initializer::Mutex => 2,
    }
}

#[cycle(initializers)]
fn initializers_nodes(initializers: &[Initializer]) -> u32
    ensures { result ≡ told (spec.listed_nodes initializers.now) }
{
    let mut total = 0;
    'each: for initializer in initializers {
        total = sum(total, initializer_nodes(initializer));
    }
    total
}

#[tactic(auto, using(crate::proofs::Sums::few))]
fn optional_nodes(expression: &Option<Expr>) -> u32
    ensures { result ≡ told (spec.optional_nodes expression.now) }
{
    match expression {
        None => 0,
        Some(e) => nodes(e),
    }
}

/// The nodes of a statement, or 2^32 - 1 where there are more.
#[cycle(statements)]
#[tactic(auto, using(crate::proofs::StatementEquations::stmt_node_rules, crate::proofs::Sums::few))]
pub fn statement_nodes(statement: &Stmt) -> u32
    ensures { result ≡ told (spec.stmt_nodes statement.now) }
{
    match statement {
        Stmt::Block(items) => sum(1, statements_nodes(items.as_slice())),
        Stmt::Variable(variable) => sum(1, initializer_nodes(&variable.initializer)),
        Stmt::Empty => 1,
        Stmt::Expression(e) => sum(1, nodes(e)),
        Stmt::If(condition, body, other) => {
            let tested = sum(sum(1, nodes(condition)), statement_nodes(body.get()));
            sum(tested, statements_nodes(other.as_slice()))
        }
        Stmt::Loop(_, condition, body) => {
            sum(sum(1, nodes(condition)), statement_nodes(body.get()))
        }
        Stmt::For(start, condition, step, body) => {
            let begun = sum(1, begun_nodes(start.as_slice()));
            let head = sum(sum(begun, optional_nodes(condition)), optional_nodes(step));
            sum(head, statement_nodes(body.get()))
        }
        Stmt::Break => 1,
        Stmt::Continue => 1,
        Stmt::Return(value) => sum(1, optional_nodes(value)),
    }
}

#[cycle(statements)]
fn statements_nodes(statements: &[Stmt]) -> u32
    ensures { result ≡ told (spec.list_nodes statements.now) }
{
    let mut total = 0;
    'each: for statement in statements {
        total = sum(total, statement_nodes(statement));
    }
    total
}

/// Of what begins a `for`: an expression there is no statement.
#[cycle(statements)]
fn begun_nodes(statements: &[Stmt]) -> u32
    ensures { result ≡ told (spec.begun_nodes statements.now) }
{
    let mut total = 0;
    'each: for statement in statements {
        let count = match statement {
            Stmt::Expression(e) => nodes(e),
            _ => statement_nodes(statement),
        };
        total = sum(total, count);
    }
    total
}

/// How many there are, as far as 32 bits tell it.
fn length(types: &[CType]) -> u32
    ensures { result ≡ told (length types.now) }
{
    types.len().min(u32::MAX as usize) as u32
}

/// The nodes of the definition of a function, or 2^32 - 1 where there are more; none where it is only declared.
#[tactic(auto, using(crate::proofs::Sums::few))]
pub fn function_nodes(function: &FunctionInfo) -> u32
    ensures { result ≡ told (spec.function_nodes function.now) }
{
    match &function.body {
        None => 0,
        Some(body) => {
            let head = sum(2, length(function.kind.params.as_slice()));
            sum(head, statements_nodes(body.items.as_slice()))
        }
    }
}
