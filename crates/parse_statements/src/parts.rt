//! Expressions in statements.

ghost use Rattle.std.specs.Prelude.{◌≡◌, IfOk};
ghost use Rattle.c_grammar.specs.Rules.{MaybeExpression};
ghost use Rattle.parse_input.specs.Reads.{named, reads, Says};
ghost use Rattle.parse_statements.specs.Forms.{condition, expression_until};

use c_grammar::Terminal;
use c_tree::Expr;
use parse_input::{Input, Limits, Read, Refusal, begins_expression};
use parse_operands::Wanted;
use parse_recursion::expression;
use sqlite_items::Boxed;
use std::alloc::Global;

/// An expression, or none.
#[tactic(auto, using(crate::proofs::Phrases::maybe_rule))]
pub fn maybe_expression(
    alloc: Global,
    limits: Limits,
    input: &mut Input<'_>,
) -> Result<Read<Option<Boxed<Expr>>>, Refusal>
    ensures reads { Says (named limits.room (MaybeExpression input.old.scope) input.old.tokens) result input.new.tokens }
    ensures kept { IfOk result (λ read. input.new.scope ≡ input.old.scope) }
{
    if !begins_expression(input) {
        return Ok(Read {
            value: None,
            depth: 0,
        });
    }
    let read = expression(alloc, limits, Wanted::Expression, input)?;
    Ok(Read {
        value: Some(read.value),
        depth: read.depth,
    })
}

/// An expression, or none, and the token behind it.
#[tactic(auto, using(crate::proofs::Phrases::until_rule))]
pub fn expression_until(
    alloc: Global,
    limits: Limits,
    terminal: Terminal,
    input: &mut Input<'_>,
) -> Result<Read<Option<Boxed<Expr>>>, Refusal>
    ensures reads { Says (reads (named limits.room) (expression_until terminal input.old.scope) input.old.tokens) result input.new.tokens }
    ensures kept { IfOk result (λ read. input.new.scope ≡ input.old.scope) }
{
    let read = maybe_expression(alloc, limits, input)?;
    if !input.is(terminal) {
        return Err(Refusal::Refused(false));
    }
    let _end = input.take();
    Ok(read)
}

/// A condition in parentheses.
#[tactic(auto, using(crate::proofs::Phrases::condition_rule))]
pub fn condition(
    alloc: Global,
    limits: Limits,
    input: &mut Input<'_>,
) -> Result<Read<Boxed<Expr>>, Refusal>
    ensures reads { Says (reads (named limits.room) (condition input.old.scope) input.old.tokens) result input.new.tokens }
    ensures kept { IfOk result (λ read. input.new.scope ≡ input.old.scope) }
{
    if !input.is(Terminal::OpenParen) {
        return Err(Refusal::Refused(false));
    }
    let _opened = input.take();
    let test = expression(alloc, limits, Wanted::Expression, input)?;
    if !input.is(Terminal::CloseParen) {
        return Err(Refusal::Refused(false));
    }
    let _closed = input.take();
    Ok(test)
}
