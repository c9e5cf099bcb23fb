//! Jumps and expression statements (C17 6.8.3 and 6.8.6).

ghost use Rattle.std.specs.Prelude.{◌≡◌, true, false, ◌<◌, ◌-◌, IfOk, MatchResult};
ghost use Rattle.grammar.specs.Parser.{one_more};
ghost use Rattle.c_grammar.specs.declared.terminal.Terminal.TheVariants as k;
ghost use Rattle.c_grammar.specs.Lexemes.{is};
ghost use Rattle.c_grammar.specs.Statements.{whole, statement_place};
ghost use Rattle.parse_input.specs.Input.{sees, after_token};
ghost use Rattle.parse_input.specs.Reads.{named, reads, Says};
ghost use Rattle.parse_statements.specs.Forms.{return_form, expression_form};

use crate::parts::{expression_until, maybe_expression};
use crate::values::Statement;
use c_grammar::Terminal;
use c_tree::{Expr, Stmt};
use parse_input::{Input, Limits, Read, Refusal, Seen, place_of};
use sqlite_items::Boxed;
use std::alloc::{AllocError, Global};

/// A statement that does not end in an `if` without its `else`.
pub fn whole(alloc: Global, tree: Stmt) -> Result<Statement, AllocError>
    ensures { IfOk result (λ statement. statement ≡ whole tree) }
{
    Ok(Statement {
        tree: Boxed::new(alloc, tree)?,
        is_open: false,
    })
}

/// The `;` behind a `break` or a `continue`.
pub fn jump_end(input: &mut Input<'_>) -> Result<(), Refusal>
    ensures ended { MatchResult result (λ _. (sees (is k.Semicolon) input.old.tokens ≡ true) × (input.new ≡ after_token input.old)) (λ refusal. (refusal ≡ Refusal.Refused false) × (sees (is k.Semicolon) input.old.tokens ≡ false) × (input.new ≡ input.old)) }
{
    if !input.is(Terminal::Semicolon) {
        return Err(Refusal::Refused(false));
    }
    let _end = input.take();
    Ok(())
}

/// A `return`.
#[tactic(auto, using(crate::proofs::Shapes::return_rule, parse_input::proofs::Steps::reads_within))]
pub fn return_statement(
    alloc: Global,
    limits: Limits,
    input: &mut Input<'_>,
) -> Result<Read<Statement>, Refusal>
    requires begins { sees (is k.Return) input.old.tokens ≡ true }
    requires room { 0 < limits.room }
    ensures reads { Says (one_more (reads (named (limits.room - 1)) (return_form input.old.scope) input.old.tokens)) result input.new.tokens }
    ensures kept { IfOk result (λ read. input.new.scope ≡ input.old.scope) }
{
    let first = input.take();
    let result = expression_until(alloc, limits.inside(), Terminal::Semicolon, input)?;
    Ok(Read {
        value: whole(alloc, Stmt::Return(first.place(), result.value))?,
        depth: result.depth + 1,
    })
}

/// The place of an expression statement.
fn statement_place(expression: &Option<Boxed<Expr>>, end: &Seen<'_>) -> u32
    ensures { result ≡ statement_place expression.now end.now }
{
    match expression {
        None => end.place(),
        Some(expression) => place_of(expression.get()),
    }
}

/// An expression statement.
#[tactic(auto, using(parse_input::proofs::Steps::within), unfolding(crate::specs::Forms::expression_form))]
pub fn expression_statement(
    alloc: Global,
    limits: Limits,
    input: &mut Input<'_>,
) -> Result<Read<Statement>, Refusal>
    requires room { 0 < limits.room }
    ensures reads { Says (one_more (reads (named (limits.room - 1)) (expression_form input.old.scope) input.old.tokens)) result input.new.tokens }
    ensures kept { IfOk result (λ read. input.new.scope ≡ input.old.scope) }
{
    let read = maybe_expression(alloc, limits.inside(), input)?;
    if !input.is(Terminal::Semicolon) {
        return Err(Refusal::Refused(false));
    }
    let end = input.take();
    let depth = read.depth;
    let expression = read.value;
    let place = statement_place(&expression, &end);
    Ok(Read {
        value: whole(alloc, Stmt::Expression(place, expression))?,
        depth: depth + 1,
    })
}
