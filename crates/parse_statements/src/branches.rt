//! `if`, `while` and `do` (C17 6.8.4 and 6.8.5).

ghost use Rattle.std.specs.Prelude.{◌≡◌, true, not, ◌&&◌, ◌<◌, ◌-◌, IfOk, Some, None};
ghost use Rattle.grammar.specs.Parser.{one_more};
ghost use Rattle.c_grammar.specs.declared.terminal.Terminal.TheVariants as k;
ghost use Rattle.c_grammar.specs.Lexemes.{is};
ghost use Rattle.parse_input.specs.Input.{sees};
ghost use Rattle.parse_input.specs.Reads.{named, reads, Says};
ghost use Rattle.parse_statements.specs.Forms.{else_parts, if_parts, if_form, while_form, do_test, do_form};
ghost use Rattle.parse_statements.specs.Nested.{ReadsStatements};

use crate::jumps::whole;
use crate::parser::Statements;
use crate::parts::condition;
use crate::values::Statement;
use c_grammar::Terminal;
use c_tree::{Expr, Stmt};
use parse_input::{Input, Limits, Read, Refusal, deeper};
use sqlite_items::Boxed;
use std::alloc::{AllocError, Global};

/// Whether an `else` belongs to the `if` before a statement.
#[tactic(auto, using(parse_input::proofs::Steps::sees_none, parse_input::proofs::Steps::sees_head))]
fn goes_on(is_open: bool, input: &Input<'_>) -> bool
    ensures { result ≡ sees (λ t. is k.Else t && not is_open) input.now.tokens }
{
    if input.is_done() {
        return false;
    }
    input.peek().is(Terminal::Else) && !is_open
}

/// An `if` without `else`.
fn if_alone(
    alloc: Global,
    place: u32,
    test: Boxed<Expr>,
    body: Boxed<Stmt>,
) -> Result<Statement, AllocError>
    ensures { IfOk result (λ statement. statement ≡ record { tree = Stmt.If place test body None; is_open = true }) }
{
    Ok(Statement {
        tree: Boxed::new(alloc, Stmt::If(place, test, body, None))?,
        is_open: true,
    })
}

/// An `if` with its `else`.
fn if_else(
    alloc: Global,
    place: u32,
    test: Boxed<Expr>,
    body: Boxed<Stmt>,
    other: Statement,
) -> Result<Statement, AllocError>
    ensures { IfOk result (λ statement. statement ≡ record { tree = Stmt.If place test body (Some other.tree); is_open = other.is_open }) }
{
    let is_open = other.is_open;
    Ok(Statement {
        tree: Boxed::new(alloc, Stmt::If(place, test, body, Some(other.tree)))?,
        is_open,
    })
}

/// A `while`.
fn while_tree(
    alloc: Global,
    place: u32,
    test: Boxed<Expr>,
    body: Statement,
) -> Result<Statement, AllocError>
    ensures { IfOk result (λ statement. statement ≡ record { tree = Stmt.While place test body.tree; is_open = body.is_open }) }
{
    let is_open = body.is_open;
    Ok(Statement {
        tree: Boxed::new(alloc, Stmt::While(place, test, body.tree))?,
        is_open,
    })
}

impl<S: Fn(Global, Limits, bool, &mut Input<'_>) -> Result<Read<Statement>, Refusal>> Statements<
    S,
> {
    /// What follows the first statement of an `if`.
    #[tactic(auto, using(parse_input::proofs::Steps::max_zero), unfolding(crate::specs::Forms::else_parts))]
    fn else_branch(
        &self,
        limits: Limits,
        in_loop: bool,
        place: u32,
        test: Boxed<Expr>,
        body: Statement,
        input: &mut Input<'_>,
    ) -> Result<Read<Statement>, Refusal>
        requires nested { ReadsStatements limits.room (S.pre self.now.statement) (S.post self.now.statement) }
        requires room { 0 < limits.room }
        ensures reads { Says (reads (named (limits.room - 1)) (else_parts input.old.scope in_loop place test body) input.old.tokens) result input.new.tokens }
        ensures kept { IfOk result (λ read. input.new.scope ≡ input.old.scope) }
    {
        if !goes_on(body.is_open, input) {
            return Ok(Read {
                value: if_alone(self.alloc, place, test, body.tree)?,
                depth: 0,
            });
        }
        let _else = input.take();
        let other = self.statement_inside(limits, in_loop, input)?;
        let depth = other.depth;
        Ok(Read {
            value: if_else(self.alloc, place, test, body.tree, other.value)?,
            depth,
        })
    }

    /// What follows the condition of an `if`.
    #[tactic(auto, unfolding(crate::specs::Forms::if_parts))]
    fn branches(
        &self,
        limits: Limits,
        in_loop: bool,
        place: u32,
        test: Boxed<Expr>,
        input: &mut Input<'_>,
    ) -> Result<Read<Statement>, Refusal>
        requires nested { ReadsStatements limits.room (S.pre self.now.statement) (S.post self.now.statement) }
        requires room { 0 < limits.room }
        ensures reads { Says (reads (named (limits.room - 1)) (if_parts input.old.scope in_loop place test) input.old.tokens) result input.new.tokens }
        ensures kept { IfOk result (λ read. input.new.scope ≡ input.old.scope) }
    {
        let read = self.statement_inside(limits, in_loop, input)?;
        let depth = read.depth;
        let rest = self.else_branch(limits, in_loop, place, test, read.value, input)?;
        Ok(Read {
            value: rest.value,
            depth: deeper(depth, rest.depth),
        })
    }

    /// An `if`.
    #[tactic(auto, using(crate::proofs::Shapes::if_rule, parse_input::proofs::Steps::reads_within))]
    pub fn if_statement(
        &self,
        limits: Limits,
        in_loop: bool,
        input: &mut Input<'_>,
    ) -> Result<Read<Statement>, Refusal>
        requires nested { ReadsStatements limits.room (S.pre self.now.statement) (S.post self.now.statement) }
        requires room { 0 < limits.room }
        requires begins { sees (is k.If) input.old.tokens ≡ true }
        ensures reads { Says (one_more (reads (named (limits.room - 1)) (if_form input.old.scope in_loop) input.old.tokens)) result input.new.tokens }
        ensures kept { IfOk result (λ read. input.new.scope ≡ input.old.scope) }
    {
        let first = input.take();
        let test = condition(self.alloc, limits.inside(), input)?;
        let depth = test.depth;
        let rest = self.branches(limits, in_loop, first.place(), test.value, input)?;
        Ok(Read {
            value: rest.value,
            depth: deeper(depth, rest.depth) + 1,
        })
    }

    /// A `while`.
    #[tactic(auto, using(crate::proofs::Shapes::while_rule, parse_input::proofs::Steps::within, parse_input::proofs::Steps::reads_within))]
    pub fn while_statement(
        &self,
        limits: Limits,
        input: &mut Input<'_>,
    ) -> Result<Read<Statement>, Refusal>
        requires nested { ReadsStatements limits.room (S.pre self.now.statement) (S.post self.now.statement) }
        requires room { 0 < limits.room }
        requires begins { sees (is k.While) input.old.tokens ≡ true }
        ensures reads { Says (one_more (reads (named (limits.room - 1)) (while_form input.old.scope) input.old.tokens)) result input.new.tokens }
        ensures kept { IfOk result (λ read. input.new.scope ≡ input.old.scope) }
    {
        let first = input.take();
        let test = condition(self.alloc, limits.inside(), input)?;
        let read = self.statement_inside(limits, true, input)?;
        let depth = deeper(test.depth, read.depth) + 1;
        Ok(Read {
            value: while_tree(self.alloc, first.place(), test.value, read.value)?,
            depth,
        })
    }

    /// What follows the second word of a `do`.
    #[tactic(auto, using(crate::proofs::Shapes::do_test_rule))]
    fn do_test(
        &self,
        limits: Limits,
        place: u32,
        body: Boxed<Stmt>,
        input: &mut Input<'_>,
    ) -> Result<Read<Statement>, Refusal>
        ensures reads { Says (reads (named limits.room) (do_test input.old.scope place body) input.old.tokens) result input.new.tokens }
        ensures kept { IfOk result (λ read. input.new.scope ≡ input.old.scope) }
    {
        let test = condition(self.alloc, limits, input)?;
        if !input.is(Terminal::Semicolon) {
            return Err(Refusal::Refused(false));
        }
        let _end = input.take();
        let depth = test.depth;
        Ok(Read {
            value: whole(self.alloc, Stmt::DoWhile(place, body, test.value))?,
            depth,
        })
    }

    /// A `do`.
    #[tactic(auto, using(crate::proofs::Shapes::do_rule, parse_input::proofs::Steps::within, parse_input::proofs::Steps::reads_within))]
    pub fn do_statement(
        &self,
        limits: Limits,
        input: &mut Input<'_>,
    ) -> Result<Read<Statement>, Refusal>
        requires nested { ReadsStatements limits.room (S.pre self.now.statement) (S.post self.now.statement) }
        requires room { 0 < limits.room }
        requires begins { sees (is k.Do) input.old.tokens ≡ true }
        ensures reads { Says (one_more (reads (named (limits.room - 1)) (do_form input.old.scope) input.old.tokens)) result input.new.tokens }
        ensures kept { IfOk result (λ read. input.new.scope ≡ input.old.scope) }
    {
        let first = input.take();
        let read = self.statement_inside(limits, true, input)?;
        if !input.is(Terminal::While) {
            return Err(Refusal::Refused(false));
        }
        let _while = input.take();
        let depth = read.depth;
        let body = read.value;
        let rest = self.do_test(limits.inside(), first.place(), body.tree, input)?;
        Ok(Read {
            value: rest.value,
            depth: deeper(depth, rest.depth) + 1,
        })
    }
}
