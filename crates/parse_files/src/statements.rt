//! Statements (C17 6.8).

ghost use Rattle.std.specs.Prelude.{◌≡◌, ◌&&◌, ◌<◌, ◌-◌, IfOk};
ghost use Rattle.grammar.specs.Parser.{one_more};
ghost use Rattle.c_grammar.specs.Lexemes.{is};
ghost use Rattle.parse_input.specs.Input.{sees};
ghost use Rattle.c_grammar.specs.Rules.{Statement as NamedStatement};
ghost use Rattle.parse_input.specs.Reads.{named, reads, Says};
ghost use Rattle.parse_files.specs.Kinds.{block_form, plain_kinds};
ghost use Rattle.parse_statements.specs.Nested.{ReadsStatements};

use crate::begins::begins_statement;
use crate::parser::Blocks;
use c_grammar::Terminal;
use c_tree::Stmt;
use parse_input::{Input, Limits, Read, Refusal};
use parse_statements::{
    Statement, Statements, expression_statement, jump_end, return_statement, whole,
};
use std::alloc::Global;

/// Whether this word comes next, in a loop.
#[tactic(auto, using(parse_input::proofs::Steps::sees_none, parse_input::proofs::Steps::sees_head))]
fn is_in_loop(terminal: Terminal, in_loop: bool, input: &Input<'_>) -> bool
    ensures { result ≡ sees (λ t. is terminal t && in_loop) input.now.tokens }
{
    if input.is_done() {
        return false;
    }
    input.peek().is(terminal) && in_loop
}

impl<S: Fn(Global, Limits, bool, &mut Input<'_>) -> Result<Read<Statement>, Refusal>> Blocks<S> {
    /// A block as a statement.
    #[tactic(auto, using(crate::proofs::Picks::block_kind))]
    fn block_statement(
        &self,
        limits: Limits,
        in_loop: bool,
        input: &mut Input<'_>,
    ) -> Result<Read<Statement>, Refusal>
        requires nested { ReadsStatements limits.room (S.pre self.now.statements.statement) (S.post self.now.statements.statement) }
        requires room { 0 < limits.room }
        ensures reads { Says (one_more (reads (named (limits.room - 1)) (block_form input.old.scope in_loop) input.old.tokens)) result input.new.tokens }
        ensures kept { IfOk result (λ read. input.new.scope ≡ input.old.scope) }
    {
        let read = self.block(limits, in_loop, input)?;
        let depth = read.depth;
        let block = read.value;
        Ok(Read {
            value: whole(self.statements.alloc, Stmt::Block(block.place, block.items))?,
            depth,
        })
    }

    /// `break` and `continue` in a loop, `return`, and an expression statement.
    #[tactic(auto, using(crate::proofs::Picks::plain_rule))]
    fn plain_statement(
        &self,
        limits: Limits,
        in_loop: bool,
        input: &mut Input<'_>,
    ) -> Result<Read<Statement>, Refusal>
        requires room { 0 < limits.room }
        ensures reads { Says (one_more (reads (named (limits.room - 1)) (plain_kinds input.old.scope in_loop) input.old.tokens)) result input.new.tokens }
        ensures kept { IfOk result (λ read. input.new.scope ≡ input.old.scope) }
    {
        if is_in_loop(Terminal::Break, in_loop, input) {
            let place = input.take().place();
            jump_end(input)?;
            return Ok(Read {
                value: whole(self.statements.alloc, Stmt::Break(place))?,
                depth: 1,
            });
        }
        if is_in_loop(Terminal::Continue, in_loop, input) {
            let place = input.take().place();
            jump_end(input)?;
            return Ok(Read {
                value: whole(self.statements.alloc, Stmt::Continue(place))?,
                depth: 1,
            });
        }
        if input.is(Terminal::Return) {
            return return_statement(self.statements.alloc, limits, input);
        }
        expression_statement(self.statements.alloc, limits, input)
    }

    /// A statement.
    #[tactic(auto, using(crate::proofs::Picks::statement_rule, crate::proofs::Picks::no_statement))]
    pub fn statement(
        &self,
        limits: Limits,
        in_loop: bool,
        input: &mut Input<'_>,
    ) -> Result<Read<Statement>, Refusal>
        requires nested { ReadsStatements limits.room (S.pre self.now.statements.statement) (S.post self.now.statements.statement) }
        ensures reads { Says (named limits.room (NamedStatement input.old.scope in_loop) input.old.tokens) result input.new.tokens }
        ensures kept { IfOk result (λ read. input.new.scope ≡ input.old.scope) }
    {
        if limits.room == 0 {
            return Err(Refusal::Refused(begins_statement(in_loop, input)));
        }
        if input.is(Terminal::OpenBrace) {
            return self.block_statement(limits, in_loop, input);
        }
        if input.is(Terminal::If) {
            return self.statements.if_statement(limits, in_loop, input);
        }
        if input.is(Terminal::While) {
            return self.statements.while_statement(limits, input);
        }
        if input.is(Terminal::Do) {
            return self.statements.do_statement(limits, input);
        }
        if input.is(Terminal::For) {
            return self.statements.for_statement(limits, input);
        }
        self.plain_statement(limits, in_loop, input)
    }
}

/// A statement.
pub fn read_statement(
    alloc: Global,
    limits: Limits,
    in_loop: bool,
    input: &mut Input<'_>,
) -> Result<Read<Statement>, Refusal>
    ensures reads { Says (named limits.room (NamedStatement input.old.scope in_loop) input.old.tokens) result input.new.tokens }
    ensures kept { IfOk result (λ read. input.new.scope ≡ input.old.scope) }
{
    Blocks {
        statements: Statements {
            alloc,
            statement: read_statement,
        },
    }
    .statement(limits, in_loop, input)
}
