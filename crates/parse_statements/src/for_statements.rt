//! `for` (C17 6.8.5.3).

ghost use Rattle.std.specs.Prelude.{◌≡◌, true, ◌<◌, ◌-◌, IfOk};
ghost use Rattle.grammar.specs.Parser.{one_more};
ghost use Rattle.c_grammar.specs.declared.terminal.Terminal.TheVariants as k;
ghost use Rattle.c_grammar.specs.Lexemes.{is};
ghost use Rattle.parse_input.specs.Input.{sees};
ghost use Rattle.parse_input.specs.Reads.{named, reads, Says};
ghost use Rattle.parse_statements.specs.Forms.{for_start, start_read, for_step, for_parts, for_form};
ghost use Rattle.parse_statements.specs.Nested.{ReadsStatements};
ghost use Rattle.parse_declarations.specs.Scoped.{Leaves, Extends};

use crate::parser::Statements;
use crate::parts::expression_until;
use crate::values::Statement;
use c_grammar::{SpecifierContext, Terminal};
use c_tree::{Expr, ForStart, Stmt};
use parse_declarations::declaration;
use parse_input::{Input, Limits, Read, Refusal, begins_specifiers, deeper};
use sqlite_items::Boxed;
use std::alloc::{AllocError, Global};

/// The start of a `for`, up to its first `;`.
#[tactic(auto, using(crate::proofs::Fors::start_rule, parse_declarations::proofs::Scopes::extends_same))]
fn for_start(
    alloc: Global,
    limits: Limits,
    input: &mut Input<'_>,
) -> Result<Read<ForStart>, Refusal>
    ensures reads { Leaves start_read (reads (named limits.room) (for_start input.old.scope) input.old.tokens) result input.new }
    ensures grown { IfOk result (λ read. Extends input.old.scope input.new.scope) }
{
    if begins_specifiers(SpecifierContext::Block, input) {
        let first = declaration(alloc, limits, input)?;
        return Ok(Read {
            value: ForStart::Declaration(first.value),
            depth: first.depth,
        });
    }
    let first = expression_until(alloc, limits, Terminal::Semicolon, input)?;
    Ok(Read {
        value: ForStart::Expression(first.value),
        depth: first.depth,
    })
}

/// A `for`.
fn for_tree(
    alloc: Global,
    place: u32,
    first: ForStart,
    test: Option<Boxed<Expr>>,
    next: Option<Boxed<Expr>>,
    body: Statement,
) -> Result<Statement, AllocError>
    ensures { IfOk result (λ statement. statement ≡ record { tree = Stmt.For place first test next body.tree; is_open = body.is_open }) }
{
    let is_open = body.is_open;
    Ok(Statement {
        tree: Boxed::new(alloc, Stmt::For(place, first, test, next, body.tree))?,
        is_open,
    })
}

impl<S: Fn(Global, Limits, bool, &mut Input<'_>) -> Result<Read<Statement>, Refusal>> Statements<
    S,
> {
    /// The step and the body of a `for`.
    #[tactic(auto, using(crate::proofs::Fors::step_rule))]
    fn for_step(
        &self,
        limits: Limits,
        place: u32,
        first: ForStart,
        test: Option<Boxed<Expr>>,
        input: &mut Input<'_>,
    ) -> Result<Read<Statement>, Refusal>
        requires nested { ReadsStatements limits.room (S.pre self.now.statement) (S.post self.now.statement) }
        requires room { 0 < limits.room }
        ensures reads { Says (reads (named (limits.room - 1)) (for_step input.old.scope place first test) input.old.tokens) result input.new.tokens }
        ensures kept { IfOk result (λ read. input.new.scope ≡ input.old.scope) }
    {
        let next = expression_until(self.alloc, limits.inside(), Terminal::CloseParen, input)?;
        let read = self.statement_inside(limits, true, input)?;
        let depth = deeper(next.depth, read.depth);
        Ok(Read {
            value: for_tree(self.alloc, place, first, test, next.value, read.value)?,
            depth,
        })
    }

    /// What follows the start of a `for`.
    #[tactic(auto, using(crate::proofs::Fors::parts_rule))]
    fn for_parts(
        &self,
        limits: Limits,
        place: u32,
        first: ForStart,
        input: &mut Input<'_>,
    ) -> Result<Read<Statement>, Refusal>
        requires nested { ReadsStatements limits.room (S.pre self.now.statement) (S.post self.now.statement) }
        requires room { 0 < limits.room }
        ensures reads { Says (reads (named (limits.room - 1)) (for_parts input.old.scope place first) input.old.tokens) result input.new.tokens }
        ensures kept { IfOk result (λ read. input.new.scope ≡ input.old.scope) }
    {
        let test = expression_until(self.alloc, limits.inside(), Terminal::Semicolon, input)?;
        let depth = test.depth;
        let rest = self.for_step(limits, place, first, test.value, input)?;
        Ok(Read {
            value: rest.value,
            depth: deeper(depth, rest.depth),
        })
    }

    /// A `for`.
    #[tactic(auto, using(crate::proofs::Fors::for_rule, parse_declarations::proofs::Scopes::extends_longer, parse_declarations::proofs::Scopes::extends_cut, parse_input::proofs::Steps::reads_within))]
    pub fn for_statement(
        &self,
        limits: Limits,
        input: &mut Input<'_>,
    ) -> Result<Read<Statement>, Refusal>
        requires nested { ReadsStatements limits.room (S.pre self.now.statement) (S.post self.now.statement) }
        requires room { 0 < limits.room }
        requires begins { sees (is k.For) input.old.tokens ≡ true }
        ensures reads { Says (one_more (reads (named (limits.room - 1)) (for_form input.old.scope) input.old.tokens)) result input.new.tokens }
        ensures kept { IfOk result (λ read. input.new.scope ≡ input.old.scope) }
    {
        let word = input.take();
        if !input.is(Terminal::OpenParen) {
            return Err(Refusal::Refused(false));
        }
        let _opened = input.take();
        let mark = input.mark();
        let first = for_start(self.alloc, limits.inside(), input)?;
        let depth = first.depth;
        let rest = self.for_parts(limits, word.place(), first.value, input)?;
        input.restore(mark);
        Ok(Read {
            value: rest.value,
            depth: deeper(depth, rest.depth) + 1,
        })
    }
}
