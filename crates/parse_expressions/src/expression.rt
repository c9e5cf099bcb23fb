//! Conditional expressions, assignments and commas (C17 6.5.15 to 6.5.17).

ghost use Rattle.std.specs.Prelude.{◌≡◌, ◌+◌, ◌*◌, ◌<◌, ◌-◌, IfOk};
ghost use Rattle.c_grammar.specs.Rules.{Expression, Assignment, Conditional};
ghost use Rattle.c_grammar.specs.Expressions.{assignment_operator};
ghost use Rattle.c_grammar.specs.Trees.{place_of, is_conditional, is_unary};
ghost use Rattle.parse_input.specs.Input.{sees};
ghost use Rattle.parse_input.specs.Reads.{named, reads, joined, Says};
ghost use Rattle.parse_expressions.specs.Nodes.{assignment_node, asks, assigns, branches};
ghost use Rattle.parse_operands.specs.Nested.{Nested};

use crate::parser::Expressions;
use c_grammar::{Precedence, Terminal};
use c_tree::{AssignmentOperator, BinaryOperator, Expr, TypeName};
use parse_input::{Input, Limits, Read, Refusal, place_of};
use parse_operands::Wanted;
use sqlite_items::Boxed;
use std::alloc::{AllocError, Global};

/// Whether this is a conditional expression.
fn is_conditional(expression: &Expr) -> bool
    ensures { result ≡ is_conditional expression.now }
{
    match expression {
        Expr::Conditional(_, _, _, _) => true,
        _ => false,
    }
}

/// Whether this may stand on the left of an assignment.
fn is_unary(expression: &Expr) -> bool
    ensures { result ≡ is_unary expression.now }
{
    match expression {
        Expr::Cast(_, _, _) => false,
        Expr::Binary(_, _, _, _, _) => false,
        Expr::Conditional(_, _, _, _) => false,
        Expr::Assignment(_, _, _, _, _) => false,
        _ => true,
    }
}

/// Whether a `?` goes on behind this.
#[tactic(auto, using(parse_input::proofs::Steps::sees_none, parse_input::proofs::Steps::sees_head))]
fn asks(test: &Expr, input: &Input<'_>) -> bool
    ensures { result ≡ sees (asks test.now) input.now.tokens }
{
    if input.is_done() {
        return false;
    }
    input.peek().is(Terminal::Question) && !is_conditional(test)
}

/// Whether an assignment operator goes on behind this.
#[tactic(auto, using(parse_input::proofs::Steps::sees_none, parse_input::proofs::Steps::sees_head))]
fn assigns(left: &Expr, input: &Input<'_>) -> bool
    ensures { result ≡ sees (assigns left.now) input.now.tokens }
{
    if input.is_done() {
        return false;
    }
    input.peek().is_among(&[
        Terminal::Equal,
        Terminal::StarEqual,
        Terminal::SlashEqual,
        Terminal::PercentEqual,
        Terminal::PlusEqual,
        Terminal::MinusEqual,
        Terminal::LeftShiftEqual,
        Terminal::RightShiftEqual,
        Terminal::AmpersandEqual,
        Terminal::CaretEqual,
        Terminal::BarEqual,
    ]) && is_unary(left)
}

/// The assignment operator that a token is.
fn assignment_of(terminal: Terminal) -> AssignmentOperator
    ensures { result ≡ assignment_operator terminal }
{
    match terminal {
        Terminal::StarEqual => AssignmentOperator::Multiply,
        Terminal::SlashEqual => AssignmentOperator::Divide,
        Terminal::PercentEqual => AssignmentOperator::Remainder,
        Terminal::PlusEqual => AssignmentOperator::Add,
        Terminal::MinusEqual => AssignmentOperator::Subtract,
        Terminal::LeftShiftEqual => AssignmentOperator::LeftShift,
        Terminal::RightShiftEqual => AssignmentOperator::RightShift,
        Terminal::AmpersandEqual => AssignmentOperator::And,
        Terminal::CaretEqual => AssignmentOperator::ExclusiveOr,
        Terminal::BarEqual => AssignmentOperator::Or,
        _ => AssignmentOperator::Plain,
    }
}

/// The node of a condition and its branches.
fn conditional_tree(
    alloc: Global,
    test: Boxed<Expr>,
    then: Boxed<Expr>,
    other: Boxed<Expr>,
) -> Result<Boxed<Expr>, AllocError>
    ensures { IfOk result (λ tree. tree ≡ Expr.Conditional (place_of test) test then other) }
{
    let place = place_of(test.get());
    Boxed::new(alloc, Expr::Conditional(place, test, then, other))
}

/// The node of an assignment.
fn assignment_tree(
    alloc: Global,
    left: Boxed<Expr>,
    operator: AssignmentOperator,
    place: u32,
    right: Boxed<Expr>,
) -> Result<Boxed<Expr>, AllocError>
    ensures { IfOk result (λ tree. tree ≡ Expr.Assignment (place_of left) left operator place right) }
{
    let start = place_of(left.get());
    Boxed::new(alloc, Expr::Assignment(start, left, operator, place, right))
}

impl<
    E: Fn(Global, Limits, Wanted, &mut Input<'_>) -> Result<Read<Boxed<Expr>>, Refusal>,
    T: Fn(Global, Limits, &mut Input<'_>) -> Result<Read<Boxed<TypeName>>, Refusal>,
> Expressions<E, T> {
    /// An expression: assignments with commas between them.
    #[tactic(auto, using(crate::proofs::Chains::expression_begins, crate::proofs::Chains::expression_ends, crate::proofs::Chains::expression_full, crate::proofs::Chains::expression_goes, parse_input::proofs::Steps::within, parse_input::proofs::Steps::sees_less))]
    pub fn expression(
        &self,
        limits: Limits,
        input: &mut Input<'_>,
    ) -> Result<Read<Boxed<Expr>>, Refusal>
        requires nested { Nested (2 * (limits.opens + limits.room)) (E.pre self.now.operands.expression) (E.post self.now.operands.expression) (T.pre self.now.operands.type_name) (T.post self.now.operands.type_name) }
        ensures reads { Says (named limits.room (Expression input.old.scope) input.old.tokens) result input.new.tokens }
        ensures kept { IfOk result (λ read. input.new.scope ≡ input.old.scope) }
    {
        let mut left = self.assignment(limits, input)?;
        'commas: loop {
            if !input.is(Terminal::Comma) {
                return Ok(left);
            }
            if left.depth >= limits.room {
                return Err(Refusal::Refused(true));
            }
            let comma = input.take();
            let operator = BinaryOperator::Comma;
            left = self.joined(
                limits,
                left,
                operator,
                comma.place(),
                Wanted::Assignment,
                input,
            )?;
        }
    }

    /// An assignment, or a conditional expression without one.
    #[tactic(auto, using(crate::proofs::Chains::assignment_begins, crate::proofs::Chains::assignment_ends, crate::proofs::Chains::assignment_full, crate::proofs::Chains::assignment_goes))]
    pub fn assignment(
        &self,
        limits: Limits,
        input: &mut Input<'_>,
    ) -> Result<Read<Boxed<Expr>>, Refusal>
        requires nested { Nested (2 * (limits.opens + limits.room)) (E.pre self.now.operands.expression) (E.post self.now.operands.expression) (T.pre self.now.operands.type_name) (T.post self.now.operands.type_name) }
        ensures reads { Says (named limits.room (Assignment input.old.scope) input.old.tokens) result input.new.tokens }
        ensures kept { IfOk result (λ read. input.new.scope ≡ input.old.scope) }
    {
        let left = self.conditional(limits, input)?;
        if !assigns(left.value.get(), input) {
            return Ok(left);
        }
        if left.depth >= limits.room {
            return Err(Refusal::Refused(true));
        }
        let seen = input.take();
        self.assigned(
            limits,
            left,
            assignment_of(seen.terminal()),
            seen.place(),
            input,
        )
    }

    /// The right side of an assignment, and the node of both.
    #[tactic(auto, using(parse_input::proofs::Steps::within))]
    fn assigned(
        &self,
        limits: Limits,
        left: Read<Boxed<Expr>>,
        operator: AssignmentOperator,
        place: u32,
        input: &mut Input<'_>,
    ) -> Result<Read<Boxed<Expr>>, Refusal>
        requires nested { Nested (2 * (limits.opens + limits.room)) (E.pre self.now.operands.expression) (E.post self.now.operands.expression) (T.pre self.now.operands.type_name) (T.post self.now.operands.type_name) }
        requires room { left.depth < limits.room }
        ensures reads { Says (assignment_node left.value left.depth operator place (named (limits.room - 1) (Assignment input.old.scope) input.old.tokens)) result input.new.tokens }
        ensures kept { IfOk result (λ read. input.new.scope ≡ input.old.scope) }
    {
        let right = self
            .operands
            .expression_inside(limits, Wanted::Assignment, input)?;
        Ok(Read {
            value: assignment_tree(
                self.operands.alloc,
                left.value,
                operator,
                place,
                right.value,
            )?,
            depth: left.depth.max(right.depth) + 1,
        })
    }

    /// A conditional expression, or binary operations without a `?` behind them.
    #[tactic(auto, using(crate::proofs::Chains::conditional_begins, crate::proofs::Chains::conditional_ends, crate::proofs::Chains::conditional_full, crate::proofs::Chains::conditional_goes))]
    pub fn conditional(
        &self,
        limits: Limits,
        input: &mut Input<'_>,
    ) -> Result<Read<Boxed<Expr>>, Refusal>
        requires nested { Nested (2 * (limits.opens + limits.room)) (E.pre self.now.operands.expression) (E.post self.now.operands.expression) (T.pre self.now.operands.type_name) (T.post self.now.operands.type_name) }
        ensures reads { Says (named limits.room (Conditional input.old.scope) input.old.tokens) result input.new.tokens }
        ensures kept { IfOk result (λ read. input.new.scope ≡ input.old.scope) }
    {
        let test = self.binary(limits, Precedence::LogicalOr, input)?;
        if !asks(test.value.get(), input) {
            return Ok(test);
        }
        if test.depth >= limits.room {
            return Err(Refusal::Refused(true));
        }
        let _question = input.take();
        self.branches(limits, test, input)
    }

    /// The branches of a condition, and the node of all.
    #[tactic(auto, using(parse_input::proofs::Steps::within))]
    fn branches(
        &self,
        limits: Limits,
        test: Read<Boxed<Expr>>,
        input: &mut Input<'_>,
    ) -> Result<Read<Boxed<Expr>>, Refusal>
        requires nested { Nested (2 * (limits.opens + limits.room)) (E.pre self.now.operands.expression) (E.post self.now.operands.expression) (T.pre self.now.operands.type_name) (T.post self.now.operands.type_name) }
        requires room { test.depth < limits.room }
        ensures reads { Says (joined test.depth (reads (named (limits.room - 1)) (branches input.old.scope test.value) input.old.tokens)) result input.new.tokens }
        ensures kept { IfOk result (λ read. input.new.scope ≡ input.old.scope) }
    {
        let then = self
            .operands
            .expression_inside(limits, Wanted::Expression, input)?;
        if !input.is(Terminal::Colon) {
            return Err(Refusal::Refused(false));
        }
        let _colon = input.take();
        let other = self
            .operands
            .expression_inside(limits, Wanted::Conditional, input)?;
        Ok(Read {
            value: conditional_tree(self.operands.alloc, test.value, then.value, other.value)?,
            depth: test.depth.max(then.depth.max(other.depth)) + 1,
        })
    }
}
