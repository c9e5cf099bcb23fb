//! Postfix expressions (C17 6.5.2).

ghost use Rattle.std.specs.Prelude.{◌≡◌, ◌+◌, ◌*◌, ◌<◌, ◌-◌, max, IfOk, IfErr};
ghost use Rattle.c_grammar.specs.Trees.{place_of, is_cast};
ghost use Rattle.c_grammar.specs.Rules.{Arguments, Postfix};
ghost use Rattle.parse_input.specs.Reads.{named, reads, joined, Says};
ghost use Rattle.parse_operands.specs.Parts.{goes_on, index_rest, call_rest, access_rest, step_reads};
ghost use Rattle.parse_operands.specs.Nested.{Nested};

use crate::parser::Operands;
use crate::primary::node;
use crate::wanted::Wanted;
use c_grammar::{Front, Terminal};
use c_tree::{AccessOperator, Expr, Span, StepOperator, TypeName};
use parse_input::{Input, Limits, Read, Refusal, begins_expression, place_of};
use sqlite_items::{Boxed, Items};
use std::alloc::Global;

/// Whether the expression is a cast.
fn is_cast(expression: &Expr) -> bool
    ensures { result ≡ is_cast expression.now }
{
    match expression {
        Expr::Cast(_, _, _) => true,
        _ => false,
    }
}

/// Whether a step of a postfix expression stands here, behind this expression.
#[tactic(auto, unfolding(crate::specs::Parts::goes_on))]
fn goes_on(left: &Expr, input: &Input<'_>) -> bool
    ensures { result ≡ goes_on left.now input.now.tokens }
{
    input.is_among(&[
        Terminal::OpenBracket,
        Terminal::OpenParen,
        Terminal::Dot,
        Terminal::Arrow,
        Terminal::Increment,
        Terminal::Decrement,
    ]) && !is_cast(left)
}

/// A member of what was read.
fn accessed(
    alloc: Global,
    left: Read<Boxed<Expr>>,
    operator: AccessOperator,
    member: Span,
) -> Result<Read<Boxed<Expr>>, Refusal>
    requires { left.depth < u32.MAX }
    ensures value { IfOk result (λ read. read ≡ record { value = Expr.Access (place_of left.value) left.value operator member; depth = left.depth + 1 }) }
    ensures memory { IfErr result (λ refusal. refusal ≡ Refusal.NoMemory) }
{
    let place = place_of(left.value.get());
    let depth = left.depth + 1;
    node(
        alloc,
        Expr::Access(place, left.value, operator, member),
        depth,
    )
}

/// What was read, at an index.
fn indexed(
    alloc: Global,
    left: Read<Boxed<Expr>>,
    at: Read<Boxed<Expr>>,
) -> Result<Read<Boxed<Expr>>, Refusal>
    requires { max left.depth at.depth < u32.MAX }
    ensures value { IfOk result (λ read. read ≡ record { value = Expr.Index (place_of left.value) left.value at.value; depth = max left.depth at.depth + 1 }) }
    ensures memory { IfErr result (λ refusal. refusal ≡ Refusal.NoMemory) }
{
    let depth = left.depth.max(at.depth) + 1;
    let place = place_of(left.value.get());
    node(alloc, Expr::Index(place, left.value, at.value), depth)
}

/// A call of what was read.
fn called(
    alloc: Global,
    left: Read<Boxed<Expr>>,
    given: Read<Items<Expr>>,
) -> Result<Read<Boxed<Expr>>, Refusal>
    requires { max left.depth given.depth < u32.MAX }
    ensures value { IfOk result (λ read. read ≡ record { value = Expr.Call (place_of left.value) left.value given.value; depth = max left.depth given.depth + 1 }) }
    ensures memory { IfErr result (λ refusal. refusal ≡ Refusal.NoMemory) }
{
    let depth = left.depth.max(given.depth) + 1;
    let place = place_of(left.value.get());
    node(alloc, Expr::Call(place, left.value, given.value), depth)
}

/// The member that is accessed behind `.` or `->`.
#[tactic(auto, using(parse_input::proofs::Steps::max_zero))]
fn access(
    alloc: Global,
    left: Read<Boxed<Expr>>,
    operator: AccessOperator,
    input: &mut Input<'_>,
) -> Result<Read<Boxed<Expr>>, Refusal>
    requires { left.depth < u32.MAX }
    ensures reads { Says (joined left.depth (reads (named 0) (access_rest left.value operator) input.old.tokens)) result input.new.tokens }
    ensures kept { IfOk result (λ read. input.new.scope ≡ input.old.scope) }
{
    if !input.is(Terminal::Name) {
        return Err(Refusal::Refused(false));
    }
    let member = input.take().span();
    accessed(alloc, left, operator, member)
}

/// A `++` or `--` behind what was read.
fn stepped(
    alloc: Global,
    left: Read<Boxed<Expr>>,
    operator: StepOperator,
) -> Result<Read<Boxed<Expr>>, Refusal>
    requires { left.depth < u32.MAX }
    ensures value { IfOk result (λ read. read ≡ record { value = Expr.Step (place_of left.value) left.value operator; depth = left.depth + 1 }) }
    ensures memory { IfErr result (λ refusal. refusal ≡ Refusal.NoMemory) }
{
    let place = place_of(left.value.get());
    let depth = left.depth + 1;
    node(alloc, Expr::Step(place, left.value, operator), depth)
}

impl<
    E: Fn(Global, Limits, Wanted, &mut Input<'_>) -> Result<Read<Boxed<Expr>>, Refusal>,
    T: Fn(Global, Limits, &mut Input<'_>) -> Result<Read<Boxed<TypeName>>, Refusal>,
> Operands<E, T> {
    /// The arguments of a call, perhaps none.
    #[tactic(auto, using(crate::proofs::Postfixes::no_arguments, crate::proofs::Postfixes::arguments_begin, crate::proofs::Postfixes::arguments_bad, crate::proofs::Postfixes::arguments_more, crate::proofs::Postfixes::arguments_end, parse_input::proofs::Steps::sees_less, parse_input::proofs::Steps::shorter))]
    fn arguments(&self, limits: Limits, input: &mut Input<'_>) -> Result<Read<Items<Expr>>, Refusal>
        requires nested { Nested (2 * (limits.opens + limits.room)) (E.pre self.now.expression) (E.post self.now.expression) (T.pre self.now.type_name) (T.post self.now.type_name) }
        requires room { 0 < limits.room }
        ensures reads { Says (named (limits.room - 1) (Arguments input.old.scope) input.old.tokens) result input.new.tokens }
        ensures kept { IfOk result (λ read. input.new.scope ≡ input.old.scope) }
    {
        let mut given = Items::new(self.alloc);
        let mut depth = 0;
        if !begins_expression(input) {
            return Ok(Read {
                value: given,
                depth,
            });
        }
        'each: loop {
            let argument = self.expression_inside(limits, Wanted::Assignment, input)?;
            depth = depth.max(argument.depth);
            given.push(argument.value.into_inner())?;
            if !input.is(Terminal::Comma) {
                return Ok(Read {
                    value: given,
                    depth,
                });
            }
            let _comma = input.take();
        }
    }

    /// The index in brackets, up to its end.
    #[tactic(auto, using(parse_input::proofs::Steps::within, parse_input::proofs::Steps::max_zero))]
    fn index(
        &self,
        limits: Limits,
        left: Read<Boxed<Expr>>,
        input: &mut Input<'_>,
    ) -> Result<Read<Boxed<Expr>>, Refusal>
        requires nested { Nested (2 * (limits.opens + limits.room)) (E.pre self.now.expression) (E.post self.now.expression) (T.pre self.now.type_name) (T.post self.now.type_name) }
        requires room { left.depth < limits.room }
        ensures reads { Says (joined left.depth (reads (named (limits.room - 1)) (index_rest input.old.scope left.value) input.old.tokens)) result input.new.tokens }
        ensures kept { IfOk result (λ read. input.new.scope ≡ input.old.scope) }
    {
        let at = self.expression_inside(limits, Wanted::Expression, input)?;
        if !input.is(Terminal::CloseBracket) {
            return Err(Refusal::Refused(false));
        }
        let _closed = input.take();
        indexed(self.alloc, left, at)
    }

    /// The arguments in parentheses, up to their end.
    #[tactic(auto, using(parse_input::proofs::Steps::within, parse_input::proofs::Steps::max_zero))]
    fn call(
        &self,
        limits: Limits,
        left: Read<Boxed<Expr>>,
        input: &mut Input<'_>,
    ) -> Result<Read<Boxed<Expr>>, Refusal>
        requires nested { Nested (2 * (limits.opens + limits.room)) (E.pre self.now.expression) (E.post self.now.expression) (T.pre self.now.type_name) (T.post self.now.type_name) }
        requires room { left.depth < limits.room }
        ensures reads { Says (joined left.depth (reads (named (limits.room - 1)) (call_rest input.old.scope left.value) input.old.tokens)) result input.new.tokens }
        ensures kept { IfOk result (λ read. input.new.scope ≡ input.old.scope) }
    {
        let given = self.arguments(limits, input)?;
        if !input.is(Terminal::CloseParen) {
            return Err(Refusal::Refused(false));
        }
        let _closed = input.take();
        called(self.alloc, left, given)
    }

    /// One step behind what was read, which is no cast.
    #[tactic(auto, using(parse_input::proofs::Steps::max_zero))]
    fn step(
        &self,
        limits: Limits,
        left: Read<Boxed<Expr>>,
        input: &mut Input<'_>,
    ) -> Result<Read<Boxed<Expr>>, Refusal>
        requires nested { Nested (2 * (limits.opens + limits.room)) (E.pre self.now.expression) (E.post self.now.expression) (T.pre self.now.type_name) (T.post self.now.type_name) }
        requires room { left.depth < limits.room }
        ensures reads { Says (joined left.depth (step_reads (limits.room - 1) input.old.scope left.value input.old.tokens)) result input.new.tokens }
        ensures kept { IfOk result (λ read. input.new.scope ≡ input.old.scope) }
    {
        if input.is(Terminal::OpenBracket) {
            let _opened = input.take();
            return self.index(limits, left, input);
        }
        if input.is(Terminal::OpenParen) {
            let _opened = input.take();
            return self.call(limits, left, input);
        }
        if input.is(Terminal::Dot) {
            let _dot = input.take();
            return access(self.alloc, left, AccessOperator::Dot, input);
        }
        if input.is(Terminal::Arrow) {
            let _arrow = input.take();
            return access(self.alloc, left, AccessOperator::Arrow, input);
        }
        if input.is(Terminal::Increment) {
            let _operator = input.take();
            return stepped(self.alloc, left, StepOperator::Increment);
        }
        if !input.is(Terminal::Decrement) {
            return Err(Refusal::Refused(false));
        }
        let _operator = input.take();
        stepped(self.alloc, left, StepOperator::Decrement)
    }

    /// A postfix expression, which is a primary one with steps behind it, or a cast.
    #[tactic(auto, using(crate::proofs::Postfixes::postfix_rule, crate::proofs::Postfixes::postfix_ends, crate::proofs::Postfixes::postfix_full, crate::proofs::Postfixes::postfix_goes, parse_input::proofs::Steps::within))]
    pub fn postfix(
        &self,
        limits: Limits,
        front: Front,
        input: &mut Input<'_>,
    ) -> Result<Read<Boxed<Expr>>, Refusal>
        requires nested { Nested (2 * (limits.opens + limits.room)) (E.pre self.now.expression) (E.post self.now.expression) (T.pre self.now.type_name) (T.post self.now.type_name) }
        ensures reads { Says (named limits.room (Postfix front input.old.scope) input.old.tokens) result input.new.tokens }
        ensures kept { IfOk result (λ read. input.new.scope ≡ input.old.scope) }
    {
        let mut left = self.primary(limits, front, input)?;
        'each: while goes_on(left.value.get(), input) {
            if left.depth >= limits.room {
                return Err(Refusal::Refused(true));
            }
            left = self.step(limits, left, input)?;
        }
        Ok(left)
    }
}
