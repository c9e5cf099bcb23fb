//! Primary expressions (C17 6.5.1), and casts (6.5.4).

ghost use Rattle.std.specs.Prelude.{◌≡◌, ◌+◌, ◌*◌, ◌<◌, ◌-◌, IfOk, IfErr};
ghost use Rattle.grammar.specs.Parser.{Got, one_more};
ghost use Rattle.c_grammar.specs.declared.state.Front.TheVariants.{Unary as UnaryFront};
ghost use Rattle.c_grammar.specs.declared.state.SpecifierContext.TheVariants.{«Type» as TypeContext};
ghost use Rattle.c_grammar.specs.Rules.{Primary, Texts};
ghost use Rattle.c_grammar.specs.Expressions.{is_plain_name, inside, cast_rest};
ghost use Rattle.c_grammar.specs.Lookahead.{starts_primary, starts_specs};
ghost use Rattle.parse_input.specs.Input.{sees};
ghost use Rattle.parse_input.specs.Reads.{named, reads, Says};
ghost use Rattle.parse_operands.specs.Parts.{bare_reads, opened_reads};
ghost use Rattle.parse_operands.specs.Nested.{Nested};

use crate::parser::Operands;
use crate::wanted::Wanted;
use c_grammar::{Front, SpecifierContext, Terminal};
use c_tree::{Expr, Span, TypeName};
use parse_input::{
    Input, Limits, Read, Refusal, begins_bare, begins_expression, begins_specifiers,
};
use sqlite_items::{Boxed, Items};
use std::alloc::Global;

/// Whether a name that is no typedef name stands here.
#[tactic(auto, using(parse_input::proofs::Steps::sees_none, parse_input::proofs::Steps::sees_head))]
fn is_plain_name(input: &Input<'_>) -> bool
    ensures { result ≡ sees (is_plain_name input.now.scope) input.now.tokens }
{
    if input.is_done() {
        return false;
    }
    let seen = input.peek();
    seen.is(Terminal::Name) && !input.is_type(seen.text())
}

/// Whether a primary expression begins here.
#[tactic(auto, using(parse_input::proofs::Steps::sees_none, parse_input::proofs::Steps::sees_head))]
fn begins_primary(front: Front, input: &Input<'_>) -> bool
    ensures { result ≡ sees (starts_primary front input.now.scope) input.now.tokens }
{
    if input.is_done() {
        return false;
    }
    match front {
        Front::Cast => input.peek().is(Terminal::OpenParen) || begins_bare(input),
        Front::Unary => input.peek().is(Terminal::OpenParen) || begins_bare(input),
        Front::Bare => begins_bare(input),
        Front::Opened(_) => begins_expression(input),
    }
}

/// Adjacent texts, perhaps none.
#[tactic(auto, using(crate::proofs::Primaries::texts_begin, crate::proofs::Primaries::texts_more, crate::proofs::Primaries::texts_end, parse_input::proofs::Steps::sees_less))]
fn texts(alloc: Global, input: &mut Input<'_>) -> Result<Items<Span>, Refusal>
    ensures reads { IfOk result (λ spans. named 0 Texts input.old.tokens ≡ Got spans 0 input.new.tokens) }
    ensures memory { IfErr result (λ refusal. refusal ≡ Refusal.NoMemory) }
    ensures kept { IfOk result (λ spans. input.new.scope ≡ input.old.scope) }
{
    let mut spans = Items::new(alloc);
    'each: while input.is(Terminal::Text) {
        spans.push(input.take().span())?;
    }
    Ok(spans)
}

/// A node of this depth. A tree is held in a box wherever it may be let go: else each such place lists its variants.
pub(crate) fn node(alloc: Global, tree: Expr, depth: u32) -> Result<Read<Boxed<Expr>>, Refusal>
    ensures value { IfOk result (λ read. read ≡ record { value = tree; depth = depth }) }
    ensures memory { IfErr result (λ refusal. refusal ≡ Refusal.NoMemory) }
{
    Ok(Read {
        value: Boxed::new(alloc, tree)?,
        depth,
    })
}

/// A primary expression without a parenthesis.
#[tactic(auto, using(crate::proofs::Primaries::text_read), unfolding(crate::specs::Parts::bare_reads))]
fn bare(alloc: Global, input: &mut Input<'_>) -> Result<Read<Boxed<Expr>>, Refusal>
    ensures reads { Says (one_more (bare_reads input.old.scope input.old.tokens)) result input.new.tokens }
    ensures kept { IfOk result (λ read. input.new.scope ≡ input.old.scope) }
{
    if is_plain_name(input) {
        return node(alloc, Expr::Name(input.take().span()), 1);
    }
    if input.is(Terminal::Number) {
        return node(alloc, Expr::Number(input.take().span()), 1);
    }
    if input.is(Terminal::Character) {
        return node(alloc, Expr::Character(input.take().span()), 1);
    }
    if !input.is(Terminal::Text) {
        return Err(Refusal::Refused(false));
    }
    let spans = texts(alloc, input)?;
    node(alloc, Expr::Text(spans), 1)
}

impl<
    E: Fn(Global, Limits, Wanted, &mut Input<'_>) -> Result<Read<Boxed<Expr>>, Refusal>,
    T: Fn(Global, Limits, &mut Input<'_>) -> Result<Read<Boxed<TypeName>>, Refusal>,
> Operands<E, T> {
    /// The expression in a parenthesis that was opened at this place, up to its end.
    #[tactic(auto, using(parse_input::proofs::Steps::within))]
    fn inside(
        &self,
        limits: Limits,
        place: u32,
        input: &mut Input<'_>,
    ) -> Result<Read<Boxed<Expr>>, Refusal>
        requires nested { Nested (2 * (limits.opens + limits.room)) (E.pre self.now.expression) (E.post self.now.expression) (T.pre self.now.type_name) (T.post self.now.type_name) }
        requires room { 0 < limits.room }
        ensures reads { Says (one_more (reads (named (limits.room - 1)) (inside input.old.scope place) input.old.tokens)) result input.new.tokens }
        ensures kept { IfOk result (λ read. input.new.scope ≡ input.old.scope) }
    {
        let inner = self.expression_inside(limits, Wanted::Expression, input)?;
        if !input.is(Terminal::CloseParen) {
            return Err(Refusal::Refused(false));
        }
        let _closed = input.take();
        let depth = inner.depth + 1;
        node(self.alloc, Expr::Parenthesised(place, inner.value), depth)
    }

    /// A cast whose parenthesis was opened at this place.
    #[tactic(auto, using(parse_input::proofs::Steps::within))]
    fn cast(
        &self,
        limits: Limits,
        place: u32,
        input: &mut Input<'_>,
    ) -> Result<Read<Boxed<Expr>>, Refusal>
        requires nested { Nested (2 * (limits.opens + limits.room)) (E.pre self.now.expression) (E.post self.now.expression) (T.pre self.now.type_name) (T.post self.now.type_name) }
        requires room { 0 < limits.room }
        ensures reads { Says (one_more (reads (named (limits.room - 1)) (cast_rest input.old.scope place) input.old.tokens)) result input.new.tokens }
        ensures kept { IfOk result (λ read. input.new.scope ≡ input.old.scope) }
    {
        let name = self.type_name_inside(limits, input)?;
        if !input.is(Terminal::CloseParen) {
            return Err(Refusal::Refused(false));
        }
        let _closed = input.take();
        let inner = self.expression_inside(limits, Wanted::Cast, input)?;
        let depth = name.depth.max(inner.depth) + 1;
        node(
            self.alloc,
            Expr::Cast(place, name.value, inner.value),
            depth,
        )
    }

    /// What stands behind a parenthesis that was opened at this place, up to its end: an expression, or a cast.
    fn opened(
        &self,
        limits: Limits,
        place: u32,
        input: &mut Input<'_>,
    ) -> Result<Read<Boxed<Expr>>, Refusal>
        requires nested { Nested (2 * (limits.opens + limits.room)) (E.pre self.now.expression) (E.post self.now.expression) (T.pre self.now.type_name) (T.post self.now.type_name) }
        requires room { 0 < limits.room }
        ensures reads { Says (one_more (opened_reads (limits.room - 1) input.old.scope place input.old.tokens)) result input.new.tokens }
        ensures kept { IfOk result (λ read. input.new.scope ≡ input.old.scope) }
    {
        if begins_specifiers(SpecifierContext::Type, input) {
            self.cast(limits, place, input)
        } else {
            self.inside(limits, place, input)
        }
    }

    /// A primary expression, or a cast.
    #[tactic(auto, using(crate::proofs::Primaries::primary_rule, crate::proofs::Primaries::no_primary))]
    pub(crate) fn primary(
        &self,
        limits: Limits,
        front: Front,
        input: &mut Input<'_>,
    ) -> Result<Read<Boxed<Expr>>, Refusal>
        requires nested { Nested (2 * (limits.opens + limits.room)) (E.pre self.now.expression) (E.post self.now.expression) (T.pre self.now.type_name) (T.post self.now.type_name) }
        ensures reads { Says (named limits.room (Primary front input.old.scope) input.old.tokens) result input.new.tokens }
        ensures kept { IfOk result (λ read. input.new.scope ≡ input.old.scope) }
    {
        if limits.room == 0 {
            return Err(Refusal::Refused(begins_primary(front, input)));
        }
        match front {
            Front::Bare => bare(self.alloc, input),
            Front::Opened(place) => self.inside(limits, place, input),
            Front::Unary => {
                if !input.is(Terminal::OpenParen) {
                    return bare(self.alloc, input);
                }
                let place = input.take().place();
                self.inside(limits, place, input)
            }
            Front::Cast => {
                if !input.is(Terminal::OpenParen) {
                    return bare(self.alloc, input);
                }
                let place = input.take().place();
                self.opened(limits, place, input)
            }
        }
    }
}
