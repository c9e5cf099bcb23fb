//! Operands, and operators before them (C17 6.5.3).

ghost use Rattle.std.specs.Prelude.{◌≡◌, ◌+◌, ◌*◌, ◌<◌, ◌-◌, IfOk};
ghost use Rattle.c_grammar.specs.Rules.{Operand, Prefix};
ghost use Rattle.c_grammar.specs.Lexemes.{place};
ghost use Rattle.c_grammar.specs.Expressions.{unary_operator};
ghost use Rattle.c_grammar.specs.Lookahead.{starts_specs};
ghost use Rattle.c_grammar.specs.declared.state.SpecifierContext.TheVariants.{«Type» as TypeContext};
ghost use Rattle.c_grammar.specs.Specifiers.{no_specs};
ghost use Rattle.parse_input.specs.Input.{head, behind, sees};
ghost use Rattle.parse_input.specs.Reads.{named, reads, Says};
ghost use Rattle.parse_operands.specs.Named.{named_expression};
ghost use Rattle.parse_operands.specs.Nodes.{unary_node, operation, prefix_first, sized};
ghost use Rattle.parse_operands.specs.Nested.{Nested};

use crate::parser::Operands;
use crate::primary::node;
use crate::wanted::Wanted;
use c_grammar::{Front, SpecifierContext, Terminal};
use c_tree::{Expr, TypeName, UnaryOperator};
use parse_input::{Input, Limits, Read, Refusal, begins_prefix, begins_specifiers};
use sqlite_items::Boxed;
use std::alloc::Global;

/// Whether an operand of this front begins with an operator here.
fn takes_prefix(front: Front, input: &Input<'_>) -> bool
    ensures { result ≡ prefix_first front input.now.scope input.now.tokens }
{
    match front {
        Front::Cast => begins_prefix(input),
        Front::Unary => begins_prefix(input),
        Front::Bare => begins_prefix(input),
        Front::Opened(_) => false,
    }
}

/// The operator that a token is before its operand.
fn operator_of(terminal: Terminal) -> UnaryOperator
    ensures { result ≡ unary_operator terminal }
{
    match terminal {
        Terminal::Increment => UnaryOperator::Increment,
        Terminal::Decrement => UnaryOperator::Decrement,
        Terminal::Ampersand => UnaryOperator::Address,
        Terminal::Star => UnaryOperator::Indirection,
        Terminal::Plus => UnaryOperator::Plus,
        Terminal::Minus => UnaryOperator::Minus,
        Terminal::Tilde => UnaryOperator::Complement,
        _ => UnaryOperator::Not,
    }
}

impl<
    E: Fn(Global, Limits, Wanted, &mut Input<'_>) -> Result<Read<Boxed<Expr>>, Refusal>,
    T: Fn(Global, Limits, &mut Input<'_>) -> Result<Read<Boxed<TypeName>>, Refusal>,
> Operands<E, T> {
    /// An operand, which begins as the front says.
    #[tactic(auto, using(crate::proofs::Prefixes::an_operand))]
    pub fn operand(
        &self,
        limits: Limits,
        front: Front,
        input: &mut Input<'_>,
    ) -> Result<Read<Boxed<Expr>>, Refusal>
        requires nested { Nested (2 * (limits.opens + limits.room)) (E.pre self.now.expression) (E.post self.now.expression) (T.pre self.now.type_name) (T.post self.now.type_name) }
        ensures reads { Says (named limits.room (Operand front input.old.scope) input.old.tokens) result input.new.tokens }
        ensures kept { IfOk result (λ read. input.new.scope ≡ input.old.scope) }
    {
        if takes_prefix(front, input) {
            return self.prefix(limits, input);
        }
        self.postfix(limits, front, input)
    }

    /// An operator and its operand.
    #[tactic(auto, using(crate::proofs::Prefixes::a_prefix, crate::proofs::Prefixes::no_prefix))]
    fn prefix(&self, limits: Limits, input: &mut Input<'_>) -> Result<Read<Boxed<Expr>>, Refusal>
        requires nested { Nested (2 * (limits.opens + limits.room)) (E.pre self.now.expression) (E.post self.now.expression) (T.pre self.now.type_name) (T.post self.now.type_name) }
        ensures reads { Says (named limits.room (Prefix input.old.scope) input.old.tokens) result input.new.tokens }
        ensures kept { IfOk result (λ read. input.new.scope ≡ input.old.scope) }
    {
        if limits.room == 0 {
            return Err(Refusal::Refused(begins_prefix(input)));
        }
        if input.is_among(&[Terminal::Increment, Terminal::Decrement]) {
            return self.operation(limits, Wanted::Unary, input);
        }
        if input.is_among(&[
            Terminal::Ampersand,
            Terminal::Star,
            Terminal::Plus,
            Terminal::Minus,
            Terminal::Tilde,
            Terminal::Exclamation,
        ]) {
            return self.operation(limits, Wanted::Cast, input);
        }
        if !input.is(Terminal::Sizeof) {
            return Err(Refusal::Refused(false));
        }
        let word = input.take();
        self.size(limits, word.place(), input)
    }

    /// An operator that was seen, and its operand.
    fn operation(
        &self,
        limits: Limits,
        wanted: Wanted,
        input: &mut Input<'_>,
    ) -> Result<Read<Boxed<Expr>>, Refusal>
        requires nested { Nested (2 * (limits.opens + limits.room)) (E.pre self.now.expression) (E.post self.now.expression) (T.pre self.now.type_name) (T.post self.now.type_name) }
        requires room { 0 < limits.room }
        ensures reads { Says (operation (limits.room - 1) wanted input.old.scope (head input.old.tokens) (behind input.old.tokens)) result input.new.tokens }
        ensures kept { IfOk result (λ read. input.new.scope ≡ input.old.scope) }
    {
        let seen = input.take();
        self.unary(
            limits,
            seen.place(),
            operator_of(seen.terminal()),
            wanted,
            input,
        )
    }

    /// The operand of an operator at this place, and a node of both.
    #[tactic(auto, using(crate::proofs::Prefixes::expression_within))]
    fn unary(
        &self,
        limits: Limits,
        place: u32,
        operator: UnaryOperator,
        wanted: Wanted,
        input: &mut Input<'_>,
    ) -> Result<Read<Boxed<Expr>>, Refusal>
        requires nested { Nested (2 * (limits.opens + limits.room)) (E.pre self.now.expression) (E.post self.now.expression) (T.pre self.now.type_name) (T.post self.now.type_name) }
        requires room { 0 < limits.room }
        ensures reads { Says (unary_node place operator (named_expression (limits.room - 1) wanted input.old.scope input.old.tokens)) result input.new.tokens }
        ensures kept { IfOk result (λ read. input.new.scope ≡ input.old.scope) }
    {
        let operand = self.expression_inside(limits, wanted, input)?;
        let depth = operand.depth + 1;
        node(
            self.alloc,
            Expr::Unary(place, operator, operand.value),
            depth,
        )
    }

    /// What stands behind `sizeof`.
    #[tactic(auto, using(crate::proofs::Prefixes::a_size, parse_input::proofs::Steps::within))]
    fn size(
        &self,
        limits: Limits,
        place: u32,
        input: &mut Input<'_>,
    ) -> Result<Read<Boxed<Expr>>, Refusal>
        requires nested { Nested (2 * (limits.opens + limits.room)) (E.pre self.now.expression) (E.post self.now.expression) (T.pre self.now.type_name) (T.post self.now.type_name) }
        requires room { 0 < limits.room }
        ensures reads { Says (sized (limits.room - 1) input.old.scope place input.old.tokens) result input.new.tokens }
        ensures kept { IfOk result (λ read. input.new.scope ≡ input.old.scope) }
    {
        if !input.is(Terminal::OpenParen) {
            return self.unary(limits, place, UnaryOperator::Sizeof, Wanted::Bare, input);
        }
        let opened = input.take();
        if !begins_specifiers(SpecifierContext::Type, input) {
            let rest = Wanted::Opened(opened.place());
            return self.unary(limits, place, UnaryOperator::Sizeof, rest, input);
        }
        let name = self.type_name_inside(limits, input)?;
        if !input.is(Terminal::CloseParen) {
            return Err(Refusal::Refused(false));
        }
        let _closed = input.take();
        let depth = name.depth + 1;
        node(self.alloc, Expr::SizeofType(place, name.value), depth)
    }
}
