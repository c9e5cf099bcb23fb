//! Binary operations (C17 6.5.5 to 6.5.14), by precedence climbing.

ghost use Rattle.std.specs.Prelude.{◌≡◌, ◌≤◌, ◌+◌, ◌*◌, ◌<◌, ◌-◌, IfOk, length};
ghost use Rattle.c_grammar.specs.Rules.{Binary};
ghost use Rattle.c_grammar.specs.Expressions.{binary_operator};
ghost use Rattle.c_grammar.specs.Lexemes.{place};
ghost use Rattle.c_grammar.specs.Trees.{place_of};
ghost use Rattle.parse_input.specs.Input.{head, behind};
ghost use Rattle.parse_input.specs.Reads.{named, Says};
ghost use Rattle.parse_expressions.specs.Climbing.{looseness, operators_of, next_level};
ghost use Rattle.parse_operands.specs.Named.{named_expression};
ghost use Rattle.parse_expressions.specs.Nodes.{binary_node, on_right};
ghost use Rattle.parse_operands.specs.Nested.{Nested};

use crate::parser::Expressions;
use c_grammar::{Front, Precedence, Terminal};
use c_tree::{BinaryOperator, Expr, TypeName};
use parse_input::{Input, Limits, Read, Refusal, place_of};
use parse_operands::Wanted;
use sqlite_items::Boxed;
use std::alloc::{AllocError, Global};

/// How loosely the operators of a level bind.
fn looseness(level: Precedence) -> u8
    ensures { result ≡ looseness level }
{
    match level {
        Precedence::Multiplicative => 0,
        Precedence::Additive => 1,
        Precedence::Shift => 2,
        Precedence::Relational => 3,
        Precedence::Equality => 4,
        Precedence::BitwiseAnd => 5,
        Precedence::ExclusiveOr => 6,
        Precedence::InclusiveOr => 7,
        Precedence::LogicalAnd => 8,
        Precedence::LogicalOr => 9,
    }
}

/// The level whose operator this is.
fn level_at(terminal: Terminal) -> Option<Precedence>
    ensures { result ≡ operators_of terminal }
{
    match terminal {
        Terminal::OrOr => Some(Precedence::LogicalOr),
        Terminal::AndAnd => Some(Precedence::LogicalAnd),
        Terminal::Bar => Some(Precedence::InclusiveOr),
        Terminal::Caret => Some(Precedence::ExclusiveOr),
        Terminal::Ampersand => Some(Precedence::BitwiseAnd),
        Terminal::EqualEqual => Some(Precedence::Equality),
        Terminal::NotEqual => Some(Precedence::Equality),
        Terminal::Less => Some(Precedence::Relational),
        Terminal::Greater => Some(Precedence::Relational),
        Terminal::LessOrEqual => Some(Precedence::Relational),
        Terminal::GreaterOrEqual => Some(Precedence::Relational),
        Terminal::LeftShift => Some(Precedence::Shift),
        Terminal::RightShift => Some(Precedence::Shift),
        Terminal::Plus => Some(Precedence::Additive),
        Terminal::Minus => Some(Precedence::Additive),
        Terminal::Star => Some(Precedence::Multiplicative),
        Terminal::Slash => Some(Precedence::Multiplicative),
        Terminal::Percent => Some(Precedence::Multiplicative),
        _ => None,
    }
}

/// The binary operator that a token is.
fn operator_of(terminal: Terminal) -> BinaryOperator
    ensures { result ≡ binary_operator terminal }
{
    match terminal {
        Terminal::OrOr => BinaryOperator::LogicalOr,
        Terminal::AndAnd => BinaryOperator::LogicalAnd,
        Terminal::Bar => BinaryOperator::Or,
        Terminal::Caret => BinaryOperator::ExclusiveOr,
        Terminal::Ampersand => BinaryOperator::And,
        Terminal::EqualEqual => BinaryOperator::Equal,
        Terminal::NotEqual => BinaryOperator::NotEqual,
        Terminal::Less => BinaryOperator::Less,
        Terminal::Greater => BinaryOperator::Greater,
        Terminal::LessOrEqual => BinaryOperator::LessOrEqual,
        Terminal::GreaterOrEqual => BinaryOperator::GreaterOrEqual,
        Terminal::LeftShift => BinaryOperator::LeftShift,
        Terminal::RightShift => BinaryOperator::RightShift,
        Terminal::Plus => BinaryOperator::Add,
        Terminal::Minus => BinaryOperator::Subtract,
        Terminal::Star => BinaryOperator::Multiply,
        Terminal::Slash => BinaryOperator::Divide,
        _ => BinaryOperator::Remainder,
    }
}

/// The level of the operator that comes next, if it lies between these.
#[tactic(auto, unfolding(crate::specs::Climbing::next_level))]
fn next_level(from: Precedence, tightest: Precedence, input: &Input<'_>) -> Option<Precedence>
    ensures { result ≡ next_level from tightest input.now.tokens }
{
    match level_at(input.peek().terminal()) {
        Some(level) => {
            if looseness(tightest) <= looseness(level) && looseness(level) <= looseness(from) {
                Some(level)
            } else {
                None
            }
        }
        None => None,
    }
}

/// The node of a binary operation.
fn binary_tree(
    alloc: Global,
    left: Boxed<Expr>,
    operator: BinaryOperator,
    place: u32,
    right: Boxed<Expr>,
) -> Result<Boxed<Expr>, AllocError>
    ensures { IfOk result (λ tree. tree ≡ Expr.Binary (place_of left) left operator place right) }
{
    let start = place_of(left.get());
    Boxed::new(alloc, Expr::Binary(start, left, operator, place, right))
}

impl<
    E: Fn(Global, Limits, Wanted, &mut Input<'_>) -> Result<Read<Boxed<Expr>>, Refusal>,
    T: Fn(Global, Limits, &mut Input<'_>) -> Result<Read<Boxed<TypeName>>, Refusal>,
> Expressions<E, T> {
    /// Binary operations of a level and of those that bind tighter. Behind an operator no tighter one goes on with what
    /// stands on its left, so the tightest level falls.
    #[tactic(auto, using(crate::proofs::Binaries::climb_begins, crate::proofs::Binaries::climb_ends, crate::proofs::Binaries::climb_full, crate::proofs::Binaries::climb_on, crate::proofs::Binaries::climb_off, parse_input::proofs::Steps::within, crate::proofs::Binaries::level_less))]
    pub fn binary(
        &self,
        limits: Limits,
        from: Precedence,
        input: &mut Input<'_>,
    ) -> Result<Read<Boxed<Expr>>, Refusal>
        requires nested { Nested (2 * (limits.opens + limits.room)) (E.pre self.now.operands.expression) (E.post self.now.operands.expression) (T.pre self.now.operands.type_name) (T.post self.now.operands.type_name) }
        ensures reads { Says (named limits.room (Binary from input.old.scope) input.old.tokens) result input.new.tokens }
        ensures kept { IfOk result (λ read. input.new.scope ≡ input.old.scope) }
    {
        let mut left = self.operands.operand(limits, Front::Cast, input)?;
        let mut tightest = Precedence::Multiplicative;
        'operators: loop {
            let level = match next_level(from, tightest, input) {
                Some(level) => level,
                None => return Ok(left),
            };
            if left.depth >= limits.room {
                return Err(Refusal::Refused(true));
            }
            left = self.operation_of(limits, level, left, input)?;
            tightest = level;
        }
    }

    /// An operator that was seen, what stands on its right, and the node of both.
    #[tactic(auto, unfolding(crate::specs::Nodes::on_right))]
    fn operation_of(
        &self,
        limits: Limits,
        level: Precedence,
        left: Read<Boxed<Expr>>,
        input: &mut Input<'_>,
    ) -> Result<Read<Boxed<Expr>>, Refusal>
        requires nested { Nested (2 * (limits.opens + limits.room)) (E.pre self.now.operands.expression) (E.post self.now.operands.expression) (T.pre self.now.operands.type_name) (T.post self.now.operands.type_name) }
        requires room { left.depth < limits.room }
        ensures reads { Says (binary_node left.value left.depth (binary_operator (head input.old.tokens).terminal) (place (head input.old.tokens)) (on_right (limits.room - 1) level input.old.scope (behind input.old.tokens))) result input.new.tokens }
        ensures within { IfOk result (λ read. read.depth ≤ limits.room) }
        ensures shorter { IfOk result (λ read. length input.new.tokens ≤ length (behind input.old.tokens)) }
        ensures kept { IfOk result (λ read. input.new.scope ≡ input.old.scope) }
    {
        let seen = input.take();
        let operator = operator_of(seen.terminal());
        self.joined(
            limits,
            left,
            operator,
            seen.place(),
            Wanted::Right(level),
            input,
        )
    }

    /// What stands on the right of an operator, and the node of both.
    #[tactic(auto, using(parse_operands::proofs::Prefixes::expression_within, parse_operands::proofs::Prefixes::expression_shorter))]
    pub fn joined(
        &self,
        limits: Limits,
        left: Read<Boxed<Expr>>,
        operator: BinaryOperator,
        place: u32,
        wanted: Wanted,
        input: &mut Input<'_>,
    ) -> Result<Read<Boxed<Expr>>, Refusal>
        requires nested { Nested (2 * (limits.opens + limits.room)) (E.pre self.now.operands.expression) (E.post self.now.operands.expression) (T.pre self.now.operands.type_name) (T.post self.now.operands.type_name) }
        requires room { left.depth < limits.room }
        ensures reads { Says (binary_node left.value left.depth operator place (named_expression (limits.room - 1) wanted input.old.scope input.old.tokens)) result input.new.tokens }
        ensures within { IfOk result (λ read. read.depth ≤ limits.room) }
        ensures shorter { IfOk result (λ read. length input.new.tokens ≤ length input.old.tokens) }
        ensures kept { IfOk result (λ read. input.new.scope ≡ input.old.scope) }
    {
        let right = self.operands.expression_inside(limits, wanted, input)?;
        Ok(Read {
            value: binary_tree(
                self.operands.alloc,
                left.value,
                operator,
                place,
                right.value,
            )?,
            depth: left.depth.max(right.depth) + 1,
        })
    }
}
