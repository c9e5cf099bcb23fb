//! Whichever expression is wanted.

ghost use Rattle.std.specs.Prelude.{◌≡◌, ◌+◌, ◌*◌, IfOk};
ghost use Rattle.parse_input.specs.Reads.{Says};
ghost use Rattle.parse_operands.specs.Named.{right_of, named_expression};
ghost use Rattle.parse_operands.specs.Nested.{Nested};

use crate::parser::Expressions;
use c_grammar::{Front, Precedence};
use c_tree::{Expr, TypeName};
use parse_input::{Input, Limits, Read, Refusal};
use parse_operands::Wanted;
use sqlite_items::Boxed;
use std::alloc::Global;

impl<
    E: Fn(Global, Limits, Wanted, &mut Input<'_>) -> Result<Read<Boxed<Expr>>, Refusal>,
    T: Fn(Global, Limits, &mut Input<'_>) -> Result<Read<Boxed<TypeName>>, Refusal>,
> Expressions<E, T> {
    /// The expression that is wanted.
    pub fn read(
        &self,
        limits: Limits,
        wanted: Wanted,
        input: &mut Input<'_>,
    ) -> Result<Read<Boxed<Expr>>, Refusal>
        requires nested { Nested (2 * (limits.opens + limits.room)) (E.pre self.now.operands.expression) (E.post self.now.operands.expression) (T.pre self.now.operands.type_name) (T.post self.now.operands.type_name) }
        ensures reads { Says (named_expression limits.room wanted input.old.scope input.old.tokens) result input.new.tokens }
        ensures kept { IfOk result (λ read. input.new.scope ≡ input.old.scope) }
    {
        match wanted {
            Wanted::Expression => self.expression(limits, input),
            Wanted::Assignment => self.assignment(limits, input),
            Wanted::Conditional => self.conditional(limits, input),
            Wanted::Right(level) => self.right(limits, level, input),
            Wanted::Cast => self.operands.operand(limits, Front::Cast, input),
            Wanted::Unary => self.operands.operand(limits, Front::Unary, input),
            Wanted::Bare => self.operands.operand(limits, Front::Bare, input),
            Wanted::Opened(place) => self.operands.postfix(limits, Front::Opened(place), input),
        }
    }

    /// What stands on the right of an operator of this level.
    fn right(
        &self,
        limits: Limits,
        level: Precedence,
        input: &mut Input<'_>,
    ) -> Result<Read<Boxed<Expr>>, Refusal>
        requires nested { Nested (2 * (limits.opens + limits.room)) (E.pre self.now.operands.expression) (E.post self.now.operands.expression) (T.pre self.now.operands.type_name) (T.post self.now.operands.type_name) }
        ensures reads { Says (right_of limits.room level input.old.scope input.old.tokens) result input.new.tokens }
        ensures kept { IfOk result (λ read. input.new.scope ≡ input.old.scope) }
    {
        match level {
            Precedence::LogicalOr => self.binary(limits, Precedence::LogicalAnd, input),
            Precedence::LogicalAnd => self.binary(limits, Precedence::InclusiveOr, input),
            Precedence::InclusiveOr => self.binary(limits, Precedence::ExclusiveOr, input),
            Precedence::ExclusiveOr => self.binary(limits, Precedence::BitwiseAnd, input),
            Precedence::BitwiseAnd => self.binary(limits, Precedence::Equality, input),
            Precedence::Equality => self.binary(limits, Precedence::Relational, input),
            Precedence::Relational => self.binary(limits, Precedence::Shift, input),
            Precedence::Shift => self.binary(limits, Precedence::Additive, input),
            Precedence::Additive => self.binary(limits, Precedence::Multiplicative, input),
            Precedence::Multiplicative => self.operands.operand(limits, Front::Cast, input),
        }
    }
}
