//! What operands are read by.

ghost use Rattle.std.specs.Prelude.{◌≡◌, ◌+◌, ◌*◌, ◌<◌, ◌-◌, IfOk};
ghost use Rattle.c_grammar.specs.Rules.{TypeName as NamedType};
ghost use Rattle.parse_input.specs.Reads.{named, Says};
ghost use Rattle.parse_operands.specs.Named.{named_expression};
ghost use Rattle.parse_operands.specs.Nested.{Nested};

use crate::wanted::Wanted;
use c_tree::{Expr, TypeName};
use parse_input::{Input, Limits, Read, Refusal};
use sqlite_items::Boxed;
use std::alloc::Global;

/// The rules of operands. What stands inside a node is read by function values, so that no rule calls itself.
#[derive(Clone, Copy)]
pub struct Operands<E, T> {
    pub alloc: Global,
    pub expression: E,
    pub type_name: T,
}

impl<
    E: Fn(Global, Limits, Wanted, &mut Input<'_>) -> Result<Read<Boxed<Expr>>, Refusal>,
    T: Fn(Global, Limits, &mut Input<'_>) -> Result<Read<Boxed<TypeName>>, Refusal>,
> Operands<E, T> {
    /// An expression inside a node.
    pub fn expression_inside(
        &self,
        limits: Limits,
        wanted: Wanted,
        input: &mut Input<'_>,
    ) -> Result<Read<Boxed<Expr>>, Refusal>
        requires nested { Nested (2 * (limits.opens + limits.room)) (E.pre self.now.expression) (E.post self.now.expression) (T.pre self.now.type_name) (T.post self.now.type_name) }
        requires room { 0 < limits.room }
        ensures reads { Says (named_expression (limits.room - 1) wanted input.old.scope input.old.tokens) result input.new.tokens }
        ensures kept { IfOk result (λ read. input.new.scope ≡ input.old.scope) }
    {
        (self.expression)(self.alloc, limits.inside(), wanted, input)
    }

    /// A type name inside a node.
    pub(crate) fn type_name_inside(
        &self,
        limits: Limits,
        input: &mut Input<'_>,
    ) -> Result<Read<Boxed<TypeName>>, Refusal>
        requires nested { Nested (2 * (limits.opens + limits.room)) (E.pre self.now.expression) (E.post self.now.expression) (T.pre self.now.type_name) (T.post self.now.type_name) }
        requires room { 0 < limits.room }
        ensures reads { Says (named (limits.room - 1) (NamedType input.old.scope) input.old.tokens) result input.new.tokens }
        ensures kept { IfOk result (λ read. input.new.scope ≡ input.old.scope) }
    {
        (self.type_name)(self.alloc, limits.inside(), input)
    }
}
