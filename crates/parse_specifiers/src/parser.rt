//! What specifiers are read by.

ghost use Rattle.std.specs.Prelude.{◌≡◌, ◌+◌, ◌*◌, IfOk};
ghost use Rattle.c_grammar.specs.Rules.{Conditional, Members};
ghost use Rattle.parse_input.specs.Reads.{named, Says};
ghost use Rattle.parse_specifiers.specs.Nested.{Held};

use c_tree::{Expr, Member};
use parse_input::{Input, Limits, Read, Refusal};
use sqlite_items::{Boxed, Items};
use std::alloc::Global;

/// The rules of specifiers. What structures and enumerations hold, which leads back to them, is read by function values.
#[derive(Clone, Copy)]
pub struct SpecifierRules<C, M> {
    pub alloc: Global,
    pub conditional: C,
    pub members: M,
}

impl<
    'a,
    C: Fn(Global, Limits, &mut Input<'a>) -> Result<Read<Boxed<Expr>>, Refusal>,
    M: Fn(Global, Limits, &mut Input<'a>) -> Result<Read<Items<Member>>, Refusal>,
> SpecifierRules<C, M> {
    /// The value of an enumerator, which counts as one more open definition.
    pub fn conditional_opened(
        &self,
        limits: Limits,
        input: &mut Input<'a>,
    ) -> Result<Read<Boxed<Expr>>, Refusal>
        requires held { Held (2 * (limits.opens + limits.room) + 1) (C.pre self.now.conditional) (C.post self.now.conditional) (M.pre self.now.members) (M.post self.now.members) }
        ensures reads { Says (named limits.room (Conditional input.old.scope) input.old.tokens) result input.new.tokens }
        ensures kept { IfOk result (λ read. input.new.scope ≡ input.old.scope) }
    {
        (self.conditional)(self.alloc, limits.opened()?, input)
    }

    /// The members of a structure that is opened here, up to its `}`.
    pub fn members_opened(
        &self,
        limits: Limits,
        input: &mut Input<'a>,
    ) -> Result<Read<Items<Member>>, Refusal>
        requires held { Held (2 * (limits.opens + limits.room) + 1) (C.pre self.now.conditional) (C.post self.now.conditional) (M.pre self.now.members) (M.post self.now.members) }
        ensures reads { Says (named limits.room (Members input.old.scope) input.old.tokens) result input.new.tokens }
        ensures kept { IfOk result (λ read. input.new.scope ≡ input.old.scope) }
    {
        (self.members)(self.alloc, limits.opened()?, input)
    }
}
