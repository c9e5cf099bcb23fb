//! Pointers in declarators (C17 6.7.6.1).

ghost use Rattle.std.specs.Prelude.{◌≡◌, ◌+◌, ◌*◌, IfOk};
ghost use Rattle.c_grammar.specs.Rules.{Pointer};
ghost use Rattle.parse_input.specs.Reads.{named, Says};
ghost use Rattle.parse_parameters.specs.Nested.{Nested};

use crate::parser::Declarators;
use c_grammar::{Bracket, DeclaratorKind, Terminal};
use c_tree::{Expr, Member};
use parse_declared::{Declared, qualifiers};
use parse_input::{Input, Limits, Read, Refusal};
use sqlite_items::{Boxed, Items};
use std::alloc::Global;

impl<
    'a,
    C: Fn(Global, Limits, &mut Input<'a>) -> Result<Read<Boxed<Expr>>, Refusal>,
    D: Fn(
        Global,
        Limits,
        DeclaratorKind,
        Bracket,
        &mut Input<'a>,
    ) -> Result<Read<Declared<'a>>, Refusal>,
    M: Fn(Global, Limits, &mut Input<'a>) -> Result<Read<Items<Member>>, Refusal>,
> Declarators<C, D, M> {
    /// A pointer, and what it points to.
    #[tactic(auto, using(crate::proofs::Pointing::a_pointer, crate::proofs::Pointing::no_pointer, parse_input::proofs::Steps::within))]
    pub fn pointer(
        &self,
        limits: Limits,
        kind: DeclaratorKind,
        input: &mut Input<'a>,
    ) -> Result<Read<Declared<'a>>, Refusal>
        requires nested { Nested (2 * (limits.opens + limits.room)) (C.pre self.now.rules.specifiers.conditional) (C.post self.now.rules.specifiers.conditional) (D.pre self.now.rules.declarator) (D.post self.now.rules.declarator) (M.pre self.now.rules.specifiers.members) (M.post self.now.rules.specifiers.members) }
        ensures reads { Says (named limits.room (Pointer input.old.scope kind) input.old.tokens) result input.new.tokens }
        ensures kept { IfOk result (λ read. input.new.scope ≡ input.old.scope) }
    {
        if limits.room == 0 {
            return Err(Refusal::Refused(input.is(Terminal::Star)));
        }
        if !input.is(Terminal::Star) {
            return Err(Refusal::Refused(false));
        }
        let star = input.take();
        let qualifiers = qualifiers(self.rules.specifiers.alloc, limits.room - 1, input)?;
        let target = self
            .rules
            .declarator_inside(limits, kind, Bracket::Unknown, input)?;
        Ok(Read {
            depth: qualifiers.depth.max(target.depth) + 1,
            value: Declared::pointer_to(
                self.rules.specifiers.alloc,
                star.place(),
                qualifiers.value,
                target.value,
            )?,
        })
    }
}
