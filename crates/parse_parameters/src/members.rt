//! Members of structures (C17 6.7.2.1).

ghost use Rattle.std.specs.Prelude.{◌≡◌, ◌+◌, ◌*◌, IfOk};
ghost use Rattle.c_grammar.specs.Rules.{Members, MemberDeclarators};
ghost use Rattle.parse_input.specs.Reads.{named, reads, Says};
ghost use Rattle.parse_parameters.specs.Nested.{Nested};
ghost use Rattle.parse_parameters.specs.Parts.{member_line};

use crate::rules::DeclaratorRules;
use c_grammar::{Bracket, DeclaratorKind, SpecifierContext, Terminal};
use c_tree::{Declarator, Expr, Member};
use parse_declared::{Declared, tree_of};
use parse_input::{Input, Limits, Read, Refusal, deeper, specs_place};
use sqlite_items::{Boxed, Items};
use std::alloc::Global;

impl<
    'a,
    C: Fn(Global, Limits, &mut Input<'a>) -> Result<Read<Boxed<Expr>>, Refusal>,
    D: Fn(
        Global,
        Limits,
        DeclaratorKind,
        Bracket,
        &mut Input<'a>,
    ) -> Result<Read<Declared<'a>>, Refusal>,
    M: Fn(Global, Limits, &mut Input<'a>) -> Result<Read<Items<Member>>, Refusal>,
> DeclaratorRules<C, D, M> {
    /// The declarators of a line of members, up to its `;`.
    #[tactic(auto, using(crate::proofs::Lines::declarators, crate::proofs::Lines::declarators_go, crate::proofs::Lines::declarators_end, parse_input::proofs::Then::items_begin))]
    fn member_declarators(
        &self,
        limits: Limits,
        input: &mut Input<'a>,
    ) -> Result<Read<Items<Declarator>>, Refusal>
        requires nested { Nested (2 * (limits.opens + limits.room) + 1) (C.pre self.now.specifiers.conditional) (C.post self.now.specifiers.conditional) (D.pre self.now.declarator) (D.post self.now.declarator) (M.pre self.now.specifiers.members) (M.post self.now.specifiers.members) }
        ensures reads { Says (named limits.room (MemberDeclarators input.old.scope) input.old.tokens) result input.new.tokens }
        ensures kept { IfOk result (λ read. input.new.scope ≡ input.old.scope) }
    {
        let mut declarators = Items::new(self.specifiers.alloc);
        let mut depth = 0;
        'each: loop {
            let declared = self.declarator_here(
                limits,
                DeclaratorKind::Member,
                Bracket::Unknown,
                input,
            )?;
            depth = deeper(depth, declared.depth);
            declarators.push(tree_of(declared.value))?;
            if input.is(Terminal::Comma) {
                let _comma = input.take();
                continue;
            }
            if !input.is(Terminal::Semicolon) {
                return Err(Refusal::Refused(false));
            }
            let _semicolon = input.take();
            return Ok(Read {
                value: declarators,
                depth,
            });
        }
    }

    /// A line of members.
    #[tactic(auto, using(parse_input::proofs::Steps::max_zero))]
    fn member_line(&self, limits: Limits, input: &mut Input<'a>) -> Result<Read<Member>, Refusal>
        requires nested { Nested (2 * (limits.opens + limits.room) + 1) (C.pre self.now.specifiers.conditional) (C.post self.now.specifiers.conditional) (D.pre self.now.declarator) (D.post self.now.declarator) (M.pre self.now.specifiers.members) (M.post self.now.specifiers.members) }
        ensures reads { Says (reads (named limits.room) (member_line input.old.scope) input.old.tokens) result input.new.tokens }
        ensures kept { IfOk result (λ read. input.new.scope ≡ input.old.scope) }
    {
        let specs = self
            .specifiers
            .specifiers(limits, SpecifierContext::Member, input)?;
        let declarators = self.member_declarators(limits, input)?;
        Ok(Read {
            depth: deeper(specs.depth, declarators.depth),
            value: Member {
                place: specs_place(specs.value.specs.as_slice()),
                specs: specs.value.specs,
                declarators: declarators.value,
            },
        })
    }

    /// The members of a structure, up to its `}`.
    #[tactic(auto, using(crate::proofs::Lines::members, crate::proofs::Lines::members_go, crate::proofs::Lines::members_end, parse_input::proofs::Then::items_begin))]
    pub fn members(
        &self,
        limits: Limits,
        input: &mut Input<'a>,
    ) -> Result<Read<Items<Member>>, Refusal>
        requires nested { Nested (2 * (limits.opens + limits.room) + 1) (C.pre self.now.specifiers.conditional) (C.post self.now.specifiers.conditional) (D.pre self.now.declarator) (D.post self.now.declarator) (M.pre self.now.specifiers.members) (M.post self.now.specifiers.members) }
        ensures reads { Says (named limits.room (Members input.old.scope) input.old.tokens) result input.new.tokens }
        ensures kept { IfOk result (λ read. input.new.scope ≡ input.old.scope) }
    {
        let mut lines = Items::new(self.specifiers.alloc);
        let mut depth = 0;
        'each: loop {
            let line = self.member_line(limits, input)?;
            depth = deeper(depth, line.depth);
            lines.push(line.value)?;
            if input.is(Terminal::CloseBrace) {
                let _closed = input.take();
                return Ok(Read {
                    value: lines,
                    depth,
                });
            }
        }
    }
}
