//! Declarators in parentheses, and functions of which nothing else is declared (C17 6.7.6 and 6.7.7).

ghost use Rattle.std.specs.Prelude.{◌≡◌, ◌+◌, ◌*◌, ◌<◌, ◌-◌, ◌∷◌, [], IfOk};
ghost use Rattle.c_tree.specs.declared.words.AttrSpelling.TheVariants.{Brackets};
ghost use Rattle.c_tree.specs.declared.expressions.Spec.TheVariants.{Attribute};
ghost use Rattle.c_grammar.specs.Rules.{Group};
ghost use Rattle.c_grammar.specs.Specifiers.{attr};
ghost use Rattle.c_grammar.specs.Declarators.{group_bracket};
ghost use Rattle.parse_input.specs.Reads.{named, reads, Says};
ghost use Rattle.parse_parameters.specs.Nested.{Nested};
ghost use Rattle.parse_declared.specs.Starts.{declarator_parts, list_parts, attribute_parts, group_parts};

use crate::parser::Declarators;
use c_grammar::{Bracket, DeclaratorKind, SpecifierContext, Terminal};
use c_tree::{Expr, Member, Spec};
use parse_declared::{Declared, ParameterList, bracketed, function_rest, may_lack};
use parse_input::{Input, Limits, Read, Refusal, begins_specifiers};
use parse_specifiers::clang_words;
use sqlite_items::{Boxed, Items};
use std::alloc::Global;

impl<
    'a,
    C: Fn(Global, Limits, &mut Input<'a>) -> Result<Read<Boxed<Expr>>, Refusal>,
    D: Fn(
        Global,
        Limits,
        DeclaratorKind,
        Bracket,
        &mut Input<'a>,
    ) -> Result<Read<Declared<'a>>, Refusal>,
    M: Fn(Global, Limits, &mut Input<'a>) -> Result<Read<Items<Member>>, Refusal>,
> Declarators<C, D, M> {
    /// What stands in parentheses at the front of a direct declarator.
    #[tactic(auto, using(crate::proofs::Grouping::a_group, crate::proofs::Grouping::no_group, crate::proofs::Grouping::group_within))]
    pub fn group(
        &self,
        limits: Limits,
        kind: DeclaratorKind,
        input: &mut Input<'a>,
    ) -> Result<Read<Declared<'a>>, Refusal>
        requires nested { Nested (2 * (limits.opens + limits.room)) (C.pre self.now.rules.specifiers.conditional) (C.post self.now.rules.specifiers.conditional) (D.pre self.now.rules.declarator) (D.post self.now.rules.declarator) (M.pre self.now.rules.specifiers.members) (M.post self.now.rules.specifiers.members) }
        ensures reads { Says (named limits.room (Group input.old.scope kind) input.old.tokens) result input.new.tokens }
        ensures kept { IfOk result (λ read. input.new.scope ≡ input.old.scope) }
    {
        if limits.room == 0 {
            return Err(Refusal::Refused(input.is(Terminal::OpenParen)));
        }
        if !input.is(Terminal::OpenParen) {
            return Err(Refusal::Refused(false));
        }
        let opened = input.take();
        let read = self.group_rest(limits, kind, opened.place(), input)?;
        Ok(Read {
            value: read.value,
            depth: read.depth + 1,
        })
    }

    /// What stands behind the `(` of a group.
    #[tactic(auto, using(crate::proofs::Grouping::parts_rule))]
    fn group_rest(
        &self,
        limits: Limits,
        kind: DeclaratorKind,
        place: u32,
        input: &mut Input<'a>,
    ) -> Result<Read<Declared<'a>>, Refusal>
        requires nested { Nested (2 * (limits.opens + limits.room)) (C.pre self.now.rules.specifiers.conditional) (C.post self.now.rules.specifiers.conditional) (D.pre self.now.rules.declarator) (D.post self.now.rules.declarator) (M.pre self.now.rules.specifiers.members) (M.post self.now.rules.specifiers.members) }
        requires room { 0 < limits.room }
        ensures reads { Says (reads (named (limits.room - 1)) (group_parts input.old.scope kind place) input.old.tokens) result input.new.tokens }
        ensures kept { IfOk result (λ read. input.new.scope ≡ input.old.scope) }
    {
        if !may_lack(kind, Bracket::Unknown) {
            return self.declarator_rest(limits, kind, Bracket::Unknown, place, input);
        }
        if input.is(Terminal::OpenBracket) {
            let bracket = input.take();
            return self.bracket_rest(limits, kind, place, bracket.place(), input);
        }
        if begins_specifiers(SpecifierContext::Barred, input) {
            return self.list_rest(
                limits,
                SpecifierContext::Barred,
                Items::new(self.rules.specifiers.alloc),
                place,
                input,
            );
        }
        if input.is(Terminal::CloseParen) {
            let nothing = Declared::absent(self.rules.specifiers.alloc, None)?;
            let none = ParameterList::new(self.rules.specifiers.alloc);
            return function_rest(
                self.rules.specifiers.alloc,
                limits.room - 1,
                nothing,
                place,
                none,
                input,
            );
        }
        self.declarator_rest(limits, kind, Bracket::Barred, place, input)
    }

    /// What stands behind the `[` of a group.
    #[tactic(auto, using(crate::proofs::Grouping::bracket_rule))]
    fn bracket_rest(
        &self,
        limits: Limits,
        kind: DeclaratorKind,
        place: u32,
        bracket: u32,
        input: &mut Input<'a>,
    ) -> Result<Read<Declared<'a>>, Refusal>
        requires nested { Nested (2 * (limits.opens + limits.room)) (C.pre self.now.rules.specifiers.conditional) (C.post self.now.rules.specifiers.conditional) (D.pre self.now.rules.declarator) (D.post self.now.rules.declarator) (M.pre self.now.rules.specifiers.members) (M.post self.now.rules.specifiers.members) }
        requires room { 0 < limits.room }
        ensures reads { Says (reads (named (limits.room - 1)) (group_bracket input.old.scope kind place bracket) input.old.tokens) result input.new.tokens }
        ensures kept { IfOk result (λ read. input.new.scope ≡ input.old.scope) }
    {
        if !input.is(Terminal::OpenBracket) {
            return self.declarator_rest(limits, kind, Bracket::Opened(bracket), place, input);
        }
        let _second = input.take();
        self.attribute_rest(limits, place, bracket, input)
    }

    /// An attribute in brackets, of which two were read, and the parameters that it begins.
    fn attribute_rest(
        &self,
        limits: Limits,
        place: u32,
        bracket: u32,
        input: &mut Input<'a>,
    ) -> Result<Read<Declared<'a>>, Refusal>
        requires nested { Nested (2 * (limits.opens + limits.room)) (C.pre self.now.rules.specifiers.conditional) (C.post self.now.rules.specifiers.conditional) (D.pre self.now.rules.declarator) (D.post self.now.rules.declarator) (M.pre self.now.rules.specifiers.members) (M.post self.now.rules.specifiers.members) }
        requires room { 0 < limits.room }
        ensures reads { Says (reads (named (limits.room - 1)) (attribute_parts input.old.scope place bracket) input.old.tokens) result input.new.tokens }
        ensures kept { IfOk result (λ read. input.new.scope ≡ input.old.scope) }
    {
        let words = clang_words(self.rules.specifiers.alloc, limits.room - 1, input)?;
        let before = bracketed(self.rules.specifiers.alloc, bracket, words.value)?;
        let rest = self.list_rest(limits, SpecifierContext::Type, before, place, input)?;
        let depth = words.depth.max(rest.depth);
        Ok(Read {
            value: rest.value,
            depth,
        })
    }

    /// Parameters of a function of which nothing else is declared.
    #[tactic(auto, using(parse_parameters::proofs::Nesting::node_nests))]
    fn list_rest(
        &self,
        limits: Limits,
        context: SpecifierContext,
        before: Items<Spec>,
        place: u32,
        input: &mut Input<'a>,
    ) -> Result<Read<Declared<'a>>, Refusal>
        requires nested { Nested (2 * (limits.opens + limits.room)) (C.pre self.now.rules.specifiers.conditional) (C.post self.now.rules.specifiers.conditional) (D.pre self.now.rules.declarator) (D.post self.now.rules.declarator) (M.pre self.now.rules.specifiers.members) (M.post self.now.rules.specifiers.members) }
        requires room { 0 < limits.room }
        ensures reads { Says (reads (named (limits.room - 1)) (list_parts context input.old.scope before place) input.old.tokens) result input.new.tokens }
        ensures kept { IfOk result (λ read. input.new.scope ≡ input.old.scope) }
    {
        let given = self
            .rules
            .param_list(limits.inside(), context, before, input)?;
        let inner = given.depth;
        let nothing = Declared::absent(self.rules.specifiers.alloc, None)?;
        let room = limits.room - 1;
        let rest = function_rest(
            self.rules.specifiers.alloc,
            room,
            nothing,
            place,
            given.value,
            input,
        )?;
        let depth = inner.max(rest.depth);
        Ok(Read {
            value: rest.value,
            depth,
        })
    }

    /// A declarator and the `)` behind it.
    fn declarator_rest(
        &self,
        limits: Limits,
        kind: DeclaratorKind,
        bracket: Bracket,
        place: u32,
        input: &mut Input<'a>,
    ) -> Result<Read<Declared<'a>>, Refusal>
        requires nested { Nested (2 * (limits.opens + limits.room)) (C.pre self.now.rules.specifiers.conditional) (C.post self.now.rules.specifiers.conditional) (D.pre self.now.rules.declarator) (D.post self.now.rules.declarator) (M.pre self.now.rules.specifiers.members) (M.post self.now.rules.specifiers.members) }
        requires room { 0 < limits.room }
        ensures reads { Says (reads (named (limits.room - 1)) (declarator_parts input.old.scope kind bracket place) input.old.tokens) result input.new.tokens }
        ensures kept { IfOk result (λ read. input.new.scope ≡ input.old.scope) }
    {
        let inner = self.rules.declarator_inside(limits, kind, bracket, input)?;
        if !input.is(Terminal::CloseParen) {
            return Err(Refusal::Refused(false));
        }
        let _closed = input.take();
        let depth = inner.depth;
        Ok(Read {
            value: Declared::grouped(self.rules.specifiers.alloc, place, inner.value)?,
            depth,
        })
    }
}
