//! What parameters, members and declarators are read by.

ghost use Rattle.std.specs.Prelude.{◌≡◌, ◌+◌, ◌*◌, ◌<◌, ◌-◌, IfOk};
ghost use Rattle.c_grammar.specs.Rules.{Conditional, Declarator as NamedDeclarator};
ghost use Rattle.parse_input.specs.Reads.{named, Says};
ghost use Rattle.parse_parameters.specs.Nested.{Nested};

use c_grammar::{Bracket, DeclaratorKind};
use c_tree::{Expr, Member};
use parse_declared::Declared;
use parse_input::{Input, Limits, Read, Refusal};
use parse_specifiers::SpecifierRules;
use sqlite_items::{Boxed, Items};
use std::alloc::Global;

/// The rules of declarators over those of specifiers. What leads back to them is read by function values, so that no rule
/// calls itself.
#[derive(Clone, Copy)]
pub struct DeclaratorRules<C, D, M> {
    pub specifiers: SpecifierRules<C, M>,
    pub declarator: D,
}

impl<
    'a,
    C: Fn(Global, Limits, &mut Input<'a>) -> Result<Read<Boxed<Expr>>, Refusal>,
    D: Fn(
        Global,
        Limits,
        DeclaratorKind,
        Bracket,
        &mut Input<'a>,
    ) -> Result<Read<Declared<'a>>, Refusal>,
    M: Fn(Global, Limits, &mut Input<'a>) -> Result<Read<Items<Member>>, Refusal>,
> DeclaratorRules<C, D, M> {
    /// A declarator that stands here, in no node of its own.
    pub fn declarator_here(
        &self,
        limits: Limits,
        kind: DeclaratorKind,
        bracket: Bracket,
        input: &mut Input<'a>,
    ) -> Result<Read<Declared<'a>>, Refusal>
        requires nested { Nested (2 * (limits.opens + limits.room) + 1) (C.pre self.now.specifiers.conditional) (C.post self.now.specifiers.conditional) (D.pre self.now.declarator) (D.post self.now.declarator) (M.pre self.now.specifiers.members) (M.post self.now.specifiers.members) }
        ensures reads { Says (named limits.room (NamedDeclarator input.old.scope kind bracket) input.old.tokens) result input.new.tokens }
        ensures kept { IfOk result (λ read. input.new.scope ≡ input.old.scope) }
    {
        (self.declarator)(self.specifiers.alloc, limits, kind, bracket, input)
    }

    /// A declarator inside a node.
    pub fn declarator_inside(
        &self,
        limits: Limits,
        kind: DeclaratorKind,
        bracket: Bracket,
        input: &mut Input<'a>,
    ) -> Result<Read<Declared<'a>>, Refusal>
        requires nested { Nested (2 * (limits.opens + limits.room)) (C.pre self.now.specifiers.conditional) (C.post self.now.specifiers.conditional) (D.pre self.now.declarator) (D.post self.now.declarator) (M.pre self.now.specifiers.members) (M.post self.now.specifiers.members) }
        requires room { 0 < limits.room }
        ensures reads { Says (named (limits.room - 1) (NamedDeclarator input.old.scope kind bracket) input.old.tokens) result input.new.tokens }
        ensures kept { IfOk result (λ read. input.new.scope ≡ input.old.scope) }
    {
        (self.declarator)(self.specifiers.alloc, limits.inside(), kind, bracket, input)
    }

    /// A conditional expression inside a node.
    pub fn conditional_inside(
        &self,
        limits: Limits,
        input: &mut Input<'a>,
    ) -> Result<Read<Boxed<Expr>>, Refusal>
        requires nested { Nested (2 * (limits.opens + limits.room)) (C.pre self.now.specifiers.conditional) (C.post self.now.specifiers.conditional) (D.pre self.now.declarator) (D.post self.now.declarator) (M.pre self.now.specifiers.members) (M.post self.now.specifiers.members) }
        requires room { 0 < limits.room }
        ensures reads { Says (named (limits.room - 1) (Conditional input.old.scope) input.old.tokens) result input.new.tokens }
        ensures kept { IfOk result (λ read. input.new.scope ≡ input.old.scope) }
    {
        (self.specifiers.conditional)(self.specifiers.alloc, limits.inside(), input)
    }
}
