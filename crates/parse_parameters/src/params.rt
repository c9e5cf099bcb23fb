//! Parameters (C17 6.7.6.3), and type names (6.7.7).

ghost use Rattle.std.specs.Prelude.{◌≡◌, ◌+◌, ◌*◌, IfOk};
ghost use Rattle.c_grammar.specs.Rules.{Params, ParamList, TypeName as NamedType};
ghost use Rattle.parse_input.specs.Reads.{named, reads, Says};
ghost use Rattle.parse_declared.specs.Parameters.{one_param};
ghost use Rattle.parse_parameters.specs.Nested.{Nested};

use crate::rules::DeclaratorRules;
use c_grammar::{Bracket, DeclaratorKind, SpecifierContext, Terminal};
use c_tree::{Expr, Member, Spec, TypeName};
use parse_declared::{
    Declared, NamedParam, ParameterList, after, hide, join, one_more, parameter, type_name_of,
};
use parse_input::{Input, Limits, Read, Refusal, begins_specifiers};
use sqlite_items::{Boxed, Items};
use std::alloc::Global;

impl<
    'a,
    C: Fn(Global, Limits, &mut Input<'a>) -> Result<Read<Boxed<Expr>>, Refusal>,
    D: Fn(
        Global,
        Limits,
        DeclaratorKind,
        Bracket,
        &mut Input<'a>,
    ) -> Result<Read<Declared<'a>>, Refusal>,
    M: Fn(Global, Limits, &mut Input<'a>) -> Result<Read<Items<Member>>, Refusal>,
> DeclaratorRules<C, D, M> {
    /// A type name.
    #[tactic(auto, using(crate::proofs::Listing::a_type_name))]
    pub fn type_name(
        &self,
        limits: Limits,
        input: &mut Input<'a>,
    ) -> Result<Read<Boxed<TypeName>>, Refusal>
        requires nested { Nested (2 * (limits.opens + limits.room) + 1) (C.pre self.now.specifiers.conditional) (C.post self.now.specifiers.conditional) (D.pre self.now.declarator) (D.post self.now.declarator) (M.pre self.now.specifiers.members) (M.post self.now.specifiers.members) }
        ensures reads { Says (named limits.room (NamedType input.old.scope) input.old.tokens) result input.new.tokens }
        ensures kept { IfOk result (λ read. input.new.scope ≡ input.old.scope) }
    {
        let specifiers = self
            .specifiers
            .specifiers(limits, SpecifierContext::Type, input)?;
        let bracket = after(specifiers.value.bracket);
        let declared = self.declarator_here(limits, DeclaratorKind::Abstract, bracket, input)?;
        let depth = specifiers.depth.max(declared.depth);
        let specs = specifiers.value.specs;
        Ok(Read {
            value: type_name_of(self.specifiers.alloc, specs, declared.value)?,
            depth,
        })
    }

    /// The parameters between the parentheses of a function declarator.
    #[tactic(auto, using(crate::proofs::Listing::params_rule))]
    pub fn params(
        &self,
        limits: Limits,
        input: &mut Input<'a>,
    ) -> Result<Read<ParameterList<'a>>, Refusal>
        requires nested { Nested (2 * (limits.opens + limits.room) + 1) (C.pre self.now.specifiers.conditional) (C.post self.now.specifiers.conditional) (D.pre self.now.declarator) (D.post self.now.declarator) (M.pre self.now.specifiers.members) (M.post self.now.specifiers.members) }
        ensures reads { Says (named limits.room (Params input.old.scope) input.old.tokens) result input.new.tokens }
        ensures kept { IfOk result (λ read. input.new.scope ≡ input.old.scope) }
    {
        if !begins_specifiers(SpecifierContext::Type, input) {
            return Ok(Read {
                value: ParameterList::new(self.specifiers.alloc),
                depth: 0,
            });
        }
        self.param_list(
            limits,
            SpecifierContext::Type,
            Items::new(self.specifiers.alloc),
            input,
        )
    }

    /// Parameters, of which the specifiers of the first go on behind those that were read before.
    #[tactic(auto, using(crate::proofs::Listing::list_begins, crate::proofs::Listing::list_goes, crate::proofs::Listing::list_ends, crate::proofs::Listing::list_stops, parse_input::proofs::Steps::reads_shorter, parse_input::proofs::Steps::sees_less, crate::proofs::Listing::cut_all, crate::proofs::Listing::cut_hidden, crate::proofs::Listing::mark_hidden))]
    pub fn param_list(
        &self,
        limits: Limits,
        context: SpecifierContext,
        before: Items<Spec>,
        input: &mut Input<'a>,
    ) -> Result<Read<ParameterList<'a>>, Refusal>
        requires nested { Nested (2 * (limits.opens + limits.room) + 1) (C.pre self.now.specifiers.conditional) (C.post self.now.specifiers.conditional) (D.pre self.now.declarator) (D.post self.now.declarator) (M.pre self.now.specifiers.members) (M.post self.now.specifiers.members) }
        ensures reads { Says (named limits.room (ParamList context input.old.scope before) input.old.tokens) result input.new.tokens }
        ensures kept { IfOk result (λ read. input.new.scope ≡ input.old.scope) }
    {
        let mark = input.mark();
        let mut list = Read {
            value: ParameterList::new(self.specifiers.alloc),
            depth: 0,
        };
        let mut context = context;
        let mut before = before;
        'each: loop {
            let read = self.param(limits, context, before, input)?;
            let name = read.value.name();
            list = one_more(list, read)?;
            if !input.is(Terminal::Comma) {
                break;
            }
            let _comma = input.take();
            hide(name, input)?;
            context = SpecifierContext::Type;
            before = Items::new(self.specifiers.alloc);
        }
        input.restore(mark);
        Ok(list)
    }

    /// One parameter.
    fn param(
        &self,
        limits: Limits,
        context: SpecifierContext,
        before: Items<Spec>,
        input: &mut Input<'a>,
    ) -> Result<Read<NamedParam<'a>>, Refusal>
        requires nested { Nested (2 * (limits.opens + limits.room) + 1) (C.pre self.now.specifiers.conditional) (C.post self.now.specifiers.conditional) (D.pre self.now.declarator) (D.post self.now.declarator) (M.pre self.now.specifiers.members) (M.post self.now.specifiers.members) }
        ensures reads { Says (reads (named limits.room) (one_param context input.old.scope before) input.old.tokens) result input.new.tokens }
        ensures kept { IfOk result (λ read. input.new.scope ≡ input.old.scope) }
    {
        let specifiers = self.specifiers.specifiers(limits, context, input)?;
        let bracket = after(specifiers.value.bracket);
        let declared = self.declarator_here(limits, DeclaratorKind::Parameter, bracket, input)?;
        let depth = specifiers.depth.max(declared.depth);
        let specs = join(before, specifiers.value.specs)?;
        Ok(Read {
            value: parameter(specs, declared.value),
            depth,
        })
    }
}
