//! Declarators (C17 6.7.6) and abstract ones (6.7.7).

ghost use Rattle.std.specs.Prelude.{◌≡◌, ◌+◌, ◌*◌, ◌<◌, ◌≤◌, ◌-◌, IfOk};
ghost use Rattle.c_grammar.specs.Rules.{Declarator as NamedDeclarator, Direct};
ghost use Rattle.c_grammar.specs.Declarators.{direct_start, direct_step, array_rest};
ghost use Rattle.c_grammar.specs.Lexemes.{place};
ghost use Rattle.parse_input.specs.Input.{head, behind};
ghost use Rattle.parse_input.specs.Reads.{named, reads, joined, Says};
ghost use Rattle.parse_parameters.specs.Nested.{Nested};
ghost use Rattle.parse_declared.specs.Starts.{function_parts, params_parts};

use crate::parser::Declarators;
use c_grammar::{Bracket, DeclaratorKind, Terminal};
use c_tree::{Expr, Member};
use parse_declared::{
    Declared, ParameterList, begins_array, begins_name, begins_params, begins_step, function_rest,
    may_lack, opened_at,
};
use parse_input::{Input, Limits, Read, Refusal};
use sqlite_items::{Boxed, Items};
use std::alloc::Global;

impl<
    'a,
    C: Fn(Global, Limits, &mut Input<'a>) -> Result<Read<Boxed<Expr>>, Refusal>,
    D: Fn(
        Global,
        Limits,
        DeclaratorKind,
        Bracket,
        &mut Input<'a>,
    ) -> Result<Read<Declared<'a>>, Refusal>,
    M: Fn(Global, Limits, &mut Input<'a>) -> Result<Read<Items<Member>>, Refusal>,
> Declarators<C, D, M> {
    /// A declarator.
    #[tactic(auto, using(crate::proofs::Directs::declarator_rule))]
    pub fn declarator(
        &self,
        limits: Limits,
        kind: DeclaratorKind,
        bracket: Bracket,
        input: &mut Input<'a>,
    ) -> Result<Read<Declared<'a>>, Refusal>
        requires nested { Nested (2 * (limits.opens + limits.room)) (C.pre self.now.rules.specifiers.conditional) (C.post self.now.rules.specifiers.conditional) (D.pre self.now.rules.declarator) (D.post self.now.rules.declarator) (M.pre self.now.rules.specifiers.members) (M.post self.now.rules.specifiers.members) }
        ensures reads { Says (named limits.room (NamedDeclarator input.old.scope kind bracket) input.old.tokens) result input.new.tokens }
        ensures kept { IfOk result (λ read. input.new.scope ≡ input.old.scope) }
    {
        if opened_at(bracket).is_none() && input.is(Terminal::Star) {
            return self.pointer(limits, kind, input);
        }
        let read = self.direct(limits, kind, bracket, input)?;
        if read.value.bracket().is_some() {
            return Err(Refusal::Refused(false));
        }
        Ok(read)
    }

    /// A declarator that is no pointer.
    #[tactic(auto, using(crate::proofs::Directs::direct_begins, crate::proofs::Directs::loop_stops))]
    pub fn direct(
        &self,
        limits: Limits,
        kind: DeclaratorKind,
        bracket: Bracket,
        input: &mut Input<'a>,
    ) -> Result<Read<Declared<'a>>, Refusal>
        requires nested { Nested (2 * (limits.opens + limits.room)) (C.pre self.now.rules.specifiers.conditional) (C.post self.now.rules.specifiers.conditional) (D.pre self.now.rules.declarator) (D.post self.now.rules.declarator) (M.pre self.now.rules.specifiers.members) (M.post self.now.rules.specifiers.members) }
        ensures reads { Says (named limits.room (Direct input.old.scope kind bracket) input.old.tokens) result input.new.tokens }
        ensures kept { IfOk result (λ read. input.new.scope ≡ input.old.scope) }
    {
        let mut left = self.direct_start(limits, kind, bracket, input)?;
        'each: loop {
            if !begins_step(kind, bracket, &left.value, input) {
                break;
            }
            if left.depth >= limits.room {
                return Err(Refusal::Refused(true));
            }
            left = self.direct_step(limits, kind, bracket, left, input)?;
        }
        Ok(left)
    }

    /// What stands at the front of a declarator.
    #[tactic(auto, using(crate::proofs::Directs::start_opened, crate::proofs::Directs::start_rule))]
    fn direct_start(
        &self,
        limits: Limits,
        kind: DeclaratorKind,
        bracket: Bracket,
        input: &mut Input<'a>,
    ) -> Result<Read<Declared<'a>>, Refusal>
        requires nested { Nested (2 * (limits.opens + limits.room)) (C.pre self.now.rules.specifiers.conditional) (C.post self.now.rules.specifiers.conditional) (D.pre self.now.rules.declarator) (D.post self.now.rules.declarator) (M.pre self.now.rules.specifiers.members) (M.post self.now.rules.specifiers.members) }
        ensures reads { Says (reads (named limits.room) (direct_start input.old.scope kind bracket) input.old.tokens) result input.new.tokens }
        ensures kept { IfOk result (λ read. input.new.scope ≡ input.old.scope) }
    {
        if let Some(place) = opened_at(bracket) {
            return Ok(Read {
                value: Declared::absent(self.rules.specifiers.alloc, Some(place))?,
                depth: 0,
            });
        }
        if begins_name(kind, bracket, input) {
            let name = input.take();
            return Ok(Read {
                value: Declared::named(self.rules.specifiers.alloc, &name)?,
                depth: 0,
            });
        }
        if may_lack(kind, bracket) && !input.is(Terminal::OpenParen) {
            return Ok(Read {
                value: Declared::absent(self.rules.specifiers.alloc, None)?,
                depth: 0,
            });
        }
        self.group(limits, kind, input)
    }

    /// One array or one function, behind what was read.
    #[tactic(auto, using(crate::proofs::Directs::step_opened, crate::proofs::Directs::step_rule))]
    fn direct_step(
        &self,
        limits: Limits,
        kind: DeclaratorKind,
        bracket: Bracket,
        left: Read<Declared<'a>>,
        input: &mut Input<'a>,
    ) -> Result<Read<Declared<'a>>, Refusal>
        requires nested { Nested (2 * (limits.opens + limits.room)) (C.pre self.now.rules.specifiers.conditional) (C.post self.now.rules.specifiers.conditional) (D.pre self.now.rules.declarator) (D.post self.now.rules.declarator) (M.pre self.now.rules.specifiers.members) (M.post self.now.rules.specifiers.members) }
        requires room { left.depth < limits.room }
        ensures reads { Says (joined left.entry.depth (reads (named (limits.room - 1)) (direct_step input.old.scope kind bracket left.entry.value.bracket left.entry.value) input.old.tokens)) result input.new.tokens }
        ensures kept { IfOk result (λ read. input.new.scope ≡ input.old.scope) }
    {
        if let Some(place) = left.value.bracket() {
            return self.array_rest(limits, left, place, input);
        }
        let reach = left.value.reach();
        if begins_array(reach, bracket, input) {
            let opened = input.take();
            return self.array_rest(limits, left, opened.place(), input);
        }
        if !begins_params(kind, reach, input) {
            return Err(Refusal::Refused(false));
        }
        self.params_rest(limits, left, input)
    }

    /// A parameter list, whose `(` is the next token.
    #[tactic(auto, using(parse_parameters::proofs::Nesting::node_nests, parse_input::proofs::Steps::within))]
    fn params_rest(
        &self,
        limits: Limits,
        left: Read<Declared<'a>>,
        input: &mut Input<'a>,
    ) -> Result<Read<Declared<'a>>, Refusal>
        requires nested { Nested (2 * (limits.opens + limits.room)) (C.pre self.now.rules.specifiers.conditional) (C.post self.now.rules.specifiers.conditional) (D.pre self.now.rules.declarator) (D.post self.now.rules.declarator) (M.pre self.now.rules.specifiers.members) (M.post self.now.rules.specifiers.members) }
        requires room { left.depth < limits.room }
        ensures reads { Says (joined left.entry.depth (reads (named (limits.room - 1)) (params_parts input.old.scope left.entry.value (place (head input.old.tokens))) (behind input.old.tokens))) result input.new.tokens }
        ensures kept { IfOk result (λ read. input.new.scope ≡ input.old.scope) }
    {
        let opened = input.take();
        let inside = limits.inside();
        let given = self.rules.params(inside, input)?;
        let before = left.depth;
        let inner = given.depth;
        let room = limits.room - 1;
        let depth = before.max(inner);
        let rest = function_rest(
            self.rules.specifiers.alloc,
            room,
            left.value,
            opened.place(),
            given.value,
            input,
        )?;
        Ok(Read {
            value: rest.value,
            depth: depth.max(rest.depth) + 1,
        })
    }

    /// What stands behind the `[` of an array.
    #[tactic(auto, using(parse_input::proofs::Steps::within))]
    fn array_rest(
        &self,
        limits: Limits,
        left: Read<Declared<'a>>,
        place: u32,
        input: &mut Input<'a>,
    ) -> Result<Read<Declared<'a>>, Refusal>
        requires nested { Nested (2 * (limits.opens + limits.room)) (C.pre self.now.rules.specifiers.conditional) (C.post self.now.rules.specifiers.conditional) (D.pre self.now.rules.declarator) (D.post self.now.rules.declarator) (M.pre self.now.rules.specifiers.members) (M.post self.now.rules.specifiers.members) }
        requires room { left.depth < limits.room }
        ensures reads { Says (joined left.entry.depth (reads (named (limits.room - 1)) (array_rest left.entry.value input.old.scope place) input.old.tokens)) result input.new.tokens }
        ensures kept { IfOk result (λ read. input.new.scope ≡ input.old.scope) }
    {
        if input.is(Terminal::CloseBracket) {
            let _closed = input.take();
            return Ok(Read {
                depth: left.depth + 1,
                value: Declared::array_of(self.rules.specifiers.alloc, left.value, place, None)?,
            });
        }
        let size = self.rules.conditional_inside(limits, input)?;
        if !input.is(Terminal::CloseBracket) {
            return Err(Refusal::Refused(false));
        }
        let _closed = input.take();
        let depth = left.depth.max(size.depth) + 1;
        let written = Some(size.value);
        Ok(Read {
            value: Declared::array_of(self.rules.specifiers.alloc, left.value, place, written)?,
            depth,
        })
    }
}
