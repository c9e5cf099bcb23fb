//! Specifiers (C17 6.7), with structures and enumerations (6.7.2).

ghost use Rattle.std.specs.Prelude.{◌≡◌, ◌+◌, ◌*◌, List, IfOk};
ghost use Rattle.c_grammar.specs.Lexemes.{Lexeme};
ghost use Rattle.c_grammar.specs.Rules.{Specs};
ghost use Rattle.c_grammar.specs.Specifiers.{no_specs};
ghost use Rattle.parse_input.specs.Reads.{named, Says};
ghost use Rattle.parse_specifiers.specs.Nested.{Held};
ghost use Rattle.parse_specifiers.specs.Specified.{tagged_read, structure_read, enumeration_read, word_next, ended, bracket_read, next_read};

use crate::attribute::{bracket_attribute, gnu_attribute};
use crate::parser::SpecifierRules;
use crate::state::{
    SpecsState, is_abstract, next_context, opens_definition, spec_of, takes_bracket,
};
use crate::trailing::Specifiers;
use c_grammar::{SpecifierContext, Terminal};
use c_tree::{Attr, Expr, Member, Span, Spec};
use parse_input::{Input, Limits, Read, Refusal, Seen, deeper, flat};
use sqlite_items::{Boxed, Items};
use std::alloc::Global;

/// What stands behind `struct` or `enum`.
#[derive(Clone, Copy)]
pub enum Tagged {
    /// A tag alone.
    Alone(Span),
    /// A definition, which has begun, with its tag where it has one.
    Defined(Option<Span>),
}

/// What comes next among specifiers.
#[derive(Drop)]
pub enum Next {
    /// A specifier, and what may stand behind it.
    More(Spec, SpecsState),
    /// Their end, with the place of a `[` that began none of them.
    End(Option<u32>),
}

/// A tag, and the `{` of a definition.
#[tactic(auto, unfolding(crate::specs::Specified::tagged_read))]
fn tag_here(context: SpecifierContext, input: &mut Input<'_>) -> Result<Read<Tagged>, Refusal>
    ensures reads { Says (tagged_read context input.old.tokens) result input.new.tokens }
    ensures kept { IfOk result (λ read. input.new.scope ≡ input.old.scope) }
    ensures flat { IfOk result (λ read. read.depth ≡ 0) }
{
    if !input.is(Terminal::Name) {
        if !opens_definition(context, input) {
            return Err(Refusal::Refused(false));
        }
        let _opened = input.take();
        return Ok(flat(Tagged::Defined(None)));
    }
    let tag = input.take().span();
    if !opens_definition(context, input) {
        return Ok(flat(Tagged::Alone(tag)));
    }
    let _opened = input.take();
    Ok(flat(Tagged::Defined(Some(tag))))
}

/// A specifier, with what may stand behind it.
fn with_state(spec: Read<Spec>, state: SpecsState) -> Read<Next>
    ensures { result ≡ record { value = Next.More spec.value state; depth = spec.depth } }
{
    Read {
        value: Next::More(spec.value, state),
        depth: spec.depth,
    }
}

/// An attribute among specifiers, behind which the same may stand.
fn with_attribute(attribute: Read<Attr>, state: SpecsState) -> Read<Next>
    ensures { result ≡ record { value = Next.More (Spec.Attribute attribute.value) state; depth = attribute.depth } }
{
    Read {
        value: Next::More(Spec::Attribute(attribute.value), state),
        depth: attribute.depth,
    }
}

/// The end of the specifiers, if they may end.
fn ended(ends: bool, bracket: Option<u32>) -> Result<Read<Next>, Refusal>
    ensures { (tokens : List Lexeme) → Says (ended ends bracket tokens) result tokens }
{
    if !ends {
        return Err(Refusal::Refused(false));
    }
    Ok(flat(Next::End(bracket)))
}

/// The specifier of one word, and what may stand behind it.
#[tactic(auto, unfolding(crate::specs::Specified::word_next))]
fn word_next(state: SpecsState, seen: &Seen<'_>) -> Next
    ensures { result ≡ word_next state seen.now }
{
    Next::More(spec_of(seen), state.after_terminal(seen.terminal()))
}

/// What stands behind a `[`: a second one begins an attribute, else the specifiers end before the first.
#[tactic(auto, unfolding(crate::specs::Specified::bracket_read))]
fn bracket_rest(
    alloc: Global,
    room: u32,
    ends: bool,
    state: SpecsState,
    place: u32,
    input: &mut Input<'_>,
) -> Result<Read<Next>, Refusal>
    ensures reads { Says (bracket_read room ends state place input.old.tokens) result input.new.tokens }
    ensures kept { IfOk result (λ read. input.new.scope ≡ input.old.scope) }
{
    if input.is(Terminal::OpenBracket) {
        let _second = input.take();
        let attribute = bracket_attribute(alloc, room, place, input)?;
        return Ok(with_attribute(attribute, state));
    }
    ended(ends, Some(place))
}

impl<
    'a,
    C: Fn(Global, Limits, &mut Input<'a>) -> Result<Read<Boxed<Expr>>, Refusal>,
    M: Fn(Global, Limits, &mut Input<'a>) -> Result<Read<Items<Member>>, Refusal>,
> SpecifierRules<C, M> {
    /// A structure behind its word.
    #[tactic(auto, unfolding(crate::specs::Specified::structure_read))]
    fn structure(
        &self,
        limits: Limits,
        context: SpecifierContext,
        place: u32,
        input: &mut Input<'a>,
    ) -> Result<Read<Spec>, Refusal>
        requires held { Held (2 * (limits.opens + limits.room) + 1) (C.pre self.now.conditional) (C.post self.now.conditional) (M.pre self.now.members) (M.post self.now.members) }
        ensures reads { Says (structure_read limits.room context input.old.scope place input.old.tokens) result input.new.tokens }
        ensures kept { IfOk result (λ read. input.new.scope ≡ input.old.scope) }
    {
        match tag_here(context, input)?.value {
            Tagged::Alone(tag) => Ok(flat(Spec::StructName(place, tag))),
            Tagged::Defined(tag) => {
                let lines = self.members_opened(limits, input)?;
                Ok(Read {
                    value: Spec::Struct(place, tag, lines.value),
                    depth: lines.depth,
                })
            }
        }
    }

    /// An enumeration behind its word.
    #[tactic(auto, unfolding(crate::specs::Specified::enumeration_read))]
    fn enumeration(
        &self,
        limits: Limits,
        context: SpecifierContext,
        place: u32,
        input: &mut Input<'a>,
    ) -> Result<Read<Spec>, Refusal>
        requires held { Held (2 * (limits.opens + limits.room) + 1) (C.pre self.now.conditional) (C.post self.now.conditional) (M.pre self.now.members) (M.post self.now.members) }
        ensures reads { Says (enumeration_read limits.room context input.old.scope place input.old.tokens) result input.new.tokens }
        ensures kept { IfOk result (λ read. input.new.scope ≡ input.old.scope) }
    {
        match tag_here(context, input)?.value {
            Tagged::Alone(tag) => Ok(flat(Spec::EnumName(place, tag))),
            Tagged::Defined(tag) => {
                let lines = self.enumerators(limits, input)?;
                Ok(Read {
                    value: Spec::Enum(place, tag, lines.value),
                    depth: lines.depth,
                })
            }
        }
    }

    /// The next specifier, or the end of them.
    #[tactic(auto, unfolding(crate::specs::Specified::next_read))]
    fn next_specifier(
        &self,
        limits: Limits,
        context: SpecifierContext,
        state: SpecsState,
        input: &mut Input<'a>,
    ) -> Result<Read<Next>, Refusal>
        requires held { Held (2 * (limits.opens + limits.room) + 1) (C.pre self.now.conditional) (C.post self.now.conditional) (M.pre self.now.members) (M.post self.now.members) }
        ensures reads { Says (next_read limits.room context input.old.scope state input.old.tokens) result input.new.tokens }
        ensures kept { IfOk result (λ read. input.new.scope ≡ input.old.scope) }
    {
        if state.takes_word(context, input) {
            let word = input.take();
            return Ok(flat(word_next(state, &word)));
        }
        if state.takes_structure(input) {
            let place = input.take().place();
            let structure = self.structure(limits, context, place, input)?;
            return Ok(with_state(structure, state.after_type()));
        }
        if state.takes_enumeration(input) {
            let place = input.take().place();
            let enumeration = self.enumeration(limits, context, place, input)?;
            return Ok(with_state(enumeration, state.after_type()));
        }
        if input.is(Terminal::Attribute) {
            let place = input.take().place();
            let attribute = gnu_attribute(self.alloc, limits.room, place, input)?;
            return Ok(with_attribute(attribute, state));
        }
        let ends = state.is_whole(context);
        if takes_bracket(context, input) {
            let place = input.take().place();
            let ends = is_abstract(context) && ends;
            return bracket_rest(self.alloc, limits.room, ends, state, place, input);
        }
        ended(ends, None)
    }

    /// Specifiers behind those that have led to this state.
    #[tactic(auto, using(crate::proofs::Specifying::specs_begin, crate::proofs::Specifying::specs_goes, crate::proofs::Specifying::specs_end, crate::proofs::Specifying::specs_lack, crate::proofs::Specifying::next_falls))]
    pub fn specifiers_from(
        &self,
        limits: Limits,
        context: SpecifierContext,
        state: SpecsState,
        input: &mut Input<'a>,
    ) -> Result<Read<Specifiers>, Refusal>
        requires held { Held (2 * (limits.opens + limits.room) + 1) (C.pre self.now.conditional) (C.post self.now.conditional) (M.pre self.now.members) (M.post self.now.members) }
        ensures reads { Says (named limits.room (Specs context input.old.scope state) input.old.tokens) result input.new.tokens }
        ensures kept { IfOk result (λ read. input.new.scope ≡ input.old.scope) }
    {
        let mut specs = Items::new(self.alloc);
        let mut depth = 0;
        let mut context_here = context;
        let mut state_here = state;
        'each: loop {
            let next = self.next_specifier(limits, context_here, state_here, input)?;
            depth = deeper(depth, next.depth);
            match next.value {
                Next::End(bracket) => {
                    return Ok(Read {
                        value: Specifiers { specs, bracket },
                        depth,
                    });
                }
                Next::More(spec, after) => {
                    specs.push(spec)?;
                    context_here = next_context(context_here);
                    state_here = after;
                }
            }
        }
    }

    /// Specifiers.
    pub fn specifiers(
        &self,
        limits: Limits,
        context: SpecifierContext,
        input: &mut Input<'a>,
    ) -> Result<Read<Specifiers>, Refusal>
        requires held { Held (2 * (limits.opens + limits.room) + 1) (C.pre self.now.conditional) (C.post self.now.conditional) (M.pre self.now.members) (M.post self.now.members) }
        ensures reads { Says (named limits.room (Specs context input.old.scope no_specs) input.old.tokens) result input.new.tokens }
        ensures kept { IfOk result (λ read. input.new.scope ≡ input.old.scope) }
    {
        self.specifiers_from(limits, context, SpecsState::new(), input)
    }
}
