//! Initializers (C17 6.7.9).

ghost use Rattle.std.specs.Prelude.{◌≡◌, ◌<◌, ◌-◌, IfOk};
ghost use Rattle.c_grammar.specs.Rules.{Initializer, Braces, Initializers as NamedInitializers};
ghost use Rattle.parse_input.specs.Reads.{named, Says};
ghost use Rattle.parse_declarations.specs.Nested.{ReadsInitializers};

use c_grammar::Terminal;
use c_tree::Init;
use parse_input::{Input, Limits, Read, Refusal, deeper};
use parse_operands::Wanted;
use parse_recursion::expression;
use sqlite_items::{Boxed, Items};
use std::alloc::Global;

/// The rules of initializers. Those in braces are read by a function value, so that no rule calls itself.
#[derive(Clone, Copy)]
pub struct Initializers<I> {
    alloc: Global,
    initializer: I,
}

impl<I: Fn(Global, Limits, &mut Input<'_>) -> Result<Read<Boxed<Init>>, Refusal>> Initializers<I> {
    /// An initializer inside a node.
    fn initializer_inside(
        &self,
        limits: Limits,
        input: &mut Input<'_>,
    ) -> Result<Read<Boxed<Init>>, Refusal>
        requires nested { ReadsInitializers limits.room (I.pre self.now.initializer) (I.post self.now.initializer) }
        requires room { 0 < limits.room }
        ensures reads { Says (named (limits.room - 1) (Initializer input.old.scope) input.old.tokens) result input.new.tokens }
        ensures kept { IfOk result (λ read. input.new.scope ≡ input.old.scope) }
    {
        (self.initializer)(self.alloc, limits.inside(), input)
    }

    /// The initializers in braces, up to the `}`.
    #[tactic(auto, using(crate::proofs::Initials::initializer_refused, crate::proofs::Initials::initializers_closed, crate::proofs::Initials::initializers_faulty, crate::proofs::Initials::initializers_ended, crate::proofs::Initials::initializers_more, crate::proofs::Gathered::gathered_none, parse_input::proofs::Steps::sees_less, parse_input::proofs::Steps::shorter))]
    fn initializers_inside(
        &self,
        limits: Limits,
        input: &mut Input<'_>,
    ) -> Result<Read<Items<Init>>, Refusal>
        requires nested { ReadsInitializers limits.room (I.pre self.now.initializer) (I.post self.now.initializer) }
        requires room { 0 < limits.room }
        ensures reads { Says (named (limits.room - 1) (NamedInitializers input.old.scope) input.old.tokens) result input.new.tokens }
        ensures kept { IfOk result (λ read. input.new.scope ≡ input.old.scope) }
    {
        let mut value = Items::new(self.alloc);
        let mut depth = 0;
        'each: loop {
            let one = self.initializer_inside(limits, input)?;
            value.push(one.value.into_inner())?;
            depth = deeper(depth, one.depth);
            if input.is(Terminal::CloseBrace) {
                let _closed = input.take();
                return Ok(Read { value, depth });
            }
            if !input.is(Terminal::Comma) {
                return Err(Refusal::Refused(false));
            }
            let _comma = input.take();
            if input.is(Terminal::CloseBrace) {
                let _closed = input.take();
                return Ok(Read { value, depth });
            }
        }
    }

    /// Initializers in braces.
    #[tactic(auto, using(crate::proofs::Initials::braces_rule, crate::proofs::Initials::no_braces, parse_input::proofs::Steps::within))]
    fn braces(&self, limits: Limits, input: &mut Input<'_>) -> Result<Read<Boxed<Init>>, Refusal>
        requires nested { ReadsInitializers limits.room (I.pre self.now.initializer) (I.post self.now.initializer) }
        ensures reads { Says (named limits.room (Braces input.old.scope) input.old.tokens) result input.new.tokens }
        ensures kept { IfOk result (λ read. input.new.scope ≡ input.old.scope) }
    {
        let begins = input.is(Terminal::OpenBrace);
        if limits.room == 0 {
            return Err(Refusal::Refused(begins));
        }
        if !begins {
            return Err(Refusal::Refused(false));
        }
        let opened = input.take();
        let list = self.initializers_inside(limits, input)?;
        let depth = list.depth + 1;
        Ok(Read {
            value: Boxed::new(self.alloc, Init::List(opened.place(), list.value))?,
            depth,
        })
    }

    /// An initializer.
    #[tactic(auto, using(crate::proofs::Initials::initializer_rule))]
    fn initializer(
        &self,
        limits: Limits,
        input: &mut Input<'_>,
    ) -> Result<Read<Boxed<Init>>, Refusal>
        requires nested { ReadsInitializers limits.room (I.pre self.now.initializer) (I.post self.now.initializer) }
        ensures reads { Says (named limits.room (Initializer input.old.scope) input.old.tokens) result input.new.tokens }
        ensures kept { IfOk result (λ read. input.new.scope ≡ input.old.scope) }
    {
        if input.is(Terminal::OpenBrace) {
            return self.braces(limits, input);
        }
        let value = expression(self.alloc, limits, Wanted::Assignment, input)?;
        let depth = value.depth;
        Ok(Read {
            value: Boxed::new(self.alloc, Init::Value(value.value))?,
            depth,
        })
    }
}

/// An initializer.
pub fn initializer(
    alloc: Global,
    limits: Limits,
    input: &mut Input<'_>,
) -> Result<Read<Boxed<Init>>, Refusal>
    ensures reads { Says (named limits.room (Initializer input.old.scope) input.old.tokens) result input.new.tokens }
    ensures kept { IfOk result (λ read. input.new.scope ≡ input.old.scope) }
{
    Initializers { alloc, initializer }.initializer(limits, input)
}
