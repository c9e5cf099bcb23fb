//! Enumerators (C17 6.7.2.2).

ghost use Rattle.std.specs.Prelude.{◌≡◌, ◌+◌, ◌*◌, IfOk};
ghost use Rattle.c_grammar.specs.Rules.{Enumerators};
ghost use Rattle.parse_input.specs.Reads.{named, reads, Says};
ghost use Rattle.parse_specifiers.specs.Nested.{Held};
ghost use Rattle.parse_specifiers.specs.Parts.{enumerator};

use crate::parser::SpecifierRules;
use c_grammar::Terminal;
use c_tree::{Enumerator, Expr, Member};
use parse_input::{Input, Limits, Read, Refusal, begins_ordinary_name, deeper, flat};
use sqlite_items::{Boxed, Items};
use std::alloc::Global;

impl<
    'a,
    C: Fn(Global, Limits, &mut Input<'a>) -> Result<Read<Boxed<Expr>>, Refusal>,
    M: Fn(Global, Limits, &mut Input<'a>) -> Result<Read<Items<Member>>, Refusal>,
> SpecifierRules<C, M> {
    /// An enumerator.
    #[tactic(auto, using(parse_input::proofs::Steps::max_zero))]
    fn enumerator(&self, limits: Limits, input: &mut Input<'a>) -> Result<Read<Enumerator>, Refusal>
        requires held { Held (2 * (limits.opens + limits.room) + 1) (C.pre self.now.conditional) (C.post self.now.conditional) (M.pre self.now.members) (M.post self.now.members) }
        ensures reads { Says (reads (named limits.room) (enumerator input.old.scope) input.old.tokens) result input.new.tokens }
        ensures kept { IfOk result (λ read. input.new.scope ≡ input.old.scope) }
    {
        if !begins_ordinary_name(input) {
            return Err(Refusal::Refused(false));
        }
        let name = input.take().span();
        if !input.is(Terminal::Equal) {
            return Ok(flat(Enumerator { name, value: None }));
        }
        let _equal = input.take();
        let value = self.conditional_opened(limits, input)?;
        Ok(Read {
            value: Enumerator {
                name,
                value: Some(value.value),
            },
            depth: value.depth,
        })
    }

    /// The enumerators of an enumeration, up to its `}`.
    #[tactic(auto, using(crate::proofs::Enumerating::enumerators, crate::proofs::Enumerating::enumerators_go, crate::proofs::Enumerating::enumerators_end, crate::proofs::Enumerating::enumerators_end_comma, parse_input::proofs::Then::items_begin))]
    pub fn enumerators(
        &self,
        limits: Limits,
        input: &mut Input<'a>,
    ) -> Result<Read<Items<Enumerator>>, Refusal>
        requires held { Held (2 * (limits.opens + limits.room) + 1) (C.pre self.now.conditional) (C.post self.now.conditional) (M.pre self.now.members) (M.post self.now.members) }
        ensures reads { Says (named limits.room (Enumerators input.old.scope) input.old.tokens) result input.new.tokens }
        ensures kept { IfOk result (λ read. input.new.scope ≡ input.old.scope) }
    {
        let mut enumerators = Items::new(self.alloc);
        let mut depth = 0;
        'each: loop {
            let enumerator = self.enumerator(limits, input)?;
            depth = deeper(depth, enumerator.depth);
            enumerators.push(enumerator.value)?;
            if !input.is(Terminal::CloseBrace) {
                if !input.is(Terminal::Comma) {
                    return Err(Refusal::Refused(false));
                }
                let _comma = input.take();
                if !input.is(Terminal::CloseBrace) {
                    continue;
                }
            }
            let _closed = input.take();
            return Ok(Read {
                value: enumerators,
                depth,
            });
        }
    }
}
