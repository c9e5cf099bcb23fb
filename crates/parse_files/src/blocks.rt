//! Blocks (C17 6.8.2).

ghost use Rattle.std.specs.Prelude.{◌≡◌, ◌<◌, ◌-◌, IfOk};
ghost use Rattle.c_grammar.specs.Rules.{Block as NamedBlock, BlockItems};
ghost use Rattle.parse_input.specs.Reads.{named, reads, Says};
ghost use Rattle.parse_files.specs.Kinds.{block_item, item_read};
ghost use Rattle.parse_statements.specs.Nested.{ReadsStatements};
ghost use Rattle.parse_declarations.specs.Scoped.{Leaves, Extends};

use crate::begins::begins_item;
use crate::parser::Blocks;
use crate::values::Block;
use c_grammar::{SpecifierContext, Terminal};
use c_tree::BlockItem;
use parse_declarations::declaration;
use parse_input::{Input, Limits, Read, Refusal, begins_specifiers, deeper};
use parse_statements::Statement;
use sqlite_items::Items;
use std::alloc::Global;

impl<S: Fn(Global, Limits, bool, &mut Input<'_>) -> Result<Read<Statement>, Refusal>> Blocks<S> {
    /// A declaration or a statement in a block.
    #[tactic(auto, using(crate::proofs::Blocked::item_rule, parse_declarations::proofs::Scopes::extends_same))]
    fn block_item(
        &self,
        limits: Limits,
        in_loop: bool,
        input: &mut Input<'_>,
    ) -> Result<Read<BlockItem>, Refusal>
        requires nested { ReadsStatements limits.room (S.pre self.now.statements.statement) (S.post self.now.statements.statement) }
        requires room { 0 < limits.room }
        ensures reads { Leaves item_read (reads (named (limits.room - 1)) (block_item input.old.scope in_loop) input.old.tokens) result input.new }
        ensures grown { IfOk result (λ read. Extends input.old.scope input.new.scope) }
    {
        if begins_specifiers(SpecifierContext::Block, input) {
            let one = declaration(self.statements.alloc, limits.inside(), input)?;
            return Ok(Read {
                value: BlockItem::Declaration(one.value),
                depth: one.depth,
            });
        }
        let one = self.statements.statement_inside(limits, in_loop, input)?;
        let depth = one.depth;
        let statement = one.value;
        Ok(Read {
            value: BlockItem::Statement(statement.tree),
            depth,
        })
    }

    /// The declarations and statements in a block.
    #[tactic(auto, using(crate::proofs::Blocked::items_ended, crate::proofs::Blocked::items_refused, crate::proofs::Blocked::items_more, crate::proofs::Blocked::item_less, parse_declarations::proofs::Gathered::gathered_none, parse_declarations::proofs::Scopes::extends_self, parse_declarations::proofs::Scopes::extends_both))]
    fn block_items(
        &self,
        limits: Limits,
        in_loop: bool,
        input: &mut Input<'_>,
    ) -> Result<Read<Items<BlockItem>>, Refusal>
        requires nested { ReadsStatements limits.room (S.pre self.now.statements.statement) (S.post self.now.statements.statement) }
        requires room { 0 < limits.room }
        ensures reads { Says (named (limits.room - 1) (BlockItems input.old.scope in_loop) input.old.tokens) result input.new.tokens }
        ensures grown { IfOk result (λ read. Extends input.old.scope input.new.scope) }
    {
        let mut value = Items::new(self.statements.alloc);
        let mut depth = 0;
        'each: loop {
            if !begins_item(in_loop, input) {
                return Ok(Read { value, depth });
            }
            let one = self.block_item(limits, in_loop, input)?;
            value.push(one.value)?;
            depth = deeper(depth, one.depth);
        }
    }

    /// A block.
    #[tactic(auto, using(crate::proofs::Blocked::block_rule, crate::proofs::Blocked::no_block, parse_declarations::proofs::Scopes::extends_longer, parse_declarations::proofs::Scopes::extends_cut, parse_input::proofs::Steps::within))]
    pub fn block(
        &self,
        limits: Limits,
        in_loop: bool,
        input: &mut Input<'_>,
    ) -> Result<Read<Block>, Refusal>
        requires nested { ReadsStatements limits.room (S.pre self.now.statements.statement) (S.post self.now.statements.statement) }
        ensures reads { Says (named limits.room (NamedBlock input.old.scope in_loop) input.old.tokens) result input.new.tokens }
        ensures kept { IfOk result (λ read. input.new.scope ≡ input.old.scope) }
    {
        let begins = input.is(Terminal::OpenBrace);
        if limits.room == 0 {
            return Err(Refusal::Refused(begins));
        }
        if !begins {
            return Err(Refusal::Refused(false));
        }
        let opened = input.take();
        let mark = input.mark();
        let items = self.block_items(limits, in_loop, input)?;
        if !input.is(Terminal::CloseBrace) {
            return Err(Refusal::Refused(false));
        }
        let _closed = input.take();
        input.restore(mark);
        Ok(Read {
            value: Block {
                place: opened.place(),
                items: items.value,
            },
            depth: items.depth + 1,
        })
    }
}
