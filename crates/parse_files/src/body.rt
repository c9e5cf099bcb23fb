//! The bodies of functions.

ghost use Rattle.std.specs.Prelude.{◌≡◌, false, IfOk};
ghost use Rattle.c_grammar.specs.Rules.{Block as NamedBlock};
ghost use Rattle.parse_input.specs.Reads.{named, Says};

use crate::parser::Blocks;
use crate::statements::read_statement;
use crate::values::Block;
use parse_input::{Input, Limits, Read, Refusal};
use parse_statements::Statements;
use std::alloc::Global;

/// The body of a function.
pub fn body(alloc: Global, limits: Limits, input: &mut Input<'_>) -> Result<Read<Block>, Refusal>
    ensures reads { Says (named limits.room (NamedBlock input.old.scope false) input.old.tokens) result input.new.tokens }
    ensures kept { IfOk result (λ read. input.new.scope ≡ input.old.scope) }
{
    Blocks {
        statements: Statements {
            alloc,
            statement: read_statement,
        },
    }
    .block(limits, false, input)
}
