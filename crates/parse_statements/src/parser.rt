//! What statements are read by.

ghost use Rattle.std.specs.Prelude.{◌≡◌, ◌<◌, ◌-◌, IfOk};
ghost use Rattle.c_grammar.specs.Rules.{Statement as NamedStatement};
ghost use Rattle.parse_input.specs.Reads.{named, Says};
ghost use Rattle.parse_statements.specs.Nested.{ReadsStatements};

use crate::values::Statement;
use parse_input::{Input, Limits, Read, Refusal};
use std::alloc::Global;

/// The rules of statements. Statements inside a node are read by a function value, so that no rule calls itself.
#[derive(Clone, Copy)]
pub struct Statements<S> {
    pub alloc: Global,
    pub statement: S,
}

impl<S: Fn(Global, Limits, bool, &mut Input<'_>) -> Result<Read<Statement>, Refusal>> Statements<
    S,
> {
    /// A statement inside a node.
    pub fn statement_inside(
        &self,
        limits: Limits,
        in_loop: bool,
        input: &mut Input<'_>,
    ) -> Result<Read<Statement>, Refusal>
        requires nested { ReadsStatements limits.room (S.pre self.now.statement) (S.post self.now.statement) }
        requires room { 0 < limits.room }
        ensures reads { Says (named (limits.room - 1) (NamedStatement input.old.scope in_loop) input.old.tokens) result input.new.tokens }
        ensures kept { IfOk result (λ read. input.new.scope ≡ input.old.scope) }
    {
        (self.statement)(self.alloc, limits.inside(), in_loop, input)
    }
}
