//! What blocks are read by.

use parse_statements::Statements;

/// The rules of blocks, over those of statements.
#[derive(Clone, Copy)]
pub struct Blocks<S> {
    pub statements: Statements<S>,
}
