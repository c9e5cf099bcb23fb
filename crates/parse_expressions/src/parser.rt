//! What expressions are read by.

use parse_operands::Operands;

/// The rules of expressions, over those of operands.
#[derive(Clone, Copy)]
pub struct Expressions<E, T> {
    pub operands: Operands<E, T>,
}
