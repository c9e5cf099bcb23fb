//! Which expressions a rule wants.

use c_grammar::Precedence;

/// The expressions that rules of expressions hold inside a node.
#[derive(Clone, Copy)]
pub enum Wanted {
    Expression,
    Assignment,
    Conditional,
    /// What stands on the right of a binary operator: all that binds tighter.
    Right(Precedence),
    /// An operand of a cast or of a unary operator other than `++`, `--` and `sizeof`.
    Cast,
    /// An operand of `++` or `--`.
    Unary,
    /// An operand of `sizeof` without a parenthesis at its front.
    Bare,
    /// A postfix expression whose parenthesis at its front was read before, at this place.
    Opened(u32),
}
