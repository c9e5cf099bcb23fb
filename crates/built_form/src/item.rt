//! A declaration or a definition of a function, as it is read.

use c_text::{Token, TokenList};

/// What the attribute of a function says.
#[derive(Clone, Copy)]
pub enum Mark {
    /// `[[clang::nonblocking]]`
    Nonblocking,
    /// `[[clang::blocking]]`
    Blocking,
}

/// What stands behind the parameters of a function that returns nothing.
#[derive(Drop)]
pub struct Ending {
    /// what its attribute says; none where it has no attribute
    pub mark: Option<Mark>,
    /// the names of the functions that its body calls, in order; none where it is only declared
    pub calls: Option<TokenList>,
}

/// What a declared function is.
#[derive(Drop)]
pub enum Kind {
    /// A function that returns nothing.
    Void(Ending),
    /// `main`, whose body calls the functions of these names, in order, and returns 0.
    Main(TokenList),
}

/// A declared function.
#[derive(Drop)]
pub struct Item {
    /// the token of its name
    pub name: Token,
    /// what kind of function it is, with what stands behind its parameters
    pub kind: Kind,
}
