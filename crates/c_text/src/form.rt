//! What the pieces of a text are.

use crate::TokenKind;

/// What a piece of a text is spelled as. A text is cut into pieces, each the longest that begins
/// where the one before it ends.
#[derive(Clone, Copy)]
pub(crate) enum Form {
    /// One byte of white space.
    White,
    Comment,
    /// A line `#include <..>` that names one of the headers.
    Directive,
    /// A token.
    Word(TokenKind),
    /// A beginning of nothing.
    Stray(StrayKind),
}

/// What begins none of the other forms.
#[derive(Clone, Copy)]
pub(crate) enum StrayKind {
    /// A byte that begins no token.
    Byte,
    /// The `/*` of a comment without its end.
    OpenComment,
    /// A quote that begins no string and no character constant.
    OpenQuote,
    /// A line from its `#` on that is no directive.
    Line,
}

/// A piece at the front of a text: its form, and how many bytes it has.
#[derive(Clone, Copy)]
pub(crate) struct Scanned {
    pub form: Form,
    pub length: usize,
}

/// A fault of the spelling in a piece: its number, and how far from the piece's first byte it stands.
#[derive(Clone, Copy)]
pub(crate) struct Fault {
    pub number: u8,
    pub offset: usize,
}
