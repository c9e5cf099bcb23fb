//! Parts of the form whose text is fixed.

ghost use Rattle.std.specs.Prelude.{IsTrue, ◌↔◌};
ghost use Rattle.built_form.specs.Form.{IsPart};
ghost use Rattle.built_form.specs.Reading.{part_of};

use c_text::{Token, TokenKind};

/// What a place of the form takes.
#[derive(Clone, Copy)]
pub enum Fixed<'a> {
    /// a punctuator of this text
    Sign(&'a str),
    /// a keyword of this text
    Keyword(&'a str),
    /// any token of this text
    Word(&'a str),
}

impl<'a> Fixed<'a> {
    /// Whether the token with this text is such a part.
    pub fn fits(self, token: Token, text: &[u8]) -> bool
        ensures { IsTrue result ↔ IsPart (record { token = token; text = text.now }) (part_of self.entry) }
    {
        match self {
            Fixed::Sign(sign) => token.kind == TokenKind::Punctuator && text == sign.as_bytes(),
            Fixed::Keyword(word) => token.kind == TokenKind::Keyword && text == word.as_bytes(),
            Fixed::Word(word) => text == word.as_bytes(),
        }
    }
}
