//! The spelling of a C source: the tokens of a text, and the line and column of a place.
#![tactic(auto)]

ghost use Rattle.std.specs.Prelude.{◌≡◌, ◌↔◌, [], ◌∷◌, ◌++◌, length, IsTrue, OnOk, OnErr};

use std::alloc::{AllocError, Global};
use std::marker::Model;
use thiserror::Error;

mod bytes;
mod escape;
mod fault;
mod form;
mod limits;
mod number;
mod place;
mod scan;
mod spelling;
mod table;
mod value;
mod words;

pub use limits::SOURCE_LIMIT;
pub use number::{Number, number_of};
pub use place::{LineCursor, line_column};
pub use spelling::tokens;
pub use value::{character_value, text_values};

/// The kinds of token.
#[derive(Clone, Copy, PartialEq)]
pub enum TokenKind {
    /// An identifier that is no keyword (C17 6.4.2).
    Name,
    /// A keyword of C17 (6.4.1), or `__attribute__`.
    Keyword,
    /// An integer constant (C17 6.4.4.1).
    Number,
    /// An integer character constant (C17 6.4.4.4).
    Character,
    /// A string literal (C17 6.4.5).
    Text,
    /// A punctuator (C17 6.4.6).
    Punctuator,
}

/// A token: its kind, and the byte offsets from 0 of its first byte and of the byte after its last.
#[derive(Clone, Copy)]
pub struct Token {
    pub kind: TokenKind,
    pub start: u32,
    pub end: u32,
}

/// The tokens of a source, in their order.
#[derive(Drop)]
pub struct TokenList {
    tokens: Vec<Token>,
}

impl Model for TokenList {
    ghost use Rattle.std.specs.Prelude.{List};
    ghost use Rattle.c_text.specs.declared.Token.{Token};

    ghost Value = { List Token };

    ghost view = { λ list. list.tokens.items };
}

impl TokenList {
    /// The list without tokens. It takes no memory.
    pub fn new(alloc: Global) -> TokenList
        ensures { result ≡ [] }
    {
        TokenList {
            tokens: Vec::new(alloc),
        }
    }

    /// Adds a token at the end. Where memory is refused, the list stays as it was.
    pub fn push(&mut self, token: Token) -> Result<(), AllocError>
        ensures ok { OnOk result (self.new ≡ self.old ++ token ∷ []) }
        ensures err { OnErr result (self.new ≡ self.old) }
    {
        self.tokens.push(token)?;
        Ok(())
    }

    /// How many tokens there are.
    pub fn len(&self) -> usize
        ensures { result ≡ length self.now }
    {
        self.tokens.len()
    }

    /// Whether there is none.
    pub fn is_empty(&self) -> bool
        ensures { IsTrue result ↔ (self.now ≡ []) }
    {
        self.tokens.is_empty()
    }

    /// The tokens in order.
    pub fn as_slice(&self) -> &[Token]
        ensures { result.now ≡ self.now }
    {
        self.tokens.as_slice()
    }
}

/// Why a text has no tokens.
#[derive(Clone, Copy, Debug, Error)]
pub enum TextRefusal {
    /// The first fault of the spelling: its number, and the byte offset from 0 of its place. The numbers are
    /// 1 bad byte, 2 open comment, 3 open string, 4 number out of range, 5 unknown escape, 6 bad directive.
    #[error("fault {number} of the spelling at byte {place}")]
    Bad { number: u8, place: u32 },
    /// Memory ran out.
    #[error("out of memory")]
    NoMemory,
}
