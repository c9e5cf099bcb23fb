// Patterns, read once and matched without memory.
ghost use Rattle.std.specs.Prelude.{◌≡◌, ◌↔◌, IsTrue, IfOk, Any};

use crate::search::{follow_in_order, split_first};
use std::alloc::{AllocError, Global};
use std::marker::Model;

/// A piece of a pattern: bytes that stand side by side in each text that matches.
#[derive(Drop)]
pub struct Piece {
    bytes: Vec<u8>,
}

impl Model for Piece {
    ghost use Rattle.std.specs.Prelude.{List, ℕ};

    ghost Value = { List ℕ };

    ghost view = { λ piece. piece.bytes.items };
}

impl Piece {
    fn copied(alloc: Global, bytes: &[u8]) -> Result<Piece, AllocError>
        ensures { IfOk result (λ piece. piece ≡ bytes.now) }
    {
        let bytes = Vec::from_slice(alloc, bytes)?;
        Ok(Piece { bytes })
    }

    /// The bytes of the piece.
    pub(crate) fn as_bytes(&self) -> &[u8]
        ensures { result.now ≡ self.now }
    {
        self.bytes.as_slice()
    }
}

/// The pieces of a pattern, in order.
#[derive(Drop)]
pub struct PieceList {
    pieces: Vec<Piece>,
}

impl Model for PieceList {
    ghost use Rattle.std.specs.Prelude.{List, ℕ};

    ghost Value = { List (List ℕ) };

    ghost view = { λ list. list.pieces.items };
}

impl PieceList {
    ghost use Rattle.suppress.specs.Pattern.{pieces_in};

    /// The pieces between the `*`s of `bytes`, one more than there are `*`s.
    fn split(alloc: Global, bytes: &[u8]) -> Result<PieceList, AllocError>
        ensures { IfOk result (λ list. list ≡ pieces_in bytes.now) }
    {
        let mut pieces = Vec::new(alloc);
        let mut rest = Some(bytes);
        while let Some(text) = rest {
            let (first, more) = split_first(text, b'*');
            pieces.push(Piece::copied(alloc, first)?)?;
            rest = more;
        }
        Ok(PieceList { pieces })
    }

    /// The pieces as a slice.
    fn as_slice(&self) -> &[Piece]
        ensures { result.now ≡ self.now }
    {
        self.pieces.as_slice()
    }
}

/// A pattern for names. Its texts are the pieces in order with any runs of bytes before, between and
/// after them, the first run empty where the start is anchored and the last where the end is.
#[derive(Drop)]
pub struct Pattern {
    /// Whether the pattern begins with `^`.
    pub anchored_start: bool,
    /// Whether the pattern ends with `$`.
    pub anchored_end: bool,
    /// What stands between the `*`s.
    pub pieces: PieceList,
}

impl Pattern {
    ghost use Rattle.suppress.specs.Pattern.{pattern_of, Matches};

    /// The pattern that `bytes` write. Only want of memory is an error.
    pub(crate) fn parse(alloc: Global, bytes: &[u8]) -> Result<Pattern, AllocError>
        ensures { IfOk result (λ pattern. pattern ≡ pattern_of bytes.now) }
    {
        let (anchored_start, bytes) = match bytes {
            [b'^', rest @ ..] => (true, rest),
            _ => (false, bytes),
        };
        let (anchored_end, bytes) = match bytes {
            [rest @ .., b'$'] => (true, rest),
            _ => (false, bytes),
        };
        let pieces = PieceList::split(alloc, bytes)?;
        Ok(Pattern {
            anchored_start,
            anchored_end,
            pieces,
        })
    }

    /// Whether the pattern matches the whole of `text`. It takes no memory, and looks at each byte of
    /// `text` at most a fixed number of times for each piece.
    pub(crate) fn matches(&self, text: &[u8]) -> bool
        ensures { IsTrue result ↔ Matches self.now text.now }
    {
        let pieces = self.pieces.as_slice();
        if !self.anchored_start {
            return follow_in_order(pieces, self.anchored_end, text);
        }
        let Some((first, later)) = pieces.split_first() else {
            return text.is_empty();
        };
        match text.strip_prefix(first.as_bytes()) {
            None => false,
            Some(rest) => follow_in_order(later, self.anchored_end, rest),
        }
    }

    /// Whether the pattern matches one of `names`. It takes no memory.
    pub(crate) fn matches_any(&self, names: &[&str]) -> bool
        ensures { IsTrue result ↔ Any (λ name. Matches self.now name.now) names.now }
    {
        for name in names {
            if self.matches(name.as_bytes()) {
                return true;
            }
        }
        false
    }
}
