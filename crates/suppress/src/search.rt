// Where a byte or a run of bytes stands in a text.
ghost use Rattle.std.specs.Prelude.{◌≡◌, ◌==◌, ◌<◌, ◌∷◌, [], length, MatchOption, ◌↔◌, IsTrue, false, position};
ghost use Rattle.std.specs.List.{slice_split};
ghost use Rattle.suppress.specs.Occurrence.{IsNowhere, IsAfterFirst};
ghost use Rattle.suppress.specs.Layout.{IsLaidOut};

use crate::pattern::Piece;
use memchr::memmem;

/// The first place of `byte` in `text`.
fn place_of(text: &[u8], byte: u8) -> Option<usize>
    ensures { result ≡ position (λ other. other == byte) text.now }
{
    text.iter().position(|other| *other == byte)
}

/// `text` up to the first `separator`, and what follows that: `None` where there is no separator.
pub(crate) fn split_first(text: &[u8], separator: u8) -> (&[u8], Option<&[u8]>)
    ensures parts { MatchOption result.1
        (slice_split (λ byte. byte == separator) text.now ≡ result.0.now ∷ [])
        (λ rest. slice_split (λ byte. byte == separator) text.now
        ≡ result.0.now ∷ slice_split (λ byte. byte == separator) rest.now) }
    ensures shorter { MatchOption result.1 (result.0.now ≡ text.now) (λ rest. length rest.now < length text.now) }
{
    match place_of(text, separator) {
        None => (text, None),
        Some(at) => (&text[..at], Some(&text[at + 1..])),
    }
}

/// What follows the first place of `piece` in `text`, or `None` where `text` has no such place.
pub(crate) fn after_first_place<'a>(text: &'a [u8], piece: &[u8]) -> Option<&'a [u8]>
    ensures { MatchOption result (IsNowhere piece.now text.now) (λ rest. IsAfterFirst piece.now text.now rest.now) }
{
    // A longer piece has no place, and preparing the search for it would cost more than the text.
    if text.len() < piece.len() {
        return None;
    }
    match memmem::find(text, piece) {
        None => None,
        Some(at) => Some(&text[at + piece.len()..]),
    }
}

/// Whether `text` has the pieces in order, after any run, with nothing after the last one where
/// `anchored_end` says so. Each piece is sought from where the one before it ended, at its first place:
/// a later place leaves less for the pieces that follow.
pub(crate) fn follow_in_order(pieces: &[Piece], anchored_end: bool, text: &[u8]) -> bool
    ensures { IsTrue result ↔ IsLaidOut false anchored_end pieces.now text.now }
{
    let Some((last, front)) = pieces.split_last() else {
        return !anchored_end || text.is_empty();
    };
    let mut rest = text;
    for piece in front {
        match after_first_place(rest, piece.as_bytes()) {
            None => return false,
            Some(after) => rest = after,
        }
    }
    if anchored_end {
        rest.ends_with(last.as_bytes())
    } else {
        after_first_place(rest, last.as_bytes()).is_some()
    }
}
