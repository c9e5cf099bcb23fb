//! Escapes in character constants and strings.

ghost use Rattle.std.specs.Prelude.{◌≡◌, ◌≤◌, ◌<◌, ◌+◌, length, drop, IfSome, MatchOption};
ghost use Rattle.c_text.specs.Forms.{escape_length, further_digits};
ghost use Rattle.c_text.specs.Numbers.{value_within};
ghost use Rattle.c_text.specs.Escapes.{simple_value, escape_value, unknown_escape};

use crate::bytes::is_octal_digit;
use crate::number::value_in;
use crate::words::{escape_length, further_digits};

/// The value of a simple escape, by the byte behind its `\`.
fn simple_value(byte: u8) -> Option<u8>
    ensures { result ≡ simple_value byte }
{
    match byte {
        b'n' => Some(10),
        b't' => Some(9),
        b'r' => Some(13),
        b'a' => Some(7),
        b'b' => Some(8),
        b'f' => Some(12),
        b'v' => Some(11),
        b'\\' | b'\'' | b'"' | b'?' => Some(byte),
        _ => None,
    }
}

fn byte_of(value: u64) -> Option<u8>
    ensures { result ≡ value_within 255 (Some value) }
{
    if value <= 255 {
        Some(value as u8)
    } else {
        None
    }
}

/// The value of the escape whose `\` stands before a text, or none where it is unknown.
pub(crate) fn escape_value(text: &[u8]) -> Option<u8>
    ensures { result ≡ escape_value text.now }
{
    if text.is_empty() {
        return None;
    }
    let first = text[0];
    let digits = further_digits(first, &text[1..]);
    if is_octal_digit(first) {
        return byte_of(value_in(8, &text[..1 + digits]));
    }
    if first != b'x' {
        return simple_value(first);
    }
    if digits == 0 {
        return None;
    }
    byte_of(value_in(16, &text[1..1 + digits]))
}

/// Where a constant goes on behind the byte or the known escape at `at`; none where that escape is unknown.
fn past(word: &[u8], at: usize) -> Option<usize>
    requires { at < length word.now }
    ensures none { result ≡ None → unknown_escape 0 at (drop at word.now) ≡ Some at }
    ensures next { IfSome result (λ n. unknown_escape 0 at (drop at word.now) ≡ unknown_escape 0 n (drop n word.now)) }
    ensures more { IfSome result (λ n. at < n) }
    ensures within { IfSome result (λ n. n ≤ length word.now) }
{
    if word[at] != b'\\' {
        return Some(at + 1);
    }
    let rest = &word[at + 1..];
    if escape_value(rest).is_none() {
        return None;
    }
    Some(at + 1 + escape_length(rest).unwrap_or(0))
}

/// Where the first unknown escape of a constant stands, counted in bytes from the constant's first.
pub(crate) fn unknown_escape(word: &[u8]) -> Option<usize>
    ensures value { result ≡ unknown_escape 0 0 word.now }
    ensures within { IfSome result (λ at. at < length word.now) }
{
    let mut at = 0;
    while at < word.len() {
        match past(word, at) {
            None => return Some(at),
            Some(next) => at = next,
        }
    }
    None
}
