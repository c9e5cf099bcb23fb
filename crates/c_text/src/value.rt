//! The values of character constants and strings.

ghost use Rattle.std.specs.Prelude.{◌≡◌, ◌≢◌, ◌<◌, ◌≤◌, ◌∷◌, length, drop, slice_index, IfOk};
ghost use Rattle.c_text.specs.Escapes.{character_value, text_values, values_after};

use crate::escape::escape_value;
use crate::words::escape_length;
use std::alloc::{AllocError, Global};

/// The value of a character constant, from 0 to 255: that of its byte or its escape (C17 6.4.4.4; that it is
/// never negative is this project's own rule). `word` is the whole constant, in its quotes; an unknown escape
/// counts as 0.
pub fn character_value(word: &[u8]) -> u8
    ensures { result ≡ character_value word.now }
{
    if word.len() < 2 {
        return 0;
    }
    if word[1] != b'\\' {
        return word[1];
    }
    escape_value(&word[2..]).unwrap_or(0)
}

/// The value of the byte or the escape at `at` in a string, and the place behind it.
fn value_at(word: &[u8], at: usize) -> (u8, usize)
    requires inside { at < length word.now }
    requires unclosed { slice_index word.now at ≢ 34 }
    ensures value { values_after 0 (drop at word.now) ≡ result.0 ∷ values_after 0 (drop result.1 word.now) }
    ensures more { at < result.1 }
    ensures within { result.1 ≤ length word.now }
{
    if word[at] != b'\\' {
        return (word[at], at + 1);
    }
    let rest = &word[at + 1..];
    let value = escape_value(rest).unwrap_or(0);
    let length = escape_length(rest).unwrap_or(0);
    (value, at + 1 + length)
}

/// The values of the bytes of a string, each from 0 to 255, without the zero byte behind them (C17 6.4.5).
/// `word` is the whole string, in its quotes; an unknown escape counts as 0.
pub fn text_values(alloc: Global, word: &[u8]) -> Result<Vec<u8>, AllocError>
    ensures { IfOk result (λ values. values.items ≡ text_values word.now) }
{
    let mut values = Vec::new(alloc);
    let mut at = 1;
    while at < word.len() && word[at] != b'"' {
        let (value, next) = value_at(word, at);
        values.push(value)?;
        at = next;
    }
    Ok(values)
}
