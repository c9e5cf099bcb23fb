//! The lengths of words: how far a name, a comment, a string or a character constant goes.

ghost use Rattle.std.specs.Prelude.{◌≡◌, ◌≤◌, length, IfSome};
ghost use Rattle.std.specs.List.{prefix_len};
ghost use Rattle.c_text.specs.Bytes.{is_name_byte, is_number_byte, is_in_line, is_octal_digit, is_hex_digit};
ghost use Rattle.c_text.specs.Forms.{is_comment_end, is_string_end, is_character_end, further_digits, escape_length, character_length};
ghost use Rattle.c_text.specs.Ends.{IsOnlyEnd};

use crate::bytes::{is_hex_digit, is_name_byte, is_number_byte, is_octal_digit};

/// How many bytes of a name stand at the front of a text.
pub(crate) fn name_length(text: &[u8]) -> usize
    ensures value { result ≡ prefix_len is_name_byte text.now }
    ensures within { result ≤ length text.now }
{
    text.iter().take_while(|byte| is_name_byte(**byte)).count()
}

/// How many bytes of a number stand at the front of a text.
pub(crate) fn number_length(text: &[u8]) -> usize
    ensures value { result ≡ prefix_len is_number_byte text.now }
    ensures within { result ≤ length text.now }
{
    text.iter()
        .take_while(|byte| is_number_byte(**byte))
        .count()
}

/// How many bytes of a text stand before its first line feed.
pub(crate) fn line_length(text: &[u8]) -> usize
    ensures value { result ≡ prefix_len is_in_line text.now }
    ensures within { result ≤ length text.now }
{
    text.iter().take_while(|byte| **byte != b'\n').count()
}

fn octal_length(text: &[u8]) -> usize
    ensures value { result ≡ prefix_len is_octal_digit text.now }
    ensures within { result ≤ length text.now }
{
    text.iter()
        .take_while(|byte| is_octal_digit(**byte))
        .count()
}

fn hex_length(text: &[u8]) -> usize
    ensures value { result ≡ prefix_len is_hex_digit text.now }
    ensures within { result ≤ length text.now }
{
    text.iter().take_while(|byte| is_hex_digit(**byte)).count()
}

/// How far the end of a comment is, whose `/*` stands before the text.
pub(crate) fn comment_end(text: &[u8]) -> Option<usize>
    ensures { IsOnlyEnd is_comment_end result text.now }
{
    let mut marked = false;
    for (at, byte) in text.iter().enumerate() {
        if marked && *byte == b'/' {
            return Some(at + 1);
        }
        marked = *byte == b'*';
    }
    None
}

/// How far the end of a string is, whose opening quote stands before the text.
pub(crate) fn string_end(text: &[u8]) -> Option<usize>
    ensures { IsOnlyEnd is_string_end result text.now }
{
    let mut marked = false;
    for (at, byte) in text.iter().enumerate() {
        if !marked && *byte == b'"' {
            return Some(at + 1);
        }
        if *byte == b'\n' {
            return None;
        }
        marked = !marked && *byte == b'\\';
    }
    None
}

/// How many digits an escape takes after the byte `first` behind its `\`.
pub(crate) fn further_digits(first: u8, text: &[u8]) -> usize
    ensures value { result ≡ further_digits first text.now }
    ensures within { result ≤ length text.now }
{
    if is_octal_digit(first) {
        octal_length(&text[..text.len().min(2)])
    } else if first == b'x' {
        hex_length(text)
    } else {
        0
    }
}

/// How many bytes an escape has after its `\`, which stands before the text; none where it is no escape.
pub(crate) fn escape_length(text: &[u8]) -> Option<usize>
    ensures value { result ≡ escape_length text.now }
    ensures within { IfSome result (λ n. n ≤ length text.now) }
{
    if text.is_empty() || text[0] == b'\n' {
        return None;
    }
    Some(1 + further_digits(text[0], &text[1..]))
}

/// How many bytes the character at the front of a text has, in a character constant.
pub(crate) fn character_length(text: &[u8]) -> Option<usize>
    ensures value { result ≡ character_length text.now }
    ensures within { IfSome result (λ n. n ≤ length text.now) }
{
    if text.is_empty() || text[0] == b'\'' || text[0] == b'\n' {
        return None;
    }
    if text[0] != b'\\' {
        return Some(1);
    }
    match escape_length(&text[1..]) {
        None => None,
        Some(length) => Some(1 + length),
    }
}

/// How far the end of a character constant is, whose opening quote stands before the text.
pub(crate) fn character_end(text: &[u8]) -> Option<usize>
    ensures { IsOnlyEnd is_character_end result text.now }
{
    match character_length(text) {
        Some(length) if length < text.len() && text[length] == b'\'' => Some(length + 1),
        _ => None,
    }
}
