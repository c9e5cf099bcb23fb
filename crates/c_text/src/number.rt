//! Integer constants.

ghost use Rattle.std.specs.Prelude.{◌≡◌, ◌≤◌, length};
ghost use Rattle.std.specs.List.{list_all, position_or_len};
ghost use Rattle.c_text.specs.Bytes.{is_digit, is_octal_digit, is_hex_digit};
ghost use Rattle.c_text.specs.Numbers.{digit_value, value_in, capped, capped_value, is_suffix, digits_of, has_suffix, read_digits, read_after_zero, read_number, greatest, value_within, number_value, number_of};

use crate::bytes::{is_digit, is_hex_digit, is_octal_digit};

/// An integer constant: its value, and whether its type is `unsigned`, else `int`.
#[derive(Clone, Copy)]
pub struct Number {
    pub value: u32,
    pub is_unsigned: bool,
}

/// A value, or 2^32 where it is above that: values beyond `unsigned` are not told apart.
fn capped(value: u64) -> u64
    ensures { result ≡ capped value }
{
    value.min(4_294_967_296)
}

fn digit_value(digit: u8) -> u8
    ensures { result ≡ digit_value digit }
{
    if is_digit(digit) {
        digit - b'0'
    } else if digit >= b'a' {
        digit - 87
    } else {
        digit.saturating_sub(55)
    }
}

/// The value of digits in a base, up to 2^32.
pub(crate) fn value_in(base: u64, digits: &[u8]) -> u64
    requires some { 1 ≤ base }
    requires most { base ≤ 16 }
    ensures { result ≡ capped (value_in base digits.now) }
{
    let mut value = 0;
    for digit in digits {
        value = capped(value * base + u64::from(digit_value(*digit)));
    }
    value
}

fn is_suffix(byte: u8) -> bool
    ensures { result ≡ is_suffix byte }
{
    byte == b'u' || byte == b'U'
}

fn digits_length(word: &[u8]) -> usize
    ensures value { result ≡ position_or_len is_suffix word.now }
    ensures within { result ≤ length word.now }
{
    word.iter().take_while(|byte| !is_suffix(**byte)).count()
}

fn digits_of(word: &[u8]) -> &[u8]
    ensures { result.now ≡ digits_of word.now }
{
    &word[..digits_length(word)]
}

fn all_octal(digits: &[u8]) -> bool
    ensures { result ≡ list_all is_octal_digit digits.now }
{
    digits.iter().all(|digit| is_octal_digit(*digit))
}

fn all_decimal(digits: &[u8]) -> bool
    ensures { result ≡ list_all is_digit digits.now }
{
    digits.iter().all(|digit| is_digit(*digit))
}

fn all_hex(digits: &[u8]) -> bool
    ensures { result ≡ list_all is_hex_digit digits.now }
{
    digits.iter().all(|digit| is_hex_digit(*digit))
}

fn read_octal(digits: &[u8]) -> Option<u64>
    ensures { result ≡ capped_value (read_digits 8 is_octal_digit digits.now) }
{
    if all_octal(digits) {
        Some(value_in(8, digits))
    } else {
        None
    }
}

fn read_decimal(digits: &[u8]) -> Option<u64>
    ensures { result ≡ capped_value (read_digits 10 is_digit digits.now) }
{
    if all_decimal(digits) {
        Some(value_in(10, digits))
    } else {
        None
    }
}

fn read_hex(digits: &[u8]) -> Option<u64>
    ensures { result ≡ capped_value (read_digits 16 is_hex_digit digits.now) }
{
    if all_hex(digits) {
        Some(value_in(16, digits))
    } else {
        None
    }
}

/// What follows a first `0`.
fn read_after_zero(rest: &[u8]) -> Option<u64>
    ensures { result ≡ capped_value (read_after_zero rest.now) }
{
    if rest.is_empty() {
        return Some(0);
    }
    if rest[0] != b'x' && rest[0] != b'X' {
        return read_octal(rest);
    }
    if rest.len() == 1 {
        return None;
    }
    read_hex(&rest[1..])
}

fn read_number(digits: &[u8]) -> Option<u64>
    ensures { result ≡ capped_value (read_number digits.now) }
{
    if digits.is_empty() {
        None
    } else if digits[0] == b'0' {
        read_after_zero(&digits[1..])
    } else {
        read_decimal(digits)
    }
}

fn has_suffix(word: &[u8]) -> bool
    ensures { result ≡ has_suffix word.now }
{
    digits_of(word).len() != word.len()
}

/// The greatest value of a constant that is spelled so.
fn greatest(word: &[u8]) -> u64
    ensures value { result ≡ greatest word.now }
    ensures most { result ≤ 4294967295 }
{
    if has_suffix(word) || (!word.is_empty() && word[0] == b'0') {
        4_294_967_295
    } else {
        2_147_483_647
    }
}

fn within(limit: u64, value: u64) -> Option<u32>
    requires { limit ≤ 4294967295 }
    ensures { result ≡ value_within limit (Some value) }
{
    if value <= limit {
        Some(value as u32)
    } else {
        None
    }
}

/// The value of an integer constant, or none where the word is no constant or out of range.
pub(crate) fn number_value(word: &[u8]) -> Option<u32>
    ensures { result ≡ number_value word.now }
{
    let digits = digits_of(word);
    if word.len() - digits.len() > 1 {
        return None;
    }
    match read_number(digits) {
        None => None,
        Some(value) => within(greatest(word), value),
    }
}

/// The integer constant that a word is: its value, from 0 to 4294967295, and its type; none where the word
/// is no integer constant or its value is out of range (C17 6.4.4.1 with at most a suffix `u` or `U`: `int`
/// up to 2147483647 without a suffix, else `unsigned`; without a suffix a decimal constant is an `int`).
pub fn number_of(word: &[u8]) -> Option<Number>
    ensures { result ≡ number_of word.now }
{
    match number_value(word) {
        None => None,
        Some(value) => Some(Number {
            value,
            is_unsigned: has_suffix(word) || value > 2_147_483_647,
        }),
    }
}
