//! The forms of single values: numbers, identifiers.

ghost use Rattle.std.specs.Prelude.{◌≡◌, ◌≤◌, length, pos, neg_ℤ, IfSome};
ghost use Rattle.std.specs.List.{list_all};
ghost use Rattle.command.specs.Forms.{is_digit, value_of, number_of, number_within, argument_of, is_letter, is_name_byte, is_identifier};

fn is_digit(byte: u8) -> bool
    ensures { result ≡ is_digit byte }
{
    byte >= b'0' && byte <= b'9'
}

fn are_digits(text: &[u8]) -> bool
    ensures { result ≡ list_all is_digit text.now }
{
    text.iter().all(|byte| is_digit(*byte))
}

// The value of at most ten decimal digits.
fn value_of(digits: &[u8]) -> u64
    requires { length digits.now ≤ 10 }
    ensures { result ≡ value_of digits.now }
{
    let mut value: u64 = 0;
    for digit in digits {
        value = value * 10 + u64::from(digit.saturating_sub(b'0'));
    }
    value
}

fn number_of(text: &[u8]) -> Option<u64>
    ensures { result ≡ number_of text.now }
{
    if text.is_empty() {
        return None;
    }
    if text.len() > 10 {
        return None;
    }
    if are_digits(text) {
        Some(value_of(text))
    } else {
        None
    }
}

/// The number from `low` to `high` that one to ten decimal digits spell.
pub(crate) fn number_within(text: &[u8], low: u32, high: u32) -> Option<u32>
    ensures value { result ≡ number_within low high text.now }
    ensures within { IfSome result (λ n. n ≤ high) }
{
    let number = number_of(text)?;
    if number < u64::from(low) {
        return None;
    }
    if number > u64::from(high) {
        return None;
    }
    Some(number as u32)
}

fn negated(number: u32) -> i32
    requires { number ≤ 2147483648 }
    ensures { result ≡ neg_ℤ (pos number) }
{
    (-(number as i64)) as i32
}

/// The `int` that decimal digits with an optional `-` spell.
pub(crate) fn argument_of(text: &[u8]) -> Option<i32>
    ensures { result ≡ argument_of text.now }
{
    match text {
        [b'-', digits @ ..] => {
            let number = number_within(digits, 0, 2_147_483_648)?;
            Some(negated(number))
        }
        _ => {
            let number = number_within(text, 0, 2_147_483_647)?;
            Some(number as i32)
        }
    }
}

#[tactic(auto, unfolding(crate::specs::Forms::is_letter))]
fn is_letter(byte: u8) -> bool
    ensures { result ≡ is_letter byte }
{
    match byte {
        b'a'..=b'z' | b'A'..=b'Z' | b'_' => true,
        _ => false,
    }
}

#[tactic(auto, unfolding(crate::specs::Forms::is_name_byte))]
fn is_name_byte(byte: u8) -> bool
    ensures { result ≡ is_name_byte byte }
{
    is_letter(byte) || is_digit(byte)
}

fn are_name_bytes(text: &[u8]) -> bool
    ensures { result ≡ list_all is_name_byte text.now }
{
    text.iter().all(|byte| is_name_byte(*byte))
}

/// Whether the text is an identifier.
pub(crate) fn is_identifier(text: &[u8]) -> bool
    ensures { result ≡ is_identifier text.now }
{
    match text {
        [] => false,
        [first, rest @ ..] => is_letter(*first) && are_name_bytes(rest),
    }
}
