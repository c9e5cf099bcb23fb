//! The next piece of a text.

ghost use Rattle.std.specs.Prelude.{◌≡◌, ◌+◌, ◌<◌, ◌≤◌, ◌^◌, ◌∷◌, length, slice_index, take, drop, true, false, ◌≢◌};
ghost use Rattle.std.specs.List.{list_all};
ghost use Rattle.c_text.specs.Bytes.{is_name_byte, is_number_byte, is_in_line};
ghost use Rattle.c_text.specs.Forms.{form_of, when, closed_or, line_form, mark_form, is_comment_end, is_string_end, is_character_end, name_kind};
ghost use Rattle.c_text.specs.Spelling.{IsFront};
ghost use Rattle.c_text.specs.Words.{is_one_of, punctuators};
ghost use Rattle.c_text.specs.declared.form.Form.TheVariants.{White, Comment, Directive, Word, Stray};
ghost use Rattle.c_text.specs.declared.form.StrayKind.TheVariants.{Byte, OpenComment, OpenQuote, Line};
ghost use Rattle.c_text.specs.declared.TokenKind.TheVariants.{Name, Keyword, Number, Character, Text, Punctuator};

use crate::TokenKind;
use crate::bytes::{is_digit, is_letter, is_white};
use crate::form::{Form, Scanned, StrayKind};
use crate::table::{is_directive, is_keyword, is_punctuator};
use crate::words::{
    character_end, comment_end, line_length, name_length, number_length, string_end,
};

/// A piece with one byte more in front.
fn behind_one(tail: Scanned) -> Scanned
    requires { tail.length < 2 ^ 63 }
    ensures form { result.form ≡ tail.form }
    ensures length { result.length ≡ 1 + tail.length }
{
    Scanned {
        form: tail.form,
        length: 1 + tail.length,
    }
}

/// A number, of which the first digit stands before the text.
fn number(rest: &[u8]) -> Scanned
    ensures { IsFront (λ word. when (list_all is_number_byte word) (Word Number)) result.form result.length rest.now }
{
    Scanned {
        form: Form::Word(TokenKind::Number),
        length: number_length(rest),
    }
}

/// A comment up to the line's end, whose `//` stands before the text.
fn line_comment(rest: &[u8]) -> Scanned
    ensures { IsFront (λ word. when (list_all is_in_line word) Comment) result.form result.length rest.now }
{
    Scanned {
        form: Form::Comment,
        length: line_length(rest),
    }
}

/// A comment, whose `/*` stands before the text.
fn block_comment(rest: &[u8]) -> Scanned
    ensures { IsFront (closed_or is_comment_end Comment (Stray OpenComment)) result.form result.length rest.now }
{
    match comment_end(rest) {
        Some(length) => Scanned {
            form: Form::Comment,
            length,
        },
        None => Scanned {
            form: Form::Stray(StrayKind::OpenComment),
            length: 0,
        },
    }
}

/// A character constant, whose opening quote stands before the text.
fn character(rest: &[u8]) -> Scanned
    ensures { IsFront (closed_or is_character_end (Word Character) (Stray OpenQuote)) result.form result.length rest.now }
{
    match character_end(rest) {
        Some(length) => Scanned {
            form: Form::Word(TokenKind::Character),
            length,
        },
        None => Scanned {
            form: Form::Stray(StrayKind::OpenQuote),
            length: 0,
        },
    }
}

/// A string, whose opening quote stands before the text.
fn string(rest: &[u8]) -> Scanned
    ensures { IsFront (closed_or is_string_end (Word Text) (Stray OpenQuote)) result.form result.length rest.now }
{
    match string_end(rest) {
        Some(length) => Scanned {
            form: Form::Word(TokenKind::Text),
            length,
        },
        None => Scanned {
            form: Form::Stray(StrayKind::OpenQuote),
            length: 0,
        },
    }
}

/// What begins by a `#`, which stands before the text. `alone`: it is the first token on its line.
fn line(rest: &[u8], alone: bool) -> Scanned
    ensures { IsFront (line_form alone) result.form result.length rest.now }
{
    if !alone {
        return Scanned {
            form: Form::Stray(StrayKind::Byte),
            length: 0,
        };
    }
    let length = line_length(rest);
    if is_directive(&rest[..length]) {
        Scanned {
            form: Form::Directive,
            length,
        }
    } else {
        Scanned {
            form: Form::Stray(StrayKind::Line),
            length,
        }
    }
}

/// An identifier: a keyword or a name.
fn name(left: &[u8]) -> Scanned
    requires { 0 < length left.now }
    ensures { IsFront (λ word. when (list_all is_name_byte word) (Word (name_kind (slice_index left.now 0 ∷ word)))) result.form result.length (drop 1 left.now) }
{
    let length = name_length(&left[1..]);
    let kind = if is_keyword(&left[..1 + length]) {
        TokenKind::Keyword
    } else {
        TokenKind::Name
    };
    Scanned {
        form: Form::Word(kind),
        length,
    }
}

/// Whether the first `count` bytes of a text are a punctuator.
fn is_mark(left: &[u8], count: usize) -> bool
    ensures yes { result ≡ true → (count ≤ length left.now) × (is_one_of punctuators (take count left.now) ≡ true) }
    ensures no { result ≡ false → count ≤ length left.now → is_one_of punctuators (take count left.now) ≡ false }
{
    count <= left.len() && is_punctuator(&left[..count])
}

/// A punctuator, or a byte that begins none.
fn mark(left: &[u8]) -> Scanned
    requires { 0 < length left.now }
    ensures front { IsFront mark_form result.form result.length left.now }
    ensures some { 0 < result.length }
{
    let form = Form::Word(TokenKind::Punctuator);
    if is_mark(left, 3) {
        return Scanned { form, length: 3 };
    }
    if is_mark(left, 2) {
        return Scanned { form, length: 2 };
    }
    if is_mark(left, 1) {
        return Scanned { form, length: 1 };
    }
    Scanned {
        form: Form::Stray(StrayKind::Byte),
        length: 1,
    }
}

/// Whether the second byte of a text is this one.
fn follows(left: &[u8], byte: u8) -> bool
    ensures yes { result ≡ true → (1 < length left.now) × (slice_index left.now 1 ≡ byte) }
    ensures no { result ≡ false → 1 < length left.now → slice_index left.now 1 ≢ byte }
{
    left.len() > 1 && left[1] == byte
}

/// What begins by a `/`: a comment or a punctuator.
fn slash(left: &[u8]) -> Scanned
    requires some { 0 < length left.now }
    requires first { slice_index left.now 0 ≡ 47 }
    ensures front { IsFront (form_of true) result.form result.length left.now }
    ensures some { 0 < result.length }
{
    if follows(left, b'/') {
        return behind_one(behind_one(line_comment(&left[2..])));
    }
    if follows(left, b'*') {
        return behind_one(behind_one(block_comment(&left[2..])));
    }
    mark(left)
}

/// The next piece of what is left of a text. `alone`: no token stands before it on its line.
pub(crate) fn scan(left: &[u8], alone: bool) -> Scanned
    requires { 0 < length left.now }
    ensures front { IsFront (form_of alone) result.form result.length left.now }
    ensures some { 0 < result.length }
{
    let first = left[0];
    if is_white(first) {
        return Scanned {
            form: Form::White,
            length: 1,
        };
    }
    if is_letter(first) {
        return behind_one(name(left));
    }
    if is_digit(first) {
        return behind_one(number(&left[1..]));
    }
    if first == b'\'' {
        return behind_one(character(&left[1..]));
    }
    if first == b'"' {
        return behind_one(string(&left[1..]));
    }
    if first == b'#' {
        return behind_one(line(&left[1..], alone));
    }
    if first == b'/' {
        return slash(left);
    }
    mark(left)
}
