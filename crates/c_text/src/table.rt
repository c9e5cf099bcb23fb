//! Words that are told one by one: keywords and headers; and the directive.

ghost use Rattle.std.specs.Prelude.{◌≡◌, ◌≤◌, length};
ghost use Rattle.std.specs.List.{prefix_len, list_any};
ghost use Rattle.std.specs.Str.{bytes_eq};
ghost use Rattle.c_text.specs.Bytes.{is_blank};
ghost use Rattle.c_text.specs.Forms.{past_blanks, is_line_rest, is_include, is_directive, names_header};
ghost use Rattle.c_text.specs.Words.{is_one_of, keywords, punctuators};

use crate::bytes::is_blank;

const KEYWORDS: [&[u8]; 45] = [
    b"auto",
    b"break",
    b"case",
    b"char",
    b"const",
    b"continue",
    b"default",
    b"do",
    b"double",
    b"else",
    b"enum",
    b"extern",
    b"float",
    b"for",
    b"goto",
    b"if",
    b"inline",
    b"int",
    b"long",
    b"register",
    b"restrict",
    b"return",
    b"short",
    b"signed",
    b"sizeof",
    b"static",
    b"struct",
    b"switch",
    b"typedef",
    b"union",
    b"unsigned",
    b"void",
    b"volatile",
    b"while",
    b"_Alignas",
    b"_Alignof",
    b"_Atomic",
    b"_Bool",
    b"_Complex",
    b"_Generic",
    b"_Imaginary",
    b"_Noreturn",
    b"_Static_assert",
    b"_Thread_local",
    b"__attribute__",
];

/// The punctuators of three, two and one bytes, those that are used most first.
const TRIPLES: [&[u8]; 3] = [b"...", b"<<=", b">>="];

const DOUBLES: [&[u8]; 19] = [
    b"->", b"++", b"--", b"<<", b">>", b"<=", b">=", b"==", b"!=", b"&&", b"||", b"*=", b"/=",
    b"%=", b"+=", b"-=", b"&=", b"^=", b"|=",
];

const SINGLES: [&[u8]; 24] = [
    b";", b",", b"(", b")", b"=", b"{", b"}", b"*", b"[", b"]", b".", b"&", b"+", b"-", b"<", b">",
    b"!", b"/", b"%", b":", b"?", b"|", b"^", b"~",
];

const HEADERS: [&[u8]; 5] = [
    b"<stdlib.h>",
    b"<stdio.h>",
    b"<unistd.h>",
    b"<pthread.h>",
    b"<sanitizer/rtsan_interface.h>",
];

fn is_one_of(words: &[&[u8]], word: &[u8]) -> bool
    ensures { result ≡ list_any (λ w. bytes_eq w.now word.now) words.now }
{
    words.iter().any(|w| *w == word)
}

/// Whether a word is a keyword.
pub(crate) fn is_keyword(word: &[u8]) -> bool
    ensures { result ≡ is_one_of keywords word.now }
{
    is_one_of(&KEYWORDS, word)
}

/// Whether a word is a punctuator.
pub(crate) fn is_punctuator(word: &[u8]) -> bool
    ensures { result ≡ is_one_of punctuators word.now }
{
    if word.len() == 1 {
        return is_one_of(&SINGLES, word);
    }
    if word.len() == 2 {
        return is_one_of(&DOUBLES, word);
    }
    if word.len() == 3 {
        return is_one_of(&TRIPLES, word);
    }
    false
}

fn blank_length(text: &[u8]) -> usize
    ensures value { result ≡ prefix_len is_blank text.now }
    ensures within { result ≤ length text.now }
{
    text.iter().take_while(|byte| is_blank(**byte)).count()
}

fn past_blanks(text: &[u8]) -> &[u8]
    ensures { result.now ≡ past_blanks text.now }
{
    &text[blank_length(text)..]
}

fn is_line_rest(text: &[u8]) -> bool
    ensures { result ≡ is_line_rest text.now }
{
    let rest = past_blanks(text);
    rest.is_empty() || rest.starts_with(b"//")
}

fn names_header(text: &[u8], header: &[u8]) -> bool
    ensures { result ≡ names_header text.now header.now }
{
    text.starts_with(header) && is_line_rest(&text[header.len()..])
}

fn names_one_of(text: &[u8], headers: &[&[u8]]) -> bool
    ensures { result ≡ list_any (λ header. names_header text.now header.now) headers.now }
{
    headers.iter().any(|header| names_header(text, *header))
}

fn is_include(text: &[u8]) -> bool
    ensures { result ≡ is_include text.now }
{
    if !text.starts_with(b"include") {
        return false;
    }
    names_one_of(past_blanks(&text[7..]), &HEADERS)
}

/// Whether a line is a directive, of which the `#` stands before the text.
pub(crate) fn is_directive(text: &[u8]) -> bool
    ensures { result ≡ is_directive text.now }
{
    is_include(past_blanks(text))
}
