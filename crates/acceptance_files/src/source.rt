//! The tokens of sources, the values of constants and the depths of trees, as tables.

use c_parse::parse;
use c_text::{
    TextRefusal, TokenKind, character_value, line_column, number_of, text_values, tokens,
};
use std::alloc::Global;
use std::test::Fail;

/// The kind of the one token that is a whole text.
fn kind_of(alloc: Global, text: &[u8]) -> Option<TokenKind> {
    if text.len() > 100 {
        return None;
    }
    let list = tokens(alloc, text).ok()?;
    match list.as_slice() {
        [token] if token.start == 0 && token.end as usize == text.len() => Some(token.kind),
        _ => None,
    }
}

/// The number and the place of a text's first fault.
fn fault_of(alloc: Global, text: &[u8]) -> Option<(u8, u32)> {
    if text.len() > 100 {
        return None;
    }
    match tokens(alloc, text) {
        Err(TextRefusal::Bad { number, place }) => Some((number, place)),
        _ => None,
    }
}

const WORDS: [(&[u8], TokenKind); 24] = [
    (b"x", TokenKind::Name),
    (b"_Bool1", TokenKind::Name),
    (b"Int", TokenKind::Name),
    (b"int", TokenKind::Keyword),
    (b"_Thread_local", TokenKind::Keyword),
    (b"__attribute__", TokenKind::Keyword),
    (b"0", TokenKind::Number),
    (b"2147483647", TokenKind::Number),
    (b"4294967295U", TokenKind::Number),
    (b"037777777777", TokenKind::Number),
    (b"0xFFFFffff", TokenKind::Number),
    (b"0X0u", TokenKind::Number),
    (b"'a'", TokenKind::Character),
    (b"'\"'", TokenKind::Character),
    (b"'\\''", TokenKind::Character),
    (b"'\\377'", TokenKind::Character),
    (b"'\\x000ff'", TokenKind::Character),
    (b"\"\"", TokenKind::Text),
    (b"\"'/*\\\"\\\\\"", TokenKind::Text),
    (b"\"\\n\\t\\r\\a\\b\\f\\v\\'\\?\\0\\x41g\"", TokenKind::Text),
    (b">>=", TokenKind::Punctuator),
    (b"...", TokenKind::Punctuator),
    (b"->", TokenKind::Punctuator),
    (b"~", TokenKind::Punctuator),
];

#[test]
fn each_form_of_token(rt: HostRuntime) {
    for (text, kind) in WORDS {
        assert!(rt; kind_of(rt.alloc(), text) == Some(kind), "at {text:?}");
    }
}

const FAULTS: [(&[u8], u8, u32); 34] = [
    (b"a @", 1, 2),
    (b"a\\", 1, 1),
    (b"a #", 1, 2),
    (b"x\xff", 1, 1),
    (b"/* a */ /*/", 2, 8),
    (b"/**", 2, 0),
    (b"a \"b", 3, 2),
    (b"\"\\\"", 3, 0),
    (b"\"a\n\"", 3, 0),
    (b"\"a\\\n\"", 3, 0),
    (b"''", 3, 0),
    (b"'ab'", 3, 0),
    (b"'\\1234'", 3, 0),
    (b"'\\qa'", 3, 0),
    (b" '", 3, 1),
    (b"2147483648", 4, 0),
    (b"4294967296u", 4, 0),
    (b"040000000000", 4, 0),
    (b"0x100000000", 4, 0),
    (b" 08", 4, 1),
    (b"0x", 4, 0),
    (b"1uu", 4, 0),
    (b"1.5", 4, 0),
    (b"1e3", 4, 0),
    (b"'\\q'", 5, 1),
    (b"\"ab\\8\"", 5, 3),
    (b"'\\400'", 5, 1),
    (b"'\\x'", 5, 1),
    (b"\"\\x100\"", 5, 1),
    (b"\"\\n\\q\\z\" @", 5, 3),
    (b"#define A", 6, 0),
    (b"\n #include <math.h>", 6, 2),
    (b"#include <stdio.h> /* */", 6, 0),
    (b"#include <stdio.h>\r\n", 6, 0),
];

#[test]
fn each_fault_at_its_place(rt: HostRuntime) {
    for (text, number, place) in FAULTS {
        assert_eq!(rt;
            fault_of(rt.alloc(), text),
            Some((number, place)),
            "at {text:?}"
        );
    }
}

const SOURCE: &[u8] =
    b"#include<stdio.h>\n/* a\n */ #\tinclude <unistd.h> // b\nint f(x)//\n{ return x>>=1---2; }\t/**/";

const TOKENS: [(TokenKind, u32, u32); 15] = [
    (TokenKind::Keyword, 53, 56),
    (TokenKind::Name, 57, 58),
    (TokenKind::Punctuator, 58, 59),
    (TokenKind::Name, 59, 60),
    (TokenKind::Punctuator, 60, 61),
    (TokenKind::Punctuator, 64, 65),
    (TokenKind::Keyword, 66, 72),
    (TokenKind::Name, 73, 74),
    (TokenKind::Punctuator, 74, 77),
    (TokenKind::Number, 77, 78),
    (TokenKind::Punctuator, 78, 80),
    (TokenKind::Punctuator, 80, 81),
    (TokenKind::Number, 81, 82),
    (TokenKind::Punctuator, 82, 83),
    (TokenKind::Punctuator, 84, 85),
];

#[test]
fn tokens_between_comments_and_directives(rt: HostRuntime) -> Result<(), Fail> {
    let list = tokens(rt.alloc(), SOURCE)?;
    assert_eq!(rt; list.len(), TOKENS.len());
    assert!(rt; !list.is_empty());
    for (token, (kind, start, end)) in list.as_slice().iter().zip(TOKENS) {
        assert!(rt; token.kind == kind, "at {start}");
        assert_eq!(rt; (token.start, token.end), (start, end));
    }
    Ok(())
}

#[test]
fn each_single_byte(rt: HostRuntime) {
    for byte in 0..=255u8 {
        let text = [byte];
        let fault = match byte {
            9..=13 | b' ' | b'0'..=b'9' | b'a'..=b'z' | b'A'..=b'Z' | b'_' => None,
            b'"' | b'\'' => Some((3, 0)),
            b'#' => Some((6, 0)),
            b'@' | b'$' | b'`' | b'\\' | 0..=8 | 14..=31 | 127..=255 => Some((1, 0)),
            _ => None,
        };
        assert_eq!(rt; fault_of(rt.alloc(), text.as_slice()), fault, "at {byte}");
    }
}

#[test]
fn a_fault_at_every_place(rt: HostRuntime) -> Result<(), Fail> {
    let source = b"int f(void){return 1+x;}";
    for place in 0..source.len() {
        let mut text = source.to_vec(rt.alloc())?;
        text[place] = b'@';
        assert_eq!(rt;
            fault_of(rt.alloc(), text.as_slice()),
            Some((1, place as u32))
        );
    }
    Ok(())
}

const NUMBERS: [(&[u8], u32, bool); 9] = [
    (b"0", 0, false),
    (b"0u", 0, true),
    (b"017", 15, false),
    (b"0xfF", 255, false),
    (b"2147483647", 2147483647, false),
    (b"0x7fffffff", 2147483647, false),
    (b"2147483648u", 2147483648, true),
    (b"0x80000000", 2147483648, true),
    (b"037777777777", 4294967295, true),
];

#[test]
fn values_of_numbers(rt: HostRuntime) {
    for (text, value, is_unsigned) in NUMBERS {
        assert_eq!(rt;
            number_of(text).map(|number| (number.value, number.is_unsigned)),
            Some((value, is_unsigned)),
            "at {text:?}"
        );
    }
}

#[test]
fn values_of_characters_and_strings(rt: HostRuntime) -> Result<(), Fail> {
    assert_eq!(rt; character_value(b"'a'"), 97);
    assert_eq!(rt; character_value(b"'\\xff'"), 255);
    assert_eq!(rt; character_value(b"'\\12'"), 10);
    let values = text_values(
        rt.alloc(),
        b"\"\\n\\t\\r\\a\\b\\f\\v\\\\\\'\\\"\\?\\0\\1234\\x41g\"",
    )?;
    assert_eq!(rt;
        values.as_slice(),
        [10, 9, 13, 7, 8, 12, 11, 92, 39, 34, 63, 0, 83, 52, 65, 103].as_slice()
    );
    Ok(())
}

#[test]
fn lines_and_columns(rt: HostRuntime) {
    let source = b"ab\n\ncd";
    for (place, line, column) in [(0, 1, 1), (2, 1, 3), (3, 2, 1), (4, 3, 1), (6, 3, 3)] {
        assert_eq!(rt; line_column(source, place), (line, column), "at {place}");
    }
}

/// Sources, and how deep their trees are, as counted by hand.
const DEPTHS: [(&[u8], u32); 9] = [
    (b"int;", 1),
    (b"int x;", 1),
    (b"int *x[1];", 4),
    (b"struct { int *x[1]; } y;", 4),
    (b"int x = (y);", 3),
    (b"int x = {y + (y)};", 5),
    (b"int f(void) { ; }", 3),
    (b"int f(void) { { } }", 3),
    (b"int f(void) { return y + (y); }", 6),
];

/// The depth of the tree, where the source is read.
fn depth_of(alloc: Global, source: &[u8]) -> Option<u32> {
    if source.len() > 100 {
        return None;
    }
    let tokens = tokens(alloc, source).ok()?;
    let tree = parse(alloc, source, tokens.as_slice()).ok()?;
    Some(tree.depth())
}

#[test]
fn small_trees_are_as_deep_as_counted_by_hand(rt: HostRuntime) {
    for (source, wanted) in DEPTHS {
        assert_eq!(rt; depth_of(rt.alloc(), source), Some(wanted), "at {source:?}");
    }
}
