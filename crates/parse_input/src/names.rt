//! Names by their texts.

ghost use Rattle.std.specs.Prelude.{◌≡◌, ◌&&◌};
ghost use Rattle.std.specs.List.{list_any};
ghost use Rattle.std.specs.Str.{bytes_eq};
ghost use Rattle.c_grammar.specs.Lexemes.{is, has_text};
ghost use Rattle.c_grammar.specs.Specifiers.{reserved_names, is_ordinary_name};
ghost use Rattle.parse_input.specs.Input.{sees};

use crate::input::{Input, Seen};
use c_grammar::Terminal;

/// The names of the library, which are not declared as ordinary names.
const RESERVED: [&[u8]; 20] = [
    b"NULL",
    b"size_t",
    b"pthread_t",
    b"pthread_mutex_t",
    b"PTHREAD_MUTEX_INITIALIZER",
    b"malloc",
    b"calloc",
    b"free",
    b"pthread_create",
    b"pthread_join",
    b"pthread_mutex_lock",
    b"pthread_mutex_unlock",
    b"usleep",
    b"puts",
    b"putchar",
    b"abs",
    b"__rtsan_disable",
    b"__rtsan_enable",
    b"exit",
    b"abort",
];

/// Whether the text of the token is one of these.
pub fn has_text(seen: &Seen<'_>, texts: &[&[u8]]) -> bool
    ensures { result ≡ list_any (λ text. bytes_eq text.now seen.now.text) texts.now }
{
    texts.iter().any(|text| *text == seen.text())
}

/// Whether the token is a name of one of these texts.
pub fn is_one_of(seen: &Seen<'_>, texts: &[&[u8]]) -> bool
    ensures { result ≡ (is Terminal.Name seen.now && list_any (λ text. bytes_eq text.now seen.now.text) texts.now) }
{
    seen.is(Terminal::Name) && has_text(seen, texts)
}

/// Whether the text is a reserved name.
pub fn is_reserved(seen: &Seen<'_>) -> bool
    ensures { result ≡ has_text reserved_names seen.now }
{
    has_text(seen, &RESERVED)
}

/// Whether it can be declared as an ordinary name.
pub fn is_ordinary_name(seen: &Seen<'_>) -> bool
    ensures { result ≡ is_ordinary_name seen.now }
{
    seen.is(Terminal::Name) && !is_reserved(seen)
}

/// Whether a name that can be declared as an ordinary one stands here.
#[tactic(auto, using(crate::proofs::Steps::sees_none, crate::proofs::Steps::sees_head))]
pub fn begins_ordinary_name(input: &Input<'_>) -> bool
    ensures { result ≡ sees is_ordinary_name input.now.tokens }
{
    if input.is_done() {
        return false;
    }
    is_ordinary_name(&input.peek())
}
