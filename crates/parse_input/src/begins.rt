//! Whether the next token begins specifiers or an expression.

ghost use Rattle.std.specs.Prelude.{◌≡◌};
ghost use Rattle.c_grammar.specs.Specifiers.{no_specs, is_barred, is_storage_word, is_spec_word, is_function_word};
ghost use Rattle.c_grammar.specs.Lookahead.{starts_specs, starts_prefix, starts_bare, starts_expression};
ghost use Rattle.parse_input.specs.Input.{sees};

use crate::input::{Input, Seen};
use c_grammar::{SpecifierContext, Terminal};

/// Whether no bracket may stand at the front of specifiers.
pub fn is_barred(context: SpecifierContext) -> bool
    ensures { result ≡ is_barred context }
{
    match context {
        SpecifierContext::File => false,
        SpecifierContext::Block => false,
        SpecifierContext::Member => false,
        SpecifierContext::Type => false,
        SpecifierContext::Barred => true,
    }
}

/// Whether the word begins specifiers as a storage class.
fn is_storage_word(context: SpecifierContext, seen: &Seen<'_>) -> bool
    ensures { result ≡ is_storage_word context no_specs seen.now }
{
    match context {
        SpecifierContext::File => {
            seen.is(Terminal::ThreadLocal)
                || seen.is_among(&[Terminal::Typedef, Terminal::Static, Terminal::Extern])
        }
        SpecifierContext::Block => seen.is(Terminal::ThreadLocal) || seen.is(Terminal::Static),
        SpecifierContext::Member => false,
        SpecifierContext::Type => false,
        SpecifierContext::Barred => false,
    }
}

/// Whether the word is a function specifier here.
fn is_function_word(input: &Input<'_>, seen: &Seen<'_>) -> bool
    ensures { result ≡ is_function_word input.now.scope seen.now }
{
    seen.is_among(&[Terminal::Inline, Terminal::NoReturn]) && !input.is_in_block()
}

/// Whether the word begins specifiers as one of them.
fn is_spec_word(context: SpecifierContext, input: &Input<'_>, seen: &Seen<'_>) -> bool
    ensures { result ≡ is_spec_word context input.now.scope no_specs seen.now }
{
    is_storage_word(context, seen)
        || is_function_word(input, seen)
        || seen.is_among(&[Terminal::Const, Terminal::Volatile, Terminal::Restrict])
        || seen.is_among(&[
            Terminal::Void,
            Terminal::Char,
            Terminal::Int,
            Terminal::Signed,
            Terminal::Unsigned,
        ])
        || (seen.is(Terminal::Name) && input.is_type(seen.text()))
}

/// Whether specifiers begin here.
#[tactic(auto, using(crate::proofs::Steps::sees_none, crate::proofs::Steps::sees_head))]
pub fn begins_specifiers(context: SpecifierContext, input: &Input<'_>) -> bool
    ensures { result ≡ sees (starts_specs context input.now.scope no_specs) input.now.tokens }
{
    if input.is_done() {
        return false;
    }
    let seen = input.peek();
    is_spec_word(context, input, &seen)
        || seen.is(Terminal::Struct)
        || seen.is(Terminal::Enum)
        || seen.is(Terminal::Attribute)
        || (seen.is(Terminal::OpenBracket) && !is_barred(context))
}

/// Whether an operator that stands before its operand begins here.
#[tactic(auto, using(crate::proofs::Steps::sees_none, crate::proofs::Steps::sees_head))]
pub fn begins_prefix(input: &Input<'_>) -> bool
    ensures { result ≡ sees starts_prefix input.now.tokens }
{
    input.is_among(&[
        Terminal::Increment,
        Terminal::Decrement,
        Terminal::Sizeof,
        Terminal::Ampersand,
        Terminal::Star,
        Terminal::Plus,
        Terminal::Minus,
        Terminal::Tilde,
        Terminal::Exclamation,
    ])
}

/// Whether a name that is no typedef name, or a constant, begins here.
#[tactic(auto, using(crate::proofs::Steps::sees_none, crate::proofs::Steps::sees_head))]
pub fn begins_bare(input: &Input<'_>) -> bool
    ensures { result ≡ sees (starts_bare input.now.scope) input.now.tokens }
{
    if input.is_done() {
        return false;
    }
    let seen = input.peek();
    seen.is_among(&[Terminal::Number, Terminal::Character, Terminal::Text])
        || (seen.is(Terminal::Name) && !input.is_type(seen.text()))
}

/// Whether an expression begins here.
#[tactic(auto, using(crate::proofs::Steps::sees_none, crate::proofs::Steps::sees_head))]
pub fn begins_expression(input: &Input<'_>) -> bool
    ensures { result ≡ sees (starts_expression input.now.scope) input.now.tokens }
{
    if input.is_done() {
        return false;
    }
    begins_prefix(input) || input.peek().is(Terminal::OpenParen) || begins_bare(input)
}
