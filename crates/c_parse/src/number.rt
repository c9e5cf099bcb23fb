//! The number of a refusal.

ghost use Rattle.std.specs.Prelude.{◌≡◌, ◌+◌, ◌≤◌, All, [], ◌∷◌, ◌++◌, length, replicate, IfOk};
ghost use Rattle.c_text.specs.Spelling.{IsWithin};
ghost use Rattle.c_grammar.specs.Lexemes.{Lexeme, lexemes_of};
ghost use Rattle.c_grammar.specs.Refusals.{is_reserved_name};
ghost use Rattle.c_parse.specs.Parsed.{IsRefusedAt, IsRefusedFrom, IsNumberOf, NumberByDepth, IfBad, SaysIfNameGoesOn, new_token};
ghost use Rattle.c_text.specs.declared.limits.TheConstants.{SOURCE_LIMIT};

use crate::ParseRefusal;
use crate::file::{Fault, read_file};
use c_grammar::Terminal;
use c_text::{Token, TokenKind};
use parse_input::{Seen, is_reserved, seen_in};
use sqlite_items::Items;
use std::alloc::{AllocError, Global};

/// Whether it is a reserved name.
fn is_reserved_name(seen: &Seen<'_>) -> bool
    ensures { result ≡ is_reserved_name seen.now }
{
    seen.is(Terminal::Name) && is_reserved(seen)
}

/// The source with a name behind it that stands nowhere in it.
fn with_new_name(alloc: Global, source: &[u8]) -> Result<Items<u8>, AllocError>
    requires { length source.now ≤ SOURCE_LIMIT }
    ensures { IfOk result (λ longer. longer ≡ source.now ++ replicate (length source.now + 26) 97) }
{
    let mut longer = Items::from_slice(alloc, source)?;
    'name: for _ in 0..source.len() + 26 {
        longer.push(b'a')?;
    }
    Ok(longer)
}

/// The tokens with that name behind them.
fn with_name_token(
    alloc: Global,
    length: usize,
    before: &[Token],
) -> Result<Items<Token>, AllocError>
    requires { length ≤ SOURCE_LIMIT }
    ensures { IfOk result (λ tokens. tokens ≡ before.now ++ new_token length ∷ []) }
{
    let mut tokens = Items::from_slice(alloc, before)?;
    tokens.push(Token {
        kind: TokenKind::Name,
        start: length as u32,
        end: (length + (length + 26)) as u32,
    })?;
    Ok(tokens)
}

/// Whether the tokens have a reading that goes on with an ordinary name.
#[tactic(auto, using(crate::proofs::Names::all_within, crate::proofs::Names::goes_on, crate::proofs::Names::stops))]
fn goes_on_with_name(alloc: Global, source: &[u8], before: &[Token]) -> Result<bool, AllocError>
    requires short { length source.now ≤ SOURCE_LIMIT }
    requires within { All (IsWithin source.now) before.now }
    ensures { IfOk result (λ goes. SaysIfNameGoesOn source.now before.now goes) }
{
    let longer = with_new_name(alloc, source)?;
    let tokens = with_name_token(alloc, source.len(), before)?;
    match read_file(alloc, longer.as_slice(), tokens.as_slice()) {
        Ok(_) => Ok(true),
        Err(Fault::Refused { deep: _, left }) => Ok(left == 0),
        Err(Fault::NoMemory) => Err(AllocError),
    }
}

/// The number of a refusal by its depth alone.
fn number_by_depth(deep: bool) -> u8
    ensures { NumberByDepth deep result }
{
    if deep { 2 } else { 1 }
}

/// The number of the refusal at a token.
#[tactic(auto, using(crate::proofs::Numbers::unused, crate::proofs::Numbers::reserved, crate::proofs::Numbers::not_reserved, crate::proofs::Numbers::no_name))]
fn number_at(
    alloc: Global,
    source: &[u8],
    before: &[Token],
    seen: &Seen<'_>,
    deep: bool,
) -> Result<u8, AllocError>
    requires short { length source.now ≤ SOURCE_LIMIT }
    requires within { All (IsWithin source.now) before.now }
    ensures { IfOk result (λ number. IsNumberOf source.now (lexemes_of source.now before.now) deep seen.now number) }
{
    if seen.is(Terminal::Unused) {
        return Ok(4);
    }
    if !is_reserved_name(seen) {
        return Ok(number_by_depth(deep));
    }
    if goes_on_with_name(alloc, source, before)? {
        return Ok(3);
    }
    Ok(number_by_depth(deep))
}

/// The refusal of the token from which on so many tokens are left.
#[tactic(auto, using(crate::proofs::Places::left_within, crate::proofs::Places::at_end, crate::proofs::Places::at_token))]
pub fn refusal_at(
    alloc: Global,
    source: &[u8],
    tokens: &[Token],
    deep: bool,
    left: usize,
) -> ParseRefusal
    requires short { length source.now ≤ SOURCE_LIMIT }
    requires few { length tokens.now ≤ length source.now }
    requires within { All (IsWithin source.now) tokens.now }
    requires refused { IsRefusedFrom source.now tokens.now deep left }
    ensures refused { IfBad (λ number token place. IsRefusedAt source.now tokens.now number token place) result }
    ensures placed { IfBad (λ number token place. place ≤ length source.now) result }
{
    let at = tokens.len() - left;
    if left == 0 {
        return ParseRefusal::Bad {
            number: number_by_depth(deep),
            token: at as u32,
            place: source.len() as u32,
        };
    }
    let token = tokens[at];
    match number_at(alloc, source, &tokens[..at], &seen_in(source, token), deep) {
        Ok(number) => ParseRefusal::Bad {
            number,
            token: at as u32,
            place: token.start,
        },
        Err(_) => ParseRefusal::NoMemory,
    }
}
