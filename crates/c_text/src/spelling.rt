//! The tokens of a text.

ghost use Rattle.std.specs.Prelude.{◌≡◌, ◌+◌, ◌<◌, ◌≤◌, ◌^◌, ◌==◌, ◌++◌, ℕ, List, length, IfOk, IfErr, OnOk, IsOkUnless, All};
ghost use Rattle.std.specs.List.{list_any};
ghost use Rattle.c_text.specs.declared.Token.{Token};
ghost use Rattle.c_text.specs.Spelling.{alone_after, token_in, IsSpelled, IsFirstFault, IsWithin, IsInOrder};
ghost use Rattle.c_text.specs.Refusal.{IfBad};
ghost use Rattle.c_text.specs.declared.limits.TheConstants.{SOURCE_LIMIT};

use crate::fault::fault_in;
use crate::form::Form;
use crate::scan::scan;
use crate::{TextRefusal, Token, TokenList};
use std::alloc::Global;

fn has_line_feed(word: &[u8]) -> bool
    ensures { result ≡ list_any (λ b. b == 10) word.now }
{
    word.iter().any(|byte| *byte == b'\n')
}

/// Whether what follows a piece is alone on its line so far.
fn alone_after(alone: bool, form: Form, word: &[u8]) -> bool
    ensures { result ≡ alone_after alone (record { form = form; word = word.now }) }
{
    match form {
        Form::Word(_) => false,
        _ => alone || has_line_feed(word),
    }
}

/// Adds a piece to the tokens, if it is one.
fn add(found: &mut TokenList, form: Form, start: usize, length: usize) -> Result<(), TextRefusal>
    requires { start + length < 2 ^ 32 }
    ensures ok { OnOk result (found.new ≡ found.old ++ token_in start form length) }
    ensures err { IsOkUnless result TextRefusal.NoMemory }
{
    match form {
        Form::Word(kind) => {
            let token = Token {
                kind,
                start: start as u32,
                end: (start + length) as u32,
            };
            match found.push(token) {
                Ok(()) => Ok(()),
                Err(_) => Err(TextRefusal::NoMemory),
            }
        }
        _ => Ok(()),
    }
}

/// The tokens of a source of at most 1,048,576 bytes (C17 6.4, cut down to this project's subset). It answers
/// `Bad` with the first fault exactly where the source has one.
pub fn tokens(alloc: Global, source: &[u8]) -> Result<TokenList, TextRefusal>
    requires { length source.now ≤ SOURCE_LIMIT }
    ensures spelled { IfOk result (λ ts. IsSpelled source.now ts) }
    ensures only_spelled { IfOk result (λ ts. (us : List Token) → IsSpelled source.now us → us ≡ ts) }
    ensures no_fault { IfOk result (λ ts. (number place : ℕ) → IsFirstFault source.now number place → ⊥) }
    ensures within { IfOk result (λ ts. All (IsWithin source.now) ts) }
    ensures few { IfOk result (λ ts. length ts ≤ length source.now) }
    ensures ordered { IfOk result (λ ts. IsInOrder ts) }
    ensures fault { IfErr result (IfBad (λ number place. IsFirstFault source.now number place)) }
    ensures only_fault { IfErr result (IfBad (λ number place. (other spot : ℕ) → IsFirstFault source.now other spot → (other ≡ number) × (spot ≡ place))) }
    ensures placed { IfErr result (IfBad (λ number place. place ≤ length source.now)) }
    ensures unspelled { IfErr result (IfBad (λ number place. (us : List Token) → IsSpelled source.now us → ⊥)) }
{
    let mut found = TokenList::new(alloc);
    let mut at = 0;
    let mut alone = true;
    while at < source.len() {
        let left = &source[at..];
        let piece = scan(left, alone);
        let word = &left[..piece.length];
        if let Some(fault) = fault_in(piece.form, word) {
            return Err(TextRefusal::Bad {
                number: fault.number,
                place: (at + fault.offset) as u32,
            });
        }
        add(&mut found, piece.form, at, piece.length)?;
        alone = alone_after(alone, piece.form, word);
        at += piece.length;
    }
    Ok(found)
}
