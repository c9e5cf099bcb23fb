//! The fault of a single piece.

ghost use Rattle.std.specs.Prelude.{◌≡◌, ◌≤◌, length, IfSome};
ghost use Rattle.c_text.specs.declared.form.Form.TheVariants.{Word};
ghost use Rattle.c_text.specs.declared.TokenKind.TheVariants.{Number, Text};
ghost use Rattle.c_text.specs.Faults.{stray_number, fault_in};

use crate::TokenKind;
use crate::escape::unknown_escape;
use crate::form::{Fault, Form, StrayKind};
use crate::number::number_value;

fn stray_number(kind: StrayKind) -> u8
    ensures { result ≡ stray_number kind }
{
    match kind {
        StrayKind::Byte => 1,
        StrayKind::OpenComment => 2,
        StrayKind::OpenQuote => 3,
        StrayKind::Line => 6,
    }
}

fn number_fault(word: &[u8]) -> Option<Fault>
    ensures value { result ≡ fault_in (Word Number) word.now }
    ensures within { IfSome result (λ fault. fault.offset ≤ length word.now) }
{
    match number_value(word) {
        None => Some(Fault {
            number: 4,
            offset: 0,
        }),
        Some(_) => None,
    }
}

fn escape_fault(word: &[u8]) -> Option<Fault>
    ensures value { result ≡ fault_in (Word Text) word.now }
    ensures within { IfSome result (λ fault. fault.offset ≤ length word.now) }
{
    match unknown_escape(word) {
        None => None,
        Some(at) => Some(Fault {
            number: 5,
            offset: at,
        }),
    }
}

/// The fault of a piece, if it has one. Its offset is counted from the piece's first byte.
pub(crate) fn fault_in(form: Form, word: &[u8]) -> Option<Fault>
    ensures value { result ≡ fault_in form word.now }
    ensures within { IfSome result (λ fault. fault.offset ≤ length word.now) }
{
    match form {
        Form::Word(TokenKind::Number) => number_fault(word),
        Form::Word(TokenKind::Character) => escape_fault(word),
        Form::Word(TokenKind::Text) => escape_fault(word),
        Form::Stray(kind) => Some(Fault {
            number: stray_number(kind),
            offset: 0,
        }),
        _ => None,
    }
}
