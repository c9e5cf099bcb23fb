//! Tests of the next token.

ghost use Rattle.std.specs.Prelude.{◌≡◌, ◌&&◌};
ghost use Rattle.c_grammar.specs.declared.terminal.Terminal.TheVariants.{OpenBracket, OpenParen};
ghost use Rattle.c_grammar.specs.Lexemes.{is};
ghost use Rattle.c_grammar.specs.Declarators.{takes_array, takes_params};
ghost use Rattle.c_grammar.specs.Lookahead.{starts_size};
ghost use Rattle.parse_input.specs.Input.{sees};
ghost use Rattle.parse_declared.specs.Starts.{opened_at, starts_name, may_lack, starts_step};

use crate::declared::Declared;
use c_grammar::{Bracket, DeclaratorKind, Reach, Terminal};
use parse_input::{Input, begins_expression, is_ordinary_name, is_reserved};

/// Whether the rest of an array begins here.
#[tactic(auto, using(crate::proofs::Starting::size_closes, crate::proofs::Starting::size_starts))]
fn begins_size(input: &Input<'_>) -> bool
    ensures { result ≡ sees (starts_size input.now.scope) input.now.tokens }
{
    input.is(Terminal::CloseBracket) || begins_expression(input)
}

/// The place of the `[` that was read before.
pub fn opened_at(bracket: Bracket) -> Option<u32>
    ensures { result ≡ opened_at bracket }
{
    match bracket {
        Bracket::Opened(place) => Some(place),
        Bracket::Unknown => None,
        Bracket::Passed => None,
        Bracket::Barred => None,
    }
}

/// Whether nothing may stand at the inmost of a declarator.
pub fn may_lack(kind: DeclaratorKind, bracket: Bracket) -> bool
    ensures { result ≡ may_lack kind bracket }
{
    match (kind, bracket) {
        (_, Bracket::Barred) => false,
        (DeclaratorKind::Parameter, _) => true,
        (DeclaratorKind::Abstract, _) => true,
        (_, _) => false,
    }
}

/// Whether a name that is declared stands here.
#[tactic(auto, using(parse_input::proofs::Steps::sees_none, parse_input::proofs::Steps::sees_head))]
pub fn begins_name(kind: DeclaratorKind, bracket: Bracket, input: &Input<'_>) -> bool
    ensures { result ≡ sees (starts_name input.now.scope kind bracket) input.now.tokens }
{
    if input.is_done() {
        return false;
    }
    let seen = input.peek();
    match kind {
        DeclaratorKind::Ordinary => is_ordinary_name(&seen),
        DeclaratorKind::Member => seen.is(Terminal::Name),
        DeclaratorKind::Parameter => match bracket {
            Bracket::Barred => {
                seen.is(Terminal::Name) && !input.is_type(seen.text()) && !is_reserved(&seen)
            }
            Bracket::Unknown => is_ordinary_name(&seen),
            Bracket::Passed => is_ordinary_name(&seen),
            Bracket::Opened(_) => is_ordinary_name(&seen),
        },
        DeclaratorKind::Abstract => false,
    }
}

/// Whether an array may follow.
fn takes_array(reach: Reach, bracket: Bracket) -> bool
    ensures { result ≡ takes_array reach bracket }
{
    match reach {
        Reach::Called => false,
        Reach::Nothing => match bracket {
            Bracket::Passed => false,
            Bracket::Unknown => true,
            Bracket::Barred => true,
            Bracket::Opened(_) => true,
        },
        Reach::NameAlone => true,
        Reach::More => true,
    }
}

/// Whether a parameter list may follow.
fn takes_params(kind: DeclaratorKind, reach: Reach, input: &Input<'_>) -> bool
    ensures { result ≡ takes_params input.now.scope kind reach }
{
    match (kind, reach) {
        (_, Reach::Nothing) => false,
        (DeclaratorKind::Ordinary, Reach::NameAlone) => !input.is_in_block(),
        (_, _) => true,
    }
}

/// Whether an array follows.
pub fn begins_array(reach: Reach, bracket: Bracket, input: &Input<'_>) -> bool
    ensures { result ≡ (sees (is OpenBracket) input.now.tokens && takes_array reach bracket) }
{
    input.is(Terminal::OpenBracket) && takes_array(reach, bracket)
}

/// Whether a parameter list follows.
pub fn begins_params(kind: DeclaratorKind, reach: Reach, input: &Input<'_>) -> bool
    ensures { result ≡ (sees (is OpenParen) input.now.tokens && takes_params input.now.scope kind reach) }
{
    input.is(Terminal::OpenParen) && takes_params(kind, reach, input)
}

/// Whether a declarator goes on with an array or a function.
#[tactic(auto, using(crate::proofs::Starting::step_opened, crate::proofs::Starting::step_brackets, crate::proofs::Starting::step_other))]
pub fn begins_step(
    kind: DeclaratorKind,
    bracket: Bracket,
    left: &Declared<'_>,
    input: &Input<'_>,
) -> bool
    ensures { result ≡ sees (starts_step input.now.scope kind bracket left.now.bracket left.now.reach) input.now.tokens }
{
    if left.bracket().is_some() {
        return begins_size(input);
    }
    if begins_array(left.reach(), bracket, input) {
        return true;
    }
    begins_params(kind, left.reach(), input)
}
