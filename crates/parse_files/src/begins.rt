//! Whether the next token begins a rule.

ghost use Rattle.std.specs.Prelude.{◌≡◌};
ghost use Rattle.c_grammar.specs.Lookahead.{starts_statement};
ghost use Rattle.parse_input.specs.Input.{sees};
ghost use Rattle.parse_files.specs.Kinds.{starts_item};

use c_grammar::{SpecifierContext, Terminal};
use parse_input::{Input, begins_expression, begins_specifiers};

/// Whether a statement begins here.
#[tactic(auto, using(parse_input::proofs::Steps::sees_none, parse_input::proofs::Steps::sees_head))]
pub fn begins_statement(in_loop: bool, input: &Input<'_>) -> bool
    ensures { result ≡ sees (starts_statement input.now.scope in_loop) input.now.tokens }
{
    if input.is_done() {
        return false;
    }
    let seen = input.peek();
    seen.is_among(&[
        Terminal::OpenBrace,
        Terminal::If,
        Terminal::While,
        Terminal::Do,
        Terminal::For,
        Terminal::Return,
        Terminal::Semicolon,
    ]) || (seen.is_among(&[Terminal::Break, Terminal::Continue]) && in_loop)
        || begins_expression(input)
}

/// Whether a declaration or a statement begins here.
#[tactic(auto, using(parse_input::proofs::Steps::sees_none, parse_input::proofs::Steps::sees_head))]
pub fn begins_item(in_loop: bool, input: &Input<'_>) -> bool
    ensures { result ≡ sees (starts_item input.now.scope in_loop) input.now.tokens }
{
    if input.is_done() {
        return false;
    }
    begins_specifiers(SpecifierContext::Block, input) || begins_statement(in_loop, input)
}
