//! The tokens that are left to be read, and what is declared.

ghost use Rattle.std.specs.Prelude.{◌≡◌, ◌≤◌, [], ◌∷◌, All, length, drop, OnOk, IfOk, IfErr, Some};
ghost use Rattle.c_text.specs.Spelling.{IsWithin, text_of};
ghost use Rattle.c_grammar.specs.Lexemes.{Lexeme, lexeme_of, lexemes_of, is, is_among, span, place};
ghost use Rattle.c_grammar.specs.Expressions.{is_type_name};
ghost use Rattle.c_grammar.specs.Declarators.{hide};
ghost use Rattle.c_grammar.specs.Statements.{add_type, file_scope};
ghost use Rattle.parse_input.specs.Input.{head, is_done, sees, after_token, with_scope, cut_scope};

use crate::read::Refusal;
use crate::terminals::{number, terminal_of};
use c_grammar::Terminal;
use c_text::{Token, TokenKind};
use c_tree::Span;
use std::alloc::Global;
use std::marker::Model;
use type_names::TypeNames;

/// The bytes of the token.
fn text_of<'a>(source: &'a [u8], token: Token) -> &'a [u8]
    requires { IsWithin source.now token }
    ensures { result.now ≡ text_of source.now token }
{
    &source[token.start as usize..token.end as usize]
}

/// A token with what it is and its text.
#[derive(Drop)]
pub struct Seen<'a> {
    terminal: Terminal,
    token: Token,
    text: &'a [u8],
}

impl<'a> Model for Seen<'a> {
    ghost use Rattle.c_grammar.specs.Lexemes.{Lexeme};

    ghost Value = { Lexeme };

    ghost view = { λ s. record { terminal = s.terminal; token = s.token; text = s.text.now } };
}

impl<'a> Seen<'a> {
    /// What it is.
    pub fn terminal(&self) -> Terminal
        ensures { result ≡ self.now.terminal }
    {
        self.terminal
    }

    /// Its bytes.
    pub fn text(&self) -> &'a [u8]
        ensures { result.now ≡ self.now.text }
    {
        self.text
    }

    /// Whether it is of this terminal.
    pub fn is(&self, terminal: Terminal) -> bool
        ensures { result ≡ is terminal self.now }
    {
        number(terminal) == number(self.terminal)
    }

    /// Whether it is of one of these terminals.
    pub fn is_among(&self, terminals: &[Terminal]) -> bool
        ensures { result ≡ is_among terminals.now self.now }
    {
        terminals.iter().any(|terminal| self.is(*terminal))
    }

    /// Where it stands.
    pub fn span(&self) -> Span
        ensures { result ≡ span self.now }
    {
        Span {
            start: self.token.start,
            end: self.token.end,
        }
    }

    /// Its first byte.
    pub fn place(&self) -> u32
        ensures { result ≡ place self.now }
    {
        self.token.start
    }
}

/// The token of a source.
pub fn seen_in<'a>(source: &'a [u8], token: Token) -> Seen<'a>
    requires { IsWithin source.now token }
    ensures { result ≡ lexeme_of source.now token }
{
    let text = text_of(source, token);
    Seen {
        terminal: terminal_of(token.kind, text),
        token,
        text,
    }
}

/// The next of these tokens; where there is none, a word that no rule reads.
#[tactic(auto, using(crate::proofs::Lists::no_head, crate::proofs::Lists::a_head))]
fn next_of<'a>(source: &'a [u8], rest: &[Token]) -> Seen<'a>
    requires { All (IsWithin source.now) rest.now }
    ensures { result ≡ head (lexemes_of source.now rest.now) }
{
    match rest.split_first() {
        None => Seen {
            terminal: Terminal::Unused,
            token: Token {
                kind: TokenKind::Punctuator,
                start: 0,
                end: 0,
            },
            text: &[],
        },
        Some((token, _)) => seen_in(source, *token),
    }
}

/// The tokens behind the first.
fn behind(tokens: &[Token]) -> &[Token]
    ensures { result.now ≡ drop 1 tokens.now }
{
    if tokens.is_empty() {
        tokens
    } else {
        &tokens[1..]
    }
}

/// The tokens that are left to be read, and what is declared where they stand. What the next token is to the grammar is
/// found once, when it becomes the next.
#[derive(Drop)]
pub struct Input<'a> {
    source: &'a [u8],
    rest: &'a [Token],
    next: Seen<'a>,
    types: TypeNames<'a>,
    block: bool,
}

impl<'a> Model for Input<'a> {
    ghost use Rattle.std.specs.Prelude.{All, ◌≡◌};
    ghost use Rattle.c_text.specs.Spelling.{IsWithin};
    ghost use Rattle.c_grammar.specs.Lexemes.{lexemes_of};
    ghost use Rattle.parse_input.specs.Input.{Input, head};

    ghost Value = { Input };

    ghost view = { λ i. record { tokens = lexemes_of i.source.now i.rest.now; scope = record { types = i.types; block = i.block } } };

    ghost invariant = { λ i. All (IsWithin i.source.now) i.rest.now × (i.next ≡ head (lexemes_of i.source.now i.rest.now)) };
}

impl<'a> Input<'a> {
    /// All tokens of a file, with the typedef names that every file begins with.
    pub fn new(alloc: Global, source: &'a [u8], tokens: &'a [Token]) -> Result<Input<'a>, Refusal>
        requires { All (IsWithin source.now) tokens.now }
        ensures { IfOk result (λ input. input ≡ record { tokens = lexemes_of source.now tokens.now; scope = file_scope }) }
    {
        let mut types = TypeNames::new(alloc)?;
        types.declare(b"pthread_mutex_t", true)?;
        types.declare(b"pthread_t", true)?;
        types.declare(b"size_t", true)?;
        Ok(Input {
            source,
            rest: tokens,
            next: next_of(source, tokens),
            types,
            block: false,
        })
    }

    /// Whether no token is left.
    #[tactic(auto, using(crate::proofs::Lists::none_done, crate::proofs::Lists::some_done))]
    pub fn is_done(&self) -> bool
        ensures { result ≡ is_done self.now.tokens }
    {
        match self.rest.split_first() {
            None => true,
            Some(_) => false,
        }
    }

    /// How many tokens are left.
    pub fn len(&self) -> usize
        ensures { result ≡ length self.now.tokens }
    {
        self.rest.len()
    }

    /// The next token; behind the last one a word that no rule reads.
    pub fn peek(&self) -> Seen<'a>
        ensures { result ≡ head self.now.tokens }
    {
        Seen {
            terminal: self.next.terminal,
            token: self.next.token,
            text: self.next.text,
        }
    }

    /// Takes the next token; at the end it stays.
    #[tactic(auto, using(crate::proofs::Lists::none_behind, crate::proofs::Lists::behind_drop))]
    pub fn take(&mut self) -> Seen<'a>
        ensures token { result ≡ head self.old.tokens }
        ensures rest { self.new ≡ after_token self.old }
    {
        let seen = self.peek();
        let rest = behind(self.rest);
        let next = next_of(self.source, rest);
        self.rest = rest;
        self.next = next;
        seen
    }

    /// Whether the next token is of this terminal.
    #[tactic(auto, using(crate::proofs::Steps::sees_none, crate::proofs::Steps::sees_head))]
    pub fn is(&self, terminal: Terminal) -> bool
        ensures { result ≡ sees (is terminal) self.now.tokens }
    {
        if self.is_done() {
            return false;
        }
        self.peek().is(terminal)
    }

    /// Whether the next token is of one of these terminals.
    #[tactic(auto, using(crate::proofs::Steps::sees_none, crate::proofs::Steps::sees_head))]
    pub fn is_among(&self, terminals: &[Terminal]) -> bool
        ensures { result ≡ sees (is_among terminals.now) self.now.tokens }
    {
        if self.is_done() {
            return false;
        }
        self.peek().is_among(terminals)
    }

    /// Whether the text is a typedef name here.
    pub fn is_type(&self, text: &[u8]) -> bool
        ensures { result ≡ is_type_name self.now.scope.types text.now }
    {
        self.types.is_type(text)
    }

    /// Whether this stands in a block.
    pub fn is_in_block(&self) -> bool
        ensures { result ≡ self.now.scope.block }
    {
        self.block
    }

    /// From here on this stands in a block, or at file scope.
    pub fn set_block(&mut self, block: bool)
        ensures { self.new ≡ with_scope self.old (record self.old.scope { block = block }) }
    {
        self.block = block;
    }

    /// The name is no typedef name from here on.
    pub fn hide(&mut self, name: &'a [u8]) -> Result<(), Refusal>
        ensures hidden { OnOk result (self.new ≡ with_scope self.old (hide (Some name.now) self.old.scope)) }
        ensures memory { IfErr result (λ refusal. refusal ≡ Refusal.NoMemory) }
    {
        Ok(self.types.declare(name, false)?)
    }

    /// The name is a typedef name from here on.
    pub fn add_type(&mut self, name: &'a [u8]) -> Result<(), Refusal>
        ensures added { OnOk result (self.new ≡ with_scope self.old (add_type (Some name.now) self.old.scope)) }
        ensures memory { IfErr result (λ refusal. refusal ≡ Refusal.NoMemory) }
    {
        Ok(self.types.declare(name, true)?)
    }

    /// How many names are declared, for `restore`.
    pub fn mark(&self) -> usize
        ensures { result ≡ length self.now.scope.types }
    {
        self.types.len()
    }

    /// Forgets the declarations since the mark.
    pub fn restore(&mut self, mark: usize)
        requires { mark ≤ length self.old.scope.types }
        ensures { self.new ≡ with_scope self.old (cut_scope mark self.old.scope) }
    {
        self.types.restore(mark);
    }
}
