//! A place in the tokens of a file, from which they are read one by one.

ghost use Rattle.std.specs.Prelude.{◌≡◌, List, [], ◌∷◌, IfOk, OnOk, OnErr, MatchOption, All, IsTrue, ◌↔◌, ◌<◌, ◌≤◌};
ghost use Rattle.std.specs.Bool.{OnTrue, OnFalse};
ghost use Rattle.c_text.specs.Spelling.{IsWithin, text_of};
ghost use Rattle.c_text.specs.declared.Token.{Token};
ghost use Rattle.built_form.specs.Form.{Lexeme, lexemes_of, IsFirst, Begins, Spells, spelled_named};
ghost use Rattle.built_form.specs.Form.Part.{Ident};
ghost use Rattle.built_form.specs.Reading.{Finds, FindsNone, part_of, parts_of};

use crate::fixed::Fixed;
use crate::refusal::FormRefusal;
use c_text::{Token, TokenKind};
use std::marker::Model;

/// The bytes of the token.
pub fn text_of<'a>(source: &'a [u8], token: Token) -> &'a [u8]
    requires { IsWithin source.now token }
    ensures { result.now ≡ text_of source.now token }
{
    &source[token.start as usize..token.end as usize]
}

/// The tokens that are left to be read.
#[derive(Drop)]
pub struct Cursor<'a> {
    source: &'a [u8],
    rest: &'a [Token],
}

impl<'a> Model for Cursor<'a> {
    ghost use Rattle.std.specs.Prelude.{List, All};
    ghost use Rattle.c_text.specs.Spelling.{IsWithin};
    ghost use Rattle.built_form.specs.Form.{Lexeme, lexemes_of};

    ghost Value = { List Lexeme };

    ghost view = { λ c. lexemes_of c.source.now c.rest.now };

    ghost invariant = { λ c. All (IsWithin c.source.now) c.rest.now };
}

impl<'a> Cursor<'a> {
    /// All tokens of the file.
    pub fn new(source: &'a [u8], tokens: &'a [Token]) -> Cursor<'a>
        requires { All (IsWithin source.now) tokens.now }
        ensures { result ≡ lexemes_of source.now tokens.now }
    {
        Cursor {
            source,
            rest: tokens,
        }
    }

    /// Whether nothing is left.
    pub fn is_at_end(&self) -> bool
        ensures { IsTrue result ↔ (self.now ≡ []) }
    {
        self.rest.is_empty()
    }

    /// The next token and its text.
    pub fn first(&self) -> Option<(Token, &'a [u8])>
        ensures { MatchOption result (self.now ≡ []) (λ x. IsFirst x.0 x.1.now self.now) }
    {
        if self.rest.is_empty() {
            return None;
        }
        let token = self.rest[0];
        Some((token, text_of(self.source, token)))
    }

    /// Reads a token, and gives it with its text.
    pub fn next(&mut self) -> Option<(Token, &'a [u8])>
        ensures { MatchOption result (self.old ≡ []) (λ x. self.old ≡ record { token = x.0; text = x.1.now } ∷ self.new) }
    {
        if self.rest.is_empty() {
            return None;
        }
        let token = self.rest[0];
        self.rest = &self.rest[1..];
        Some((token, text_of(self.source, token)))
    }

    /// Whether a part of fixed text comes next.
    pub fn sees(&self, part: Fixed) -> bool
        ensures yes { OnTrue result ((rest : List Lexeme) × Begins (part_of part.entry) self.now rest) }
        ensures no { OnFalse result ((rest : List Lexeme) → Begins (part_of part.entry) self.now rest → ⊥) }
    {
        match self.first() {
            Some((token, text)) => part.fits(token, text),
            None => false,
        }
    }

    /// Reads a part of fixed text where it comes next, and says whether it did.
    pub fn take(&mut self, part: Fixed) -> bool
        ensures read { OnTrue result (Begins (part_of part.entry) self.old self.new) }
        ensures none { OnFalse result ((rest : List Lexeme) → Begins (part_of part.entry) self.old rest → ⊥) }
        ensures same { OnFalse result (self.new ≡ self.old) }
    {
        if !self.sees(part) {
            return false;
        }
        self.next();
        true
    }

    /// Reads a part of fixed text.
    pub fn part(&mut self, part: Fixed) -> Result<(), FormRefusal>
        ensures read { OnOk result (Begins (part_of part.entry) self.old self.new) }
        ensures none { OnErr result ((rest : List Lexeme) → Begins (part_of part.entry) self.old rest → ⊥) }
    {
        if self.take(part) {
            Ok(())
        } else {
            Err(FormRefusal::NotBuilt)
        }
    }

    /// Reads parts of fixed text, one after the other.
    pub fn parts(&mut self, parts: &[Fixed]) -> Result<(), FormRefusal>
        ensures read { OnOk result (Spells (parts_of parts.now) self.old self.new) }
        ensures none { OnErr result ((rest : List Lexeme) → Spells (parts_of parts.now) self.old rest → ⊥) }
    {
        'parts: for part in parts {
            self.part(*part)?;
        }
        Ok(())
    }

    /// Whether a name comes next.
    pub fn sees_name(&self) -> bool
        ensures yes { OnTrue result ((name : Token) × (rest : List Lexeme) × Begins (Ident name) self.now rest) }
        ensures no { OnFalse result ((name : Token) (rest : List Lexeme) → Begins (Ident name) self.now rest → ⊥) }
    {
        match self.first() {
            Some((token, _)) => token.kind == TokenKind::Name,
            None => false,
        }
    }

    /// Reads a name.
    pub fn name(&mut self) -> Result<Token, FormRefusal>
        ensures read { IfOk result (λ name. Begins (Ident name) self.old self.new) }
        ensures none { OnErr result ((name : Token) (rest : List Lexeme) → Begins (Ident name) self.old rest → ⊥) }
    {
        match self.next() {
            Some((token, _)) if token.kind == TokenKind::Name => Ok(token),
            _ => Err(FormRefusal::NotBuilt),
        }
    }

    /// Reads a name and parts of fixed text behind it, and gives the name.
    pub fn named(&mut self, parts: &[Fixed]) -> Result<Token, FormRefusal>
        ensures read { IfOk result (λ name. Finds (spelled_named (parts_of parts.now)) self.old name self.new) }
        ensures none { OnErr result (FindsNone (spelled_named (parts_of parts.now)) self.old) }
    {
        let name = self.name()?;
        self.parts(parts)?;
        Ok(name)
    }
}
