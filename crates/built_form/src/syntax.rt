//! The items of a file, read from its tokens without regard to what their names mean.

ghost use Rattle.std.specs.Prelude.{◌≡◌, List, [], IfOk, OnErr, All};
ghost use Rattle.c_text.specs.Spelling.{IsWithin};
ghost use Rattle.built_form.specs.declared.item.Item.{Item};
ghost use Rattle.built_form.specs.declared.item.Mark.{Mark};
ghost use Rattle.built_form.specs.Form.{Lexeme, Begins, Spells, lexemes_of, parameters, word_of, spelled_named, spelled_mark, spelled_call, spelled_block, spelled_body, spelled_ending, spelled_item, spelled_items};
ghost use Rattle.built_form.specs.Form.Part.{Word};
ghost use Rattle.built_form.specs.Reading.{Finds, FindsNone, EndsCalls, parts_of};

use crate::cursor::Cursor;
use crate::fixed::Fixed;
use crate::item::{Ending, Item, Kind, Mark};
use crate::refusal::FormRefusal;
use c_text::{Token, TokenList};
use std::alloc::Global;

/// `(void)`
const PARAMETERS: [Fixed<'static>; 3] = [
    Fixed::Sign("("),
    Fixed::Keyword("void"),
    Fixed::Sign(")"),
];

/// What stands before the name of an attribute.
const ATTRIBUTE_FRONT: [Fixed<'static>; 5] = [
    Fixed::Sign("["),
    Fixed::Sign("["),
    Fixed::Word("clang"),
    Fixed::Sign(":"),
    Fixed::Sign(":"),
];

/// What stands behind the name of an attribute.
const ATTRIBUTE_END: [Fixed<'static>; 2] = [Fixed::Sign("]"), Fixed::Sign("]")];

/// What stands behind the name of a called function.
const CALL_END: [Fixed<'static>; 3] = [Fixed::Sign("("), Fixed::Sign(")"), Fixed::Sign(";")];

/// What closes the body of a function that returns nothing.
const BRACE: [Fixed<'static>; 1] = [Fixed::Sign("}")];

/// What closes the body of `main`.
const RETURN_ZERO: [Fixed<'static>; 4] = [
    Fixed::Keyword("return"),
    Fixed::Word("0"),
    Fixed::Sign(";"),
    Fixed::Sign("}"),
];

/// Reads the name of an attribute.
pub fn attribute_name(cursor: &mut Cursor) -> Result<Mark, FormRefusal>
    ensures read { IfOk result (λ mark. Begins (Word (word_of mark)) cursor.old cursor.new) }
    ensures none { OnErr result ((mark : Mark) (rest : List Lexeme) → Begins (Word (word_of mark)) cursor.old rest → ⊥) }
{
    if cursor.take(Fixed::Word("nonblocking")) {
        return Ok(Mark::Nonblocking);
    }
    cursor.part(Fixed::Word("blocking"))?;
    Ok(Mark::Blocking)
}

/// Reads an attribute.
pub fn attribute(cursor: &mut Cursor) -> Result<Mark, FormRefusal>
    ensures read { IfOk result (λ mark. Finds spelled_mark cursor.old mark cursor.new) }
    ensures none { OnErr result (FindsNone spelled_mark cursor.old) }
{
    cursor.parts(&ATTRIBUTE_FRONT)?;
    let mark = attribute_name(cursor)?;
    cursor.parts(&ATTRIBUTE_END)?;
    Ok(mark)
}

/// Reads a name and the parameters behind it.
pub fn head(cursor: &mut Cursor) -> Result<Token, FormRefusal>
    ensures read { IfOk result (λ name. Finds (spelled_named parameters) cursor.old name cursor.new) }
    ensures none { OnErr result (FindsNone (spelled_named parameters) cursor.old) }
{
    cursor.named(&PARAMETERS)
}

/// Reads a call, and gives the name of the called function.
pub fn call(cursor: &mut Cursor) -> Result<Token, FormRefusal>
    ensures read { IfOk result (λ name. Finds spelled_call cursor.old name cursor.new) }
    ensures none { OnErr result (FindsNone spelled_call cursor.old) }
{
    cursor.named(&CALL_END)
}

/// Reads a block of calls that these parts close, and gives the names of the called functions.
pub fn block(
    alloc: Global,
    cursor: &mut Cursor,
    closing: &[Fixed],
) -> Result<TokenList, FormRefusal>
    requires { EndsCalls (parts_of closing.now) }
    ensures read { IfOk result (λ calls. Finds (spelled_block (parts_of closing.now)) cursor.old calls cursor.new) }
    ensures none { result ≡ Err FormRefusal.NotBuilt → FindsNone (spelled_block (parts_of closing.now)) cursor.old }
{
    cursor.part(Fixed::Sign("{"))?;
    let mut calls = TokenList::new(alloc);
    'calls: while cursor.sees_name() {
        let name = call(cursor)?;
        calls.push(name)?;
    }
    cursor.parts(closing)?;
    Ok(calls)
}

/// Reads a semicolon, or a body.
#[tactic(auto, using(crate::proofs::Items::defined_found, crate::proofs::Items::body_none))]
pub fn body(alloc: Global, cursor: &mut Cursor) -> Result<Option<TokenList>, FormRefusal>
    ensures read { IfOk result (λ calls. Finds spelled_body cursor.old calls cursor.new) }
    ensures none { result ≡ Err FormRefusal.NotBuilt → FindsNone spelled_body cursor.old }
{
    if cursor.take(Fixed::Sign(";")) {
        return Ok(None);
    }
    let calls = block(alloc, cursor, &BRACE)?;
    Ok(Some(calls))
}

/// Reads what stands behind the parameters of a function that returns nothing.
#[tactic(auto, using(crate::proofs::Items::unmarked_found, crate::proofs::Items::unmarked_none, crate::proofs::Items::marked_found, crate::proofs::Items::marked_no_body))]
pub fn ending(alloc: Global, cursor: &mut Cursor) -> Result<Ending, FormRefusal>
    ensures read { IfOk result (λ ending. Finds spelled_ending cursor.old ending cursor.new) }
    ensures none { result ≡ Err FormRefusal.NotBuilt → FindsNone spelled_ending cursor.old }
{
    if !cursor.sees(Fixed::Sign("[")) {
        let calls = body(alloc, cursor)?;
        return Ok(Ending { mark: None, calls });
    }
    let mark = attribute(cursor)?;
    let calls = body(alloc, cursor)?;
    Ok(Ending {
        mark: Some(mark),
        calls,
    })
}

/// Reads a declaration or a definition.
#[tactic(auto, using(crate::proofs::Items::main_found, crate::proofs::Items::main_no_body, crate::proofs::Items::void_found, crate::proofs::Items::void_no_ending))]
pub fn item(alloc: Global, cursor: &mut Cursor) -> Result<Item, FormRefusal>
    ensures read { IfOk result (λ item. Finds spelled_item cursor.old item cursor.new) }
    ensures none { result ≡ Err FormRefusal.NotBuilt → FindsNone spelled_item cursor.old }
{
    if cursor.take(Fixed::Keyword("int")) {
        let name = head(cursor)?;
        let calls = block(alloc, cursor, &RETURN_ZERO)?;
        return Ok(Item {
            name,
            kind: Kind::Main(calls),
        });
    }
    cursor.part(Fixed::Keyword("void"))?;
    let name = head(cursor)?;
    let ending = ending(alloc, cursor)?;
    Ok(Item {
        name,
        kind: Kind::Void(ending),
    })
}

/// Reads the whole file.
pub fn items(alloc: Global, source: &[u8], tokens: &[Token]) -> Result<Vec<Item>, FormRefusal>
    requires { All (IsWithin source.now) tokens.now }
    ensures read { IfOk result (λ items. Spells (spelled_items items.items) (lexemes_of source.now tokens.now) []) }
    ensures only { IfOk result (λ items. (all : List Item) → Spells (spelled_items all) (lexemes_of source.now tokens.now) [] → all ≡ items.items) }
    ensures none { result ≡ Err FormRefusal.NotBuilt → (all : List Item) → Spells (spelled_items all) (lexemes_of source.now tokens.now) [] → ⊥ }
{
    let mut cursor = Cursor::new(source, tokens);
    let mut items = Vec::new(alloc);
    'items: while !cursor.is_at_end() {
        let item = item(alloc, &mut cursor)?;
        items.push(item)?;
    }
    Ok(items)
}
