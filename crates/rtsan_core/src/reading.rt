//! From the name of a file to its typed unit and its verdicts.

ghost use Rattle.std.specs.Prelude.{◌≡◌, ◌≤◌, length, IfOk, IfErr};
ghost use Rattle.rt_base.specs.Outside.{IsContents, KeepsContents};
ghost use Rattle.rtsan_core.specs.Found.{AreTheTokens, IsTheTree, IsReadAs, IsRefusedFor, IsFileRefused, IsFound};
ghost use Rattle.c_text.specs.declared.limits.TheConstants.{SOURCE_LIMIT};

use c_parse::{ParseRefusal, parse};
use c_text::{SOURCE_LIMIT, TextRefusal, Token, TokenList, line_column, tokens};
use c_tree::Tree;
use core_unit::{Unit, Which};
use printing::LineTable;
use rt_base::{Bytes, Files, ReadRefusal, read_all};
use sqlite_items::Items;
use std::alloc::{AllocError, Global};
use type_rules::TypeWarning;
use type_units::{TypeRefusal, type_unit};
use unit_check::{Verdicts, check};

/// Why a file has no unit.
pub enum Refusal {
    /// a read failed
    ReadFault,
    /// it has more bytes than the limit
    TooLong,
    /// the first fault of its spelling: its number and its place
    Misspelled { number: u8, line: u32, column: u32 },
    /// the first refused token: its number and its place
    Unread { number: u8, line: u32, column: u32 },
    /// the first rule of typing that is broken: its number and its place
    Untyped { number: u8, line: u32, column: u32 },
    /// a limit that the unit passes
    TooLarge(Which),
    NoMemory,
}

/// What is read of a source.
#[derive(Drop)]
pub struct Reading {
    pub tokens: TokenList,
    pub unit: Unit,
    /// what the typing of the unit warns of, in order of place
    pub warnings: Items<TypeWarning>,
}

/// A source, what is read of it, and the verdicts of its unit.
#[derive(Drop)]
pub struct Found {
    pub source: Bytes,
    pub read: Reading,
    pub verdicts: Verdicts,
}

/// The unit of a file and its verdicts, or why it has none.
pub fn read_file<F: Files>(alloc: Global, files: &mut F, file: &str) -> Result<Found, Refusal>
    ensures found { IfOk result (IsFound (F.state files.old) file.now) }
    ensures refused { IfErr result (IsFileRefused (F.state files.old) (F.state files.new) file.now) }
    ensures kept { KeepsContents (F.state files.old) (F.state files.new) }
{
    let source = read_source(alloc, files, file)?;
    let read = match read_text(alloc, source.as_slice()) {
        Ok(read) => read,
        Err(refusal) => return Err(refusal),
    };
    match check(alloc, &read.unit) {
        Ok(verdicts) => Ok(Found {
            source,
            read,
            verdicts,
        }),
        Err(AllocError) => Err(Refusal::NoMemory),
    }
}

/// The contents of a file.
fn read_source<F: Files>(alloc: Global, files: &mut F, file: &str) -> Result<Bytes, Refusal>
    ensures read { IfOk result (IsContents ((F.state files.old).contents file.now)) }
    ensures short { IfOk result (λ source. length source ≤ SOURCE_LIMIT) }
    ensures refused { IfErr result (IsFileRefused (F.state files.old) (F.state files.new) file.now) }
    ensures kept { KeepsContents (F.state files.old) (F.state files.new) }
{
    match read_all(alloc, files, file, SOURCE_LIMIT) {
        Ok(source) => Ok(source),
        Err(ReadRefusal::Fault) => Err(Refusal::ReadFault),
        Err(ReadRefusal::Long) => Err(Refusal::TooLong),
        Err(ReadRefusal::NoMemory) => Err(Refusal::NoMemory),
    }
}

/// What is read of a source.
fn read_text(alloc: Global, source: &[u8]) -> Result<Reading, Refusal>
    requires { length source.now ≤ SOURCE_LIMIT }
    ensures read { IfOk result (IsReadAs source.now) }
    ensures refused { IfErr result (IsRefusedFor source.now) }
{
    let tokens = read_tokens(alloc, source)?;
    let tree = read_tree(alloc, source, tokens.as_slice())?;
    read_types(alloc, source, tokens, &tree)
}

/// The tokens of a source.
fn read_tokens(alloc: Global, source: &[u8]) -> Result<TokenList, Refusal>
    requires { length source.now ≤ SOURCE_LIMIT }
    ensures read { IfOk result (AreTheTokens source.now) }
    ensures refused { IfErr result (IsRefusedFor source.now) }
{
    match tokens(alloc, source) {
        Ok(tokens) => Ok(tokens),
        Err(TextRefusal::Bad { number, place }) => {
            let (line, column) = line_column(source, place);
            Err(Refusal::Misspelled {
                number,
                line,
                column,
            })
        }
        Err(TextRefusal::NoMemory) => Err(Refusal::NoMemory),
    }
}

/// The tree of its tokens.
fn read_tree(alloc: Global, source: &[u8], tokens: &[Token]) -> Result<Tree, Refusal>
    requires short { length source.now ≤ SOURCE_LIMIT }
    requires tokens { AreTheTokens source.now tokens.now }
    ensures read { IfOk result (IsTheTree source.now tokens.now) }
    ensures refused { IfErr result (IsRefusedFor source.now) }
{
    match parse(alloc, source, tokens) {
        Ok(tree) => Ok(tree),
        Err(
            ParseRefusal::Bad {
                number,
                token: _,
                place,
            },
        ) => {
            let (line, column) = line_column(source, place);
            Err(Refusal::Unread {
                number,
                line,
                column,
            })
        }
        Err(ParseRefusal::NoMemory) => Err(Refusal::NoMemory),
    }
}

/// Types the tree.
fn read_types(
    alloc: Global,
    source: &[u8],
    tokens: TokenList,
    tree: &Tree,
) -> Result<Reading, Refusal>
    requires short { length source.now ≤ SOURCE_LIMIT }
    requires tokens { AreTheTokens source.now tokens }
    requires tree { IsTheTree source.now tokens tree.now }
    ensures read { IfOk result (IsReadAs source.now) }
    ensures refused { IfErr result (IsRefusedFor source.now) }
{
    match type_unit(alloc, source, tree) {
        Ok(typed) => Ok(Reading {
            tokens,
            unit: typed.unit,
            warnings: typed.warnings,
        }),
        Err(TypeRefusal::Bad { number, place }) => {
            let at = LineTable::new(source).line_column(place);
            Err(Refusal::Untyped {
                number,
                line: at.line,
                column: at.column,
            })
        }
        Err(TypeRefusal::Limit(limit)) => Err(Refusal::TooLarge(limit)),
        Err(TypeRefusal::NoMemory) => Err(Refusal::NoMemory),
    }
}
