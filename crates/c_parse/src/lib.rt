//! A parser of C sources: exactly the grammar, and exactly the first refused token.
#![tactic(auto)]

ghost use Rattle.std.specs.Prelude.{◌≡◌, ◌≤◌, ℕ, All, length, IfOk, IfErr, OnOk};
ghost use Rattle.c_text.specs.Spelling.{IsWithin};
ghost use Rattle.c_tree.specs.declared.statements.Tree.{Tree};
ghost use Rattle.c_parse.specs.Parsed.{IsParsed, IsRefusedAt, IfBad};
ghost use Rattle.c_text.specs.declared.limits.TheConstants.{SOURCE_LIMIT};

mod file;
mod number;

use crate::file::{Fault, read_file};
use crate::number::refusal_at;
use c_text::Token;
use c_tree::Tree;
use std::alloc::Global;
use thiserror::Error;

/// Why tokens have no tree.
#[derive(Clone, Copy, Debug, Error)]
pub enum ParseRefusal {
    /// The first refused token: its number, its index among the tokens from 0 and the byte offset from 0 of its place; at
    /// the end of the file the count of the tokens and the length of the source. The numbers are 1 token not expected,
    /// 2 nesting over 200, 3 reserved name declared, 4 construct left out.
    #[error("refusal {number} at token {token}, at byte {place}")]
    Bad { number: u8, token: u32, place: u32 },
    /// Memory ran out, or more than 1,024 definitions of structures and enumerations are open inside one another.
    #[error("out of memory")]
    NoMemory,
}

/// The tree of the tokens of a source (C17 6.9, cut down to this project's subset). It answers the tree exactly where
/// the grammar reads all tokens with a depth of at most 200, and `Bad` exactly where they are refused.
#[tactic(auto, using(crate::proofs::Laws::parsed, crate::proofs::Laws::one_tree, crate::proofs::Laws::not_both, crate::proofs::Laws::one_refusal, crate::proofs::Laws::refused_from))]
pub fn parse(alloc: Global, source: &[u8], tokens: &[Token]) -> Result<Tree, ParseRefusal>
    requires short { length source.now ≤ SOURCE_LIMIT }
    requires few { length tokens.now ≤ length source.now }
    requires within { All (IsWithin source.now) tokens.now }
    ensures parsed { IfOk result (λ tree. IsParsed source.now tokens.now tree) }
    ensures only_parsed { IfOk result (λ tree. (other : Tree) → IsParsed source.now tokens.now other → other ≡ tree) }
    ensures not_refused { OnOk result ((number token place : ℕ) → IsRefusedAt source.now tokens.now number token place → ⊥) }
    ensures refused { IfErr result (IfBad (λ number token place. IsRefusedAt source.now tokens.now number token place)) }
    ensures only_refused { IfErr result (IfBad (λ number token place. (other index spot : ℕ) → IsRefusedAt source.now tokens.now other index spot → (other ≡ number) × (index ≡ token) × (spot ≡ place))) }
    ensures placed { IfErr result (IfBad (λ number token place. place ≤ length source.now)) }
    ensures not_parsed { IfErr result (IfBad (λ number token place. (tree : Tree) → IsParsed source.now tokens.now tree → ⊥)) }
{
    match read_file(alloc, source, tokens) {
        Ok(tree) => Ok(tree),
        Err(Fault::Refused { deep, left }) => Err(refusal_at(alloc, source, tokens, deep, left)),
        Err(Fault::NoMemory) => Err(ParseRefusal::NoMemory),
    }
}
