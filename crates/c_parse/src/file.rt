//! The tokens of a whole file.

ghost use Rattle.std.specs.Prelude.{All};
ghost use Rattle.grammar.specs.Parser.{parse_all};
ghost use Rattle.c_text.specs.Spelling.{IsWithin};
ghost use Rattle.c_grammar.specs.Lexemes.{lexemes_of};
ghost use Rattle.c_grammar.specs.Rules.{Unit as WholeFile};
ghost use Rattle.c_grammar.specs.Grammar.{c_grammar};
ghost use Rattle.c_grammar.specs.Lookahead.{c_lookahead};
ghost use Rattle.c_grammar.specs.Refusals.{deepest};
ghost use Rattle.c_parse.specs.Parsed.{IsAnswer};

use c_text::Token;
use c_tree::Tree;
use parse_files::unit;
use parse_input::{Input, Limits, Refusal};
use std::alloc::Global;

/// How deep a tree may be, and how many definitions of structures and enumerations may be open.
const LIMITS: Limits = Limits {
    opens: 1024,
    room: 200,
};

/// Why a file isn't read.
#[derive(Clone, Copy)]
pub enum Fault {
    /// Whether for depth alone, and how many tokens there are from the refused one on.
    Refused { deep: bool, left: usize },
    NoMemory,
}

/// Reads all tokens of a file.
#[tactic(auto, using(crate::proofs::Files::got, crate::proofs::Files::left_over, crate::proofs::Files::bad, crate::proofs::Files::no_answer))]
pub fn read_file(alloc: Global, source: &[u8], tokens: &[Token]) -> Result<Tree, Fault>
    requires { All (IsWithin source.now) tokens.now }
    ensures { IsAnswer (parse_all c_grammar c_lookahead deepest WholeFile (lexemes_of source.now tokens.now)) result }
{
    let mut input = match Input::new(alloc, source, tokens) {
        Ok(input) => input,
        Err(_) => return Err(Fault::NoMemory),
    };
    match unit(alloc, LIMITS, &mut input) {
        Ok(read) => {
            if input.is_done() {
                Ok(read.value)
            } else {
                Err(Fault::Refused {
                    deep: false,
                    left: input.len(),
                })
            }
        }
        Err(Refusal::Refused(deep)) => Err(Fault::Refused {
            deep,
            left: input.len(),
        }),
        Err(Refusal::NoMemory) => Err(Fault::NoMemory),
    }
}
