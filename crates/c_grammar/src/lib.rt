//! The grammar of C sources as data, over the theory of the crate `grammar`.
//!
//! `specs/Rules` has the rules with what each of them reads, `specs/Expressions`, `Specifiers`, `Declarators` and
//! `Statements` their parts, `specs/Grammar` the productions and what a parser looks at beside them, and
//! `specs/Refusals` the numbers of a refusal.
#![tactic(auto)]

ghost use Rattle.std.specs.Prelude.{◌≡◌, ◌≤◌, ℕ, Bool, List, ◌∷◌, [], ◌++◌};
ghost use Rattle.grammar.specs.LL1.{IsLL1};
ghost use Rattle.grammar.specs.Parser.{Got, Bad, parse_all};
ghost use Rattle.grammar.specs.Reading.{IsRead, HasFault};
ghost use Rattle.c_tree.specs.declared.statements.Tree.{Tree};
ghost use Rattle.c_grammar.specs.Lexemes.{Lexeme};
ghost use Rattle.c_grammar.specs.Rules.{Unit as WholeFile};
ghost use Rattle.c_grammar.specs.Grammar.{c_grammar};
ghost use Rattle.c_grammar.specs.Lookahead.{c_lookahead};
ghost use Rattle.c_grammar.specs.Refusals.{IsRefusedWith};
ghost use Rattle.c_grammar.specs.Worked.{cut_before, cut_word};
ghost use Rattle.c_grammar.specs.Deep.{IsDepthOfTree};

use grammar::{Language, parser_is_exact};

mod state;
mod terminal;

pub use state::{
    Bracket, DeclaratorKind, Front, Precedence, Reach, SpecifierContext, StorageClass,
    TypeSpecifiers,
};
pub use terminal::Terminal;

/// The language of C sources. No value is needed: all of it is for proofs.
pub struct CSource;

impl Language for CSource {
    ghost grammar = { c_grammar };

    ghost lookahead = { c_lookahead };
}

/// One token decides in the grammar, so that what `grammar::parser_is_exact` says holds of it: a parser that
/// looks one token ahead gives exactly its readings. (This project's own rule.)
pub fn grammar_is_ll1()
    ensures { IsLL1 c_grammar c_lookahead }
{}

/// What it means for whole files: each reading of them is what the parser on lists gives, with no greater depth, and
/// what it refuses is the refused token.
pub fn files_are_parsed()
    ensures given { (tokens : List Lexeme) (x : Tree) (depth room : ℕ) → IsRead c_grammar depth WholeFile tokens x → depth ≤ room
        → (least : ℕ) × (least ≤ depth) × (parse_all c_grammar c_lookahead room WholeFile tokens ≡ Got x least []) }
    ensures refused { (tokens : List Lexeme) (room : ℕ) (deep : Bool) (rest : List Lexeme)
        → parse_all c_grammar c_lookahead room WholeFile tokens ≡ Bad deep rest → HasFault c_grammar room WholeFile tokens deep rest }
{
    parser_is_exact::<CSource>();
}

/// In any source, `void f(void) [[clang::nonbl` is refused at the word that is cut, as not expected.
pub fn cut_attribute_is_refused()
    ensures { (source : List ℕ) → IsRefusedWith source (cut_before ++ cut_word ∷ []) 1 (cut_word ∷ []) }
{}

/// A file is read as a tree within a room exactly where it is read as that tree within any, and the tree is no deeper
/// than the room: the nodes that the grammar counts are those of the tree. (This project's own rule.)
pub fn depth_is_that_of_the_tree()
    ensures { IsDepthOfTree }
{}
