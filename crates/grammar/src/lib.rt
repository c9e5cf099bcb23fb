//! A grammar as data, what it reads, and the theorem for a parser that looks one token ahead.
//!
//! `specs/Parts` has the productions, `specs/Reading` whole and unfinished readings and the refused token,
//! `specs/Parser` the parser on lists, and `specs/Fits` the conditions under which one token decides. A crate
//! that parses gives its grammar and lookahead as a `Language`, and its code answers what `parse` answers.
#![tactic(auto)]

ghost use Rattle.std.specs.Prelude.{◌≡◌, ◌≤◌, ℕ, Bool, false, List, [], ◌∷◌};
ghost use Rattle.grammar.specs.Parts.{Grammar};
ghost use Rattle.grammar.specs.Reading.{IsRead, HasFault};
ghost use Rattle.grammar.specs.Parser.{Lookahead, Got, Bad, parse_all};
ghost use Rattle.grammar.specs.LL1.{IsLL1};

pub mod example;

/// A grammar, and what a parser of it looks at. No value is needed: all of it is for proofs.
pub trait Language {
    /// The productions.
    ghost grammar: { Grammar };

    /// What the parser looks at beside them.
    ghost lookahead: { Lookahead grammar.Token grammar.Name grammar.Value };
}

/// The parser on lists is exact, for every language of which one token decides. What it gives is a reading
/// of all the tokens, of the depth that it tells. Every reading within the room is given, with no greater
/// depth, so there is one at most. It refuses exactly where the refused token stands, for depth alone
/// exactly where a greater depth would do, which is never so at the end. (This project's own rule.)
pub fn parser_is_exact<L: Language>()
    requires { IsLL1 L.grammar L.lookahead }
    ensures sound { (room : ℕ) (n : L.grammar.Name) (tokens : List L.grammar.Token) (x : L.grammar.Value n) (depth : ℕ) (rest : List L.grammar.Token)
        → parse_all L.grammar L.lookahead room n tokens ≡ Got x depth rest
        → (rest ≡ []) × IsRead L.grammar depth n tokens x × (depth ≤ room) }
    ensures complete { (depth room : ℕ) (n : L.grammar.Name) (tokens : List L.grammar.Token) (x : L.grammar.Value n)
        → IsRead L.grammar depth n tokens x → depth ≤ room
        → (least : ℕ) × (least ≤ depth) × (parse_all L.grammar L.lookahead room n tokens ≡ Got x least []) }
    ensures one_reading { (depth other : ℕ) (n : L.grammar.Name) (tokens : List L.grammar.Token) (x y : L.grammar.Value n)
        → IsRead L.grammar depth n tokens x → IsRead L.grammar other n tokens y → x ≡ y }
    ensures fault { (room : ℕ) (n : L.grammar.Name) (tokens : List L.grammar.Token) (deep : Bool) (rest : List L.grammar.Token)
        → parse_all L.grammar L.lookahead room n tokens ≡ Bad deep rest → HasFault L.grammar room n tokens deep rest }
    ensures only_fault { (room : ℕ) (n : L.grammar.Name) (tokens : List L.grammar.Token) (deep : Bool) (rest : List L.grammar.Token)
        → HasFault L.grammar room n tokens deep rest → parse_all L.grammar L.lookahead room n tokens ≡ Bad deep rest }
    ensures not_for_depth_at_the_end { (room : ℕ) (n : L.grammar.Name) (tokens : List L.grammar.Token) (deep : Bool)
        → parse_all L.grammar L.lookahead room n tokens ≡ Bad deep [] → deep ≡ false }
{}
