//! A small language that shows what the definitions mean: differences of digits and parentheses.

ghost use Rattle.std.specs.Prelude.{◌≡◌, ◌≤◌, ℕ, Bool, true, false, List, [], ◌∷◌};
ghost use Rattle.grammar.specs.Reading.{IsRead, HasFault};
ghost use Rattle.grammar.specs.Parser.{Got, Bad, parse_all};
ghost use Rattle.grammar.specs.Example.{sums, sums_lookahead, Rule, Sums as AllSums, TreeOf, Terminal, Digit, Minus, Open, Close, Semicolon, Number, Difference};

use crate::{Language, parser_is_exact};

/// The language of `specs/Example`.
pub struct Sums;

impl Language for Sums {
    ghost grammar = { sums };

    ghost lookahead = { sums_lookahead };
}

/// One token decides in the small language, so its readings are exactly what its parser gives.
pub fn sums_are_parsed()
    ensures given { (depth : ℕ) (n : Rule) (terminals : List Terminal) (x : TreeOf n) → IsRead sums depth n terminals x
        → (least : ℕ) × (least ≤ depth) × (parse_all sums sums_lookahead depth n terminals ≡ Got x least []) }
    ensures refused { (depth : ℕ) (n : Rule) (terminals : List Terminal) (deep : Bool) (rest : List Terminal)
        → parse_all sums sums_lookahead depth n terminals ≡ Bad deep rest → HasFault sums depth n terminals deep rest }
{
    parser_is_exact::<Sums>();
}

/// What the definitions say of a few lists of tokens.
pub fn worked()
    ensures a_difference_leans_to_the_left { IsRead sums 3 AllSums (Digit ∷ Minus ∷ Digit ∷ Minus ∷ Digit ∷ Semicolon ∷ [])
        (Difference (Difference Number Number) Number ∷ []) }
    ensures no_room_around_a_difference { HasFault sums 2 AllSums (Digit ∷ Minus ∷ Digit ∷ Minus ∷ Digit ∷ Semicolon ∷ []) true
        (Minus ∷ Digit ∷ Semicolon ∷ []) }
    ensures no_room_in_parentheses { HasFault sums 1 AllSums (Open ∷ Digit ∷ Close ∷ Semicolon ∷ []) true (Digit ∷ Close ∷ Semicolon ∷ []) }
    ensures not_expected { HasFault sums 1 AllSums (Digit ∷ Semicolon ∷ Semicolon ∷ []) false (Semicolon ∷ []) }
    ensures not_at_its_end { HasFault sums 2 AllSums (Open ∷ Digit ∷ []) false [] }
{}
