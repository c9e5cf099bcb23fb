//! Laws of the definitions that the contracts cite. Each function answers nothing: its contract is the law.

ghost use Rattle.std.specs.Prelude.{◌≡◌, ◌↔◌, ◌∷◌, ◌++◌, [], Bool, false, true, List, Ok, None, IsTrue};
ghost use Rattle.eff_types.specs.Effects.{union, joined, forbids, conflict, effects_of, added};
ghost use Rattle.eff_types.specs.Types.{same_outside, is_function, without_outer_effects};
ghost use Rattle.eff_types.specs.Conversion.{conversion};
ghost use Rattle.eff_types.specs.Laws.{merged_onto, IsAtMost, Keeps, AddsNothing, refusal};
ghost use Rattle.eff_types.specs.declared.conversions.Conversion.{Conversion};
ghost use Rattle.eff_types.specs.declared.levels.Effects.{Effects};
ghost use Rattle.eff_types.specs.declared.levels.Level.{Level};
ghost use Rattle.eff_types.specs.declared.types.CType.{CType};

/// The union may be taken in any order and grouping, and of one declaration as often as one likes.
pub fn law_of_unions()
    ensures grouping { (before after : List Effects) → union (before ++ after) ≡ joined (union before) (union after) }
    ensures commutative { (a b : Effects) → joined a b ≡ joined b a }
    ensures associative { (a b c : Effects) → joined (joined a b) c ≡ joined a (joined b c) }
    ensures idempotent { (a : Effects) → joined a a ≡ a }
{}

/// Declarations conflict exactly where their union forbids its own level, and merging one after the other comes to what
/// all of them together come to.
pub fn law_of_conflicts()
    ensures forbids_own { (declarations : List Effects) → conflict declarations ≡ forbids (union declarations) (union declarations).level }
    ensures one_by_one { (before : List Effects) (e : Effects) → effects_of (before ++ e ∷ []) ≡ merged_onto (effects_of before) e }
{}

/// Nothing is added exactly where the target's level is at most the source's; two conversions that add nothing add nothing
/// together.
pub fn law_of_added_levels()
    ensures nothing { (from to : Effects) → (added from to ≡ None) ↔ IsAtMost to.level from.level }
    ensures transitive { (a b c : Effects) → added a b ≡ None → added b c ≡ None → added a c ≡ None }
{}

/// Equality up to outer effects is an equivalence.
pub fn law_of_outer_equality()
    ensures reflexive { (t : CType) → IsTrue (same_outside t t) }
    ensures symmetric { (t u : CType) → IsTrue (same_outside t u) → IsTrue (same_outside u t) }
    ensures transitive { (t u v : CType) → IsTrue (same_outside t u) → IsTrue (same_outside u v) → IsTrue (same_outside t v) }
{}

/// Whether and why a conversion is refused doesn't depend on the outer effects of its types, which are those of values and so
/// no function types.
pub fn law_of_refusals()
    ensures { (from to : CType) (null explicit : Bool) → is_function from ≡ false → is_function to ≡ false →
        refusal (conversion (without_outer_effects from) (without_outer_effects to) null explicit) ≡ refusal (conversion from to null explicit) }
{}

/// A function that keeps what the source's type promises keeps what the target's promises, where the conversion adds no
/// level.
pub fn law_of_conversions()
    ensures { (from to : CType) (null explicit : Bool) (how : Conversion) (level : Level) →
        conversion from to null explicit ≡ Ok how → AddsNothing how → Keeps level from → Keeps level to }
{}
