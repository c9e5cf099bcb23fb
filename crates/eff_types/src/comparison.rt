//! Whether types are equal, with their effects or without some of them. Each comparison walks the two types once and
//! takes no memory.

ghost use Rattle.std.specs.Prelude.{◌≡◌, ◌↔◌, true, IsTrue};
ghost use Rattle.eff_types.specs.Comparison as spec;
ghost use Rattle.eff_types.specs.Comparison.{grade, likeness_of, each_likeness, signature_likeness_of};
ghost use Rattle.eff_types.specs.Effects.{plain};
ghost use Rattle.eff_types.specs.Types.{same, same_effects, same_outside, without_outer_effects, without_own_effects};

use crate::levels::Effects;
use crate::types::{CType, FnType};

/// How alike two types are, in the order of likeness.
#[derive(Clone, Copy, PartialEq, Eq, PartialOrd, Ord)]
pub enum Likeness {
    /// Not even equal without effects.
    Different,
    /// Equal but for effects somewhere in them.
    EffectsDiffer,
    /// Equal, effects included.
    Equal,
}

fn less_alike(a: Likeness, b: Likeness) -> Likeness
    ensures { result ≡ spec.less_alike a b }
{
    a.min(b)
}

/// How alike two types are, in one walk over both.
#[cycle(comparing)]
#[tactic(auto, unfolding(crate::specs::Types::same, crate::specs::Types::without_effects, crate::specs::Comparison::likeness_of))]
pub fn compare(a: &CType, b: &CType) -> Likeness
    ensures { result ≡ likeness_of a.now b.now }
{
    match (a, b) {
        (CType::Void, CType::Void)
        | (CType::Char, CType::Char)
        | (CType::Int, CType::Int)
        | (CType::Unsigned, CType::Unsigned)
        | (CType::Mutex, CType::Mutex) => Likeness::Equal,
        (CType::Struct(a), CType::Struct(b)) => graded(a == b),
        (CType::Pointer(a), CType::Pointer(b)) => compare(a.get(), b.get()),
        (CType::Array(a, n), CType::Array(b, m)) => less_alike(
            graded(n == m),
            compare(a.get(), b.get()),
        ),
        (CType::Function(a), CType::Function(b)) => {
            less_alike(
                effects_likeness(a.effects, b.effects),
                signature_likeness(a, b),
            )
        }
        _ => Likeness::Different,
    }
}

impl Likeness {
    /// Whether it says that the types are equal.
    pub fn is_equal(self) -> bool
        ensures { result ≡ spec.is_equal self }
    {
        self == Likeness::Equal
    }
}

fn graded(equal: bool) -> Likeness
    ensures { result ≡ grade equal equal }
{
    if equal {
        Likeness::Equal
    } else {
        Likeness::Different
    }
}

/// Whether level and flags are equal.
pub fn equal_effects(a: Effects, b: Effects) -> bool
    ensures { result ≡ same_effects a b }
{
    a == b
}

fn effects_likeness(a: Effects, b: Effects) -> Likeness
    ensures { result ≡ grade (same_effects a b) true }
{
    if equal_effects(a, b) {
        Likeness::Equal
    } else {
        Likeness::EffectsDiffer
    }
}

/// How alike two function types are in their results and parameters.
#[cycle(comparing)]
#[tactic(auto, unfolding(crate::specs::Comparison::signature_likeness_of))]
pub fn signature_likeness(a: &FnType, b: &FnType) -> Likeness
    ensures { result ≡ signature_likeness_of a.now b.now }
{
    less_alike(
        compare(a.result.get(), b.result.get()),
        list_likeness(a.params.as_slice(), b.params.as_slice()),
    )
}

#[cycle(comparing)]
fn list_likeness(a: &[CType], b: &[CType]) -> Likeness
    ensures { result ≡ each_likeness a.now b.now }
{
    if a.len() != b.len() {
        return Likeness::Different;
    }
    let mut least = Likeness::Equal;
    for (i, x) in a.iter().enumerate() {
        least = less_alike(least, compare(x, &b[i]));
    }
    least
}

/// Whether two types are equal, effects included (C17 6.2.7, where types of this subset are compatible exactly if they are
/// equal; that effects count is this project's own rule).
pub fn equal(a: &CType, b: &CType) -> bool
    ensures same { IsTrue result ↔ (a.now ≡ b.now) }
    ensures test { result ≡ same a.now b.now }
{
    compare(a, b).is_equal()
}

/// Whether two function types are equal up to their own effects: the effects in their results and parameters count.
pub fn equal_signatures(a: &FnType, b: &FnType) -> bool
    ensures same { IsTrue result ↔ (record a.now { effects = plain } ≡ record b.now { effects = plain }) }
    ensures test { result ≡ same_outside (CType.Function a.now) (CType.Function b.now) }
{
    signature_likeness(a, b).is_equal()
}

fn equal_targets(a: &CType, b: &CType) -> bool
    ensures { result ≡ same (without_own_effects a.now) (without_own_effects b.now) }
{
    match (a, b) {
        (CType::Function(a), CType::Function(b)) => equal_signatures(a, b),
        _ => equal(a, b),
    }
}

/// Whether two types are equal up to outer effects: those of the function type that a type is or points to. All effects
/// further inside count (this project's own rule).
pub fn equal_up_to_outer_effects(a: &CType, b: &CType) -> bool
    ensures same { IsTrue result ↔ (without_outer_effects a.now ≡ without_outer_effects b.now) }
    ensures test { result ≡ same_outside a.now b.now }
{
    match (a, b) {
        (CType::Pointer(a), CType::Pointer(b)) => equal_targets(a.get(), b.get()),
        _ => equal_targets(a, b),
    }
}
