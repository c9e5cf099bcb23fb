//! How many words initializers store.

ghost use Rattle.std.specs.Prelude.{◌≡◌, ℕ, ◌+◌, length, map, sum};
ghost use Rattle.core_unit.specs.Layout.{told};
ghost use Rattle.type_rules.specs.InitialValues as spec;

use core_unit::Initializer;

/// The sum, as far as 32 bits tell it.
#[tactic(auto, using(core_unit::proofs::Sums::told_sum))]
fn add(a: u32, b: u32) -> u32
    ensures { (m n : ℕ) → a ≡ told m → b ≡ told n → result ≡ told (m + n) }
{
    a.saturating_add(b)
}

/// The number of bytes, as far as 32 bits tell it.
fn length_told(bytes: &[u8]) -> u32
    ensures { result ≡ told (length bytes.now) }
{
    bytes.len().min(u32::MAX as usize) as u32
}

/// The words of an object of this initializer, as far as 32 bits tell them.
#[cycle(words)]
#[tactic(auto, using(crate::proofs::WordForms::word_rules))]
pub(crate) fn initializer_words(initializer: &Initializer) -> u32
    ensures { result ≡ told (spec.initializer_words initializer.now) }
{
    match initializer {
        Initializer::Absent(words) => *words,
        Initializer::Value(_, _) => 1,
        Initializer::List(parts, zeros) => add(all_words(parts.as_slice()), *zeros),
        Initializer::Text(bytes, zeros) => add(length_told(bytes.as_slice()), *zeros),
        Initializer::Zeros(words) => *words,
        Initializer::Mutex => 1,
    }
}

/// Those of all of them together.
#[cycle(words)]
pub(crate) fn all_words(parts: &[Initializer]) -> u32
    ensures { result ≡ told (sum (map spec.initializer_words parts.now)) }
{
    let mut total = 0u32;
    'each: for part in parts {
        total = add(total, initializer_words(part));
    }
    total
}
