//! What declarations ask of their specifiers.

ghost use Rattle.std.specs.Prelude.{◌≡◌, ℕ, ◌||◌, ◌∷◌, List};
ghost use Rattle.c_tree.specs.declared.expressions.Spec.{Spec};
ghost use Rattle.c_grammar.specs.Trees.{has_typedef};

use c_tree::{Spec, StorageWord};

/// Whether the word is `typedef`.
fn is_typedef_word(word: StorageWord) -> bool
    ensures { (p : ℕ) → (more : List Spec) → has_typedef (Spec.Storage p word ∷ more) ≡ (result || has_typedef more) }
{
    match word {
        StorageWord::Typedef => true,
        StorageWord::Static => false,
        StorageWord::Extern => false,
        StorageWord::ThreadLocal => false,
    }
}

/// Whether the specifier is `typedef`.
fn is_typedef(spec: &Spec) -> bool
    ensures { (more : List Spec) → has_typedef (spec.now ∷ more) ≡ (result || has_typedef more) }
{
    match spec {
        Spec::Storage(_, word) => is_typedef_word(*word),
        Spec::Function(_, _) => false,
        Spec::Qualifier(_, _) => false,
        Spec::Type(_, _) => false,
        Spec::TypedefName(_) => false,
        Spec::Attribute(_) => false,
        Spec::StructName(_, _) => false,
        Spec::Struct(_, _, _) => false,
        Spec::EnumName(_, _) => false,
        Spec::Enum(_, _, _) => false,
    }
}

/// Whether `typedef` is among the specifiers.
pub fn has_typedef(specs: &[Spec]) -> bool
    ensures { result ≡ has_typedef specs.now }
{
    'each: for spec in specs {
        if is_typedef(spec) {
            return true;
        }
    }
    false
}
