//! What the layers above read off types.

ghost use Rattle.std.specs.Prelude.{◌≡◌};
ghost use Rattle.std.specs.Option.{option_copied};
ghost use Rattle.core_unit.specs.Shapes as spec;

use eff_types::{CType, FnType, Level};

/// The type as a function type, if it is one.
#[tactic(auto, using(crate::proofs::Callees::callee_rules))]
fn function_in(kind: &CType) -> Option<&FnType>
    ensures { option_copied result ≡ spec.function_in kind.now }
{
    match kind {
        CType::Function(function) => Some(function),
        CType::Pointer(_) => None,
        CType::Array(_, _) => None,
        CType::Void => None,
        CType::Char => None,
        CType::Int => None,
        CType::Unsigned => None,
        CType::Mutex => None,
        CType::Struct(_) => None,
    }
}

/// The function type that a type is or points to: by it a value is called, and it tells how many parameters there are.
#[tactic(auto, using(crate::proofs::Callees::callee_rules))]
pub fn callee_of(kind: &CType) -> Option<&FnType>
    ensures { option_copied result ≡ spec.callee_of kind.now }
{
    match kind {
        CType::Function(function) => Some(function),
        CType::Pointer(target) => function_in(target.get()),
        CType::Array(_, _) => None,
        CType::Void => None,
        CType::Char => None,
        CType::Int => None,
        CType::Unsigned => None,
        CType::Mutex => None,
        CType::Struct(_) => None,
    }
}

/// The level that is known of the function which a type is or points to, and which the store of such a pointer writes; Plain of
/// every other type.
pub fn level_of(kind: &CType) -> Level
    ensures { result ≡ spec.level_of kind.now }
{
    match callee_of(kind) {
        Some(function) => function.effects.level,
        None => Level::Plain,
    }
}
