//! What initializers ask of types.

ghost use Rattle.std.specs.Prelude.{◌≡◌};
ghost use Rattle.core_unit.specs.Shapes as shapes;

use eff_types::CType;

/// Whether it is an array or a structure.
pub(crate) fn is_aggregate(kind: &CType) -> bool
    ensures { result ≡ shapes.is_aggregate kind.now }
{
    match kind {
        CType::Array(_, _) => true,
        CType::Struct(_) => true,
        CType::Pointer(_) => false,
        CType::Function(_) => false,
        CType::Void => false,
        CType::Char => false,
        CType::Int => false,
        CType::Unsigned => false,
        CType::Mutex => false,
    }
}
