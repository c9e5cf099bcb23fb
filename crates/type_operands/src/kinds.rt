//! What is asked of types.

ghost use Rattle.std.specs.Prelude.{◌≡◌, ◌&&◌, not};
ghost use Rattle.eff_types.specs.Types as types;
ghost use Rattle.core_unit.specs.Shapes as shapes;
ghost use Rattle.core_unit.specs.Typed as typed;
ghost use Rattle.type_rules.specs.Operands as spec;
ghost use Rattle.type_rules.specs.Types as asked;

use core_unit::Sign;
use eff_types::CType;

/// Whether it is `char`.
pub fn is_char(kind: &CType) -> bool
    ensures { result ≡ spec.is_char kind.now }
{
    matches!(kind, CType::Char)
}

/// Whether it is a structure or a mutex, of which no value is taken (this project's own rule).
pub fn is_whole(kind: &CType) -> bool
    ensures { result ≡ spec.is_whole kind.now }
{
    matches!(kind, CType::Mutex | CType::Struct(_))
}

/// Whether it is an array.
pub fn is_array(kind: &CType) -> bool
    ensures { result ≡ shapes.is_array kind.now }
{
    matches!(kind, CType::Array(_, _))
}

/// Whether it is an array without a size, which has size 0 here (C17 6.2.5).
pub fn is_unsized(kind: &CType) -> bool
    ensures { result ≡ shapes.is_unsized kind.now }
{
    match kind {
        CType::Array(_, count) => *count == 0,
        _ => false,
    }
}

/// Whether it is a number or a pointer (C17 6.2.5).
#[tactic(auto, using(crate::proofs::KindEquations::pointer_alike))]
pub fn is_scalar(kind: &CType) -> bool
    ensures { result ≡ shapes.is_scalar kind.now }
{
    kind.is_number() || kind.is_pointer()
}

/// Whether a function may give it (this project's own rule: no structures).
pub fn is_result(kind: &CType) -> bool
    ensures { result ≡ asked.is_result kind.now }
{
    kind.is_void() || is_scalar(kind)
}

/// Whether it is `void *`.
pub fn is_void_pointer(kind: &CType) -> bool
    ensures { result ≡ types.is_void_pointer kind.now }
{
    match kind {
        CType::Pointer(target) => target.get().is_void(),
        _ => false,
    }
}

/// Whether it is a pointer to anything but a function.
pub fn is_data_pointer(kind: &CType) -> bool
    ensures { result ≡ types.is_data_pointer kind.now }
{
    match kind {
        CType::Pointer(target) => !target.get().is_function(),
        _ => false,
    }
}

fn is_object(kind: &CType) -> bool
    ensures { result ≡ (not (types.is_function kind.now) && not (types.is_void kind.now)) }
{
    !kind.is_function() && !kind.is_void()
}

/// Whether it is a pointer to an object, of which `*` makes an lvalue and to which a number is added (C17 6.5.3.2 and 6.5.6).
pub fn is_object_pointer(kind: &CType) -> bool
    ensures { result ≡ shapes.is_object_pointer kind.now }
{
    match kind {
        CType::Pointer(target) => is_object(target.get()),
        _ => false,
    }
}

/// The sign that a number has once it is promoted; a `char` becomes an `int` (C17 6.3.1.1).
pub fn sign_of(kind: &CType) -> Sign
    ensures { result ≡ shapes.sign_of kind.now }
{
    match kind {
        CType::Unsigned => Sign::Unsigned,
        _ => Sign::Signed,
    }
}

/// The type of promoted numbers of a sign.
pub fn number_type(sign: Sign) -> CType
    ensures { result ≡ shapes.number_type sign }
{
    match sign {
        Sign::Signed => CType::Int,
        Sign::Unsigned => CType::Unsigned,
    }
}

/// The sign that two promoted numbers have in common (C17 6.3.1.8).
pub fn common(a: Sign, b: Sign) -> Sign
    ensures { result ≡ typed.common a b }
{
    match a {
        Sign::Unsigned => Sign::Unsigned,
        Sign::Signed => b,
    }
}
