//! What is known before the program runs (C17 6.6, narrowed by this project's own rule).

ghost use Rattle.std.specs.Prelude.{◌≡◌, not, if◌then◌else◌, false};
ghost use Rattle.core_unit.specs.Shapes.{is_array};
ghost use Rattle.type_rules.specs.Constants.{is_known as known_worth};
ghost use Rattle.type_rules.specs.Initializers as spec;
ghost use Rattle.type_initializers.specs.Parts as parts;

use core_unit::{Expr, Place, Storage};
use eff_types::CType;
use type_operands::{is_array, is_whole, worth};
use type_rules::{Form, Found, Worth};

fn is_known(worth: Worth) -> bool
    ensures { result ≡ known_worth worth }
{
    match worth {
        Worth::Known(_) => true,
        Worth::Trapped => false,
        Worth::Varying => false,
    }
}

fn is_static(storage: Storage) -> bool
    ensures { result ≡ parts.is_static storage }
{
    match storage {
        Storage::Static(_) => true,
        Storage::Automatic(_) => false,
        Storage::ThreadLocal(_) => false,
    }
}

fn is_static_array(storage: Storage, kind: &CType) -> bool
    ensures { result ≡ (if parts.is_static storage then is_array kind.now else false) }
{
    if is_static(storage) {
        is_array(kind)
    } else {
        false
    }
}

/// Whether it is a variable of static storage.
#[tactic(auto, using(crate::proofs::FixedForms::place_rules))]
fn is_static_variable(place: &Place) -> bool
    ensures { result ≡ spec.is_static_variable place.now }
{
    match place {
        Place::Variable(_, storage, _) => is_static(*storage),
        _ => false,
    }
}

/// Whether it is a string or an array of static storage.
#[tactic(auto, using(crate::proofs::FixedForms::place_rules))]
fn is_fixed_object(place: &Place) -> bool
    ensures { result ≡ spec.is_fixed_object place.now }
{
    match place {
        Place::Variable(_, storage, kind) => is_static_array(*storage, kind),
        Place::Text(_, _) => true,
        _ => false,
    }
}

/// Whether a value is a constant number, null, a function, or `&` of a static variable.
#[tactic(auto, using(crate::proofs::FixedForms::value_rules))]
fn is_fixed_value(value: &Expr) -> bool
    ensures { result ≡ spec.is_fixed_value value.now }
{
    match value {
        Expr::Function(_, _) => true,
        Expr::AddressOf(place) => is_static_variable(place.get()),
        _ => is_known(worth(value)),
    }
}

/// Whether it is known before the program runs: a constant number, null, the name of a function or of a static array, a string, or `&` of a
/// static variable.
pub(crate) fn is_fixed(form: &Form) -> bool
    ensures { result ≡ spec.is_fixed form.now }
{
    match form {
        Form::Lvalue(object) => is_fixed_object(object.get()),
        Form::Value(value) => is_fixed_value(value.get()),
    }
}

/// Whether what isn't `known` is asked for as a constant.
pub(crate) fn is_missing(fixed: bool, known: bool) -> bool
    ensures { result ≡ (if fixed then not known else false) }
{
    if fixed { !known } else { false }
}

/// Whether a single expression for an array, a structure or a mutex isn't known, where that is asked.
pub(crate) fn is_unfixed(fixed: bool, found: &Found) -> bool
    ensures { result ≡ spec.is_unfixed fixed found.now }
{
    if fixed {
        if is_whole(found.kind.get()) {
            return false;
        }
        !is_fixed(&found.form)
    } else {
        false
    }
}
