//! Conversions of values from one type to another.

ghost use Rattle.std.specs.Prelude.{◌≡◌, ◌&&◌, Bool, false};
ghost use Rattle.eff_types.specs.Conversion.{conversion};
ghost use Rattle.eff_types.specs.Types.{is_function, is_pointer};

use crate::comparison::{Likeness, compare, equal, equal_effects, equal_signatures};
use crate::levels::{Level, adds};
use crate::types::{CType, FnType};

/// What a conversion that is allowed does.
#[derive(Drop)]
pub enum Conversion {
    /// Nothing: the types are equal.
    Same,
    /// From number to number (C17 6.3.1).
    Number,
    /// From data pointer to data pointer (C17 6.3.2.3).
    Pointer,
    /// Of a null pointer constant to a pointer (C17 6.3.2.3).
    Null,
    /// Between pointers to functions of one type up to outer effects, with the level that it adds, if any
    /// (Clang's manual 'Function Effect Analysis').
    Effects(Option<Level>),
}

/// Why a conversion is refused.
#[derive(Drop)]
pub enum Mismatch {
    /// C has no such conversion, or has it by a cast only.
    Mismatch,
    /// This subset leaves it out: any other pair with a function pointer, a pointer and a number, and two data pointers
    /// that differ in effects inside alone. C has most of these, at least by a cast.
    LeftOut,
}

/// The conversion of a value of the type `from` to the type `to`, arrays and functions having become pointers before.
/// `null_constant`: the value is a null pointer constant. `explicit`: the conversion is written as a cast.
///
/// The first line that fits:
///
/// - equal types: `Same`;
/// - number to number: `Number`;
/// - a null pointer constant to any pointer: `Null`;
/// - two function pointers equal up to outer effects: `Effects`, with the level that it adds;
/// - any other pair with a function pointer: `LeftOut`;
/// - pointer and number, either way: `LeftOut`;
/// - data pointers equal but for effects inside: `LeftOut`;
/// - a data pointer to or from `void *`: `Pointer`;
/// - other data pointers: `Pointer` where `explicit`, else `Mismatch`;
/// - anything else: `Mismatch`.
///
/// The sources are C17 6.3.2.3, 6.5.4 and 6.5.16.1; the lines on effects and on what is left out are this project's own.
pub fn convert(
    from: &CType,
    to: &CType,
    null_constant: bool,
    explicit: bool,
) -> Result<Conversion, Mismatch>
    ensures { result ≡ conversion from.now to.now null_constant explicit }
{
    match (from, to) {
        (CType::Pointer(source), CType::Pointer(target)) => {
            convert_pointer(source.get(), target.get(), null_constant, explicit)
        }
        _ => convert_other(from, to, null_constant),
    }
}

#[tactic(auto, using(crate::proofs::ConversionLines::conversion_steps))]
fn convert_other(from: &CType, to: &CType, null_constant: bool) -> Result<Conversion, Mismatch>
    requires { (is_pointer from.now && is_pointer to.now) ≡ false }
    ensures { (explicit : Bool) → result ≡ conversion from.now to.now null_constant explicit }
{
    if equal(from, to) {
        return Ok(Conversion::Same);
    }
    if from.is_number() && to.is_number() {
        return Ok(Conversion::Number);
    }
    if null_constant && to.is_pointer() {
        return Ok(Conversion::Null);
    }
    if from.is_function_pointer() || to.is_function_pointer() {
        return Err(Mismatch::LeftOut);
    }
    if (from.is_pointer() && to.is_number()) || (from.is_number() && to.is_pointer()) {
        return Err(Mismatch::LeftOut);
    }
    Err(Mismatch::Mismatch)
}

fn convert_pointer(
    source: &CType,
    target: &CType,
    null_constant: bool,
    explicit: bool,
) -> Result<Conversion, Mismatch>
    ensures { result ≡ conversion (CType.Pointer source.now) (CType.Pointer target.now) null_constant explicit }
{
    match (source, target) {
        (CType::Function(source), CType::Function(target)) => {
            convert_function_pointer(source, target, null_constant)
        }
        _ => convert_object_pointer(source, target, null_constant, explicit),
    }
}

#[tactic(auto, using(crate::proofs::ConversionLines::conversion_steps))]
fn convert_function_pointer(
    source: &FnType,
    target: &FnType,
    null_constant: bool,
) -> Result<Conversion, Mismatch>
    ensures { (explicit : Bool) → result ≡ conversion (CType.Pointer (CType.Function source.now)) (CType.Pointer (CType.Function target.now)) null_constant explicit }
{
    let alike = equal_signatures(source, target);
    let same = alike && equal_effects(source.effects, target.effects);
    if same {
        Ok(Conversion::Same)
    } else if null_constant {
        Ok(Conversion::Null)
    } else if alike {
        Ok(Conversion::Effects(adds(source.effects, target.effects)))
    } else {
        Err(Mismatch::LeftOut)
    }
}

#[tactic(auto, using(crate::proofs::ConversionLines::conversion_steps))]
fn convert_object_pointer(
    source: &CType,
    target: &CType,
    null_constant: bool,
    explicit: bool,
) -> Result<Conversion, Mismatch>
    requires { (is_function source.now && is_function target.now) ≡ false }
    ensures { result ≡ conversion (CType.Pointer source.now) (CType.Pointer target.now) null_constant explicit }
{
    let likeness = compare(source, target);
    if likeness == Likeness::Equal {
        return Ok(Conversion::Same);
    }
    if null_constant {
        return Ok(Conversion::Null);
    }
    if source.is_function() || target.is_function() || likeness == Likeness::EffectsDiffer {
        return Err(Mismatch::LeftOut);
    }
    if source.is_void() || target.is_void() || explicit {
        return Ok(Conversion::Pointer);
    }
    Err(Mismatch::Mismatch)
}
