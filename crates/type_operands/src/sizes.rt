//! The sizes of types, in words, and `sizeof` (C17 6.5.3.4; that a word is the unit is this project's own rule).

ghost use Rattle.std.specs.Prelude.{◌≡◌, slice_get};
ghost use Rattle.core_unit.specs.Layout as layout;
ghost use Rattle.type_rules.specs.Access as access;
ghost use Rattle.type_rules.specs.Sizes as spec;
ghost use Rattle.type_rules.specs.Types as types;
ghost use Rattle.typing_state.specs.Answers.{Gives};

use crate::values::found_value;
use core_unit::{Expr, StructInfo};
use eff_types::CType;
use sqlite_items::{Boxed, at};
use std::alloc::Global;
use type_rules::Found;
use typing_state::{Stop, Typing};

fn is_open(structures: &[StructInfo], number: u32) -> bool
    ensures { result ≡ types.is_open (slice_get structures.now number) }
{
    match at(structures, number as usize) {
        Some(structure) => structure.members.is_none(),
        None => true,
    }
}

/// Whether a type is incomplete (C17 6.2.5): `void`, a structure whose members aren't known, or an array without a size, which has
/// size 0 here.
#[tactic(auto, using(crate::proofs::KindEquations::incomplete_kinds))]
pub fn is_incomplete(structures: &[StructInfo], kind: &CType) -> bool
    ensures { result ≡ types.is_incomplete structures.now kind.now }
{
    match kind {
        CType::Void => true,
        CType::Struct(number) => is_open(structures, *number),
        CType::Array(_, count) => *count == 0,
        CType::Pointer(_) => false,
        CType::Function(_) => false,
        CType::Char => false,
        CType::Int => false,
        CType::Unsigned => false,
        CType::Mutex => false,
    }
}

fn struct_words(structures: &[StructInfo], number: u32) -> u32
    ensures { result ≡ layout.struct_words (slice_get structures.now number) }
{
    match at(structures, number as usize) {
        Some(structure) => structure.words,
        None => 0,
    }
}

/// The words of an object of a type, or 2^32 - 1 where there are more (this project's own rule).
#[tactic(auto, using(crate::proofs::KindEquations::words_of_kinds))]
pub fn words_of(structures: &[StructInfo], kind: &CType) -> u32
    ensures { result ≡ layout.words_of structures.now kind.now }
{
    match kind {
        CType::Void => 0,
        CType::Function(_) => 0,
        CType::Array(element, count) => count.saturating_mul(words_of(structures, element.get())),
        CType::Struct(number) => struct_words(structures, *number),
        CType::Pointer(_) => 1,
        CType::Char => 1,
        CType::Int => 1,
        CType::Unsigned => 1,
        CType::Mutex => 1,
    }
}

fn struct_size(sizes: &[u32], number: u32) -> u32
    ensures { result ≡ spec.known_size (slice_get sizes.now number) }
{
    match at(sizes, number as usize) {
        Some(words) => *words,
        None => 0,
    }
}

/// The words of a type modulo 2^32, as `sizeof` tells them, where the words of each structure are known so.
#[tactic(auto, using(crate::proofs::KindEquations::sizes_of_kinds))]
pub fn size_of(sizes: &[u32], kind: &CType) -> u32
    ensures { result ≡ spec.size_of sizes.now kind.now }
{
    match kind {
        CType::Void => 0,
        CType::Function(_) => 0,
        CType::Array(element, count) => count.wrapping_mul(size_of(sizes, element.get())),
        CType::Struct(number) => struct_size(sizes, *number),
        CType::Pointer(_) => 1,
        CType::Char => 1,
        CType::Int => 1,
        CType::Unsigned => 1,
        CType::Mutex => 1,
    }
}

/// `sizeof`, once the type of its operand is known. Rule 3 at the whole expression of a function type, rule 10 of an incomplete one
/// (C17 6.5.3.4).
#[tactic(auto, unfolding(type_rules::specs::Access::size, type_rules::specs::Reading::and_then))]
pub fn size(alloc: Global, typing: &Typing, place: u32, kind: &CType) -> Result<Found, Stop>
    ensures { Gives (access.size place kind.now typing.now) result typing.now }
{
    if kind.is_function() {
        return Err(Stop::Fault { number: 3, place });
    }
    if is_incomplete(typing.structures(), kind) {
        return Err(Stop::Fault { number: 10, place });
    }
    let words = size_of(typing.sizes(), kind);
    let unsigned = Boxed::new(alloc, CType::Unsigned)?;
    Ok(found_value(alloc, place, unsigned, Expr::Sizeof(words))?)
}
