//! Members of structures (C17 6.5.2.3).

ghost use Rattle.std.specs.Prelude.{◌≡◌, ◌≤◌, IfOk, MatchOption, None, Some, length, slice_get};
ghost use Rattle.std.specs.Str.{bytes_eq};
ghost use Rattle.core_unit.specs.Layout as layout;
ghost use Rattle.core_unit.specs.Shapes.{target_of};
ghost use Rattle.core_unit.specs.declared.expressions.Place.TheVariants as object;
ghost use Rattle.type_access.specs.Structures as structures;
ghost use Rattle.type_rules.specs.Access as spec;
ghost use Rattle.type_rules.specs.Operands as operands;
ghost use Rattle.type_rules.specs.Reading.{gives};
ghost use Rattle.typing_state.specs.Answers.{Gives};

use c_tree::{AccessOperator, Span};
use core_unit::{Expr, MemberInfo, MemberList, Place, StructInfo};
use eff_types::{CType, copy};
use sqlite_items::{Boxed, at};
use std::alloc::{AllocError, Global};
use type_operands::{boxed_copy, found_object, operand, pointed, words_of};
use type_rules::{Form, Found, Operand};
use typing_state::{Stop, Typing};

/// The number of the structure that a type is, if it is one.
fn structure_of(kind: &CType) -> Option<u32>
    ensures { result ≡ structures.structure_of kind.now }
{
    match kind {
        CType::Struct(number) => Some(*number),
        _ => None,
    }
}

/// The number of the structure to which a type points, if it does.
fn target_structure(kind: &CType) -> Option<u32>
    ensures { result ≡ structures.structure_of (target_of kind.now) }
{
    match pointed(kind) {
        Some(target) => structure_of(target),
        None => None,
    }
}

/// The members of a structure, where they are known.
fn known_members(structures: &[StructInfo], number: u32) -> Option<&MemberList>
    ensures { MatchOption result (spec.known_members (slice_get structures.now number) ≡ None) (λ members. spec.known_members (slice_get structures.now number) ≡ Some members.now) }
{
    match at(structures, number as usize) {
        Some(info) => match &info.members {
            Some(members) => Some(members),
            None => None,
        },
        None => None,
    }
}

fn is_named(text: &[u8], member: &MemberInfo) -> bool
    ensures { result ≡ bytes_eq text.now member.now.name }
{
    text == member.name.as_str().as_bytes()
}

/// The index of the first member of this name, or how many there are.
fn index_of(text: &[u8], members: &[MemberInfo]) -> usize
    ensures { result ≡ spec.index_of text.now members.now }
{
    members
        .iter()
        .take_while(|member| !is_named(text, member))
        .count()
}

/// The words of members that stand in order, as far as 32 bits tell them.
fn members_words(structures: &[StructInfo], members: &[MemberInfo]) -> u32
    ensures { result ≡ layout.members_words structures.now members.now }
{
    let mut total: u32 = 0;
    'each: for member in members {
        let words = words_of(structures, &member.kind);
        total = total.saturating_add(words);
    }
    total
}

/// A member of this type, behind so many words of the structure. The one error is that no memory is left.
fn member_at(
    alloc: Global,
    place: u32,
    base: Boxed<Place>,
    offset: u32,
    kind: &CType,
) -> Result<Found, AllocError>
    ensures { IfOk result (λ f. f ≡ operands.found_object place kind.now (object.Member base offset kind.now)) }
{
    let found = boxed_copy(alloc, kind)?;
    let own = copy(alloc, kind)?;
    found_object(alloc, place, found, Place::Member(base, offset, own))
}

/// A member among these. Rule 8 at the name where none has it.
fn member_among(
    alloc: Global,
    typing: &Typing<'_>,
    place: u32,
    base: Boxed<Place>,
    name: Span,
    members: &MemberList,
) -> Result<Found, Stop>
    ensures { Gives (spec.member_of_all place base name typing.now (Some members.now) typing.now) result typing.now }
{
    let index = index_of(typing.text(name), members.as_slice());
    match members.get(index) {
        Some(member) => {
            let before = &members.as_slice()[..index];
            let offset = members_words(typing.structures(), before);
            Ok(member_at(alloc, place, base, offset, &member.kind)?)
        }
        None => Err(Stop::Fault {
            number: 8,
            place: name.start,
        }),
    }
}

/// A member of the structure of this number. Rule 10 at `place` where its members aren't known; rule 8 at the name where none has it.
#[tactic(auto, unfolding(type_rules::specs::Access::member))]
fn member(
    alloc: Global,
    typing: &Typing<'_>,
    place: u32,
    base: Boxed<Place>,
    name: Span,
    number: u32,
) -> Result<Found, Stop>
    ensures { Gives (spec.member place base name number typing.now) result typing.now }
{
    match known_members(typing.structures(), number) {
        Some(members) => member_among(alloc, typing, place, base, name, members),
        None => Err(Stop::Fault { number: 10, place }),
    }
}

/// `.`: of a structure that is designated. Rule 3 at `place` of others.
#[tactic(auto, using(crate::proofs::Parts::object_members))]
fn member_of_object(
    alloc: Global,
    typing: &Typing<'_>,
    place: u32,
    name: Span,
    found: Found,
) -> Result<Found, Stop>
    ensures { Gives (spec.member_of_object place name found.kind found.form typing.now) result typing.now }
{
    let Found {
        place: _,
        kind,
        form,
    } = found;
    let Some(number) = structure_of(kind.get()) else {
        return Err(Stop::Fault { number: 3, place });
    };
    match form {
        Form::Lvalue(base) => member(alloc, typing, place, base, name, number),
        Form::Value(_node) => Err(Stop::Fault { number: 3, place }),
    }
}

/// `->`: of a pointer to a structure. Rule 3 at `place` of others.
#[tactic(auto, using(crate::proofs::Parts::target_members))]
fn member_of_target(
    alloc: Global,
    typing: &Typing<'_>,
    place: u32,
    name: Span,
    pointer: Operand,
) -> Result<Found, Stop>
    ensures { Gives (spec.member_of_target place name pointer.node (target_of pointer.kind) typing.now) result typing.now }
{
    let Some(number) = target_structure(pointer.kind.get()) else {
        return Err(Stop::Fault { number: 3, place });
    };
    let base = Boxed::new(alloc, Place::Arrow(pointer.node, number))?;
    member(alloc, typing, place, base, name, number)
}

/// `->`, of what was read before it.
#[tactic(auto, unfolding(type_rules::specs::Reading::and_then, type_rules::specs::Access::access))]
fn arrow(
    alloc: Global,
    typing: &Typing<'_>,
    place: u32,
    name: Span,
    found: Found,
) -> Result<Found, Stop>
    ensures { Gives (spec.access place AccessOperator.Arrow name (gives found) typing.now) result typing.now }
{
    let pointer = operand(alloc, typing, found)?;
    member_of_target(alloc, typing, place, name, pointer)
}

/// `.` and `->`, once what stands before them was read: what remains of `access`. Rule 3 at `place`, the first token of the access, where that is
/// no structure and no pointer to one, rule 10 there where its members aren't known, and rule 8 at the name where no member has it.
#[tactic(auto, unfolding(type_rules::specs::Access::access, type_rules::specs::Reading::and_then))]
pub fn access(
    alloc: Global,
    typing: &Typing<'_>,
    place: u32,
    operator: AccessOperator,
    name: Span,
    found: Found,
) -> Result<Found, Stop>
    ensures { Gives (spec.access place operator name (gives found) typing.now) result typing.now }
{
    match operator {
        AccessOperator::Dot => member_of_object(alloc, typing, place, name, found),
        AccessOperator::Arrow => arrow(alloc, typing, place, name, found),
    }
}
