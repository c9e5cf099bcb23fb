//! Structures and enumerations by their tags (C17 6.7.2.1 to 6.7.2.3).

ghost use Rattle.std.specs.Prelude.{◌≡◌, ◌+◌, ◌%◌, ◌^◌, ◌&&◌, ◌||◌, IfOk, map, sum, Some, None};
ghost use Rattle.core_unit.specs.Layout.{told, members_words as words_of_members};
ghost use Rattle.type_rules.specs.Reading.{Good};
ghost use Rattle.type_rules.specs.Sizes.{size_of as size_of_type};
ghost use Rattle.type_rules.specs.Specifiers as spec;
ghost use Rattle.type_rules.specs.declared.names.Tag.TheVariants as tag;
ghost use Rattle.typing_state.specs.Answers.{Gives};

use crate::specifiers::with_type;
use c_tree::Span;
use core_unit::{MemberInfo, Name, StructInfo};
use eff_types::CType;
use sqlite_items::Items;
use std::alloc::{AllocError, Global};
use type_operands::{size_of, words_of};
use type_rules::{Specifiers, Tag};
use typing_state::{Stop, Typing};

/// A new structure without members: its number. The one error is that no memory is left.
fn new_structure(typing: &mut Typing, tag: Option<Name>) -> Result<u32, AllocError>
    ensures { IfOk result (λ number. spec.new_structure tag typing.old ≡ Good number typing.new) }
{
    typing.add_structure(StructInfo {
        tag,
        members: None,
        words: 0,
    })
}

fn either(a: bool, b: bool) -> bool
    ensures { result ≡ (a || b) }
{
    a || b
}

fn both(a: bool, b: bool) -> bool
    ensures { result ≡ (a && b) }
{
    a && b
}

/// A structure by a tag that is new.
#[tactic(auto, unfolding(type_rules::specs::Reading::and_then))]
fn first_structure(
    alloc: Global,
    typing: &mut Typing,
    name: Span,
    number: u32,
    opens: bool,
) -> Result<u32, Stop>
    ensures { Gives (spec.structure_by name number opens None typing.old) result typing.new }
{
    let text = Name::from_bytes(alloc, typing.text(name))?;
    let structure = new_structure(typing, Some(text))?;
    typing.declare_tag(number, Tag::Structure(structure, opens))?;
    Ok(structure)
}

/// A structure by a tag that names one. Rule 2 at the tag, where it is defined already and a definition begins.
#[tactic(auto, unfolding(type_rules::specs::Reading::and_then))]
fn same_structure(
    typing: &mut Typing,
    name: Span,
    number: u32,
    opens: bool,
    structure: u32,
    opened: bool,
) -> Result<u32, Stop>
    ensures { Gives (spec.structure_by name number opens (Some (tag.Structure structure opened)) typing.old) result typing.new }
{
    if both(opens, opened) {
        return Err(Stop::Fault {
            number: 2,
            place: name.start,
        });
    }
    typing.declare_tag(number, Tag::Structure(structure, either(opens, opened)))?;
    Ok(structure)
}

/// The number of a structure by its tag, new where the tag is; `opens`: its definition begins here. Rule 2 at the tag, where it is
/// defined twice or an enumeration's.
#[tactic(auto, unfolding(type_rules::specs::Specifiers::tagged_structure, type_rules::specs::Reading::and_then))]
fn tagged_structure(
    alloc: Global,
    typing: &mut Typing,
    opens: bool,
    name: Span,
) -> Result<u32, Stop>
    ensures { Gives (spec.tagged_structure opens name typing.old) result typing.new }
{
    let number = typing.name_number(name)?;
    match typing.tag(number) {
        Some(Tag::Structure(structure, opened)) => {
            same_structure(typing, name, number, opens, structure, opened)
        }
        Some(Tag::Enumeration(_)) => Err(Stop::Fault {
            number: 2,
            place: name.start,
        }),
        None => first_structure(alloc, typing, name, number, opens),
    }
}

/// The number of a structure whose definition begins, with its tag where it has one. Rule 2 at the tag, as for a tag that is
/// defined twice.
pub fn opened_structure(alloc: Global, typing: &mut Typing, tag: Option<Span>) -> Result<u32, Stop>
    ensures { Gives (spec.opened_structure tag typing.old) result typing.new }
{
    match tag {
        Some(name) => tagged_structure(alloc, typing, true, name),
        None => Ok(new_structure(typing, None)?),
    }
}

/// `struct tag`. Rule 2 at the tag, where it is an enumeration's.
#[tactic(auto, unfolding(type_rules::specs::Specifiers::structure_name, type_rules::specs::Reading::and_then))]
pub fn structure_name(
    alloc: Global,
    typing: &mut Typing,
    name: Span,
    specifiers: Specifiers,
) -> Result<Specifiers, Stop>
    ensures { Gives (spec.structure_name name specifiers typing.old) result typing.new }
{
    let number = tagged_structure(alloc, typing, false, name)?;
    Ok(with_type(alloc, CType::Struct(number), specifiers)?)
}

fn told_sum(a: u32, b: u32) -> u32
    ensures { result ≡ told (a + b) }
{
    a.saturating_add(b)
}

fn wrapped_sum(a: u32, b: u32) -> u32
    ensures { result ≡ (a + b) % 2 ^ 32 }
{
    a.wrapping_add(b)
}

/// The words of members that stand in order, as far as 32 bits tell them.
fn members_words(structures: &[StructInfo], members: &[MemberInfo]) -> u32
    ensures { result ≡ words_of_members structures.now members.now }
{
    let mut words: u32 = 0;
    'each: for member in members {
        words = told_sum(words, words_of(structures, &member.kind));
    }
    words
}

/// The same modulo 2^32, as `sizeof` tells it.
fn members_size(sizes: &[u32], members: &[MemberInfo]) -> u32
    ensures { result ≡ sum (map (λ m. size_of_type sizes.now m.kind) members.now) % 2 ^ 32 }
{
    let mut size: u32 = 0;
    'each: for member in members {
        size = wrapped_sum(size, size_of(sizes, &member.kind));
    }
    size
}

/// A structure with its members, each at the next word.
#[tactic(auto, unfolding(type_rules::specs::Reading::and_then))]
fn complete(typing: &mut Typing, number: u32, tag: Option<Name>, members: Items<MemberInfo>)
    ensures { spec.completed number tag members typing.old ≡ Good tt typing.new }
{
    let words = members_words(typing.structures(), members.as_slice());
    let size = members_size(typing.sizes(), members.as_slice());
    let structure = StructInfo {
        tag,
        members: Some(members),
        words,
    };
    typing.set_structure(number, structure, size);
}

#[tactic(auto, unfolding(type_rules::specs::Reading::and_then))]
fn tag_spelling(
    alloc: Global,
    typing: &Typing,
    tag: Option<Span>,
) -> Result<Option<Name>, AllocError>
    ensures { IfOk result (λ text. spec.tag_spelling tag typing.now ≡ Good text typing.now) }
{
    match tag {
        Some(name) => Ok(Some(Name::from_bytes(alloc, typing.text(name))?)),
        None => Ok(None),
    }
}

/// `struct tag { members }`, once the members of the structure of this number are read. Rule 10 at `place` where it has none, which the
/// grammar asks already (C17 6.7.2.1).
#[tactic(auto, unfolding(type_rules::specs::Reading::and_then))]
pub fn structure_closed(
    alloc: Global,
    typing: &mut Typing,
    place: u32,
    tag: Option<Span>,
    number: u32,
    members: Items<MemberInfo>,
    specifiers: Specifiers,
) -> Result<Specifiers, Stop>
    ensures { Gives (spec.structure_closed place tag number members specifiers typing.old) result typing.new }
{
    if members.as_slice().is_empty() {
        return Err(Stop::Fault { number: 10, place });
    }
    let text = tag_spelling(alloc, typing, tag)?;
    complete(typing, number, text, members);
    Ok(with_type(alloc, CType::Struct(number), specifiers)?)
}

/// An enumeration by a tag that names one. Rule 2 at the tag, where it is defined already and a definition begins.
#[tactic(auto, unfolding(type_rules::specs::Reading::and_then))]
fn same_enumeration(
    typing: &mut Typing,
    name: Span,
    number: u32,
    opens: bool,
    opened: bool,
) -> Result<(), Stop>
    ensures { Gives (spec.enumeration_by name number opens (Some (tag.Enumeration opened)) typing.old) result typing.new }
{
    if both(opens, opened) {
        return Err(Stop::Fault {
            number: 2,
            place: name.start,
        });
    }
    typing.declare_tag(number, Tag::Enumeration(either(opens, opened)))?;
    Ok(())
}

/// An enumeration by its tag; `opens`: its definition begins here. Rule 2 at the tag, where it is defined twice or a structure's.
#[tactic(auto, unfolding(type_rules::specs::Specifiers::tagged_enumeration, type_rules::specs::Reading::and_then))]
fn tagged_enumeration(typing: &mut Typing, opens: bool, name: Span) -> Result<(), Stop>
    ensures { Gives (spec.tagged_enumeration opens name typing.old) result typing.new }
{
    let number = typing.name_number(name)?;
    match typing.tag(number) {
        Some(Tag::Enumeration(opened)) => same_enumeration(typing, name, number, opens, opened),
        Some(Tag::Structure(_, _)) => Err(Stop::Fault {
            number: 2,
            place: name.start,
        }),
        None => Ok(typing.declare_tag(number, Tag::Enumeration(opens))?),
    }
}

/// An enumeration whose definition begins, with its tag where it has one. Rule 2 at the tag, as for a tag that is defined twice.
pub fn opened_enumeration(typing: &mut Typing, tag: Option<Span>) -> Result<(), Stop>
    ensures { Gives (spec.opened_enumeration tag typing.old) result typing.new }
{
    match tag {
        Some(name) => tagged_enumeration(typing, true, name),
        None => Ok(()),
    }
}

/// `enum tag`, which is `int` (C17 6.7.2.2). Rule 2 at the tag, where it is a structure's.
#[tactic(auto, unfolding(type_rules::specs::Specifiers::enumeration_name, type_rules::specs::Reading::and_then))]
pub fn enumeration_name(
    alloc: Global,
    typing: &mut Typing,
    name: Span,
    specifiers: Specifiers,
) -> Result<Specifiers, Stop>
    ensures { Gives (spec.enumeration_name name specifiers typing.old) result typing.new }
{
    tagged_enumeration(typing, false, name)?;
    Ok(with_type(alloc, CType::Int, specifiers)?)
}
