//! Members of a structure (C17 6.7.2.1).

ghost use Rattle.std.specs.Prelude.{◌≡◌, ◌||◌, false, [], ◌∷◌, ◌++◌, Some, IfOk};
ghost use Rattle.type_members.specs.Listed.{names_of, is_member};
ghost use Rattle.type_rules.specs.Declarators as spec;
ghost use Rattle.type_rules.specs.Reading.{gives};
ghost use Rattle.typing_state.specs.Answers.{Gives};

use c_tree::Span;
use core_unit::{MemberInfo, Name};
use scopes::Names;
use sqlite_items::Items;
use std::alloc::{AllocError, Global};
use std::marker::Model;
use type_declarators::{anchor, faults, made};
use type_operands::is_incomplete;
use type_rules::{Made, Shape, Specifiers};
use typing_state::{Stop, Typing};

/// The members of a structure so far, with a map of their names.
#[derive(Drop)]
pub struct Members<'a> {
    list: Items<MemberInfo>,
    names: Names<'a>,
}

impl<'a> Model for Members<'a> {
    ghost use Rattle.std.specs.Prelude.{◌≡◌, List, map};
    ghost use Rattle.std.specs.Coded.{coded_list, codes};
    ghost use Rattle.core_unit.specs.contracts.tables.MemberInfo as a_member;
    ghost use Rattle.core_unit.specs.declared.tables.MemberInfo.{MemberInfo};

    ghost Value = { List MemberInfo };

    ghost coded = { coded_list (Prim.hlevel (codes, a_member.the_row.coded)) };

    ghost view = { λ m. m.list };

    ghost invariant = { λ m. m.names ≡ map (λ member. member.name) m.list };
}

impl<'a> Members<'a> {
    /// The members as a list.
    pub fn into_list(self) -> Items<MemberInfo>
        ensures { result ≡ self.entry }
    {
        let Members { list, names: _ } = self;
        list
    }
}

/// No member was read.
pub fn no_members<'a>(alloc: Global) -> Members<'a>
    ensures { result ≡ [] }
{
    Members {
        list: Items::new(alloc),
        names: Names::new(alloc),
    }
}

fn either(a: bool, b: bool) -> bool
    ensures { result ≡ (a || b) }
{
    a || b
}

/// Notes the name of a member behind those of others: whether one of them has it. The one error is that no memory is left.
fn note<'a>(
    names: &mut Names<'a>,
    others: &[MemberInfo],
    text: &'a [u8],
) -> Result<bool, AllocError>
    requires { names.old ≡ names_of others.now }
    ensures known { IfOk result (λ redefined. redefined ≡ is_member text.now others.now) }
    ensures noted { IfOk result (λ redefined. redefined ≡ false → names.new ≡ names_of others.now ++ text.now ∷ []) }
{
    let number = names.number(text)?;
    Ok((number as usize) < others.len())
}

/// A member with a name, behind those before it. Rule 2 at the name, where another member has it, 3, where it is a function, and 10,
/// where its type is incomplete.
#[tactic(auto, unfolding(type_rules::specs::Reading::and_then))]
fn named_member<'a>(
    alloc: Global,
    typing: &Typing<'a>,
    name: Span,
    made: Made,
    before: Members<'a>,
) -> Result<Members<'a>, Stop>
    ensures { Gives (spec.member_declared (Some name) made before.entry typing.now) result typing.now }
{
    let Members { list, names } = before;
    let mut list = list;
    let mut names = names;
    let text = typing.text(name);
    if note(&mut names, list.as_slice(), text)? {
        return Err(Stop::Fault {
            number: 2,
            place: made.place,
        });
    }
    let mistyped = either(
        either(made.mistyped, made.noreturn),
        made.kind.get().is_function(),
    );
    let incomplete = either(
        made.incomplete,
        is_incomplete(typing.structures(), made.kind.get()),
    );
    faults(
        typing,
        false,
        mistyped,
        made.conflicting,
        incomplete,
        made.place,
    )?;
    list.push(MemberInfo {
        name: Name::from_bytes(alloc, text)?,
        kind: made.kind.into_inner(),
    })?;
    Ok(Members { list, names })
}

/// A member behind those before it, once its declarator is read. Rules 2, 3, 4 and 10 at its name; without a name it adds nothing.
#[tactic(auto, unfolding(type_rules::specs::Declarators::member, type_rules::specs::Reading::and_then))]
pub fn member<'a>(
    alloc: Global,
    typing: &Typing<'a>,
    specifiers: &Specifiers,
    declarator: Shape,
    before: Members<'a>,
) -> Result<Members<'a>, Stop>
    ensures { Gives (spec.member specifiers.now (gives declarator) before.entry typing.now) result typing.now }
{
    let Some(name) = declarator.name else {
        return Ok(before);
    };
    let place = anchor(&declarator, 0);
    let made = made(alloc, typing.structures(), specifiers, declarator, place)?;
    named_member(alloc, typing, name, made, before)
}
