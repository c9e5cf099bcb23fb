//! The tree is followed: each function reads what its parts give, in the order of the rule that its contract names.

ghost use Rattle.std.specs.Prelude.{◌≡◌, ◌+◌, ◌++◌, ◌∷◌, [], IfOk, OnOk, false, true};
ghost use Rattle.type_recursion.specs.Lists as spec;
ghost use Rattle.type_recursion.specs.Lists.{in_order};
ghost use Rattle.type_recursion.specs.Answers.{GivesInto};
ghost use Rattle.type_rules.specs.Calls as calls;
ghost use Rattle.type_rules.specs.Operands as operands;
ghost use Rattle.type_rules.specs.Reading.{where_written};
ghost use Rattle.type_rules.specs.Recursion as rules;
ghost use Rattle.typing_state.specs.Answers.{Gives};

use crate::operators::{size_of_named, unary_of_found};
use c_tree::{
    AssignmentOperator, Attr, BinaryOperator, Declarator, Enumerator, Expr, Member, Param,
    Parameters, Span, Spec, TypeName,
};
use eff_types::CType;
use sqlite_items::{Boxed, Items};
use std::alloc::{AllocError, Global};
use type_access::{access, assigned_by, element_by, left_side, postfix};
use type_calls::{called, callee, spine};
use type_declarators::{
    array_part, array_size, bare, function_part, parameter, pointer_part, type_name,
};
use type_members::{Members, member, no_members};
use type_operands::{cast_to, character, in_parentheses, name, number, operand, text};
use type_operators::{chosen, operation_on};
use type_rules::{Found, Operand, Parameter, Shape, Specifiers};
use type_specifiers::{
    enumeration_name, enumerator_named, enumerator_valued, no_specifiers, opened_enumeration,
    opened_structure, structure_closed, structure_name, typedef_name, with_attribute,
    with_function_word, with_storage, with_type, with_type_word,
};
use typing_state::{Stop, Typing};

/// An expression. The calls that begin at its first token have their sites from `first` on; `is_called`: a call calls it, parentheses aside.
#[cycle(reading)]
#[tactic(auto, using(crate::proofs::Forms::value_rules))]
fn value(
    alloc: Global,
    typing: &mut Typing,
    is_called: bool,
    first: u32,
    e: &Expr,
) -> Result<Found, Stop>
    ensures { Gives (rules.value is_called first e.now typing.old) result typing.new }
{
    match e {
        Expr::Name(at) => name(alloc, typing, is_called, *at),
        Expr::Number(at) => number(alloc, typing, *at),
        Expr::Character(at) => character(alloc, typing, *at),
        Expr::Text(strings) => text(alloc, typing, strings.as_slice()),
        Expr::Parenthesised(place, inner) => {
            let found = fresh(alloc, typing, is_called, inner.get())?;
            Ok(in_parentheses(*place, found))
        }
        Expr::Index(place, array, index) => {
            let left = left_operand(alloc, typing, first, array.get())?;
            element_behind(alloc, typing, *place, left, index.get())
        }
        Expr::Call(place, function, arguments) => {
            let site = site_of_call(first, function.get())?;
            let function = called_operand(alloc, typing, first, function.get())?;
            call_behind(alloc, typing, *place, site, function, arguments.as_slice())
        }
        Expr::Access(place, structure, operator, at) => {
            let found = value(alloc, typing, false, first, structure.get())?;
            access(alloc, typing, *place, *operator, *at, found)
        }
        Expr::Step(place, inner, operator) => {
            let found = value(alloc, typing, false, first, inner.get())?;
            postfix(alloc, typing, *place, *operator, found)
        }
        Expr::Unary(place, operator, inner) => {
            let sites = typing.sites();
            let found = expression(alloc, typing, inner.get())?;
            unary_of_found(alloc, typing, sites, *place, *operator, found)
        }
        Expr::SizeofType(place, named) => {
            let sites = typing.sites();
            let kind = named_type(alloc, typing, named.get())?;
            size_of_named(alloc, typing, sites, *place, kind)
        }
        Expr::Cast(place, named, inner) => {
            let kind = named_type(alloc, typing, named.get())?;
            cast_behind(alloc, typing, *place, inner.get(), kind)
        }
        Expr::Binary(place, left, operator, _, right) => {
            let left = left_operand(alloc, typing, first, left.get())?;
            operation_behind(alloc, typing, *place, *operator, left, right.get())
        }
        Expr::Conditional(place, test, then, other) => {
            let test = left_operand(alloc, typing, first, test.get())?;
            let left = fresh_operand(alloc, typing, then.get())?;
            choice_behind(alloc, typing, *place, test, left, other.get())
        }
        Expr::Assignment(place, left, operator, _, right) => {
            let left = value(alloc, typing, false, first, left.get())?;
            assignment_behind(alloc, typing, *place, *operator, left, right.get())
        }
    }
}

/// An element, once what stands before its bracket is read.
#[cycle(reading)]
#[tactic(auto, using(crate::proofs::Forms::behind_rules))]
fn element_behind(
    alloc: Global,
    typing: &mut Typing,
    place: u32,
    left: Operand,
    index: &Expr,
) -> Result<Found, Stop>
    ensures { Gives (spec.element_behind place left index.now typing.old) result typing.new }
{
    let right = fresh_operand(alloc, typing, index)?;
    element_by(alloc, typing, place, left, right)
}

/// A call, once what it calls is read.
#[cycle(reading)]
#[tactic(auto, using(crate::proofs::Forms::behind_rules))]
fn call_behind(
    alloc: Global,
    typing: &mut Typing,
    place: u32,
    site: u32,
    callee: Operand,
    arguments: &[Expr],
) -> Result<Found, Stop>
    ensures { Gives (spec.call_behind place site callee arguments.now typing.old) result typing.new }
{
    let mut given = Vec::new(alloc);
    read_arguments(alloc, typing, arguments, &mut given)?;
    called(alloc, typing, place, site, callee, given)
}

/// A cast, once its type is read.
#[cycle(reading)]
#[tactic(auto, using(crate::proofs::Forms::behind_rules))]
fn cast_behind(
    alloc: Global,
    typing: &mut Typing,
    place: u32,
    inner: &Expr,
    kind: Boxed<CType>,
) -> Result<Found, Stop>
    ensures { Gives (spec.cast_behind place kind inner.now typing.old) result typing.new }
{
    let operand = fresh_operand(alloc, typing, inner)?;
    cast_to(alloc, typing, place, kind.get(), operand)
}

/// A binary operation, once its left operand is read.
#[cycle(reading)]
#[tactic(auto, using(crate::proofs::Forms::behind_rules))]
fn operation_behind(
    alloc: Global,
    typing: &mut Typing,
    place: u32,
    operator: BinaryOperator,
    left: Operand,
    right: &Expr,
) -> Result<Found, Stop>
    ensures { Gives (spec.operation_behind place operator left right.now typing.old) result typing.new }
{
    let right = fresh_operand(alloc, typing, right)?;
    operation_on(alloc, typing, place, operator, left, right)
}

/// A choice, once its condition and what stands before the colon are read.
#[cycle(reading)]
#[tactic(auto, using(crate::proofs::Forms::behind_rules))]
fn choice_behind(
    alloc: Global,
    typing: &mut Typing,
    place: u32,
    test: Operand,
    left: Operand,
    other: &Expr,
) -> Result<Found, Stop>
    ensures { Gives (spec.choice_behind place test left other.now typing.old) result typing.new }
{
    let right = fresh_operand(alloc, typing, other)?;
    chosen(alloc, typing, place, test, left, right)
}

/// An assignment, once its left side is read.
#[cycle(reading)]
#[tactic(auto, using(crate::proofs::Forms::behind_rules))]
fn assignment_behind(
    alloc: Global,
    typing: &mut Typing,
    place: u32,
    operator: AssignmentOperator,
    left: Found,
    right: &Expr,
) -> Result<Found, Stop>
    ensures { Gives (spec.assignment_behind place operator left right.now typing.old) result typing.new }
{
    left_side(typing, &left)?;
    right_side(alloc, typing, place, operator, left, right)
}

/// An assignment, once its left side is read and passes.
#[cycle(reading)]
#[tactic(auto, using(crate::proofs::Forms::behind_rules))]
fn right_side(
    alloc: Global,
    typing: &mut Typing,
    place: u32,
    operator: AssignmentOperator,
    left: Found,
    right: &Expr,
) -> Result<Found, Stop>
    ensures { Gives (spec.right_side place operator left right.now typing.old) result typing.new }
{
    let right = fresh_operand(alloc, typing, right)?;
    assigned_by(alloc, typing, place, operator, left, right)
}

/// The site of a call of this expression, where the calls at its first token have their sites from `first` on. One that 32 bits don't number is as
/// want of memory.
fn site_of_call(first: u32, function: &Expr) -> Result<u32, AllocError>
    ensures { IfOk result (λ site. site ≡ first + calls.spine function.now) }
{
    match first.checked_add(spine(function)?) {
        Some(site) => Ok(site),
        None => Err(AllocError),
    }
}

/// An expression that begins where none around it does: the next sites are those of the calls at its first token.
#[cycle(reading)]
#[tactic(auto, using(crate::proofs::Forms::fresh_rules))]
fn fresh(alloc: Global, typing: &mut Typing, is_called: bool, e: &Expr) -> Result<Found, Stop>
    ensures { Gives (spec.fresh_value is_called e.now typing.old) result typing.new }
{
    let calls = spine(e)?;
    let first = typing.number_sites(calls)?;
    value(alloc, typing, is_called, first, e)
}

/// An expression that begins where none around it does.
#[cycle(reading)]
#[tactic(auto, using(crate::proofs::Forms::fresh_rules))]
pub fn expression(alloc: Global, typing: &mut Typing, e: &Expr) -> Result<Found, Stop>
    ensures { Gives (rules.expression e.now typing.old) result typing.new }
{
    fresh(alloc, typing, false, e)
}

/// An operand that begins where the expression around it does.
#[cycle(reading)]
#[tactic(auto, using(crate::proofs::Forms::operand_rules))]
fn left_operand(alloc: Global, typing: &mut Typing, first: u32, e: &Expr) -> Result<Operand, Stop>
    ensures { Gives (operands.operand (rules.value false first e.now) typing.old) result typing.new }
{
    let found = value(alloc, typing, false, first, e)?;
    operand(alloc, typing, found)
}

/// What a call calls.
#[cycle(reading)]
#[tactic(auto, using(crate::proofs::Forms::operand_rules))]
fn called_operand(alloc: Global, typing: &mut Typing, first: u32, e: &Expr) -> Result<Operand, Stop>
    ensures { Gives (calls.callee (rules.value true first e.now) typing.old) result typing.new }
{
    let found = value(alloc, typing, true, first, e)?;
    callee(alloc, typing, found)
}

/// An operand that begins where none around it does.
#[cycle(reading)]
#[tactic(auto, using(crate::proofs::Forms::operand_rules))]
fn fresh_operand(alloc: Global, typing: &mut Typing, e: &Expr) -> Result<Operand, Stop>
    ensures { Gives (operands.operand (rules.expression e.now) typing.old) result typing.new }
{
    let found = expression(alloc, typing, e)?;
    operand(alloc, typing, found)
}

fn add_argument(given: &mut Vec<Operand>, argument: Operand) -> Result<(), AllocError>
    ensures { OnOk result (given.new.items ≡ given.old.items ++ argument ∷ []) }
{
    given.push(argument)?;
    Ok(())
}

/// The arguments of a call, from the left, behind those that are given.
#[cycle(reading)]
fn read_arguments(
    alloc: Global,
    typing: &mut Typing,
    arguments: &[Expr],
    given: &mut Vec<Operand>,
) -> Result<(), Stop>
    ensures { GivesInto (in_order spec.argument arguments.now given.old.items typing.old) result given.new.items typing.new }
{
    'each: for argument in arguments {
        let operand = fresh_operand(alloc, typing, argument)?;
        add_argument(given, operand)?;
    }
    Ok(())
}

/// A type name (C17 6.7.7).
#[cycle(reading)]
#[tactic(auto, using(crate::proofs::Declared::item_rules))]
fn named_type(alloc: Global, typing: &mut Typing, named: &TypeName) -> Result<Boxed<CType>, Stop>
    ensures { Gives (spec.type_of_name named.now typing.old) result typing.new }
{
    let said = specifiers(alloc, typing, named.specs.as_slice(), no_specifiers(alloc))?;
    let shape = declarator(alloc, typing, named.declarator.get())?;
    type_name(alloc, typing, named.place, &said, shape)
}

/// Specifiers, in order, behind those that were read.
#[cycle(reading)]
pub fn specifiers(
    alloc: Global,
    typing: &mut Typing,
    specs: &[Spec],
    before: Specifiers,
) -> Result<Specifiers, Stop>
    ensures { Gives (spec.specifier_list specs.now before typing.old) result typing.new }
{
    let mut said = before;
    'each: for spec in specs {
        said = specifier(alloc, typing, spec, said)?;
    }
    Ok(said)
}

/// One specifier more.
#[cycle(reading)]
#[tactic(auto, using(crate::proofs::Declared::specifier_rules))]
fn specifier(
    alloc: Global,
    typing: &mut Typing,
    spec: &Spec,
    said: Specifiers,
) -> Result<Specifiers, Stop>
    ensures { Gives (rules.specifier spec.now said typing.old) result typing.new }
{
    match spec {
        Spec::Storage(_, word) => Ok(with_storage(*word, said)),
        Spec::Function(_, word) => Ok(with_function_word(*word, said)),
        Spec::Qualifier(_, _) => Ok(said),
        Spec::Type(_, word) => Ok(with_type_word(alloc, *word, said)?),
        Spec::TypedefName(at) => typedef_name(alloc, typing, *at, said),
        Spec::Attribute(attribute) => Ok(with_attribute(alloc, attribute, said)?),
        Spec::StructName(_, at) => structure_name(alloc, typing, *at, said),
        Spec::Struct(place, tag, lines) => {
            let number = opened_structure(alloc, typing, *tag)?;
            structure_behind(alloc, typing, *place, *tag, number, lines.as_slice(), said)
        }
        Spec::EnumName(_, at) => enumeration_name(alloc, typing, *at, said),
        Spec::Enum(_, tag, constants) => {
            opened_enumeration(typing, *tag)?;
            enumerators(alloc, typing, constants.as_slice())?;
            Ok(with_type(alloc, CType::Int, said)?)
        }
    }
}

/// A structure, once its tag is read.
#[cycle(reading)]
#[tactic(auto, using(crate::proofs::Declared::behind_rules))]
fn structure_behind(
    alloc: Global,
    typing: &mut Typing,
    place: u32,
    tag: Option<Span>,
    number: u32,
    lines: &[Member],
    said: Specifiers,
) -> Result<Specifiers, Stop>
    ensures { Gives (spec.structure_behind place tag number lines.now said typing.old) result typing.new }
{
    let members = member_lines(alloc, typing, lines)?;
    let members = members.into_list();
    structure_closed(alloc, typing, place, tag, number, members, said)
}

/// The lines of members of a structure.
#[cycle(reading)]
fn member_lines<'a>(
    alloc: Global,
    typing: &mut Typing<'a>,
    lines: &[Member],
) -> Result<Members<'a>, Stop>
    ensures { Gives (in_order spec.member_line lines.now [] typing.old) result typing.new }
{
    let mut members = no_members(alloc);
    'each: for line in lines {
        members = member_line(alloc, typing, line, members)?;
    }
    Ok(members)
}

/// One line of members more.
#[cycle(reading)]
#[tactic(auto, using(crate::proofs::Declared::item_rules))]
fn member_line<'a>(
    alloc: Global,
    typing: &mut Typing<'a>,
    line: &Member,
    before: Members<'a>,
) -> Result<Members<'a>, Stop>
    ensures { Gives (spec.member_line line.now before.entry typing.old) result typing.new }
{
    let said = specifiers(alloc, typing, line.specs.as_slice(), no_specifiers(alloc))?;
    declared_members(alloc, typing, &said, line.declarators.as_slice(), before)
}

/// The members of a line.
#[cycle(reading)]
fn declared_members<'a>(
    alloc: Global,
    typing: &mut Typing<'a>,
    said: &Specifiers,
    declarators: &[Declarator],
    before: Members<'a>,
) -> Result<Members<'a>, Stop>
    ensures { Gives (in_order (spec.one_member said.now) declarators.now before.entry typing.old) result typing.new }
{
    let mut members = before;
    'each: for one in declarators {
        members = declared_member(alloc, typing, said, one, members)?;
    }
    Ok(members)
}

/// One member more.
#[cycle(reading)]
#[tactic(auto, using(crate::proofs::Declared::item_rules))]
fn declared_member<'a>(
    alloc: Global,
    typing: &mut Typing<'a>,
    said: &Specifiers,
    declared: &Declarator,
    before: Members<'a>,
) -> Result<Members<'a>, Stop>
    ensures { Gives (spec.one_member said.now declared.now before.entry typing.old) result typing.new }
{
    let shape = declarator(alloc, typing, declared)?;
    member(alloc, typing, said, shape, before)
}

/// The enumerators of an enumeration: the value that the next one would have.
#[cycle(reading)]
fn enumerators(
    alloc: Global,
    typing: &mut Typing,
    constants: &[Enumerator],
) -> Result<Option<u32>, Stop>
    ensures { Gives (in_order spec.one_enumerator constants.now (Some 0) typing.old) result typing.new }
{
    let mut next = Some(0);
    'each: for constant in constants {
        next = enumerator(alloc, typing, constant, next)?;
    }
    Ok(next)
}

/// One enumerator more, which has the value `next` where none is written: the value after its own.
#[cycle(reading)]
#[tactic(auto, using(crate::proofs::Declared::item_rules))]
fn enumerator(
    alloc: Global,
    typing: &mut Typing,
    constant: &Enumerator,
    next: Option<u32>,
) -> Result<Option<u32>, Stop>
    ensures { Gives (spec.one_enumerator constant.now next typing.old) result typing.new }
{
    let number = enumerator_named(typing, constant.name)?;
    let found = written(alloc, typing, &constant.value)?;
    enumerator_valued(alloc, typing, constant.name, number, found, next)
}

/// An array's size or an enumerator's value, where it is written.
#[cycle(reading)]
#[tactic(auto, using(crate::proofs::Continued::written_rules))]
fn written(
    alloc: Global,
    typing: &mut Typing,
    e: &Option<Boxed<Expr>>,
) -> Result<Option<Found>, Stop>
    ensures { Gives (where_written e.now rules.expression typing.old) result typing.new }
{
    match e {
        None => Ok(None),
        Some(e) => {
            let found = expression(alloc, typing, e.get())?;
            Ok(Some(found))
        }
    }
}

/// A declarator (C17 6.7.6): its name, and what stands around it.
#[cycle(reading)]
#[tactic(auto, using(crate::proofs::Declared::declarator_rules))]
pub fn declarator(alloc: Global, typing: &mut Typing, declared: &Declarator) -> Result<Shape, Stop>
    ensures { Gives (rules.declarator declared.now typing.old) result typing.new }
{
    match declared {
        Declarator::Name(at) => Ok(bare(alloc, Some(*at))),
        Declarator::Absent => Ok(bare(alloc, None)),
        Declarator::Pointer(_, _, target) => {
            let shape = declarator(alloc, typing, target.get())?;
            Ok(pointer_part(shape)?)
        }
        Declarator::Parenthesised(_, inner) => declarator(alloc, typing, inner.get()),
        Declarator::Array(element, _, size) => {
            let shape = declarator(alloc, typing, element.get())?;
            array_behind(alloc, typing, shape, size)
        }
        Declarator::Function(made, _, list, attributes) => {
            let shape = declarator(alloc, typing, made.get())?;
            function_behind(alloc, typing, shape, list, attributes.as_slice())
        }
    }
}

/// The size of an array; 0 where none is written.
#[cycle(reading)]
#[tactic(auto, using(crate::proofs::Declared::behind_rules))]
fn written_size(alloc: Global, typing: &mut Typing, size: &Option<Boxed<Expr>>) -> Result<u32, Stop>
    ensures { Gives (spec.written_size size.now typing.old) result typing.new }
{
    let found = written(alloc, typing, size)?;
    array_size(alloc, typing, found)
}

/// The declarator of an array, once what stands before its bracket is read.
#[cycle(reading)]
#[tactic(auto, using(crate::proofs::Declared::behind_rules))]
fn array_behind(
    alloc: Global,
    typing: &mut Typing,
    element: Shape,
    size: &Option<Boxed<Expr>>,
) -> Result<Shape, Stop>
    ensures { Gives (spec.array_behind element size.now typing.old) result typing.new }
{
    let size = written_size(alloc, typing, size)?;
    Ok(array_part(element, size)?)
}

/// The declarator of a function, once what stands before its parentheses is read.
#[cycle(reading)]
#[tactic(auto, using(crate::proofs::Declared::behind_rules))]
fn function_behind(
    alloc: Global,
    typing: &mut Typing,
    made: Shape,
    list: &Parameters,
    attributes: &[Attr],
) -> Result<Shape, Stop>
    ensures { Gives (spec.function_behind made list.now attributes.now typing.old) result typing.new }
{
    typing.enter()?;
    let all = parameters(alloc, typing, list)?;
    typing.leave();
    Ok(function_part(alloc, made, all, attributes)?)
}

/// What stands between the parentheses of a function declarator.
#[cycle(reading)]
#[tactic(auto, using(crate::proofs::Declared::declarator_rules))]
fn parameters(
    alloc: Global,
    typing: &mut Typing,
    list: &Parameters,
) -> Result<Items<Parameter>, Stop>
    ensures { Gives (rules.parameter_list list.now typing.old) result typing.new }
{
    match list {
        Parameters::Empty => Ok(Items::new(alloc)),
        Parameters::Void(_) => Ok(Items::new(alloc)),
        Parameters::List(all) => parameter_list(alloc, typing, all.as_slice()),
    }
}

#[cycle(reading)]
fn parameter_list(
    alloc: Global,
    typing: &mut Typing,
    all: &[Param],
) -> Result<Items<Parameter>, Stop>
    ensures { Gives (in_order spec.one_parameter all.now [] typing.old) result typing.new }
{
    let mut before = Items::new(alloc);
    'each: for one in all {
        before = declared_parameter(alloc, typing, one, before)?;
    }
    Ok(before)
}

/// One parameter more.
#[cycle(reading)]
#[tactic(auto, using(crate::proofs::Declared::item_rules))]
fn declared_parameter(
    alloc: Global,
    typing: &mut Typing,
    one: &Param,
    before: Items<Parameter>,
) -> Result<Items<Parameter>, Stop>
    ensures { Gives (spec.one_parameter one.now before typing.old) result typing.new }
{
    let said = specifiers(alloc, typing, one.specs.as_slice(), no_specifiers(alloc))?;
    let shape = declarator(alloc, typing, one.declarator.get())?;
    parameter(alloc, typing, one.place, &said, shape, before)
}
