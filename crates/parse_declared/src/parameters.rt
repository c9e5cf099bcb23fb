//! Parameters (C17 6.7.6.3) and type names (6.7.7), of what was read of them.

ghost use Rattle.std.specs.Prelude.{◌≡◌, max, IfOk, IfErr, OnOk};
ghost use Rattle.c_grammar.specs.Trees.{specs_place};
ghost use Rattle.c_grammar.specs.Specifiers.{after};
ghost use Rattle.c_grammar.specs.Declarators.{parameters_of, param, join, hide};
ghost use Rattle.parse_input.specs.Input.{with_scope};
ghost use Rattle.parse_input.specs.declared.read.Refusal.TheVariants.{NoMemory};
ghost use Rattle.parse_declared.specs.Named.{text_of};
ghost use Rattle.parse_declared.specs.Parameters.{is_absent, lone_void, listed, with_param};

use crate::declared::{Declared, ParameterList};
use c_grammar::Bracket;
use c_tree::{Declarator, Param, Parameters, Spec, TypeName, TypeWord};
use parse_input::{Input, Read, Refusal, specs_place};
use sqlite_items::{Boxed, Items};
use std::alloc::{AllocError, Global};
use std::marker::Model;

/// Whether nothing is declared.
fn is_absent(declarator: &Declarator) -> bool
    ensures { result ≡ is_absent declarator.now }
{
    matches!(declarator, Declarator::Absent)
}

/// The place of the one word `void`, where these specifiers are it.
fn lone_void(specs: &[Spec]) -> Option<u32>
    ensures { result ≡ lone_void specs.now }
{
    let (first, more) = specs.split_first()?;
    if !more.is_empty() {
        return None;
    }
    match first {
        Spec::Type(place, TypeWord::Void) => Some(*place),
        _ => None,
    }
}

/// The place of the one word `void`, where this is all that the parameters are.
fn void_alone(params: &[Param]) -> Option<u32>
    ensures { parameters_of params.now ≡ listed result params.now }
{
    let (first, more) = params.split_first()?;
    if !more.is_empty() || !is_absent(first.declarator.get()) {
        return None;
    }
    lone_void(first.specs.as_slice())
}

/// What stands between the parentheses of a function declarator.
pub fn parameters_of(params: Items<Param>) -> Parameters
    ensures { result ≡ parameters_of params }
{
    match void_alone(params.as_slice()) {
        Some(place) => Parameters::Void(place),
        None => {
            if params.is_empty() {
                return Parameters::Empty;
            }
            Parameters::List(params)
        }
    }
}

/// What the specifiers tell of a `[` at the front of the declarator behind them.
pub fn after(bracket: Option<u32>) -> Bracket
    ensures { result ≡ after bracket }
{
    match bracket {
        None => Bracket::Passed,
        Some(place) => Bracket::Opened(place),
    }
}

/// A parameter with the text of its name.
#[derive(Drop)]
pub struct NamedParam<'a> {
    param: Param,
    name: Option<&'a [u8]>,
}

impl<'a> Model for NamedParam<'a> {
    ghost use Rattle.c_tree.specs.contracts.expressions.Param as trees;
    ghost use Rattle.std.specs.Coded.{codes};
    ghost use Rattle.parse_declared.specs.Named.{text_of};
    ghost use Rattle.parse_declared.specs.Parameters.{ParamRead};

    ghost Value = { ParamRead };

    ghost coded = { Prim.hlevel (codes, trees.the_row.coded) };

    ghost view = { λ p. record { param = p.param; name = text_of p.name } };
}

/// A parameter by its specifiers and its declarator.
pub fn parameter<'a>(specs: Items<Spec>, declared: Declared<'a>) -> NamedParam<'a>
    ensures { result ≡ record { param = param specs declared.entry; name = declared.entry.name } }
{
    NamedParam {
        param: Param {
            place: specs_place(specs.as_slice()),
            specs,
            declarator: declared.tree,
        },
        name: declared.name,
    }
}

/// A type name by its specifiers and its declarator.
pub fn type_name_of(
    alloc: Global,
    specs: Items<Spec>,
    declared: Declared<'_>,
) -> Result<Boxed<TypeName>, AllocError>
    ensures { IfOk result (λ name. name ≡ record { place = specs_place specs; specs = specs; declarator = declared.entry.tree }) }
{
    Boxed::new(
        alloc,
        TypeName {
            place: specs_place(specs.as_slice()),
            specs,
            declarator: declared.tree,
        },
    )
}

/// All of these specifiers.
#[tactic(auto, using(crate::proofs::Lists::join_append))]
pub fn join(mut before: Items<Spec>, specs: Items<Spec>) -> Result<Items<Spec>, AllocError>
    ensures { IfOk result (λ all. all ≡ join before specs) }
{
    before.append(specs)?;
    Ok(before)
}

impl<'a> NamedParam<'a> {
    /// Its name, where it has one.
    pub fn name(&self) -> Option<&'a [u8]>
        ensures { text_of result ≡ self.now.name }
    {
        self.name
    }
}

/// The parameters with one more.
#[tactic(auto, using(crate::proofs::Lists::map_one))]
fn with_param<'a>(
    list: ParameterList<'a>,
    more: NamedParam<'a>,
) -> Result<ParameterList<'a>, AllocError>
    ensures { IfOk result (λ all. all ≡ with_param list.entry more.entry) }
{
    let ParameterList {
        mut params,
        mut names,
    } = list;
    params.push(more.param)?;
    if let Some(name) = more.name {
        names.push(name)?;
    }
    Ok(ParameterList { params, names })
}

/// The parameters that were read, with one more.
pub fn one_more<'a>(
    list: Read<ParameterList<'a>>,
    more: Read<NamedParam<'a>>,
) -> Result<Read<ParameterList<'a>>, AllocError>
    ensures value { IfOk result (λ all. all.value ≡ with_param list.entry.value more.entry.value) }
    ensures depth { IfOk result (λ all. all.depth ≡ max list.entry.depth more.entry.depth) }
{
    let before = list.depth;
    let inner = more.depth;
    let depth = before.max(inner);
    Ok(Read {
        value: with_param(list.value, more.value)?,
        depth,
    })
}

/// A name of a parameter is no typedef name from here on.
pub fn hide<'a>(name: Option<&'a [u8]>, input: &mut Input<'a>) -> Result<(), Refusal>
    ensures hidden { OnOk result (input.new ≡ with_scope input.old (hide (text_of name.entry) input.old.scope)) }
    ensures memory { IfErr result (λ refusal. refusal ≡ NoMemory) }
{
    match name {
        None => Ok(()),
        Some(text) => input.hide(text),
    }
}
