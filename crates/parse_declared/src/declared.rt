//! What a declarator tells beside its tree.

ghost use Rattle.std.specs.Prelude.{◌≡◌, map, IfOk};
ghost use Rattle.c_grammar.specs.Declarators.{named, absent, pointer_to, in_group, grouped, array_of, own_names, function_of, no_params};

use crate::parameters::parameters_of;
use c_grammar::Reach;
use c_tree::{Declarator, Expr, Param, PointerQualifier};
use parse_input::Seen;
use parse_specifiers::Attributes;
use sqlite_items::{Boxed, Items};
use std::alloc::{AllocError, Global};
use std::marker::Model;

/// A declarator with its name, the names of the parameters in the list that makes its name a function, and the place
/// of a `[` behind it whose array isn't read yet.
#[derive(Drop)]
pub struct Declared<'a> {
    pub tree: Boxed<Declarator>,
    pub reach: Reach,
    pub name: Option<&'a [u8]>,
    pub own: Items<&'a [u8]>,
    pub bracket: Option<u32>,
}

impl<'a> Model for Declared<'a> {
    ghost use Rattle.std.specs.Prelude.{map};
    ghost use Rattle.c_grammar.specs.Rules.{DeclaratorRead};
    ghost use Rattle.parse_declared.specs.Named.{text_of};
    ghost use Rattle.c_tree.specs.contracts.expressions.Declarator as trees;
    ghost use Rattle.std.specs.Coded.{codes};

    ghost Value = { DeclaratorRead };

    ghost coded = { Prim.hlevel (codes, trees.the_row.coded) };

    ghost view = { λ d. record { tree = d.tree; reach = d.reach; name = text_of d.name; own = map (λ text. text.now) d.own; bracket = d.bracket } };
}

/// How far a declarator in parentheses was read.
fn in_group(reach: Reach) -> Reach
    ensures { result ≡ in_group reach }
{
    match reach {
        Reach::NameAlone => Reach::NameAlone,
        Reach::Nothing => Reach::More,
        Reach::Called => Reach::More,
        Reach::More => Reach::More,
    }
}

/// The names of the parameters in the list that makes the declared name a function.
fn own_names<'a>(reach: Reach, names: Items<&'a [u8]>, before: Items<&'a [u8]>) -> Items<&'a [u8]>
    ensures { map (λ text. text.now) result ≡ own_names reach (map (λ text. text.now) names.entry) (map (λ text. text.now) before.entry) }
{
    match reach {
        Reach::NameAlone => names,
        Reach::Nothing => before,
        Reach::Called => before,
        Reach::More => before,
    }
}

impl<'a> Declared<'a> {
    /// Nothing yet, and perhaps the place of a `[` that was read before.
    pub fn absent(alloc: Global, bracket: Option<u32>) -> Result<Declared<'a>, AllocError>
        ensures { IfOk result (λ x. x ≡ absent bracket) }
    {
        Ok(Declared {
            tree: Boxed::new(alloc, Declarator::Absent)?,
            reach: Reach::Nothing,
            name: None,
            own: Items::new(alloc),
            bracket,
        })
    }

    /// A name.
    pub fn named(alloc: Global, seen: &Seen<'a>) -> Result<Declared<'a>, AllocError>
        ensures { IfOk result (λ x. x ≡ named seen.now) }
    {
        Ok(Declared {
            tree: Boxed::new(alloc, Declarator::Name(seen.span()))?,
            reach: Reach::NameAlone,
            name: Some(seen.text()),
            own: Items::new(alloc),
            bracket: None,
        })
    }

    /// A pointer to what is declared so.
    pub fn pointer_to(
        alloc: Global,
        place: u32,
        qualifiers: Items<PointerQualifier>,
        target: Declared<'a>,
    ) -> Result<Declared<'a>, AllocError>
        ensures { IfOk result (λ x. x ≡ pointer_to place qualifiers target.entry) }
    {
        Ok(Declared {
            tree: Boxed::new(alloc, Declarator::Pointer(place, qualifiers, target.tree))?,
            reach: Reach::More,
            name: target.name,
            own: target.own,
            bracket: None,
        })
    }

    /// What is declared so, in parentheses.
    pub fn grouped(
        alloc: Global,
        place: u32,
        inner: Declared<'a>,
    ) -> Result<Declared<'a>, AllocError>
        ensures { IfOk result (λ x. x ≡ grouped place inner.entry) }
    {
        Ok(Declared {
            tree: Boxed::new(alloc, Declarator::Parenthesised(place, inner.tree))?,
            reach: in_group(inner.reach),
            name: inner.name,
            own: inner.own,
            bracket: None,
        })
    }

    /// An array of what is declared so, perhaps with its size.
    pub fn array_of(
        alloc: Global,
        element: Declared<'a>,
        place: u32,
        size: Option<Boxed<Expr>>,
    ) -> Result<Declared<'a>, AllocError>
        ensures { IfOk result (λ x. x ≡ array_of element.entry place size) }
    {
        Ok(Declared {
            tree: Boxed::new(alloc, Declarator::Array(element.tree, place, size))?,
            reach: Reach::More,
            name: element.name,
            own: element.own,
            bracket: None,
        })
    }

    /// A function that gives what is declared so.
    pub fn function_of(
        alloc: Global,
        given: Declared<'a>,
        place: u32,
        list: ParameterList<'a>,
        attributes: Attributes,
    ) -> Result<Declared<'a>, AllocError>
        ensures { IfOk result (λ x. x ≡ function_of given.entry place list.entry attributes) }
    {
        let given_tree = given.tree;
        let params = parameters_of(list.params);
        let tree = Declarator::Function(given_tree, place, params, attributes.attributes);
        Ok(Declared {
            tree: Boxed::new(alloc, tree)?,
            reach: Reach::Called,
            name: given.name,
            own: own_names(given.reach, list.names, given.own),
            bracket: attributes.bracket,
        })
    }

    /// How far it was read.
    pub fn reach(&self) -> Reach
        ensures { result ≡ self.now.reach }
    {
        self.reach
    }

    /// The place of a `[` behind it whose array isn't read yet.
    pub fn bracket(&self) -> Option<u32>
        ensures { result ≡ self.now.bracket }
    {
        self.bracket
    }
}

/// Parameters with the texts of their names.
#[derive(Drop)]
pub struct ParameterList<'a> {
    pub params: Items<Param>,
    pub names: Items<&'a [u8]>,
}

impl<'a> Model for ParameterList<'a> {
    ghost use Rattle.std.specs.Prelude.{map};
    ghost use Rattle.c_grammar.specs.Rules.{ParamsRead};
    ghost use Rattle.c_tree.specs.contracts.expressions.Param as trees;
    ghost use Rattle.std.specs.Coded.{codes};

    ghost Value = { ParamsRead };

    ghost coded = { Prim.hlevel (codes, trees.the_row.coded) };

    ghost view = { λ p. record { params = p.params; names = map (λ text. text.now) p.names } };
}

impl<'a> ParameterList<'a> {
    /// No parameters.
    pub fn new(alloc: Global) -> ParameterList<'a>
        ensures { result ≡ no_params }
    {
        ParameterList {
            params: Items::new(alloc),
            names: Items::new(alloc),
        }
    }
}
