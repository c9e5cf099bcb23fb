//! How deep a tree is. Each function walks its part once and takes no memory.

ghost use Rattle.std.specs.Prelude.{◌≡◌, ◌+◌, ◌-◌, ◌^◌, min, max, map};
ghost use Rattle.c_tree.specs.Depth.{saturated, deepest, expr_depth, spec_depth, declarator_depth, optional_depth};
ghost use Rattle.c_tree.specs.Depth.{member_depth, enumerator_depth, type_name_depth, parameters_depth, param_depth};

use crate::expressions::{Declarator, Enumerator, Expr, Member, Param, Parameters, Spec, TypeName};
use sqlite_items::Boxed;

/// One node round what is this deep; 2^32 - 1 stays.
pub fn node(inside: u32) -> u32
    ensures { result ≡ min (inside + 1) (2 ^ 32 - 1) }
{
    inside.saturating_add(1)
}

/// How deep an expression is.
#[cycle(depth)]
#[tactic(auto, using(crate::proofs::Equations::depth_rules))]
pub fn expression(e: &Expr) -> u32
    ensures { result ≡ saturated (expr_depth e.now) }
{
    match e {
        Expr::Name(_) | Expr::Number(_) | Expr::Character(_) | Expr::Text(_) => 1,
        Expr::Parenthesised(_, inner) => node(expression(inner.get())),
        Expr::Index(_, array, index) => node(expression(array.get()).max(expression(index.get()))),
        Expr::Call(_, callee, arguments) => node(expression(callee.get()).max(expressions(
            arguments.as_slice(),
        ))),
        Expr::Access(_, structure, _, _) => node(expression(structure.get())),
        Expr::Step(_, operand, _) => node(expression(operand.get())),
        Expr::Unary(_, _, operand) => node(expression(operand.get())),
        Expr::SizeofType(_, name) => node(type_name(name.get())),
        Expr::Cast(_, name, operand) => node(type_name(name.get()).max(expression(operand.get()))),
        Expr::Binary(_, left, _, _, right) => node(expression(left.get()).max(expression(
            right.get(),
        ))),
        Expr::Conditional(_, condition, then, other) => node(expression(condition.get()).max(
            expression(then.get()).max(expression(other.get())),
        )),
        Expr::Assignment(_, left, _, _, right) => node(expression(left.get()).max(expression(
            right.get(),
        ))),
    }
}

#[cycle(depth)]
#[tactic(auto, using(crate::proofs::Equations::depth_rules))]
fn expressions(all: &[Expr]) -> u32
    ensures { result ≡ saturated (deepest (map expr_depth all.now)) }
{
    let mut depth = 0;
    for e in all {
        depth = depth.max(expression(e));
    }
    depth
}

/// How deep an expression is that may be left out.
#[cycle(depth)]
#[tactic(auto, using(crate::proofs::Equations::depth_rules))]
pub fn written(value: &Option<Boxed<Expr>>) -> u32
    ensures { result ≡ saturated (optional_depth value.now) }
{
    match value {
        None => 0,
        Some(e) => expression(e.get()),
    }
}

#[cycle(depth)]
#[tactic(auto, using(crate::proofs::Equations::depth_rules))]
fn type_name(name: &TypeName) -> u32
    ensures { result ≡ saturated (type_name_depth name.now) }
{
    specifiers(name.specs.as_slice()).max(declarator(name.declarator.get()))
}

/// How deep the deepest of these specifiers is.
#[cycle(depth)]
#[tactic(auto, using(crate::proofs::Equations::depth_rules))]
pub fn specifiers(all: &[Spec]) -> u32
    ensures { result ≡ saturated (deepest (map spec_depth all.now)) }
{
    let mut depth = 0;
    for spec in all {
        depth = depth.max(specifier(spec));
    }
    depth
}

#[cycle(depth)]
#[tactic(auto, using(crate::proofs::Equations::depth_rules))]
fn specifier(spec: &Spec) -> u32
    ensures { result ≡ saturated (spec_depth spec.now) }
{
    match spec {
        Spec::Struct(_, _, lines) => members(lines.as_slice()),
        Spec::Enum(_, _, constants) => enumerators(constants.as_slice()),
        Spec::Storage(_, _)
        | Spec::Function(_, _)
        | Spec::Qualifier(_, _)
        | Spec::Type(_, _)
        | Spec::TypedefName(_)
        | Spec::Attribute(_)
        | Spec::StructName(_, _)
        | Spec::EnumName(_, _) => 0,
    }
}

#[cycle(depth)]
#[tactic(auto, using(crate::proofs::Equations::depth_rules))]
fn members(all: &[Member]) -> u32
    ensures { result ≡ saturated (deepest (map member_depth all.now)) }
{
    let mut depth = 0;
    for member in all {
        let line = specifiers(member.specs.as_slice()).max(declarators(
            member.declarators.as_slice(),
        ));
        depth = depth.max(line);
    }
    depth
}

#[cycle(depth)]
#[tactic(auto, using(crate::proofs::Equations::depth_rules))]
fn enumerators(all: &[Enumerator]) -> u32
    ensures { result ≡ saturated (deepest (map enumerator_depth all.now)) }
{
    let mut depth = 0;
    for enumerator in all {
        depth = depth.max(written(&enumerator.value));
    }
    depth
}

/// How deep a declarator is.
#[cycle(depth)]
#[tactic(auto, using(crate::proofs::Equations::depth_rules))]
pub fn declarator(d: &Declarator) -> u32
    ensures { result ≡ saturated (declarator_depth d.now) }
{
    match d {
        Declarator::Name(_) | Declarator::Absent => 0,
        Declarator::Pointer(_, _, target) => node(declarator(target.get())),
        Declarator::Parenthesised(_, inner) => node(declarator(inner.get())),
        Declarator::Array(element, _, size) => node(declarator(element.get()).max(written(size))),
        Declarator::Function(made, _, list, _) => node(declarator(made.get()).max(parameters(
            list,
        ))),
    }
}

#[cycle(depth)]
#[tactic(auto, using(crate::proofs::Equations::depth_rules))]
fn declarators(all: &[Declarator]) -> u32
    ensures { result ≡ saturated (deepest (map declarator_depth all.now)) }
{
    let mut depth = 0;
    for d in all {
        depth = depth.max(declarator(d));
    }
    depth
}

#[cycle(depth)]
#[tactic(auto, using(crate::proofs::Equations::depth_rules))]
fn parameters(list: &Parameters) -> u32
    ensures { result ≡ saturated (parameters_depth list.now) }
{
    match list {
        Parameters::Empty | Parameters::Void(_) => 0,
        Parameters::List(all) => params(all.as_slice()),
    }
}

#[cycle(depth)]
#[tactic(auto, using(crate::proofs::Equations::depth_rules))]
fn params(all: &[Param]) -> u32
    ensures { result ≡ saturated (deepest (map param_depth all.now)) }
{
    let mut depth = 0;
    for param in all {
        let one = specifiers(param.specs.as_slice()).max(declarator(param.declarator.get()));
        depth = depth.max(one);
    }
    depth
}
