//! How many nodes an expression has, as far as 32 bits tell it.

ghost use Rattle.std.specs.Prelude.{◌≡◌, ℕ, ◌+◌};
ghost use Rattle.core_unit.specs.Layout.{told};
ghost use Rattle.core_unit.specs.Nodes as spec;
ghost use Rattle.core_unit.specs.Typing.{place_type};

use crate::expressions::{Expr, Place};
use crate::operators::{Sign, Update};
use eff_types::CType;

/// The sum, as far as 32 bits tell it.
#[tactic(auto, using(crate::proofs::Sums::told_sum))]
pub(crate) fn sum(a: u32, b: u32) -> u32
    ensures { (m n : ℕ) → a ≡ told m → b ≡ told n → result ≡ told (m + n) }
{
    a.saturating_add(b)
}

/// Those of a compound assignment to a place of this type.
fn conversions(kind: &CType, sign: Sign) -> u32
    ensures { result ≡ spec.conversions kind.now sign }
{
    match (kind, sign) {
        (CType::Char, Sign::Signed) => 2,
        (CType::Char, Sign::Unsigned) => 3,
        (CType::Int, Sign::Unsigned) => 2,
        _ => 0,
    }
}

#[tactic(auto, using(crate::proofs::Sums::none_of_an_aggregate))]
fn update_nodes(place: &Place, update: Update) -> u32
    ensures { result ≡ spec.update_nodes (place_type place.now) update }
{
    match update {
        Update::Arithmetic(_, sign) => match place.kept_type() {
            Some(kind) => conversions(kind, sign),
            None => 0,
        },
        Update::Forward(_) => 0,
        Update::Backward(_) => 0,
    }
}

#[cycle(counting)]
#[tactic(auto, using(crate::proofs::Equations::node_rules, crate::proofs::Sums::small))]
fn place_nodes(place: &Place) -> u32
    ensures { result ≡ told (spec.place_nodes place.now) }
{
    match place {
        Place::Variable(_, _, _) => 1,
        Place::Text(_, _) => 1,
        Place::Indirection(pointer, _) => sum(1, nodes(pointer.get())),
        Place::Arrow(pointer, _) => nodes(pointer.get()),
        Place::Element(left, right, _, _, _) => {
            sum(sum(1, nodes(left.get())), nodes(right.get()))
        }
        Place::Member(whole, _, _) => sum(1, place_nodes(whole.get())),
    }
}

/// The nodes of an expression, or 2^32 - 1 where there are more.
#[cycle(counting)]
#[tactic(auto, using(crate::proofs::Equations::node_rules, crate::proofs::Sums::small))]
pub fn nodes(expression: &Expr) -> u32
    ensures { result ≡ told (spec.nodes expression.now) }
{
    match expression {
        Expr::Number(_, _) => 1,
        Expr::Null => 1,
        Expr::Sizeof(_) => 1,
        Expr::Function(_, _) => 1,
        Expr::LibraryFunction(_) => 1,
        Expr::TargetFunction(e) => sum(1, nodes(e.get())),
        Expr::FunctionPointer(e) => sum(1, nodes(e.get())),
        Expr::ArrayPointer(place) => sum(1, place_nodes(place.get())),
        Expr::AddressOf(place) => sum(1, place_nodes(place.get())),
        Expr::Load(place) => place_nodes(place.get()),
        Expr::Assign(place, e) => sum(sum(1, place_nodes(place.get())), nodes(e.get())),
        Expr::Compound(place, update, e) => {
            let operator = sum(1, update_nodes(place.get(), *update));
            sum(sum(operator, place_nodes(place.get())), nodes(e.get()))
        }
        Expr::Step(place, _, _) => sum(1, place_nodes(place.get())),
        Expr::Unary(_, e) => sum(1, nodes(e.get())),
        Expr::Binary(_, a, b) => sum(sum(1, nodes(a.get())), nodes(b.get())),
        Expr::Logical(_, a, b) => sum(sum(1, nodes(a.get())), nodes(b.get())),
        Expr::Conditional(c, a, b) => {
            sum(sum(sum(1, nodes(c.get())), nodes(a.get())), nodes(b.get()))
        }
        Expr::Comma(a, b) => sum(sum(1, nodes(a.get())), nodes(b.get())),
        Expr::Call(_, _, callee, arguments) => {
            sum(sum(1, nodes(callee.get())), all_nodes(arguments.as_slice()))
        }
        Expr::Convert(_, _, e) => sum(1, nodes(e.get())),
        Expr::Discard(e) => sum(1, nodes(e.get())),
    }
}

#[cycle(counting)]
fn all_nodes(expressions: &[Expr]) -> u32
    ensures { result ≡ told (spec.arguments_nodes expressions.now) }
{
    let mut total = 0;
    'each: for expression in expressions {
        total = sum(total, nodes(expression));
    }
    total
}
