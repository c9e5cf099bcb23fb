//! The first bytes of what was read.

ghost use Rattle.std.specs.Prelude.{◌≡◌};
ghost use Rattle.c_grammar.specs.Trees.{first_place, place_of, spec_place, specs_place};

use c_tree::{Expr, Span, Spec};

/// The first byte of adjacent strings.
fn first_place(spans: &[Span]) -> u32
    ensures { result ≡ first_place spans.now }
{
    match spans.split_first() {
        None => 0,
        Some((first, _)) => first.start,
    }
}

/// The first byte of an expression.
pub fn place_of(expression: &Expr) -> u32
    ensures { result ≡ place_of expression.now }
{
    match expression {
        Expr::Name(span) => span.start,
        Expr::Number(span) => span.start,
        Expr::Character(span) => span.start,
        Expr::Text(spans) => first_place(spans.as_slice()),
        Expr::Parenthesised(place, _) => *place,
        Expr::Index(place, _, _) => *place,
        Expr::Call(place, _, _) => *place,
        Expr::Access(place, _, _, _) => *place,
        Expr::Step(place, _, _) => *place,
        Expr::Unary(place, _, _) => *place,
        Expr::SizeofType(place, _) => *place,
        Expr::Cast(place, _, _) => *place,
        Expr::Binary(place, _, _, _, _) => *place,
        Expr::Conditional(place, _, _, _) => *place,
        Expr::Assignment(place, _, _, _, _) => *place,
    }
}

/// The first byte of a specifier.
fn spec_place(spec: &Spec) -> u32
    ensures { result ≡ spec_place spec.now }
{
    match spec {
        Spec::Storage(place, _) => *place,
        Spec::Function(place, _) => *place,
        Spec::Qualifier(place, _) => *place,
        Spec::Type(place, _) => *place,
        Spec::TypedefName(name) => name.start,
        Spec::Attribute(attribute) => attribute.place,
        Spec::StructName(place, _) => *place,
        Spec::Struct(place, _, _) => *place,
        Spec::EnumName(place, _) => *place,
        Spec::Enum(place, _, _) => *place,
    }
}

/// The first byte of specifiers; 0 where there are none.
pub fn specs_place(specs: &[Spec]) -> u32
    ensures { result ≡ specs_place specs.now }
{
    match specs.split_first() {
        None => 0,
        Some((first, _)) => spec_place(first),
    }
}
