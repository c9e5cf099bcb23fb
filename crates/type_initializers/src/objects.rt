//! Objects by a single expression.

ghost use Rattle.std.specs.Prelude.{◌≡◌, MatchOption, None, Some};
ghost use Rattle.type_initializers.specs.Parts as parts;
ghost use Rattle.type_rules.specs.Initializers as spec;
ghost use Rattle.type_rules.specs.Recursion as rules;
ghost use Rattle.typing_state.specs.Answers.{Gives};

use crate::scalars::scalar_by;
use crate::texts::{by_other_expression, name_by, text_by};
use c_tree::Expr;
use core_unit::Initializer;
use eff_types::CType;
use sqlite_items::Boxed;
use std::alloc::Global;
use type_operands::{is_char, is_scalar};
use type_recursion::expression;
use typing_state::{Stop, Typing};

/// The size of an array of `char`, if it is one.
#[tactic(auto, using(crate::proofs::ObjectForms::char_rules))]
fn char_array(kind: &CType) -> Option<u32>
    ensures { result ≡ parts.char_array kind.now }
{
    match kind {
        CType::Array(element, size) => {
            if is_char(element.get()) {
                Some(*size)
            } else {
                None
            }
        }
        CType::Pointer(_) => None,
        CType::Function(_) => None,
        CType::Struct(_) => None,
        CType::Void => None,
        CType::Char => None,
        CType::Int => None,
        CType::Unsigned => None,
        CType::Mutex => None,
    }
}

fn is_mutex(kind: &CType) -> bool
    ensures { result ≡ parts.is_mutex kind.now }
{
    matches!(kind, CType::Mutex)
}

#[tactic(auto, using(crate::proofs::ObjectForms::object_rules))]
fn object_by(
    alloc: Global,
    typing: &mut Typing,
    fixed: bool,
    kind: &CType,
    e: &Expr,
) -> Result<Boxed<Initializer>, Stop>
    ensures { Gives (spec.object_by fixed kind.now e.now typing.old) result typing.new }
{
    match e {
        Expr::Text(strings) => {
            let size = char_array(kind);
            text_by(alloc, typing, fixed, size, e, strings.as_slice())
        }
        Expr::Name(at) => name_by(alloc, typing, fixed, is_mutex(kind), e, *at),
        Expr::Number(_) => by_other_expression(alloc, typing, fixed, e),
        Expr::Character(_) => by_other_expression(alloc, typing, fixed, e),
        Expr::Parenthesised(_, _) => by_other_expression(alloc, typing, fixed, e),
        Expr::Index(_, _, _) => by_other_expression(alloc, typing, fixed, e),
        Expr::Call(_, _, _) => by_other_expression(alloc, typing, fixed, e),
        Expr::Access(_, _, _, _) => by_other_expression(alloc, typing, fixed, e),
        Expr::Step(_, _, _) => by_other_expression(alloc, typing, fixed, e),
        Expr::Unary(_, _, _) => by_other_expression(alloc, typing, fixed, e),
        Expr::SizeofType(_, _) => by_other_expression(alloc, typing, fixed, e),
        Expr::Cast(_, _, _) => by_other_expression(alloc, typing, fixed, e),
        Expr::Binary(_, _, _, _, _) => by_other_expression(alloc, typing, fixed, e),
        Expr::Conditional(_, _, _, _) => by_other_expression(alloc, typing, fixed, e),
        Expr::Assignment(_, _, _, _, _) => by_other_expression(alloc, typing, fixed, e),
    }
}

#[tactic(auto, using(crate::proofs::Continued::scalar_rules))]
fn scalar_expression(
    alloc: Global,
    typing: &mut Typing,
    fixed: bool,
    kind: &CType,
    e: &Expr,
) -> Result<Boxed<Initializer>, Stop>
    ensures { Gives (spec.scalar_by fixed kind.now (rules.expression e.now) typing.old) result typing.new }
{
    let found = expression(alloc, typing, e)?;
    scalar_by(alloc, typing, fixed, kind, found)
}

/// An object by an expression that isn't in braces.
#[tactic(auto, unfolding(type_rules::specs::Initializers::by_expression))]
pub(crate) fn by_expression(
    alloc: Global,
    typing: &mut Typing,
    fixed: bool,
    kind: &CType,
    e: &Expr,
) -> Result<Boxed<Initializer>, Stop>
    ensures { Gives (spec.by_expression fixed kind.now e.now typing.old) result typing.new }
{
    if is_scalar(kind) {
        scalar_expression(alloc, typing, fixed, kind, e)
    } else {
        object_by(alloc, typing, fixed, kind, e)
    }
}
