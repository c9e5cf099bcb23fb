//! `sizeof`, and the operators before an operand, once the operand is read.

ghost use Rattle.std.specs.Prelude.{◌≡◌};
ghost use Rattle.type_recursion.specs.Lists.{unary_of, size_of_type_name};
ghost use Rattle.typing_state.specs.Answers.{Gives};

use c_tree::UnaryOperator;
use eff_types::CType;
use sqlite_items::Boxed;
use std::alloc::Global;
use type_access::unary;
use type_operands::size;
use type_rules::Found;
use typing_state::{Stop, Typing};

/// What an operator before its operand gives. The operand of `sizeof` isn't evaluated, so the next call site is `sites` again (C17 6.5.3.4).
pub(crate) fn unary_of_found(
    alloc: Global,
    typing: &mut Typing,
    sites: u32,
    place: u32,
    operator: UnaryOperator,
    found: Found,
) -> Result<Found, Stop>
    ensures { Gives (unary_of sites place operator found typing.old) result typing.new }
{
    match operator {
        UnaryOperator::Sizeof => {
            typing.set_sites(sites);
            size(alloc, typing, place, found.kind.get())
        }
        UnaryOperator::Increment => unary(alloc, typing, place, operator, found),
        UnaryOperator::Decrement => unary(alloc, typing, place, operator, found),
        UnaryOperator::Address => unary(alloc, typing, place, operator, found),
        UnaryOperator::Indirection => unary(alloc, typing, place, operator, found),
        UnaryOperator::Plus => unary(alloc, typing, place, operator, found),
        UnaryOperator::Minus => unary(alloc, typing, place, operator, found),
        UnaryOperator::Complement => unary(alloc, typing, place, operator, found),
        UnaryOperator::Not => unary(alloc, typing, place, operator, found),
    }
}

/// What `sizeof` of a type name gives, whose array sizes have no call sites.
pub(crate) fn size_of_named(
    alloc: Global,
    typing: &mut Typing,
    sites: u32,
    place: u32,
    kind: Boxed<CType>,
) -> Result<Found, Stop>
    ensures { Gives (size_of_type_name sites place kind typing.old) result typing.new }
{
    typing.set_sites(sites);
    size(alloc, typing, place, kind.get())
}
