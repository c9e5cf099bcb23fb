//! Arguments, and the call itself.

ghost use Rattle.std.specs.Prelude.{◌≡◌, Some};
ghost use Rattle.core_unit.specs.Library as library;
ghost use Rattle.type_calls.specs.Passing.{passed_behind};
ghost use Rattle.type_rules.specs.Calls as spec;
ghost use Rattle.typing_state.specs.Answers.{Gives};

use crate::callees::library_row;
use core_unit::{Expr, callee_of, row_type};
use eff_types::{CType, FnType};
use sqlite_items::{Boxed, Items};
use std::alloc::Global;
use type_operands::{boxed_copy, converted, found_value};
use type_rules::{Found, Operand};
use typing_state::{Stop, Typing};

/// How many functions the library has.
const ROWS: u32 = 15;

/// One argument more, in the type of its parameter, behind those before it. What the conversion refuses.
#[tactic(auto, unfolding(type_rules::specs::Reading::and_then))]
fn passed_next(
    alloc: Global,
    typing: &mut Typing<'_>,
    mut before: Items<Expr>,
    kind: &CType,
    operand: Operand,
) -> Result<Items<Expr>, Stop>
    ensures { Gives (passed_behind before kind.now operand typing.old) result typing.new }
{
    let Operand {
        place: _,
        kind: _,
        node,
    } = converted(alloc, typing, kind, operand)?;
    before.push(node.into_inner())?;
    Ok(before)
}

/// The arguments, each in the type of its parameter, from the left.
fn passed(
    alloc: Global,
    typing: &mut Typing<'_>,
    params: &[CType],
    mut given: Vec<Operand>,
) -> Result<Items<Expr>, Stop>
    ensures { Gives (spec.passed params.now given.items typing.old) result typing.new }
{
    given.reverse();
    let mut arguments = Items::new(alloc);
    'each: for kind in params {
        let Some(operand) = given.pop() else {
            return Ok(arguments);
        };
        arguments = passed_next(alloc, typing, arguments, kind, operand)?;
    }
    Ok(arguments)
}

/// A call of a function of this type. Rule 5 at `place` where it takes another number of arguments; what their conversions refuse.
#[tactic(auto, unfolding(type_rules::specs::Reading::and_then))]
fn called_as(
    alloc: Global,
    typing: &mut Typing<'_>,
    place: u32,
    site: u32,
    callee: Boxed<Expr>,
    given: Vec<Operand>,
    function: &FnType,
) -> Result<Found, Stop>
    ensures { Gives (spec.called_by place site callee given.items (Some function.now) typing.old) result typing.new }
{
    if function.params.len() != given.len() {
        return Err(Stop::Fault { number: 5, place });
    }
    let arguments = passed(alloc, typing, function.params.as_slice(), given)?;
    let kind = boxed_copy(alloc, function.result.get())?;
    Ok(found_value(
        alloc,
        place,
        kind,
        Expr::Call(place, site, callee, arguments),
    )?)
}

/// A call of the library function of this row. Rule 3 at `place` where there is no such row.
#[tactic(auto, using(crate::proofs::Passes::no_row))]
fn library_called(
    alloc: Global,
    typing: &mut Typing<'_>,
    place: u32,
    site: u32,
    callee: Boxed<Expr>,
    given: Vec<Operand>,
    row: u32,
) -> Result<Found, Stop>
    ensures { Gives (spec.called_by place site callee given.items (library.row_type row) typing.old) result typing.new }
{
    if row >= ROWS {
        return Err(Stop::Fault { number: 3, place });
    }
    let function = row_type(alloc, row)?;
    called_as(alloc, typing, place, site, callee, given, &function)
}

/// A call, once callee and arguments were read: what remains of `call`. It is asked whether a function is called (rule 3 at `place`, the first
/// token of the call), then how many arguments it takes (rule 5 there), then of each its conversion.
#[tactic(auto, using(crate::proofs::Passes::named_rows))]
pub fn called(
    alloc: Global,
    typing: &mut Typing<'_>,
    place: u32,
    site: u32,
    callee: Operand,
    given: Vec<Operand>,
) -> Result<Found, Stop>
    ensures { Gives (spec.called place site callee given.items typing.old) result typing.new }
{
    let Operand {
        place: _,
        kind,
        node,
    } = callee;
    if let Some(row) = library_row(node.get()) {
        return library_called(alloc, typing, place, site, node, given, row);
    }
    match callee_of(kind.get()) {
        Some(function) => called_as(alloc, typing, place, site, node, given, function),
        None => Err(Stop::Fault { number: 3, place }),
    }
}
