//! What is called.

ghost use Rattle.std.specs.Prelude.{◌≡◌, IfOk};
ghost use Rattle.type_calls.specs.Rows as rows;
ghost use Rattle.type_rules.specs.Calls as spec;
ghost use Rattle.type_rules.specs.Reading.{gives};
ghost use Rattle.typing_state.specs.Answers.{Gives};

use core_unit::Expr;
use std::alloc::{AllocError, Global};
use type_operands::{as_value, is_whole};
use type_rules::{Form, Found, Operand};
use typing_state::{Stop, Typing};

/// What is called: a function stays one, and of another expression its value is taken. The one error is that no memory is left.
#[tactic(auto, unfolding(type_rules::specs::Calls::callee_in))]
fn callee_in(alloc: Global, found: Found) -> Result<Operand, AllocError>
    ensures { IfOk result (λ o. o ≡ spec.callee_in found.place found.kind found.form found) }
{
    if !found.kind.get().is_function() {
        return as_value(alloc, found);
    }
    let Found { place, kind, form } = found;
    match form {
        Form::Value(node) => Ok(Operand { place, kind, node }),
        Form::Lvalue(object) => {
            let form = Form::Lvalue(object);
            as_value(alloc, Found { place, kind, form })
        }
    }
}

/// What is called, once it was read: what remains of `callee`. Rule 3 at the expression where it is a structure or a mutex.
#[tactic(auto, unfolding(type_rules::specs::Calls::callee, type_rules::specs::Reading::and_then))]
pub fn callee(alloc: Global, typing: &Typing<'_>, found: Found) -> Result<Operand, Stop>
    ensures { Gives (spec.callee (gives found) typing.now) result typing.now }
{
    if is_whole(found.kind.get()) {
        return Err(Stop::Fault {
            number: 3,
            place: found.place,
        });
    }
    Ok(callee_in(alloc, found)?)
}

/// The row of the library function that an expression names, if it names one.
pub(crate) fn library_row(expression: &Expr) -> Option<u32>
    ensures { result ≡ rows.row_named expression.now }
{
    match expression {
        Expr::LibraryFunction(row) => Some(*row),
        _ => None,
    }
}
