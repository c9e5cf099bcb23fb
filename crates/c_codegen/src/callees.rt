// What calls call, and with how many arguments.

ghost use Rattle.std.specs.Prelude.{◌≡◌, IfOk, length};
ghost use Rattle.core_unit.specs.Library.{row_type as type_of_row};
ghost use Rattle.core_unit.specs.Typing as typing;
ghost use Rattle.src_model.specs.Source.{count_of};
ghost use Rattle.c_codegen.specs.Lies.{arguments_of};
ghost use Rattle.c_codegen.specs.Called.{IsCalled};

use core_unit::{Expr, callee_of, row_type};
use eff_types::CType;
use std::alloc::{AllocError, Global};
use unit_spots::type_of;

/// What a call calls: a function of the unit, a library function, or what its value tells.
#[derive(Clone, Copy)]
pub enum Called {
    Named(u32),
    Row(u32),
    Through,
}

// What a call of this callee calls.
#[tactic(auto, using(crate::proofs::Through::called_through))]
pub fn kind_of_callee(callee: &Expr) -> Called
    ensures { IsCalled callee.now result }
{
    match callee {
        Expr::Function(function, _) => Called::Named(*function),
        Expr::LibraryFunction(row) => Called::Row(*row),
        _ => Called::Through,
    }
}

// How many types there are. The one error is that they are more than 32 bits tell, of which memory holds none.
fn count(types: &[CType]) -> Result<u32, AllocError>
    ensures { IfOk result (λ n. n ≡ length types.now) }
{
    match u32::try_from(types.len()) {
        Ok(count) => Ok(count),
        Err(_) => Err(AllocError),
    }
}

// With how many arguments the library function of a row is called.
#[tactic(auto, using(crate::proofs::Through::no_row))]
pub fn row_count(alloc: Global, row: u32) -> Result<u32, AllocError>
    ensures { IfOk result (λ n. n ≡ count_of (type_of_row row)) }
{
    if row < 15 {
        let function = row_type(alloc, row)?;
        count(function.params.as_slice())
    } else {
        Ok(0)
    }
}

// With how many arguments the callee, which is no name, is called.
pub fn through_count(alloc: Global, callee: &Expr) -> Result<u32, AllocError>
    ensures { IfOk result (λ n. n ≡ arguments_of (typing.type_of callee.now)) }
{
    let kind = type_of(alloc, callee)?;
    match callee_of(kind.get()) {
        Some(function) => count(function.params.as_slice()),
        None => Ok(0),
    }
}
