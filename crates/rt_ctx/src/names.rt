//! Functions of the unit and rows of the library, by their numbers.

ghost use Rattle.std.specs.Prelude.{◌≡◌, ◌<◌, slice_get};
ghost use Rattle.std.specs.Option.{option_copied, option_map};
ghost use Rattle.core_unit.specs.Library.{rows, seen};
ghost use Rattle.rt_ctx.specs.Places as places;

use core_unit::{FIRST_ROW, FunctionInfo, LibRow, Unit, library};

/// The function of this number, if the unit has it.
fn function_at(unit: &Unit, number: u32) -> Option<&FunctionInfo>
    ensures { option_copied result ≡ slice_get unit.now.functions number }
{
    unit.parts().functions.as_slice().get(number as usize)
}

/// The row at this index of a table, if there is one.
fn row_of(rows: &[LibRow], index: usize) -> Option<&LibRow>
    ensures { option_copied result ≡ slice_get rows.now index }
{
    rows.get(index)
}

/// The row of the library with this index, if there is one.
fn row_at(index: u32) -> Option<&'static LibRow>
    ensures { option_map seen (option_copied result) ≡ slice_get rows index }
{
    row_of(library(), index as usize)
}

/// The name of a function of the unit or of a row of the library, by its target number; empty where there is none.
pub fn name_of(unit: &Unit, target: u32) -> &str
    ensures { result.now ≡ places.name_of unit.now target }
{
    if target < FIRST_ROW {
        match function_at(unit, target) {
            Some(function) => function.name.as_str(),
            None => "",
        }
    } else {
        match row_at(target - FIRST_ROW) {
            Some(row) => row.name,
            None => "",
        }
    }
}

/// Whether the target is a function that is declared `blocking` or a row that is intercepted.
pub(crate) fn is_blocking(unit: &Unit, target: u32) -> bool
    ensures { result ≡ places.is_blocking unit.now target }
{
    if target < FIRST_ROW {
        match function_at(unit, target) {
            Some(function) => function.kind.effects.no_block_inference,
            None => false,
        }
    } else {
        match row_at(target - FIRST_ROW) {
            Some(row) => row.intercepted,
            None => false,
        }
    }
}
