//! Names of functions of the unit and of the library.

ghost use Rattle.std.specs.Prelude.{◌≡◌, slice_get};
ghost use Rattle.std.specs.Option.{option_copied, option_map};
ghost use Rattle.core_unit.specs.Library.{rows, seen};
ghost use Rattle.warning_text.specs.WarningText as spec;

use core_unit::{FIRST_ROW, FunctionInfo, LibRow, Unit, library};

fn function_at(unit: &Unit, number: u32) -> Option<&FunctionInfo>
    ensures { option_copied result ≡ slice_get unit.now.functions number }
{
    unit.parts().functions.as_slice().get(number as usize)
}

fn row_of(rows: &[LibRow], index: usize) -> Option<&LibRow>
    ensures { option_copied result ≡ slice_get rows.now index }
{
    rows.get(index)
}

fn row_at(index: u32) -> Option<&'static LibRow>
    ensures { option_map seen (option_copied result) ≡ slice_get rows index }
{
    row_of(library(), index as usize)
}

/// The name of a function of the unit or of the library, by its target number; empty where there is none.
pub fn name_of(unit: &Unit, target: u32) -> &str
    ensures { result.now ≡ spec.name_of unit.now target }
{
    if target < FIRST_ROW {
        match function_at(unit, target) {
            Some(function) => function.name.as_str(),
            None => "",
        }
    } else {
        match row_at(target - FIRST_ROW) {
            Some(row) => row.name,
            None => "",
        }
    }
}
