//! The warnings of the typing, in order.

ghost use Rattle.std.specs.Prelude.{◌≡◌, IfOk};
ghost use Rattle.type_units.specs.Answers.{AreInOrder, place_of as the_place};

use sqlite_items::Items;
use std::alloc::{AllocError, Global};
use type_rules::TypeWarning;

/// The place of a warning, as a byte offset.
fn place_of(warning: &TypeWarning) -> u32
    ensures { result ≡ the_place warning.now }
{
    match warning {
        TypeWarning::Conversion { place, level: _ } => *place,
        TypeWarning::Redeclaration { place, level: _ } => *place,
    }
}

/// Warnings in order of place; those at one place keep their order, so what is inside comes first. The one error is that no memory is left.
pub(crate) fn in_order(
    alloc: Global,
    noted: &[TypeWarning],
) -> Result<Items<TypeWarning>, AllocError>
    ensures { IfOk result (λ warnings. AreInOrder noted.now warnings) }
{
    let mut warnings = Vec::from_slice(alloc, noted)?;
    warnings.sort_by_key(|warning| place_of(warning))?;
    Ok(Items::from_vec(warnings))
}
