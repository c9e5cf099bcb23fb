//! Copies of types. The one error is that no memory is left.

ghost use Rattle.std.specs.Prelude.{◌≡◌, IfOk};

use eff_types::{CType, FnType, TypeList, copy};
use sqlite_items::{Boxed, Items};
use std::alloc::{AllocError, Global};

/// A copy of a type, in a box.
pub fn boxed_copy(alloc: Global, kind: &CType) -> Result<Boxed<CType>, AllocError>
    ensures { IfOk result (λ t. t ≡ kind.now) }
{
    Boxed::new(alloc, copy(alloc, kind)?)
}

fn copy_list(alloc: Global, kinds: &[CType]) -> Result<TypeList, AllocError>
    ensures { IfOk result (λ ts. ts ≡ kinds.now) }
{
    let mut copies = Items::new(alloc);
    'each: for kind in kinds {
        copies.push(copy(alloc, kind)?)?;
    }
    Ok(copies)
}

/// A copy of a function type.
pub fn copy_function(alloc: Global, kind: &FnType) -> Result<FnType, AllocError>
    ensures { IfOk result (λ f. f ≡ kind.now) }
{
    Ok(FnType {
        result: boxed_copy(alloc, kind.result.get())?,
        params: copy_list(alloc, kind.params.as_slice())?,
        effects: kind.effects,
    })
}
