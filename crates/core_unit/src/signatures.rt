//! The types of the library's functions.

ghost use Rattle.std.specs.Prelude.{◌≡◌, ◌<◌, ◌++◌, Some, IfOk, map};
ghost use Rattle.core_unit.specs.Library.{row_type as type_of_row};
ghost use Rattle.core_unit.specs.Library as spec;
ghost use Rattle.core_unit.specs.Shapes.{pointer_to};

use eff_types::{CType, Effects, FnType, Level, TypeList};
use sqlite_items::{Boxed, Items};
use std::alloc::{AllocError, Global};

/// A type in the signature of a library function.
#[derive(Clone, Copy)]
enum LibType {
    Void,
    Int,
    Unsigned,
    VoidPointer,
    CharPointer,
    UnsignedPointer,
    MutexPointer,
    VoidPointerPointer,
    /// `void *(*)(void *)`.
    ThreadStart,
}

/// The result and the parameters of a library function.
struct Signature {
    result: LibType,
    params: &'static [LibType],
}

static SIGNATURES: [Signature; 15] = [
    Signature {
        result: LibType::VoidPointer,
        params: &[LibType::Unsigned],
    },
    Signature {
        result: LibType::VoidPointer,
        params: &[LibType::Unsigned, LibType::Unsigned],
    },
    Signature {
        result: LibType::Void,
        params: &[LibType::VoidPointer],
    },
    Signature {
        result: LibType::Int,
        params: &[
            LibType::UnsignedPointer,
            LibType::VoidPointer,
            LibType::ThreadStart,
            LibType::VoidPointer,
        ],
    },
    Signature {
        result: LibType::Int,
        params: &[LibType::Unsigned, LibType::VoidPointerPointer],
    },
    Signature {
        result: LibType::Int,
        params: &[LibType::MutexPointer],
    },
    Signature {
        result: LibType::Int,
        params: &[LibType::MutexPointer],
    },
    Signature {
        result: LibType::Int,
        params: &[LibType::Unsigned],
    },
    Signature {
        result: LibType::Int,
        params: &[LibType::CharPointer],
    },
    Signature {
        result: LibType::Int,
        params: &[LibType::Int],
    },
    Signature {
        result: LibType::Int,
        params: &[LibType::Int],
    },
    Signature {
        result: LibType::Void,
        params: &[],
    },
    Signature {
        result: LibType::Void,
        params: &[],
    },
    Signature {
        result: LibType::Void,
        params: &[LibType::Int],
    },
    Signature {
        result: LibType::Void,
        params: &[],
    },
];

#[tactic(auto, using(crate::proofs::Signed::pointer_is))]
fn pointer(alloc: Global, target: CType) -> Result<CType, AllocError>
    ensures { IfOk result (λ t. t ≡ pointer_to target) }
{
    Ok(CType::Pointer(Boxed::new(alloc, target)?))
}

/// A type without effects.
fn function(given: Boxed<CType>, params: TypeList) -> FnType
    ensures { result ≡ spec.takes given params }
{
    FnType {
        result: given,
        params,
        effects: Effects {
            level: Level::Plain,
            no_block_inference: false,
            no_alloc_inference: false,
        },
    }
}

/// `void *(void *)`, what a thread begins with.
fn thread_start(alloc: Global) -> Result<CType, AllocError>
    ensures { IfOk result (λ t. t ≡ spec.thread_start) }
{
    let mut params = Items::new(alloc);
    params.push(pointer(alloc, CType::Void)?)?;
    let given = Boxed::new(alloc, pointer(alloc, CType::Void)?)?;
    Ok(CType::Function(function(given, params)))
}

fn made(alloc: Global, kind: LibType) -> Result<CType, AllocError>
    ensures { IfOk result (λ t. t ≡ spec.made kind) }
{
    match kind {
        LibType::Void => Ok(CType::Void),
        LibType::Int => Ok(CType::Int),
        LibType::Unsigned => Ok(CType::Unsigned),
        LibType::VoidPointer => pointer(alloc, CType::Void),
        LibType::CharPointer => pointer(alloc, CType::Char),
        LibType::UnsignedPointer => pointer(alloc, CType::Unsigned),
        LibType::MutexPointer => pointer(alloc, CType::Mutex),
        LibType::VoidPointerPointer => pointer(alloc, pointer(alloc, CType::Void)?),
        LibType::ThreadStart => pointer(alloc, thread_start(alloc)?),
    }
}

fn all_made(alloc: Global, kinds: &[LibType]) -> Result<TypeList, AllocError>
    ensures { IfOk result (λ ts. ts ≡ map spec.made kinds.now) }
{
    let mut types = Items::new(alloc);
    'each: for kind in kinds {
        types.push(made(alloc, *kind)?)?;
    }
    Ok(types)
}

fn signatures() -> &'static [Signature]
    ensures { map spec.signed result.now ≡ spec.row_types }
{
    &SIGNATURES
}

fn signature_of(row: u32) -> &'static Signature
    requires { row < 15 }
    ensures { type_of_row row ≡ Some (spec.signed result.now) }
{
    &signatures()[row as usize]
}

/// The type of the function of a library row, which counts from 0. The one error is that no memory is left.
pub fn row_type(alloc: Global, row: u32) -> Result<FnType, AllocError>
    requires { row < 15 }
    ensures { IfOk result (λ f. type_of_row row ≡ Some f) }
{
    let signature = signature_of(row);
    let params = all_made(alloc, signature.params)?;
    let given = Boxed::new(alloc, made(alloc, signature.result)?)?;
    Ok(function(given, params))
}
