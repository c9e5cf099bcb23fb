//! The types of C that this subset has, with the effects of the function types in them, and copies of them.

ghost use Rattle.std.specs.Prelude.{◌≡◌, IfOk, IsTrue, ◌↔◌};
ghost use Rattle.eff_types.specs.Types.{is_number, is_void, is_function, is_pointer, is_function_pointer};

use crate::levels::Effects;
use sqlite_items::{Boxed, Items};
use std::alloc::{AllocError, Global};

/// A list of types, as of parameters.
pub type TypeList = Items<CType>;

/// A type of C (C17 6.2.5), without qualifiers.
#[derive(Drop)]
#[cycle(ctype)]
pub enum CType {
    Void,
    Char,
    Int,
    Unsigned,
    /// `pthread_mutex_t`.
    Mutex,
    /// To this type.
    Pointer(Boxed<CType>),
    /// Of this many elements of this type.
    Array(Boxed<CType>, u32),
    /// A structure, by its number in the unit: two structures of one number are one type.
    Struct(u32),
    Function(FnType),
}

/// A function's type (C17 6.7.6.3), with its effects.
#[derive(Drop)]
#[cycle(ctype)]
pub struct FnType {
    pub result: Boxed<CType>,
    pub params: TypeList,
    pub effects: Effects,
}

impl CType {
    /// Whether it is `char`, `int` or `unsigned int`.
    pub fn is_number(&self) -> bool
        ensures { result ≡ is_number self.now }
    {
        matches!(self, CType::Char | CType::Int | CType::Unsigned)
    }

    /// Whether it is `void`.
    pub fn is_void(&self) -> bool
        ensures { result ≡ is_void self.now }
    {
        matches!(self, CType::Void)
    }

    /// Whether it is a function type; a pointer to one is none.
    pub fn is_function(&self) -> bool
        ensures { result ≡ is_function self.now }
    {
        matches!(self, CType::Function(_))
    }

    /// Whether it is a pointer, to whatever.
    pub fn is_pointer(&self) -> bool
        ensures { result ≡ is_pointer self.now }
    {
        matches!(self, CType::Pointer(_))
    }

    /// Whether it is a pointer to a function.
    pub fn is_function_pointer(&self) -> bool
        ensures { result ≡ is_function_pointer self.now }
    {
        match self {
            CType::Pointer(target) => target.get().is_function(),
            _ => false,
        }
    }
}

/// A copy of the type, equal to it. The one error is that no memory is left.
#[cycle(copying)]
pub fn copy(alloc: Global, original: &CType) -> Result<CType, AllocError>
    ensures { IfOk result (λ c. c ≡ original.now) }
{
    match original {
        CType::Void => Ok(CType::Void),
        CType::Char => Ok(CType::Char),
        CType::Int => Ok(CType::Int),
        CType::Unsigned => Ok(CType::Unsigned),
        CType::Mutex => Ok(CType::Mutex),
        CType::Pointer(target) => Ok(CType::Pointer(copy_boxed(alloc, target)?)),
        CType::Array(element, count) => Ok(CType::Array(copy_boxed(alloc, element)?, *count)),
        CType::Struct(number) => Ok(CType::Struct(*number)),
        CType::Function(function) => Ok(CType::Function(copy_function(alloc, function)?)),
    }
}

#[cycle(copying)]
fn copy_boxed(alloc: Global, original: &Boxed<CType>) -> Result<Boxed<CType>, AllocError>
    ensures { IfOk result (λ c. c ≡ original.now) }
{
    Boxed::new(alloc, copy(alloc, original.get())?)
}

#[cycle(copying)]
fn copy_function(alloc: Global, original: &FnType) -> Result<FnType, AllocError>
    ensures { IfOk result (λ c. c ≡ original.now) }
{
    Ok(FnType {
        result: copy_boxed(alloc, &original.result)?,
        params: copy_list(alloc, original.params.as_slice())?,
        effects: original.effects,
    })
}

#[cycle(copying)]
fn copy_list(alloc: Global, originals: &[CType]) -> Result<TypeList, AllocError>
    ensures { IfOk result (λ c. c ≡ originals.now) }
{
    let mut copies = Items::new(alloc);
    for original in originals {
        copies.push(copy(alloc, original)?)?;
    }
    Ok(copies)
}
