//! Why a file is not read.

ghost use Rattle.std.specs.Prelude.{◌≡◌};

use std::alloc::{AllocError, AllocFailed};
use thiserror::Error;

/// Why there is no unit.
#[derive(Debug, Drop, Error)]
pub enum FormRefusal {
    /// The file is not of the form that is read so far.
    #[error("not built")]
    NotBuilt,
    /// Memory ran out.
    #[error("out of memory")]
    NoMemory,
}

impl From<AllocError> for FormRefusal {
    ghost use Rattle.built_form.specs.declared.refusal.FormRefusal.TheVariants.{NoMemory};

    ghost from_gives = { λ _ e. e ≡ NoMemory };

    fn from(_error: AllocError) -> FormRefusal {
        FormRefusal::NoMemory
    }
}

impl<T: Drop> From<AllocFailed<T>> for FormRefusal {
    ghost use Rattle.built_form.specs.declared.refusal.FormRefusal.TheVariants.{NoMemory};

    ghost from_gives = { λ _ e. e ≡ NoMemory };

    fn from(_error: AllocFailed<T>) -> FormRefusal {
        FormRefusal::NoMemory
    }
}
