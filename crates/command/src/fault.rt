//! Why words are no command value.

ghost use Rattle.std.specs.Prelude.{◌≡◌};

use std::alloc::{AllocError, AllocFailed};

/// Why words gave no command.
#[derive(Drop)]
pub enum WordsFault {
    /// The words are no command.
    Usage,
    /// Memory ran out.
    NoMemory,
}

impl From<AllocError> for WordsFault {
    ghost use Rattle.command.specs.declared.fault.WordsFault.TheVariants.{NoMemory};

    ghost from_gives = { λ _ e. e ≡ NoMemory };

    fn from(_error: AllocError) -> WordsFault {
        WordsFault::NoMemory
    }
}

impl<T: Drop> From<AllocFailed<T>> for WordsFault {
    ghost use Rattle.command.specs.declared.fault.WordsFault.TheVariants.{NoMemory};

    ghost from_gives = { λ _ e. e ≡ NoMemory };

    fn from(_error: AllocFailed<T>) -> WordsFault {
        WordsFault::NoMemory
    }
}
