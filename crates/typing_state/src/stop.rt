//! Why a reading ends before its end.

ghost use Rattle.std.specs.Prelude.{◌≡◌};

use std::alloc::AllocError;

/// Why a reading ends before its end.
#[derive(Clone, Copy)]
pub enum Stop {
    /// The first rule that fails: its number, and its place as a byte offset.
    Fault { number: u8, place: u32 },
    /// Memory ran out.
    NoMemory,
}

impl From<AllocError> for Stop {
    ghost use Rattle.std.specs.Prelude.{◌≡◌};
    ghost use Rattle.typing_state.specs.declared.stop.Stop.TheVariants.{NoMemory};

    ghost from_gives = { λ error stop. stop ≡ NoMemory };

    fn from(_error: AllocError) -> Stop {
        Stop::NoMemory
    }
}
