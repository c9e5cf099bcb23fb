//! Why a tree is no unit.

use core_unit::Which;
use std::alloc::AllocError;
use typing_state::Stop;

/// Why a tree is no unit.
#[derive(Clone, Copy)]
pub enum TypeRefusal {
    /// The first rule that fails: its number, and its place as a byte offset.
    Bad { number: u8, place: u32 },
    /// It passes this limit.
    Limit(Which),
    /// Memory ran out.
    NoMemory,
}

impl From<Stop> for TypeRefusal {
    ghost use Rattle.std.specs.Prelude.{◌≡◌};
    ghost use Rattle.type_units.specs.Answers.{refusal_of};

    ghost from_gives = { λ stop refusal. refusal ≡ refusal_of stop };

    fn from(stop: Stop) -> TypeRefusal {
        match stop {
            Stop::Fault { number, place } => TypeRefusal::Bad { number, place },
            Stop::NoMemory => TypeRefusal::NoMemory,
        }
    }
}

impl From<AllocError> for TypeRefusal {
    ghost use Rattle.std.specs.Prelude.{◌≡◌};
    ghost use Rattle.type_units.specs.declared.refusal.TypeRefusal.TheVariants.{NoMemory};

    ghost from_gives = { λ error refusal. refusal ≡ NoMemory };

    fn from(_error: AllocError) -> TypeRefusal {
        TypeRefusal::NoMemory
    }
}
