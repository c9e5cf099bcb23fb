//! What a rule answers.

ghost use Rattle.std.specs.Prelude.{◌≡◌, max, ◌+◌, ◌-◌, ◌<◌, IfOk, IfErr};
ghost use Rattle.parse_input.specs.declared.read.Refusal.TheVariants.{NoMemory};

use std::alloc::AllocError;

/// What was read, and how deep it is.
#[derive(Drop)]
pub struct Read<T> {
    pub value: T,
    pub depth: u32,
}

/// What is read in no node.
pub fn flat<T: Drop>(value: T) -> Read<T>
    ensures { result ≡ record { value = value; depth = 0 } }
{
    Read { value, depth: 0 }
}

/// The greater of two depths.
pub fn deeper(one: u32, other: u32) -> u32
    ensures { result ≡ max one other }
{
    if one < other { other } else { one }
}

/// Why a rule isn't read.
#[derive(Clone, Copy)]
pub enum Refusal {
    /// The token that comes next is refused, and whether for depth alone.
    Refused(bool),
    /// Memory ran out.
    NoMemory,
}

impl From<AllocError> for Refusal {
    ghost from_gives = { λ _ refusal. refusal ≡ NoMemory };

    fn from(_error: AllocError) -> Refusal
        ensures { result ≡ NoMemory }
    {
        Refusal::NoMemory
    }
}

/// What may still be opened inside one another.
#[derive(Clone, Copy)]
pub struct Limits {
    /// Definitions of structures and enumerations.
    pub opens: u32,
    /// Nodes.
    pub room: u32,
}

impl Limits {
    /// Inside one node.
    pub fn inside(self) -> Limits
        requires { 0 < self.room }
        ensures opens { result.opens ≡ self.opens }
        ensures room { result.room ≡ self.room - 1 }
    {
        Limits {
            opens: self.opens,
            room: self.room - 1,
        }
    }

    /// Inside one definition of a structure or an enumeration; no memory is left for more of them than may be opened.
    pub fn opened(self) -> Result<Limits, Refusal>
        ensures within { IfOk result (λ limits. (limits.opens + 1 ≡ self.opens) × (limits.room ≡ self.room)) }
        ensures memory { IfErr result (λ refusal. (refusal ≡ NoMemory) × (self.opens ≡ 0)) }
    {
        if self.opens == 0 {
            return Err(Refusal::NoMemory);
        }
        Ok(Limits {
            opens: self.opens - 1,
            room: self.room,
        })
    }
}
