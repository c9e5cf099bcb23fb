//! The arithmetic of pointers by their addresses.

ghost use Rattle.std.specs.Prelude.{◌≡◌};
ghost use Rattle.arithmetic.specs.Pointers as spec;

use crate::numbers::wrapped;
use crate::operations::Direction;
use crate::traps::TrapKind;

/// The greatest address that a pointer may hold: that behind the last word of objects.
const LAST_ADDRESS: i128 = 1 << 20;

/// The address so many words further on; the trap where it is outside 1 to 2^20, or where the pointer is null.
pub(crate) fn moved(address: u32, distance: i128) -> Result<u32, TrapKind>
    ensures { result ≡ spec.moved address distance }
{
    let start = address as i128;
    if 0 < start && 1 - start <= distance && distance <= LAST_ADDRESS - start {
        Ok((start + distance) as u32)
    } else {
        Err(TrapKind::BadPointer)
    }
}

/// So many objects, in words.
pub(crate) fn distance(direction: Direction, number: i64, words: u32) -> i128
    ensures { result ≡ spec.distance direction number words }
{
    let forward = number as i128 * words as i128;
    match direction {
        Direction::Forward => forward,
        Direction::Backward => -forward,
    }
}

/// How many objects of so many words lie from the second address to the first, rounded toward zero, as the bits of an `int`; 0 of
/// objects without words.
pub(crate) fn difference(words: u32, left: u32, right: u32) -> u32
    ensures { result ≡ spec.difference words left right }
{
    if words == 0 {
        0
    } else {
        wrapped((left as i64 - right as i64) / words as i64)
    }
}
