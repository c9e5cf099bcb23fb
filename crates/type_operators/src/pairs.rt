//! What two operands are together, and how far a pointer moves (C17 6.5.6).

ghost use Rattle.std.specs.Prelude.{◌≡◌};
ghost use Rattle.type_rules.specs.Operators as spec;
ghost use Rattle.typing_state.specs.Answers.{Gives};

use eff_types::{CType, equal};
use type_operands::{is_data_pointer, is_incomplete, pointed, words_of};
use type_rules::Pair;
use typing_state::{Stop, Typing};

/// What two operands of these types are together.
#[tactic(auto, unfolding(type_rules::specs::Operators::pair_of))]
pub fn pair_of(left: &CType, right: &CType) -> Pair
    ensures { result ≡ spec.pair_of left.now right.now }
{
    if left.is_number() && right.is_number() {
        Pair::Numbers
    } else if is_data_pointer(left) && right.is_number() {
        Pair::PointerFirst
    } else if left.is_number() && is_data_pointer(right) {
        Pair::PointerSecond
    } else if is_data_pointer(left) && equal(left, right) {
        Pair::Pointers
    } else {
        Pair::Others
    }
}

/// The words of an object over which a pointer moves. Rule 3 at `place` where it points to `void` or isn't a pointer, rule 10 where the
/// type of its target is incomplete.
#[tactic(auto, unfolding(type_rules::specs::Operators::stride, type_rules::specs::Reading::and_then))]
pub fn stride(typing: &Typing<'_>, place: u32, pointer: &CType) -> Result<u32, Stop>
    ensures { Gives (spec.stride place pointer.now typing.now) result typing.now }
{
    let Some(target) = pointed(pointer) else {
        return Err(Stop::Fault { number: 3, place });
    };
    if target.is_void() {
        return Err(Stop::Fault { number: 3, place });
    }
    if is_incomplete(typing.structures(), target) {
        return Err(Stop::Fault { number: 10, place });
    }
    Ok(words_of(typing.structures(), target))
}
