//! The effects that attributes give.

ghost use Rattle.std.specs.Prelude.{◌≡◌};
ghost use Rattle.built_form.specs.Built.{marked_effects};

use crate::item::Mark;
use eff_types::{Effects, Level};

/// The effects of a function without attribute.
pub const PLAIN: Effects = Effects {
    level: Level::Plain,
    no_block_inference: false,
    no_alloc_inference: false,
};

/// The effects of a function with this attribute, or without one.
pub fn marked_effects(mark: Option<Mark>) -> Effects
    ensures { result ≡ marked_effects mark }
{
    match mark {
        None => PLAIN,
        Some(Mark::Nonblocking) => Effects {
            level: Level::NonBlocking,
            ..PLAIN
        },
        Some(Mark::Blocking) => Effects {
            no_block_inference: true,
            ..PLAIN
        },
    }
}
