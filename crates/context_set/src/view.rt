//! What a seat of the set's table knows. No value of these types is ever read: they are for the proofs.

use std::marker::Model;

/// What a pass means, as contracts see it. A value of it is a pass that has made no call.
pub struct Past {
    number: u64,
}

impl Model for Past {
    ghost use Rattle.context_set.specs.Held.{Held, born};
    ghost use Rattle.std.specs.Prelude.{[]};

    ghost Value = { Held };

    ghost view = { λ p. born p.number [] };
}

/// The view of a seat.
pub struct CtxView {
    /// The seat is a pass; it was joined away otherwise.
    pub live: bool,
    pub held: Past,
    /// How many passes it has made under its own number.
    pub splits: u64,
    /// How many slots the set has.
    pub slots: u64,
    /// The key that it looks for, and how many slots it has seen with other keys meanwhile.
    pub trying: u64,
    pub tried: u64,
}
