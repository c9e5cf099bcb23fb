//! What a pass to a board did so far.

ghost use Rattle.std.specs.Prelude.{◌≡◌, ◌<◌};
ghost use Rattle.reports.specs.Passes.{born, reported, makes, joins};

use crate::walk::{Steps, Walk};
use reports::Noted;
use std::marker::Model;
use std::mem;
use std::snapshot::Snapshot;

/// The life of a pass, of which each step holds the life before it; nothing of it stands in memory.
#[derive(Drop)]
pub enum Life {
    /// It is the first pass of its board.
    First,
    /// It was made by the last split of a pass with this life.
    Made(Snapshot<Life>),
    /// It reported a stack, and got this answer.
    Reported(Snapshot<Life>, Snapshot<Steps>, Noted),
    /// It was split.
    Split(Snapshot<Life>),
    /// Another pass was joined into it.
    Joined(Snapshot<Life>, Snapshot<Life>),
}

/// What a pass holds by its life, as contracts see it. It takes no bytes.
#[derive(Drop)]
pub struct Past {
    life: Snapshot<Life>,
}

impl Model for Past {
    ghost use Rattle.reports.specs.Passes.{Held};
    ghost use Rattle.board_past.specs.Lives.{held_of};

    ghost Value = { Held };

    ghost view = { λ p. held_of p.life.value };
}

impl Past {
    /// The past of the first pass of a board.
    pub fn first() -> Past
        ensures { result ≡ born 0 }
    {
        Past {
            life: Snapshot::of(&Life::First),
        }
    }

    /// Adds a report with its answer.
    pub fn reported(&mut self, stack: Walk, answer: Noted)
        ensures { self.new ≡ reported self.old stack answer }
    {
        let before = mem::replace(&mut self.life, Snapshot::of(&Life::First));
        let Walk { steps } = stack;
        let life = Life::Reported(before, steps, answer);
        self.life = Snapshot::of(&life);
    }

    /// Adds a split, and gives the past of the pass that it makes. That one has a number which no other pass of the board has.
    pub fn split(&mut self) -> Past
        ensures held { self.new ≡ makes self.old result.number }
        ensures made { result ≡ born result.number }
        ensures later { self.old.number < result.number }
    {
        let before = mem::replace(&mut self.life, Snapshot::of(&Life::First));
        let life = Life::Split(before);
        self.life = Snapshot::of(&life);
        let made = Life::Made(Snapshot::of(&life));
        Past {
            life: Snapshot::of(&made),
        }
    }

    /// Adds that another pass was joined.
    pub fn joins(&mut self, other: Past)
        ensures { self.new ≡ joins self.old other }
    {
        let before = mem::replace(&mut self.life, Snapshot::of(&Life::First));
        let Past { life: joined } = other;
        let life = Life::Joined(before, joined);
        self.life = Snapshot::of(&life);
    }
}
