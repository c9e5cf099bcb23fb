//! What a pass did so far. It exists in proofs alone.
ghost use Rattle.std.specs.Prelude.{◌≡◌};
ghost use Rattle.word_mem.specs.Held.{born, did, makes, joins};

use crate::event::WordEvent;
use std::marker::Model;
use std::mem;
use std::snapshot::Snapshot;

/// The life of a pass, of which each step holds the life before it; nothing of it stands in memory.
#[derive(Drop)]
pub enum Life {
    Born(u32),
    Did(Snapshot<Life>, WordEvent),
    /// It was split, and the new pass got this number.
    Makes(Snapshot<Life>, u32),
    /// Another pass was joined into it.
    Joins(Snapshot<Life>, Snapshot<Life>),
}

/// What a pass holds by its life, as contracts see it. It takes no bytes.
#[derive(Drop)]
pub struct Past {
    life: Snapshot<Life>,
}

impl Model for Past {
    ghost use Rattle.word_mem.specs.Held.{Held};
    ghost use Rattle.word_mem.specs.Lives.{held_of};

    ghost Value = { Held };

    ghost view = { λ p. held_of p.life.value };
}

impl Past {
    /// The past of a new pass.
    pub fn born(number: u32) -> Past
        ensures { result ≡ born number }
    {
        Past {
            life: Snapshot::of(&Life::Born(number)),
        }
    }

    /// Adds an event that the pass made.
    pub fn did(&mut self, event: WordEvent)
        ensures { self.new ≡ did self.old event }
    {
        let before = mem::replace(&mut self.life, Snapshot::of(&Life::Born(0)));
        let life = Life::Did(before, event);
        self.life = Snapshot::of(&life);
    }

    /// Adds a split that gave this number.
    pub fn makes(&mut self, number: u32)
        ensures { self.new ≡ makes self.old number }
    {
        let before = mem::replace(&mut self.life, Snapshot::of(&Life::Born(0)));
        let life = Life::Makes(before, number);
        self.life = Snapshot::of(&life);
    }

    /// Adds that another pass was joined.
    pub fn joins(&mut self, other: Past)
        ensures { self.new ≡ joins self.old other }
    {
        let before = mem::replace(&mut self.life, Snapshot::of(&Life::Born(0)));
        let Past { life: joined } = other;
        let life = Life::Joins(before, joined);
        self.life = Snapshot::of(&life);
    }
}
