//! What a pass to the board did so far. It exists in proofs alone.
ghost use Rattle.std.specs.Prelude.{◌≡◌, []};
ghost use Rattle.context_set.specs.Passes as contexts;
ghost use Rattle.reports.specs.Passes.{born, reported, makes, joins};
ghost use Rattle.set_board.specs.Lives.{lived};

use context_set::CtxPass;
use ctx_set::StackStep;
use reports::Noted;
use std::marker::Model;
use std::mem;
use std::snapshot::Snapshot;

/// The life of a pass, of which each step holds the life before it; nothing of it stands in memory.
#[derive(Drop)]
pub enum Life {
    /// Nothing is known of it.
    Blank,
    /// It has the number of this pass to the set.
    Born(Snapshot<CtxPass>),
    /// It goes over one step more of a stack.
    Steps(Snapshot<Life>, StackStep),
    /// It reported the stack that it went over, and got this answer.
    Reports(Snapshot<Life>, Noted),
    /// It was split, and the new pass got the number of this pass to the set.
    Makes(Snapshot<Life>, Snapshot<CtxPass>),
    /// Another pass was joined into it.
    Joins(Snapshot<Life>, Snapshot<Life>),
}

/// What a pass holds by its life, as contracts see it. It takes no bytes.
#[derive(Drop)]
pub struct Past {
    life: Snapshot<Life>,
}

impl Model for Past {
    ghost use Rattle.std.specs.Prelude.{◌≡◌, []};
    ghost use Rattle.reports.specs.Passes.{Held};
    ghost use Rattle.set_board.specs.Lives.{lived};

    ghost Value = { Held };

    ghost view = { λ p. (lived p.life.value).held };

    ghost invariant = { λ p. (lived p.life.value).stack ≡ [] };
}

/// The life that goes on over a stack.
fn over(life: Snapshot<Life>, stack: &[StackStep]) -> Snapshot<Life>
    requires { (lived life.value).stack ≡ [] }
    ensures { lived result.value ≡ record { held = (lived life.value).held; stack = stack.now } }
{
    let mut life = life;
    'each: for step in stack {
        let longer = Life::Steps(life, *step);
        life = Snapshot::of(&longer);
    }
    life
}

impl Past {
    /// The past of a new pass.
    pub fn born(pass: &CtxPass) -> Past
        ensures { result ≡ born (contexts.held_of pass.now).number }
    {
        let life = Life::Born(Snapshot::of(pass));
        Past {
            life: Snapshot::of(&life),
        }
    }

    /// Adds a report with its answer.
    pub fn reported(&mut self, stack: &[StackStep], answer: Noted)
        ensures { self.new ≡ reported self.old stack.now answer }
    {
        let before = mem::replace(&mut self.life, Snapshot::of(&Life::Blank));
        let life = Life::Reports(over(before, stack), answer);
        self.life = Snapshot::of(&life);
    }

    /// Adds a split, which made a pass with this one to the set.
    pub fn makes(&mut self, pass: &CtxPass)
        ensures { self.new ≡ makes self.old (contexts.held_of pass.now).number }
    {
        let before = mem::replace(&mut self.life, Snapshot::of(&Life::Blank));
        let life = Life::Makes(before, Snapshot::of(pass));
        self.life = Snapshot::of(&life);
    }

    /// Adds that another pass was joined.
    pub fn joins(&mut self, other: Past)
        ensures { self.new ≡ joins self.old other }
    {
        let before = mem::replace(&mut self.life, Snapshot::of(&Life::Blank));
        let Past { life: joined } = other;
        let life = Life::Joins(before, joined);
        self.life = Snapshot::of(&life);
    }
}
