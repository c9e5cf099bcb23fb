//! The check of marked functions (Clang's manual 'Function Effect Analysis'): which calls in their bodies are warned.
#![tactic(auto)]

ghost use Rattle.std.specs.Prelude.{◌≡◌};

mod checking;

pub use checking::check;
use eff_types::Level;
use std::marker::Model;

/// What a marked function must not do, and does.
#[derive(Clone, Copy)]
pub enum ViolationKind {
    /// It calls the function of this number, which does not keep its level.
    Calls(u32),
}

/// A warning: what violates the level of a marked function, and where.
#[derive(Clone, Copy)]
pub struct Warning {
    /// the number of the marked function
    pub function: u32,
    /// the byte offset of the first token of what violates its level
    pub place: u32,
    pub kind: ViolationKind,
    /// the level of the marked function, which is not `Plain`
    pub level: Level,
}

/// What a check of a unit found, seen by contracts as the list of its warnings.
#[derive(Drop)]
pub struct Verdicts {
    warnings: Vec<Warning>,
}

impl Model for Verdicts {
    ghost use Rattle.std.specs.Prelude.{List};
    ghost use Rattle.eff_check.specs.declared.Warning.{Warning};

    ghost Value = { List Warning };

    ghost view = { λ v. v.warnings.items };
}

impl Verdicts {
    /// The warnings in order of place. It takes no memory.
    pub fn warnings(&self) -> &[Warning]
        ensures { result.now ≡ self.now }
    {
        self.warnings.as_slice()
    }
}
