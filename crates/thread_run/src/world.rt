//! What C threads run in.

ghost use Rattle.std.specs.Prelude.{◌≡◌};
ghost use Rattle.machine_code.specs.Codes.{IsCode};

use core_unit::Unit;
use machine_code::Code;
use src_model::Options;
use std::marker::Model;
use std::snapshot::Snapshot;
use suppress::Suppressions;

/// A unit, the code that was compiled from it, the suppressions of the suppression file, and the options.
pub struct World<'a> {
    pub unit: &'a Unit,
    pub code: &'a Code,
    pub suppressions: &'a Suppressions,
    pub options: Options,
}

impl<'a> Model for World<'a> {
    ghost use Rattle.std.specs.Coded.{codes};
    ghost use Rattle.core_unit.specs.contracts.tables.UnitParts as tables;
    ghost use Rattle.thread_run.specs.Worlds.{WorldParts};

    ghost Value = { WorldParts };

    ghost coded = { Prim.hlevel (codes, tables.the_row.coded) };

    ghost view = { λ w. record { unit = w.unit.now; code = w.code.now; suppressions = w.suppressions.now; options = w.options } };
}

impl<'a> World<'a> {
    /// What is true of the code, as of each code.
    pub(crate) fn is_code(&self)
        ensures { IsCode self.now.code }
    {
        self.code.is_code();
    }
}

/// The world of a thread, as contracts see it. It takes no bytes.
#[derive(Drop)]
pub struct SeenWorld {
    unit: Snapshot<Unit>,
    code: Snapshot<Code>,
    suppressions: Snapshot<Suppressions>,
    options: Snapshot<Options>,
}

impl Model for SeenWorld {
    ghost use Rattle.std.specs.Coded.{codes};
    ghost use Rattle.core_unit.specs.contracts.tables.UnitParts as tables;
    ghost use Rattle.thread_run.specs.Worlds.{WorldParts};

    ghost Value = { WorldParts };

    ghost coded = { Prim.hlevel (codes, tables.the_row.coded) };

    ghost view = { λ w. record { unit = w.unit.value; code = w.code.value; suppressions = w.suppressions.value; options = w.options.value } };
}

impl SeenWorld {
    /// The world as it is seen.
    pub(crate) fn of(world: &World<'_>) -> SeenWorld
        ensures { result ≡ world.now }
    {
        SeenWorld {
            unit: Snapshot::of(world.unit),
            code: Snapshot::of(world.code),
            suppressions: Snapshot::of(world.suppressions),
            options: Snapshot::of(&world.options),
        }
    }
}
