// The places of all bodies, in order.
ghost use Rattle.std.specs.Prelude.{◌≡◌, ◌++◌, flat_map, IfOk, OnOk};
ghost use Rattle.unit_check.specs.Findings.{listed};
ghost use Rattle.unit_check.specs.Verdicts.{numbered};

use sqlite_items::at;
use std::alloc::{AllocError, Global};
use unit_spots::{Spot, SpotList};

/// A place of the unit.
#[derive(Clone, Copy)]
pub struct Position {
    /// The number of the function in whose body it stands.
    pub function: u32,
    /// Its index among the places there.
    pub index: usize,
    pub spot: Spot,
}

/// The places of the bodies of these functions, body after body.
#[tactic(auto, using(crate::proofs::Places::listed_more))]
pub fn positions(
    alloc: Global,
    spots: &[SpotList],
    definitions: &[u32],
) -> Result<Vec<Position>, AllocError>
    ensures { IfOk result (λ all. all.items ≡ flat_map (listed spots.now) definitions.now) }
{
    let mut all = Vec::new(alloc);
    'each: for function in definitions {
        add_listed(&mut all, spots, *function)?;
    }
    Ok(all)
}

fn add_listed(all: &mut Vec<Position>, spots: &[SpotList], function: u32) -> Result<(), AllocError>
    ensures { OnOk result (all.new.items ≡ all.old.items ++ listed spots.now function) }
{
    match at(spots, function as usize) {
        Some(list) => add_body(all, function, list.as_slice()),
        None => Ok(()),
    }
}

fn add_body(all: &mut Vec<Position>, function: u32, spots: &[Spot]) -> Result<(), AllocError>
    ensures { OnOk result (all.new.items ≡ all.old.items ++ numbered function 0 spots.now) }
{
    'each: for (index, spot) in spots.iter().enumerate() {
        all.push(Position {
            function,
            index,
            spot: *spot,
        })?;
    }
    Ok(())
}
