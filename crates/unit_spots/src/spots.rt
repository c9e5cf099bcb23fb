// What stands at the places of bodies, and lists of it.
ghost use Rattle.std.specs.Prelude.{◌≡◌, [], ◌∷◌, ◌++◌, map, IfOk, OnOk};
ghost use Rattle.core_unit.specs.Places.{places};
ghost use Rattle.unit_spots.specs.Spots.{seen, spots_of};
ghost use Rattle.unit_spots.specs.Walk.{in_place};

use crate::walk::stmts_spots;
use core_unit::{Body, FunctionInfo};
use eff_types::Level;
use std::alloc::{AllocError, Global};
use std::marker::Model;

/// What stands at a place of a body that may break a level.
#[derive(Clone, Copy)]
pub enum Action {
    /// A call of the function of this number.
    Calls(u32),
    /// A call of the library function of this row.
    CallsLibrary(u32),
    /// A call through an expression, whose function type promises this level.
    CallsThrough(Level),
    /// A use of a thread-local variable.
    UsesThreadLocal,
    /// A declaration of a static or thread-local block variable.
    DeclaresStatic,
}

/// A place of a body.
#[derive(Clone, Copy)]
pub struct Spot {
    /// The byte offset of the first token of the call, or of the name.
    pub place: u32,
    /// What stands there.
    pub action: Action,
}

/// A list of places.
#[derive(Drop)]
pub struct SpotList {
    spots: Vec<Spot>,
}

impl Model for SpotList {
    ghost use Rattle.std.specs.Prelude.{List};
    ghost use Rattle.unit_spots.specs.declared.spots.Spot.{Spot};

    ghost Value = { List Spot };

    ghost view = { λ l. l.spots.items };
}

impl SpotList {
    /// The list without places; it takes no memory.
    pub fn new(alloc: Global) -> SpotList
        ensures { result ≡ [] }
    {
        SpotList {
            spots: Vec::new(alloc),
        }
    }

    /// Adds a place at the end.
    pub fn push(&mut self, spot: Spot) -> Result<(), AllocError>
        ensures { OnOk result (self.new ≡ self.old ++ spot ∷ []) }
    {
        self.spots.push(spot)?;
        Ok(())
    }

    /// The places.
    pub fn as_slice(&self) -> &[Spot]
        ensures { result.now ≡ self.now }
    {
        self.spots.as_slice()
    }

    /// Brings the places into order; those at one place keep their order.
    pub fn sort(&mut self) -> Result<(), AllocError>
        ensures { OnOk result (self.new ≡ in_place self.old) }
    {
        self.spots.sort_by_key(|spot| spot.place)?;
        Ok(())
    }
}

/// The places of a body in order of place; where several stand at one place, the one that is evaluated first stands first. The one error is that no
/// memory is left.
#[tactic(auto, using(crate::proofs::Rows::ordered))]
pub fn body_spots(alloc: Global, body: &Body) -> Result<SpotList, AllocError>
    ensures { IfOk result (λ found. found ≡ map seen (places body.now)) }
{
    let mut found = SpotList::new(alloc);
    stmts_spots(alloc, body.items.as_slice(), &mut found)?;
    found.sort()?;
    Ok(found)
}

/// The places of a function's body; none where it is only declared. The one error is that no memory is left.
pub fn function_spots(alloc: Global, function: &FunctionInfo) -> Result<SpotList, AllocError>
    ensures { IfOk result (λ found. found ≡ spots_of function.now.body) }
{
    match &function.body {
        Some(body) => body_spots(alloc, body),
        None => Ok(SpotList::new(alloc)),
    }
}

/// The places of each function's body. The one error is that no memory is left.
#[tactic(auto, using(crate::proofs::Rows::one_more))]
pub fn all_spots(alloc: Global, functions: &[FunctionInfo]) -> Result<Vec<SpotList>, AllocError>
    ensures { IfOk result (λ all. all.items ≡ map (λ f. spots_of f.body) functions.now) }
{
    let mut all = Vec::new(alloc);
    'each: for function in functions {
        all.push(function_spots(alloc, function)?)?;
    }
    Ok(all)
}
