//! The call sites of a unit.

ghost use Rattle.std.specs.Prelude.{◌≡◌, ◌++◌, OnOk, IfOk, flat_map, map};
ghost use Rattle.std.specs.Option.{option_copied};
ghost use Rattle.core_unit.specs.Units as units;
ghost use Rattle.type_units.specs.Sites as spec;

use core_unit::{FIRST_ROW, FunctionInfo, SiteInfo};
use sqlite_items::{Items, at};
use std::alloc::{AllocError, Global};
use unit_spots::{Action, Spot, function_spots};

/// The target number of a row of the library. The one error is for a number past 32 bits.
fn row_target(row: u32) -> Result<u32, AllocError>
    ensures { IfOk result (λ target. target ≡ units.row_target row) }
{
    match FIRST_ROW.checked_add(row) {
        Some(target) => Ok(target),
        None => Err(AllocError),
    }
}

/// Adds the call that stands at a place of a body, if one does. The one error is that no memory is left.
fn add_site(sites: &mut Items<SiteInfo>, function: u32, spot: Spot) -> Result<(), AllocError>
    ensures { OnOk result (sites.new ≡ sites.old ++ spec.site_at function spot) }
{
    let place = spot.place;
    let direct = match spot.action {
        Action::Calls(target) => Some(target),
        Action::CallsLibrary(row) => Some(row_target(row)?),
        Action::CallsThrough(_) => None,
        Action::UsesThreadLocal => return Ok(()),
        Action::DeclaresStatic => return Ok(()),
    };
    sites.push(SiteInfo {
        function,
        place,
        direct,
    })
}

/// Adds the calls at the places of a body. The one error is that no memory is left.
fn add_sites(sites: &mut Items<SiteInfo>, function: u32, spots: &[Spot]) -> Result<(), AllocError>
    ensures { OnOk result (sites.new ≡ sites.old ++ flat_map (spec.site_at function) spots.now) }
{
    'each: for spot in spots {
        add_site(sites, function, *spot)?;
    }
    Ok(())
}

/// Adds the calls of a definition, in order of place. The one error is that no memory is left.
#[tactic(auto, unfolding(crate::specs::Sites::sites_in))]
fn add_definition(
    alloc: Global,
    sites: &mut Items<SiteInfo>,
    function: u32,
    info: Option<&FunctionInfo>,
) -> Result<(), AllocError>
    ensures { OnOk result (sites.new ≡ sites.old ++ spec.sites_in function (option_copied info.entry)) }
{
    match info {
        Some(info) => {
            let spots = function_spots(alloc, info)?;
            add_sites(sites, function, spots.as_slice())
        }
        None => Ok(()),
    }
}

/// The call sites of definitions, one definition after the other. The one error is that no memory is left.
pub(crate) fn sites_of(
    alloc: Global,
    functions: &[FunctionInfo],
    definitions: &[u32],
) -> Result<Items<SiteInfo>, AllocError>
    ensures { IfOk result (λ sites. sites ≡ spec.all_sites functions.now definitions.now) }
{
    let mut sites = Items::new(alloc);
    'each: for function in definitions {
        add_definition(
            alloc,
            &mut sites,
            *function,
            at(functions, *function as usize),
        )?;
    }
    Ok(sites)
}
