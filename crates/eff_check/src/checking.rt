// One pass over the calls of a unit.
ghost use Rattle.std.specs.Prelude.{◌≡◌, ◌↔◌, IsTrue, IsSome, IfOk, IfSome, IfNone};
ghost use Rattle.built_unit.specs.Units.{IsSiteOf};
ghost use Rattle.eff_check.specs.declared.Warning.{Warning};
ghost use Rattle.eff_check.specs.Violations.{IsBelow, Forbids, IsUnsafeFor, IsMarked, IsWarnedAt, AreWarnings};

use crate::{Verdicts, ViolationKind, Warning};
use built_unit::{FunctionInfo, SiteInfo, Unit};
use eff_types::{Effects, Level};
use std::alloc::{AllocError, Global};

/// The warnings of a unit: one at each call in a marked function of a function whose level is below, and that has no body
/// or forbids the level (Clang's manual, 'Function Effect Analysis'). The only error is want of memory.
pub fn check(alloc: Global, unit: &Unit) -> Result<Verdicts, AllocError>
    ensures { IfOk result (AreWarnings unit.now) }
{
    let mut warnings = Vec::new(alloc);
    for site in unit.all_sites() {
        if let Some(warning) = warning_at(unit, site) {
            warnings.push(warning)?;
        }
    }
    Ok(Verdicts { warnings })
}

// The warning of a call, where one is due.
fn warning_at(unit: &Unit, site: &SiteInfo) -> Option<Warning>
    requires { IsSiteOf unit.now.functions site.now }
    ensures due { IfSome result (IsWarnedAt unit.now.functions site.now) }
    ensures none { IfNone result ((w : Warning) → IsWarnedAt unit.now.functions site.now w → ⊥) }
{
    let caller = unit.function(site.function);
    let level = caller.effects.level;
    let callee = site.direct?;
    if !is_marked(caller) || !is_unsafe_for(level, unit.function(callee)) {
        return None;
    }
    Some(Warning {
        function: site.function,
        place: site.place,
        kind: ViolationKind::Calls(callee),
        level,
    })
}

// Whether the function is defined and promises a level.
fn is_marked(function: &FunctionInfo) -> bool
    ensures { IsTrue result ↔ (IsSome function.now.body × IsBelow Level.Plain function.now.effects.level) }
{
    function.body.is_some() && is_below(Level::Plain, function.effects.level)
}

// Whether a body of this level must not call the function.
fn is_unsafe_for(level: Level, callee: &FunctionInfo) -> bool
    ensures { IsTrue result ↔ IsUnsafeFor level callee.now }
{
    is_below(callee.effects.level, level)
        && (callee.body.is_none() || forbids(callee.effects, level))
}

// Whether the effects forbid that a caller takes the function for one of this level.
fn forbids(effects: Effects, level: Level) -> bool
    ensures { IsTrue result ↔ Forbids effects level }
{
    match level {
        Level::Plain => false,
        Level::NonAllocating => effects.no_alloc_inference,
        Level::NonBlocking => effects.no_block_inference || effects.no_alloc_inference,
    }
}

// Whether the first level promises less than the second.
fn is_below(low: Level, high: Level) -> bool
    ensures { IsTrue result ↔ IsBelow low high }
{
    low < high
}
