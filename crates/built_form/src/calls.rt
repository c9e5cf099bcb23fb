//! Which calls a file of the form may make.

ghost use Rattle.std.specs.Prelude.{◌↔◌, IsTrue};
ghost use Rattle.built_unit.specs.Units.{IsSiteOf};
ghost use Rattle.built_form.specs.Built.{IsMain, IsInferred, MayCall, IsCallBuilt, AreCallsBuilt};

use crate::marks::PLAIN;
use built_unit::{FunctionInfo, SiteInfo, Unit};
use eff_types::Level;

/// Whether the function is `main`.
fn is_main(function: &FunctionInfo) -> bool
    ensures { IsTrue result ↔ IsMain function.now }
{
    match &function.body {
        Some(body) => body.returns.is_some(),
        None => false,
    }
}

/// Whether what the function promises would have to be inferred from its body.
fn is_inferred(function: &FunctionInfo) -> bool
    ensures { IsTrue result ↔ IsInferred function.now }
{
    function.body.is_some() && function.effects == PLAIN
}

/// Whether the one function may call the other.
fn may_call(caller: &FunctionInfo, callee: &FunctionInfo) -> bool
    ensures { IsTrue result ↔ MayCall caller.now callee.now }
{
    !is_main(callee) && !(caller.effects.level == Level::NonBlocking && is_inferred(callee))
}

/// Whether the function in which the call stands may call the one that it names.
fn is_call_built(unit: &Unit, site: &SiteInfo) -> bool
    requires { IsSiteOf unit.now.functions site.now }
    ensures { IsTrue result ↔ IsCallBuilt unit.now.functions site.now }
{
    match site.direct {
        Some(callee) => may_call(unit.function(site.function), unit.function(callee)),
        None => true,
    }
}

/// Whether each call of the unit is one that its function may make.
pub fn are_calls_built(unit: &Unit) -> bool
    ensures { IsTrue result ↔ AreCallsBuilt unit.now }
{
    'calls: for site in unit.all_sites() {
        if !is_call_built(unit, site) {
            return false;
        }
    }
    true
}
