//! The warnings of a unit made by hand: `f` is marked and calls `slow`, which is not, then `quick`, which is marked, then
//! itself, and `slow` again.

ghost use Rattle.std.specs.Prelude.{◌≡◌, Some, length, IfOk};

use built_unit::{Body, FunctionInfo, FunctionList, Name, NumberList, SiteInfo, SiteList, Unit};
use eff_check::{ViolationKind, Warning, check};
use eff_types::{Effects, Level};
use std::alloc::{AllocError, Global};
use std::test::Fail;

const SLOW: u32 = 0;

const QUICK: u32 = 1;

const MARKED: u32 = 2;

fn declared(alloc: Global, name: &str, level: Level) -> Result<FunctionInfo, AllocError> {
    let name = Name::new(alloc, name)?;
    let effects = Effects {
        level,
        no_block_inference: false,
        no_alloc_inference: false,
    };
    Ok(FunctionInfo {
        name,
        effects,
        place: 0,
        body: None,
    })
}

fn functions(alloc: Global) -> Result<FunctionList, AllocError>
    ensures { IfOk result (λ functions. length functions ≡ 3) }
{
    let mut functions = FunctionList::new(alloc);
    functions.push(declared(alloc, "slow", Level::Plain)?)?;
    functions.push(declared(alloc, "quick", Level::NonBlocking)?)?;
    let mut marked = declared(alloc, "f", Level::NonBlocking)?;
    marked.body = Some(Body {
        calls: NumberList::new(alloc),
        returns: None,
    });
    functions.push(marked)?;
    Ok(functions)
}

fn call(place: u32, callee: u32) -> SiteInfo
    ensures { result ≡ record { function = MARKED; place = place; direct = Some callee } }
{
    SiteInfo {
        function: MARKED,
        place,
        direct: Some(callee),
    }
}

fn unit(alloc: Global) -> Result<Unit, AllocError> {
    let functions = functions(alloc)?;
    let mut sites = SiteList::new(alloc);
    sites.push(call(10, SLOW))?;
    sites.push(call(20, QUICK))?;
    sites.push(call(30, MARKED))?;
    sites.push(call(40, SLOW))?;
    Ok(Unit::new(functions, sites))
}

fn is_of_slow(warning: &Warning, place: u32) -> bool {
    let ViolationKind::Calls(callee) = warning.kind;
    callee == SLOW
        && warning.function == MARKED
        && warning.place == place
        && warning.level == Level::NonBlocking
}

#[test]
fn warns_of_the_unmarked_callee_alone(rt: HostRuntime) -> Result<(), Fail> {
    let unit = unit(rt.alloc())?;
    let verdicts = check(rt.alloc(), &unit)?;
    let warnings = verdicts.warnings();
    assert_eq!(rt; warnings.len(), 2);
    assert!(rt; is_of_slow(&warnings[0], 10) && is_of_slow(&warnings[1], 40));
    Ok(())
}
