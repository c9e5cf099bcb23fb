//! The unit that the items of a file make.

ghost use Rattle.std.specs.Prelude.{◌≡◌, ◌<◌, ◌≤◌, ◌+◌, List, [], ◌∷◌, ◌++◌, length, map, IfOk, OnOk, All, IsTrue, ◌↔◌};
ghost use Rattle.std.specs.Str.{IsUtf8};
ghost use Rattle.c_text.specs.Spelling.{IsWithin, text_of};
ghost use Rattle.built_unit.specs.Units.{IsUnit};
ghost use Rattle.built_form.specs.Built.{AreDeclared, IsNameOf, IsItemBuilt, IsBuilt, IsItemWithin, scope_of, calls_of, effects_of, body_of, function_of, site_of, item_sites, functions_of, sites_of, unit_of, numbered};
ghost use Rattle.c_text.specs.declared.limits.TheConstants.{SOURCE_LIMIT};

use crate::calls::are_calls_built;
use crate::cursor::text_of;
use crate::item::{Item, Kind};
use crate::marks::{PLAIN, marked_effects};
use crate::refusal::FormRefusal;
use crate::scope::{Scope, is_reserved};
use built_unit::{Body, FunctionInfo, FunctionList, Name, NumberList, SiteInfo, SiteList, Unit};
use c_text::Token;
use eff_types::Effects;
use std::alloc::Global;

/// The most functions that a file declares.
const MAX_FUNCTIONS: usize = 4096;

/// The effects of a function.
pub fn effects(kind: &Kind) -> Effects
    ensures { result ≡ effects_of kind.now }
{
    match kind {
        Kind::Void(ending) => marked_effects(ending.mark),
        Kind::Main(_) => PLAIN,
    }
}

/// Whether a function of this kind may have this name.
pub fn is_name_of(text: &[u8], kind: &Kind) -> bool
    ensures { IsTrue result ↔ IsNameOf text.now kind.now }
{
    match kind {
        Kind::Void(_) => !is_reserved(text),
        Kind::Main(_) => text == b"main".as_slice(),
    }
}

/// The name with this text.
pub fn name(alloc: Global, text: &[u8]) -> Result<Name, FormRefusal>
    ensures name { IfOk result (λ name. name ≡ text.now) }
    ensures readable { OnOk result (IsUtf8 text.now) }
    ensures none { result ≡ Err FormRefusal.NotBuilt → IsUtf8 text.now → ⊥ }
{
    match str::from_utf8(text) {
        Ok(text) => Ok(Name::new(alloc, text)?),
        Err(_) => Err(FormRefusal::NotBuilt),
    }
}

/// Adds the call sites of the calls in the body of a function, and gives their numbers.
pub fn call_sites(
    alloc: Global,
    source: &[u8],
    scope: &Scope,
    function: u32,
    calls: &[Token],
    sites: &mut SiteList,
) -> Result<NumberList, FormRefusal>
    requires within { All (IsWithin source.now) calls.now }
    requires few { length scope.now ≤ 4096 }
    requires room { length sites.old + length calls.now ≤ SOURCE_LIMIT }
    ensures sites { OnOk result (sites.new ≡ sites.old ++ map (site_of source.now scope.now function) calls.now) }
    ensures numbers { IfOk result (λ numbers. numbers ≡ numbered (length sites.old + 1) calls.now) }
    ensures declared { OnOk result (AreDeclared source.now scope.now calls.now) }
    ensures none { result ≡ Err FormRefusal.NotBuilt → AreDeclared source.now scope.now calls.now → ⊥ }
{
    let mut numbers = NumberList::new(alloc);
    'calls: for call in calls {
        let Some(callee) = scope.number(text_of(source, *call)) else {
            return Err(FormRefusal::NotBuilt);
        };
        let site = SiteInfo {
            function,
            place: call.start,
            direct: Some(callee as u32),
        };
        sites.push(site)?;
        numbers.push(sites.as_slice().len() as u32)?;
    }
    Ok(numbers)
}

/// Adds the call sites of a function, and gives its body.
pub fn body(
    alloc: Global,
    source: &[u8],
    scope: &Scope,
    function: u32,
    kind: &Kind,
    sites: &mut SiteList,
) -> Result<Option<Body>, FormRefusal>
    requires within { All (IsWithin source.now) (calls_of kind.now) }
    requires few { length scope.now ≤ 4096 }
    requires room { length sites.old + length (calls_of kind.now) ≤ SOURCE_LIMIT }
    ensures sites { OnOk result (sites.new ≡ sites.old ++ map (site_of source.now scope.now function) (calls_of kind.now)) }
    ensures body { IfOk result (λ body. body ≡ body_of (length sites.old + 1) kind.now) }
    ensures declared { OnOk result (AreDeclared source.now scope.now (calls_of kind.now)) }
    ensures none { result ≡ Err FormRefusal.NotBuilt → AreDeclared source.now scope.now (calls_of kind.now) → ⊥ }
{
    let (calls, returns) = match kind {
        Kind::Void(ending) => (ending.calls.as_ref(), None),
        Kind::Main(calls) => (Some(calls), Some(0)),
    };
    let Some(calls) = calls else {
        return Ok(None);
    };
    let calls = call_sites(alloc, source, scope, function, calls.as_slice(), sites)?;
    Ok(Some(Body { calls, returns }))
}

/// The part of a unit that the first items of a file make.
#[derive(Drop)]
pub struct Builder<'a> {
    scope: Scope<'a>,
    functions: FunctionList,
    sites: SiteList,
}

impl<'a> Builder<'a> {
    /// The part without functions; it takes no memory.
    pub fn new(alloc: Global) -> Builder<'a>
        ensures scope { result.scope ≡ [] }
        ensures functions { result.functions ≡ [] }
        ensures sites { result.sites ≡ [] }
    {
        Builder {
            scope: Scope::new(alloc),
            functions: FunctionList::new(alloc),
            sites: SiteList::new(alloc),
        }
    }

    /// Adds the function of the next item.
    pub fn add(&mut self, alloc: Global, source: &'a [u8], item: &Item) -> Result<(), FormRefusal>
        requires within { IsItemWithin source.now item.now }
        requires few { length self.old.scope < 4096 }
        requires room { length self.old.sites + length (calls_of item.now.kind) ≤ SOURCE_LIMIT }
        ensures built { OnOk result (IsItemBuilt source.now self.old.scope item.now) }
        ensures scope { OnOk result (self.new.scope ≡ scope_of source.now self.old.scope item.now) }
        ensures functions { OnOk result (self.new.functions ≡ self.old.functions ++ function_of source.now (length self.old.sites + 1) item.now ∷ []) }
        ensures sites { OnOk result (self.new.sites ≡ self.old.sites ++ item_sites source.now self.old.scope item.now) }
        ensures none { result ≡ Err FormRefusal.NotBuilt → IsItemBuilt source.now self.old.scope item.now → ⊥ }
    {
        let text = text_of(source, item.name);
        if !is_name_of(text, &item.kind) {
            return Err(FormRefusal::NotBuilt);
        }
        let function = self.scope.len() as u32;
        self.scope.declare(text)?;
        let body = body(
            alloc,
            source,
            &self.scope,
            function,
            &item.kind,
            &mut self.sites,
        )?;
        let name = name(alloc, text)?;
        let function = FunctionInfo {
            name,
            effects: effects(&item.kind),
            place: item.name.start,
            body,
        };
        self.functions.push(function)?;
        Ok(())
    }
}

/// The unit of the items of a file.
pub fn unit(alloc: Global, source: &[u8], items: &[Item]) -> Result<Unit, FormRefusal>
    requires within { All (IsItemWithin source.now) items.now }
    requires room { length (sites_of source.now [] items.now) ≤ SOURCE_LIMIT }
    requires unit { length items.now ≤ 4096 → IsUnit (functions_of source.now 1 items.now) (sites_of source.now [] items.now) }
    ensures built { OnOk result (IsBuilt source.now items.now) }
    ensures means { IfOk result (λ unit. unit ≡ unit_of source.now items.now) }
    ensures none { result ≡ Err FormRefusal.NotBuilt → IsBuilt source.now items.now → ⊥ }
{
    if items.len() > MAX_FUNCTIONS {
        return Err(FormRefusal::NotBuilt);
    }
    let mut builder = Builder::new(alloc);
    'items: for item in items {
        builder.add(alloc, source, item)?;
    }
    let unit = Unit::new(builder.functions, builder.sites);
    if are_calls_built(&unit) {
        Ok(unit)
    } else {
        Err(FormRefusal::NotBuilt)
    }
}
