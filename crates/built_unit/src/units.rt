//! The unit: its functions in order of first declaration, and its call sites in source order.

ghost use Rattle.std.specs.Prelude.{◌≡◌, ◌∷◌, [], ◌++◌, ◌<◌, ◌≤◌, ◌+◌, ◌-◌, length, OnOk, OnErr, IfSome, slice_get};

use crate::names::{Name, NumberList};
use eff_types::Effects;
use std::alloc::{AllocError, Global};
use std::marker::Model;

/// The body of a defined function.
#[derive(Drop)]
pub struct Body {
    /// the numbers of the call sites of its statements, in order; sites count from 1
    pub calls: NumberList,
    /// the number that its last statement returns; none where the function is void
    pub returns: Option<u32>,
}

/// A function of the unit.
#[derive(Drop)]
pub struct FunctionInfo {
    pub name: Name,
    /// the union over its declarations
    pub effects: Effects,
    /// the byte offset of its name in its first declaration
    pub place: u32,
    /// none where it is only declared
    pub body: Option<Body>,
}

/// A call in the body of a function.
#[derive(Clone, Copy)]
pub struct SiteInfo {
    /// the number of the function in whose body the call stands
    pub function: u32,
    /// the byte offset of the first token of the call
    pub place: u32,
    /// the number of the called function, where the call names it
    pub direct: Option<u32>,
}

/// A list of functions.
#[derive(Drop)]
pub struct FunctionList {
    items: Vec<FunctionInfo>,
}

impl Model for FunctionList {
    ghost use Rattle.std.specs.Prelude.{List};
    ghost use Rattle.built_unit.specs.declared.units.FunctionInfo.{FunctionInfo};

    ghost Value = { List FunctionInfo };

    ghost view = { λ l. l.items.items };
}

impl FunctionList {
    /// The list without functions; it takes no memory.
    pub fn new(alloc: Global) -> FunctionList
        ensures { result ≡ [] }
    {
        FunctionList {
            items: Vec::new(alloc),
        }
    }

    /// Adds a function at the end; where memory is refused, the list stays as it was.
    pub fn push(&mut self, function: FunctionInfo) -> Result<(), AllocError>
        ensures ok { OnOk result (self.new ≡ self.old ++ function ∷ []) }
        ensures err { OnErr result (self.new ≡ self.old) }
    {
        self.items.push(function)?;
        Ok(())
    }

    /// The functions in order.
    pub fn as_slice(&self) -> &[FunctionInfo]
        ensures { result.now ≡ self.now }
    {
        self.items.as_slice()
    }
}

/// A list of call sites.
#[derive(Drop)]
pub struct SiteList {
    items: Vec<SiteInfo>,
}

impl Model for SiteList {
    ghost use Rattle.std.specs.Prelude.{List};
    ghost use Rattle.built_unit.specs.declared.units.SiteInfo.{SiteInfo};

    ghost Value = { List SiteInfo };

    ghost view = { λ l. l.items.items };
}

impl SiteList {
    /// The list without call sites; it takes no memory.
    pub fn new(alloc: Global) -> SiteList
        ensures { result ≡ [] }
    {
        SiteList {
            items: Vec::new(alloc),
        }
    }

    /// Adds a call site at the end; where memory is refused, the list stays as it was.
    pub fn push(&mut self, site: SiteInfo) -> Result<(), AllocError>
        ensures ok { OnOk result (self.new ≡ self.old ++ site ∷ []) }
        ensures err { OnErr result (self.new ≡ self.old) }
    {
        self.items.push(site)?;
        Ok(())
    }

    /// The call sites in order.
    pub fn as_slice(&self) -> &[SiteInfo]
        ensures { result.now ≡ self.now }
    {
        self.items.as_slice()
    }
}

/// A typed unit: at most 4,096 functions, whose calls stand in source order.
#[derive(Drop)]
pub struct Unit {
    functions: FunctionList,
    sites: SiteList,
}

impl Model for Unit {
    ghost use Rattle.built_unit.specs.Units.{UnitParts, IsUnit};

    ghost Value = { UnitParts };

    ghost view = { λ u. record { functions = u.functions; sites = u.sites } };

    ghost invariant = { λ u. IsUnit u.functions u.sites };
}

impl Unit {
    ghost use Rattle.built_unit.specs.Units.{UnitParts, IsUnit};

    /// The unit of these functions and call sites.
    pub fn new(functions: FunctionList, sites: SiteList) -> Unit
        requires { IsUnit functions sites }
        ensures functions { result.functions ≡ functions }
        ensures sites { result.sites ≡ sites }
    {
        Unit { functions, sites }
    }

    /// How many functions the unit declares, at most 4,096.
    pub fn functions(&self) -> u32
        ensures count { result ≡ length self.now.functions }
        ensures few { result ≤ 4096 }
    {
        self.functions.as_slice().len() as u32
    }

    /// The function of this number, which counts from 0 in order of first declaration.
    pub fn function(&self, id: u32) -> &FunctionInfo
        requires { id < length self.now.functions }
        ensures { slice_get self.now.functions id ≡ Some result.now }
    {
        &self.functions.as_slice()[id as usize]
    }

    /// How many call sites the unit has.
    pub fn sites(&self) -> u32
        ensures { result ≡ length self.now.sites }
    {
        self.sites.as_slice().len() as u32
    }

    /// The call site of this number, which counts from 1 in source order.
    pub fn site(&self, id: u32) -> &SiteInfo
        requires from_one { 1 ≤ id }
        requires known { id ≤ length self.now.sites }
        ensures { slice_get self.now.sites (id - 1) ≡ Some result.now }
    {
        &self.sites.as_slice()[id as usize - 1]
    }

    /// The name of a called or entered target: a function of the unit by its number.
    pub fn target_name(&self, target: u32) -> &str
        requires { target < length self.now.functions }
        ensures { IfSome (slice_get self.now.functions target) (λ f. result.now ≡ f.name) }
    {
        self.function(target).name.as_str()
    }

    /// The call sites in source order, and what is true of the parts of every unit.
    pub fn all_sites(&self) -> &[SiteInfo]
        ensures sites { result.now ≡ self.now.sites }
        ensures lawful { IsUnit self.now.functions self.now.sites }
    {
        self.sites.as_slice()
    }
}
