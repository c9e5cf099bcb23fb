//! The typed unit.

ghost use Rattle.std.specs.Prelude.{◌≡◌, ◌<◌, ◌≤◌, ◌-◌, length, slice_get, Some, IfOk, IfSome};
ghost use Rattle.core_unit.specs.Units.{IsUnit};
ghost use Rattle.core_unit.specs.Units as spec;

use crate::memory;
use crate::rows::library;
use crate::tables::{
    FIRST_ROW, FunctionInfo, SiteInfo, StructInfo, UnitParts, VariableInfo, WordList,
};
use sqlite_items::Items;
use std::alloc::{AllocError, Global};
use std::marker::Model;

/// A quantity of a unit that is limited.
#[derive(Clone, Copy)]
pub enum Which {
    Functions,
    Parameters,
    CallSites,
    StaticWords,
    ThreadWords,
    FrameWords,
}

/// A typed unit: its parts, of which what is always true of a unit holds.
#[derive(Drop)]
pub struct Unit {
    parts: UnitParts,
}

impl Model for Unit {
    ghost use Rattle.core_unit.specs.Units.{IsUnit};
    ghost use Rattle.core_unit.specs.declared.tables.UnitParts.{UnitParts};
    ghost use Rattle.core_unit.specs.contracts.tables.UnitParts as tables;

    ghost Value = { UnitParts };

    ghost coded = { tables.the_row.coded };

    ghost view = { λ u. u.parts };

    ghost invariant = { λ u. IsUnit u.parts };
}

impl Unit {
    /// The unit of these parts.
    pub fn new(parts: UnitParts) -> Unit
        requires { IsUnit parts }
        ensures { result ≡ parts }
    {
        Unit { parts }
    }

    /// The parts, and what is always true of them.
    pub fn parts(&self) -> &UnitParts
        ensures parts { result.now ≡ self.now }
        ensures lawful { IsUnit self.now }
    {
        &self.parts
    }

    /// How many functions the unit declares, at most 4,096.
    pub fn functions(&self) -> u32
        ensures count { result ≡ length self.now.functions }
        ensures few { result ≤ 4096 }
    {
        self.parts.functions.len() as u32
    }

    /// The function of this number, which counts from 0 in order of first declaration.
    pub fn function(&self, id: u32) -> &FunctionInfo
        requires { id < length self.now.functions }
        ensures { slice_get self.now.functions id ≡ Some result.now }
    {
        &self.parts.functions.as_slice()[id as usize]
    }

    /// Whether a declaration of the function says `static`.
    pub fn internal(&self, function: u32) -> bool
        requires { function < length self.now.functions }
        ensures { IfSome (slice_get self.now.functions function) (λ f. result ≡ f.internal) }
    {
        self.function(function).internal
    }

    /// How many call sites the unit has, fewer than 2^20.
    pub fn sites(&self) -> u32
        ensures count { result ≡ length self.now.sites }
        ensures few { result < 1048576 }
    {
        self.parts.sites.len() as u32
    }

    /// The call site of this number, which counts from 1, definition after definition: within one in order of place, the
    /// inner call first at one place.
    pub fn site(&self, id: u32) -> &SiteInfo
        requires from_one { 1 ≤ id }
        requires known { id ≤ length self.now.sites }
        ensures { slice_get self.now.sites (id - 1) ≡ Some result.now }
    {
        &self.parts.sites.as_slice()[id as usize - 1]
    }

    /// How many variables of file scope the unit declares.
    pub fn variables(&self) -> u32
        ensures { result ≡ length self.now.variables }
    {
        self.parts.variables.len() as u32
    }

    /// The variable of this number, which counts from 0 in order of first declaration.
    pub fn variable(&self, id: u32) -> &VariableInfo
        requires { id < length self.now.variables }
        ensures { slice_get self.now.variables id ≡ Some result.now }
    {
        &self.parts.variables.as_slice()[id as usize]
    }

    /// How many structures the unit names.
    pub fn structures(&self) -> u32
        ensures { result ≡ length self.now.structures }
    {
        self.parts.structures.len() as u32
    }

    /// The structure of this number, which counts from 0 in order of first appearance.
    pub fn structure(&self, id: u32) -> &StructInfo
        requires { id < length self.now.structures }
        ensures { slice_get self.now.structures id ≡ Some result.now }
    {
        &self.parts.structures.as_slice()[id as usize]
    }

    /// The name of a target: of a function of the unit, or of a library row.
    pub fn target_name(&self, target: u32) -> &str
        requires { spec.IsTarget self.now target }
        ensures { spec.target_name self.now target ≡ Some result.now }
    {
        if target < FIRST_ROW {
            self.function(target).name.as_str()
        } else {
            library()[(target - FIRST_ROW) as usize].name
        }
    }

    /// How many words the objects of static storage have, from address 1 on.
    pub fn static_words(&self) -> u32
        ensures count { result ≡ length self.now.static_words }
        ensures few { result ≤ 524288 }
    {
        self.parts.static_words.len() as u32
    }

    /// What the words of memory hold at first, all 1,048,768 of them. The one error is that no memory is left.
    pub fn opening(&self, alloc: Global) -> Result<WordList, AllocError>
        ensures { IfOk result (λ words. words ≡ spec.opening self.now) }
    {
        let statics = self.parts.static_words.as_slice();
        let words = memory::opening(alloc, statics, self.parts.thread_words.as_slice())?;
        Ok(Items::from_vec(words))
    }
}
