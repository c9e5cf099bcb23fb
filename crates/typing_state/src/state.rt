//! What was seen of a unit so far.

ghost use Rattle.std.specs.Prelude.{◌≡◌, OnOk, ◌++◌, ◌∷◌, [], ◌+◌, IfOk};

use core_unit::{FunctionInfo, Object, StructInfo, VariableInfo};
use eff_types::{CType, Effects};
use scopes::{Names, Scopes};
use sqlite_items::{Boxed, Items};
use std::alloc::{AllocError, Global};
use std::marker::Model;
use type_rules::{Entity, Initial, Tag, TypeWarning};

/// What was seen of a unit so far. The source, the marked functions and the effects of the whole unit stay as they are.
#[derive(Drop)]
pub struct Typing<'a> {
    pub(crate) source: &'a [u8],
    pub(crate) marks: &'a [u32],
    pub(crate) whole: &'a [Effects],
    pub(crate) names: Names<'a>,
    pub(crate) scopes: Scopes<Entity>,
    pub(crate) tags: Scopes<Tag>,
    pub(crate) functions: Vec<FunctionInfo>,
    pub(crate) definitions: Items<u32>,
    pub(crate) variables: Vec<VariableInfo>,
    pub(crate) structures: Items<StructInfo>,
    pub(crate) sizes: Items<u32>,
    pub(crate) statics: Items<Object>,
    pub(crate) static_words: u32,
    pub(crate) thread_locals: Items<Object>,
    pub(crate) thread_words: u32,
    pub(crate) static_values: Items<Initial>,
    pub(crate) thread_values: Items<Initial>,
    pub(crate) sites: u32,
    pub(crate) frame: u32,
    pub(crate) returns: Boxed<CType>,
    pub(crate) warnings: Items<TypeWarning>,
}

impl<'a> Model for Typing<'a> {
    ghost use Rattle.type_rules.specs.Seen.{Seen};
    ghost use Rattle.std.specs.Coded.{codes};
    ghost use Rattle.eff_types.specs.contracts.types.CType as a_type;
    ghost use Rattle.core_unit.specs.contracts.tables.FunctionInfo as a_function;
    ghost use Rattle.core_unit.specs.contracts.tables.VariableInfo as a_variable;
    ghost use Rattle.core_unit.specs.contracts.tables.StructInfo as a_structure;
    ghost use Rattle.type_rules.specs.contracts.names.Entity as an_entity;

    ghost Value = { Seen };

    ghost coded = { Prim.hlevel (codes, a_type.the_row.coded, a_function.the_row.coded, a_variable.the_row.coded, a_structure.the_row.coded, an_entity.the_row.coded) };

    ghost view = { λ t. record {
      source = t.source.now;
      marks = t.marks.now;
      whole = t.whole.now;
      names = t.names;
      scopes = t.scopes;
      tags = t.tags;
      functions = t.functions.items;
      definitions = t.definitions;
      variables = t.variables.items;
      structures = t.structures;
      sizes = t.sizes;
      statics = t.statics;
      static_words = t.static_words;
      thread_locals = t.thread_locals;
      thread_words = t.thread_words;
      static_values = t.static_values;
      thread_values = t.thread_values;
      sites = t.sites;
      frame = t.frame;
      result = t.returns;
      warnings = t.warnings;
    } };
}

impl<'a> Typing<'a> {
    /// The source.
    pub fn source(&self) -> &'a [u8]
        ensures { result.now ≡ self.now.source }
    {
        self.source
    }

    /// Notes a warning, behind those before it.
    pub fn warn(&mut self, warning: TypeWarning) -> Result<(), AllocError>
        ensures { OnOk result (self.new ≡ record self.old { warnings = self.old.warnings ++ warning ∷ [] }) }
    {
        self.warnings.push(warning)
    }

    /// Numbers the next call sites, so many: the first of their numbers. Numbers that 32 bits don't tell are as want of memory.
    pub fn number_sites(&mut self, calls: u32) -> Result<u32, AllocError>
        ensures number { IfOk result (λ first. first ≡ self.old.sites) }
        ensures sites { OnOk result (self.new ≡ record self.old { sites = self.old.sites + calls }) }
    {
        let first = self.sites;
        match first.checked_add(calls) {
            Some(next) => self.sites = next,
            None => return Err(AllocError),
        }
        Ok(first)
    }

    /// The number of the next call site.
    pub fn sites(&self) -> u32
        ensures { result ≡ self.now.sites }
    {
        self.sites
    }

    /// Takes the numbering of call sites to this number: the operand of `sizeof` isn't evaluated, and has none (C17 6.5.3.4).
    pub fn set_sites(&mut self, sites: u32)
        ensures { self.new ≡ record self.old { sites = sites } }
    {
        self.sites = sites;
    }
}
