//! Scopes inside one another, each with the names that are declared in it.

ghost use Rattle.std.specs.Prelude.{◌≡◌, [], ◌∷◌, drop, OnOk, OnErr};
ghost use Rattle.std.specs.Option.{option_copied};
ghost use Rattle.scopes.specs.Scope.{found, found_here};
ghost use Rattle.scopes.specs.Scope as spec;

use indexmap::IndexMap;
use std::alloc::{AllocError, Global};
use std::marker::Model;

/// The open scopes, the innermost first; names are known by their numbers.
#[derive(Drop)]
pub struct Scopes<V> {
    /// The innermost scope last.
    maps: Vec<IndexMap<u32, V>>,
    alloc: Global,
}

impl<V> Model for Scopes<V> {
    ghost use Rattle.std.specs.Prelude.{List};
    ghost use Rattle.std.specs.Coded.{coded_list, coded×, coded_ℕ};
    ghost use Rattle.scopes.specs.Scope.{Scope, scopes_of};

    ghost Value = { List (Scope V) };

    ghost coded = { coded_list (coded_list (coded× coded_ℕ V.code)) };

    ghost view = { λ s. scopes_of s.maps.items };
}

impl<V: Drop> Scopes<V> {
    /// No scope is open.
    pub fn new(alloc: Global) -> Scopes<V>
        ensures { result ≡ [] }
    {
        Scopes {
            maps: Vec::new(alloc),
            alloc,
        }
    }

    /// Opens a scope inside those that are open.
    pub fn enter(&mut self) -> Result<(), AllocError>
        ensures ok { OnOk result (self.new ≡ [] ∷ self.old) }
        ensures err { OnErr result (self.new ≡ self.old) }
    {
        self.maps.push(IndexMap::new(self.alloc))?;
        Ok(())
    }

    /// Closes the innermost scope, with what is declared in it.
    pub fn leave(&mut self)
        ensures { self.new ≡ drop 1 self.old }
    {
        let _ = self.maps.pop();
    }

    /// What the name means here: what the innermost scope says that declares it (C17 6.2.1).
    pub fn get(&self, name: u32) -> Option<&V>
        ensures { option_copied result ≡ found self.now name }
    {
        let mut left = self.maps.len();
        'each: while left > 0 {
            left -= 1;
            if let Some(value) = self.maps[left].get(&name) {
                return Some(value);
            }
        }
        None
    }

    /// What the innermost scope itself says of the name.
    pub fn get_here(&self, name: u32) -> Option<&V>
        ensures { option_copied result ≡ found_here self.now name }
    {
        match self.maps.last() {
            Some(map) => map.get(&name),
            None => None,
        }
    }

    /// Declares the name in the innermost scope; a name that is declared there already takes the new meaning. Where no scope
    /// is open, nothing is declared. Where memory is refused, the innermost scope may be lost.
    pub fn declare(&mut self, name: u32, value: V) -> Result<(), AllocError>
        ensures { OnOk result (self.new ≡ spec.declare self.old name value) }
    {
        if let Some(mut map) = self.maps.pop() {
            match map.insert(name, value) {
                Ok(_) => {}
                Err(_) => return Err(AllocError),
            }
            self.maps.push(map)?;
        }
        Ok(())
    }
}
