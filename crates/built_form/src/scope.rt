//! The names that a file declares.

ghost use Rattle.std.specs.Prelude.{◌≡◌, ◌<◌, ℕ, List, [], ◌∷◌, ◌++◌, Some, None, length, OnOk, IfSome, is_some, map};
ghost use Rattle.std.specs.List.{list_any};
ghost use Rattle.std.specs.Str.{bytes_eq};
ghost use Rattle.built_form.specs.Built.{is_reserved, number_of};

use crate::refusal::FormRefusal;
use indexmap::IndexSet;
use std::alloc::Global;
use std::marker::Model;

/// The names that no function but `main` has: those of the library, and `main` itself.
const RESERVED: [&str; 21] = [
    "malloc",
    "calloc",
    "free",
    "pthread_create",
    "pthread_join",
    "pthread_mutex_lock",
    "pthread_mutex_unlock",
    "usleep",
    "puts",
    "putchar",
    "abs",
    "__rtsan_disable",
    "__rtsan_enable",
    "exit",
    "abort",
    "NULL",
    "size_t",
    "pthread_t",
    "pthread_mutex_t",
    "PTHREAD_MUTEX_INITIALIZER",
    "main",
];

/// Whether one of the texts is this name.
fn is_among(texts: &[&str], name: &[u8]) -> bool
    ensures { result ≡ list_any (λ text. bytes_eq name.now text.now) texts.now }
{
    texts.iter().any(|text| name == text.as_bytes())
}

/// Whether no function but `main` has this name.
pub fn is_reserved(name: &[u8]) -> bool
    ensures { result ≡ is_reserved name.now }
{
    is_among(&RESERVED, name)
}

/// The names that are declared so far, in order of declaration.
#[derive(Drop)]
pub struct Scope<'a> {
    names: IndexSet<&'a [u8]>,
}

impl<'a> Model for Scope<'a> {
    ghost use Rattle.std.specs.Prelude.{List, ℕ, map};

    ghost Value = { List (List ℕ) };

    ghost view = { λ s. map (λ name. name.now) s.names.keys };
}

impl<'a> Scope<'a> {
    /// The scope without names; it takes no memory.
    pub fn new(alloc: Global) -> Scope<'a>
        ensures { result ≡ [] }
    {
        Scope {
            names: IndexSet::new(alloc),
        }
    }

    /// How many names are declared.
    pub fn len(&self) -> usize
        ensures { result ≡ length self.now }
    {
        self.names.len()
    }

    /// The number of the function with this name, which counts from 0 in order of declaration.
    pub fn number(&self, name: &[u8]) -> Option<usize>
        ensures number { result ≡ number_of self.now name.now }
        ensures found { is_some result ≡ list_any (bytes_eq name.now) self.now }
        ensures within { IfSome result (λ i. i < length self.now) }
    {
        self.names.get_index_of(&name)
    }

    /// Declares a name, which is not declared yet.
    pub fn declare(&mut self, name: &'a [u8]) -> Result<(), FormRefusal>
        ensures added { OnOk result (self.new ≡ self.old ++ name.now ∷ []) }
        ensures fresh { OnOk result (number_of self.old name.now ≡ None) }
        ensures none { result ≡ Err FormRefusal.NotBuilt → number_of self.old name.now ≡ None → ⊥ }
    {
        if self.number(name).is_some() {
            return Err(FormRefusal::NotBuilt);
        }
        match self.names.insert(name) {
            Ok(_) => Ok(()),
            Err(_) => Err(FormRefusal::NoMemory),
        }
    }
}
