//! The names that are typedef names where a rule of C stands (C17 6.2.1 and 6.7.8).
#![tactic(auto)]

ghost use Rattle.std.specs.Prelude.{◌≡◌, ◌-◌, ◌≤◌, ◌<◌, ℕ, List, [], ◌∷◌, length, drop, IfOk, OnOk, IsSome, if◌then◌else◌};
ghost use Rattle.std.specs.Str.{bytes_eq};
ghost use Rattle.c_grammar.specs.Expressions.{is_type_name};
ghost use Rattle.type_names.specs.Names.{kind_in};

use indexmap::IndexMap;
use std::alloc::{AllocError, Global};
use std::marker::Model;

/// One declaration of a name, and what the name was before it.
#[derive(Drop)]
struct Declaration<'a> {
    name: &'a [u8],
    is_type: bool,
    before: Option<bool>,
}

/// The names declared so far, each as a typedef name or as another.
#[derive(Drop)]
pub struct TypeNames<'a> {
    /// Whether each declared name is a typedef name now.
    kinds: IndexMap<&'a [u8], bool>,
    /// The declarations, the latest last.
    log: Vec<Declaration<'a>>,
}

impl<'a> Model for TypeNames<'a> {
    ghost use Rattle.std.specs.Prelude.{List};
    ghost use Rattle.c_grammar.specs.Rules.{Declared};
    ghost use Rattle.type_names.specs.Names.{declarations, Keeps};

    ghost Value = { List Declared };

    ghost view = { λ t. declarations t.log.items };

    ghost invariant = { λ t. Keeps t.kinds t.log.items };
}

/// Gives a declared name the kind that it had before, or takes it out.
fn put_back<'a>(kinds: &mut IndexMap<&'a [u8], bool>, name: &'a [u8], before: Option<bool>)
    requires { IsSome (kind_in kinds.old name.now) }
    ensures { (text : List ℕ) → kind_in kinds.new text ≡ (if bytes_eq name.now text then before else kind_in kinds.old text) }
{
    match before {
        Some(is_type) => {
            if let Some(kind) = kinds.get_mut(name) {
                *kind = is_type;
            }
        }
        None => {
            kinds.swap_remove(name);
        }
    }
}

impl<'a> TypeNames<'a> {
    /// No name.
    pub fn new(alloc: Global) -> Result<TypeNames<'a>, AllocError>
        ensures { IfOk result (λ names. names ≡ []) }
    {
        Ok(TypeNames {
            kinds: IndexMap::new(alloc),
            log: Vec::new(alloc),
        })
    }

    /// Whether the text was declared, and the last time as a typedef name.
    pub fn is_type(&self, text: &[u8]) -> bool
        ensures { result ≡ is_type_name self.now text.now }
    {
        self.kinds.get(text).copied().unwrap_or(false)
    }

    /// Declares a name, as a typedef name or as another.
    pub fn declare(&mut self, name: &'a [u8], is_type: bool) -> Result<(), AllocError>
        ensures { OnOk result (self.new ≡ record { name = name.now; is_type = is_type } ∷ self.old) }
    {
        let before = self.kinds.insert(name, is_type)?;
        let declaration = Declaration {
            name,
            is_type,
            before,
        };
        match self.log.push(declaration) {
            Ok(()) => Ok(()),
            Err(_) => {
                put_back(&mut self.kinds, name, before);
                Err(AllocError)
            }
        }
    }

    /// How many declarations there are.
    pub fn len(&self) -> usize
        ensures { result ≡ length self.now }
    {
        self.log.len()
    }

    /// Forgets the last declaration.
    fn forget_last(&mut self)
        requires { 0 < length self.old }
        ensures { self.new ≡ drop 1 self.old }
    {
        if let Some(last) = self.log.pop() {
            put_back(&mut self.kinds, last.name, last.before);
        }
    }

    /// Forgets the declarations behind the first `count`.
    #[tactic(auto, using(crate::proofs::Restoring::one_less))]
    pub fn restore(&mut self, count: usize)
        requires { count ≤ length self.old }
        ensures { self.new ≡ drop (length self.old - count) self.old }
    {
        'each: while self.len() > count {
            self.forget_last();
        }
    }
}
