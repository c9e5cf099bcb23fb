//! What is known before the first declaration.

ghost use Rattle.std.specs.Prelude.{◌≡◌};
ghost use Rattle.eff_types.specs.declared.types.CType.{Void};
ghost use Rattle.type_rules.specs.Units.{unread};

use crate::state::Typing;
use eff_types::{CType, Effects};
use scopes::{Names, Scopes};
use sqlite_items::{Boxed, Items};
use std::alloc::Global;
use type_rules::{Entity, Tag, TypeWarning};

impl<'a> Typing<'a> {
    /// A source of which no declaration was read, with the names that are known and what they mean. The box has the type
    /// `void`.
    pub fn new(
        alloc: Global,
        source: &'a [u8],
        marks: &'a [u32],
        whole: &'a [Effects],
        names: Names<'a>,
        scopes: Scopes<Entity>,
        tags: Scopes<Tag>,
        returns: Boxed<CType>,
    ) -> Typing<'a>
        requires { returns ≡ Void }
        ensures { result ≡ unread source.now marks.now whole.now names.entry scopes tags }
    {
        Typing {
            source,
            marks,
            whole,
            names,
            scopes,
            tags,
            functions: Vec::new(alloc),
            definitions: Items::new(alloc),
            variables: Vec::new(alloc),
            structures: Items::new(alloc),
            sizes: Items::new(alloc),
            statics: Items::new(alloc),
            static_words: 0,
            thread_locals: Items::new(alloc),
            thread_words: 0,
            static_values: Items::new(alloc),
            thread_values: Items::new(alloc),
            sites: 1,
            frame: 0,
            returns,
            warnings: Items::new(alloc),
        }
    }

    /// The warnings so far, in the order of reading.
    pub fn warnings(&self) -> &[TypeWarning]
        ensures { result.now ≡ self.now.warnings }
    {
        self.warnings.as_slice()
    }
}
