//! Names, what they mean, and scopes.

ghost use Rattle.std.specs.Prelude.{◌≡◌, [], ◌∷◌, drop, OnOk, IfOk};
ghost use Rattle.std.specs.Option.{option_copied};
ghost use Rattle.scopes.specs.Scope.{found, found_here};
ghost use Rattle.scopes.specs.Scope.{declare as declared_in};
ghost use Rattle.type_rules.specs.Reading.{Good, name_number, text_of};

use crate::state::Typing;
use c_tree::Span;
use std::alloc::AllocError;
use type_rules::{Entity, Tag};

/// The bytes of a text from one place up to another, as far as it has them.
fn text_of(source: &[u8], name: Span) -> &[u8]
    ensures { result.now ≡ text_of source.now name }
{
    let start = (name.start as usize).min(source.len());
    let end = (name.end as usize).min(source.len()).max(start);
    &source[start..end]
}

impl<'a> Typing<'a> {
    /// The text of a name.
    pub fn text(&self, name: Span) -> &'a [u8]
        ensures { result.now ≡ text_of self.now.source name }
    {
        text_of(self.source, name)
    }

    /// The number of a name (C17 6.4.2.1), which it keeps.
    #[tactic(auto, unfolding(type_rules::specs::Reading::name_number))]
    pub fn name_number(&mut self, name: Span) -> Result<u32, AllocError>
        ensures { IfOk result (λ number. name_number name self.old ≡ Good number self.new) }
    {
        let text = text_of(self.source, name);
        self.names.number(text)
    }

    /// What a name means here, by its number (C17 6.2.1).
    pub fn meaning(&self, name: u32) -> Option<&Entity>
        ensures { option_copied result ≡ found self.now.scopes name }
    {
        self.scopes.get(name)
    }

    /// What a name means in the innermost scope itself.
    pub fn meaning_here(&self, name: u32) -> Option<&Entity>
        ensures { option_copied result ≡ found_here self.now.scopes name }
    {
        self.scopes.get_here(name)
    }

    /// Declares a name in the innermost scope.
    pub fn declare(&mut self, name: u32, entity: Entity) -> Result<(), AllocError>
        ensures { OnOk result (self.new ≡ record self.old { scopes = declared_in self.old.scopes name entity }) }
    {
        self.scopes.declare(name, entity)
    }

    /// Opens a scope inside those that are open.
    pub fn enter(&mut self) -> Result<(), AllocError>
        ensures { OnOk result (self.new ≡ record self.old { scopes = [] ∷ self.old.scopes }) }
    {
        self.scopes.enter()
    }

    /// Closes the innermost scope.
    pub fn leave(&mut self)
        ensures { self.new ≡ record self.old { scopes = drop 1 self.old.scopes } }
    {
        self.scopes.leave();
    }

    /// What a tag means (C17 6.2.3).
    pub fn tag(&self, name: u32) -> Option<Tag>
        ensures { result ≡ found self.now.tags name }
    {
        self.tags.get(name).copied()
    }

    /// Declares a tag.
    pub fn declare_tag(&mut self, name: u32, tag: Tag) -> Result<(), AllocError>
        ensures { OnOk result (self.new ≡ record self.old { tags = declared_in self.old.tags name tag }) }
    {
        self.tags.declare(name, tag)
    }
}
