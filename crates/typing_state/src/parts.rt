//! What a typing comes to, once the whole source is read.

ghost use Rattle.std.specs.Prelude.{◌≡◌};
ghost use Rattle.std.specs.Option.{option_copied};
ghost use Rattle.core_unit.specs.declared.tables.UnitParts.{UnitParts};
ghost use Rattle.type_rules.specs.Units.{with_whole};
ghost use Rattle.typing_state.specs.Functions.{settled_at};

use crate::state::Typing;
use core_unit::{FunctionInfo, SiteInfo, UnitParts, WordList};
use eff_types::Effects;
use sqlite_items::{Items, at};
use type_rules::Initial;

/// Gives the function of this number these effects, where there are any; one that isn't there stays away.
fn settle(functions: &mut Vec<FunctionInfo>, number: usize, effects: Option<&Effects>)
    ensures { functions.new.items ≡ settled_at (option_copied effects.entry) number functions.old.items }
{
    match effects {
        Some(effects) => {
            if number < functions.len() {
                functions[number].kind.effects = *effects;
            }
        }
        None => {}
    }
}

/// Gives each function the effects of its number, where there are any.
#[tactic(auto, using(crate::proofs::Settled::settled_rules))]
fn settle_all(functions: &mut Vec<FunctionInfo>, whole: &[Effects])
    ensures { functions.new.items ≡ with_whole whole.now 0 functions.old.items }
{
    'each: for number in 0..functions.len() {
        settle(functions, number, at(whole, number));
    }
}

impl<'a> Typing<'a> {
    /// The numbers of the functions that were defined, in this order.
    pub fn definitions(&self) -> &[u32]
        ensures { result.now ≡ self.now.definitions }
    {
        self.definitions.as_slice()
    }

    /// How many words the objects of static storage have together.
    pub fn static_words(&self) -> u32
        ensures { result ≡ self.now.static_words }
    {
        self.static_words
    }

    /// How many words the thread-local objects have together.
    pub fn thread_words(&self) -> u32
        ensures { result ≡ self.now.thread_words }
    {
        self.thread_words
    }

    /// What words of static storage hold at first; a later one of a word counts.
    pub fn static_values(&self) -> &[Initial]
        ensures { result.now ≡ self.now.static_values }
    {
        self.static_values.as_slice()
    }

    /// What words of thread-local objects hold at first; a later one of a word counts.
    pub fn thread_values(&self) -> &[Initial]
        ensures { result.now ≡ self.now.thread_values }
    {
        self.thread_values.as_slice()
    }

    /// Gives each function the effects that it has in the whole unit, where they are known.
    pub fn settle_effects(&mut self)
        ensures { self.new ≡ record self.old { functions = with_whole self.old.whole 0 self.old.functions } }
    {
        settle_all(&mut self.functions, self.whole);
    }

    /// The parts of the unit that was read, with these call sites and these words of its objects at first.
    pub fn into_parts(
        self,
        sites: Items<SiteInfo>,
        static_words: WordList,
        thread_words: WordList,
    ) -> UnitParts
        ensures { result ≡ record {
          functions = self.entry.functions;
          definitions = self.entry.definitions;
          sites = sites;
          variables = self.entry.variables;
          structures = self.entry.structures;
          statics = self.entry.statics;
          thread_locals = self.entry.thread_locals;
          static_words = static_words;
          thread_words = thread_words;
        } }
    {
        let Typing {
            functions,
            definitions,
            variables,
            structures,
            statics,
            thread_locals,
            ..
        } = self;
        UnitParts {
            functions: Items::from_vec(functions),
            definitions,
            sites,
            variables: Items::from_vec(variables),
            structures,
            statics,
            thread_locals,
            static_words,
            thread_words,
        }
    }
}
