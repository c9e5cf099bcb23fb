//! What a tree comes to: the parts of its unit and its warnings, its first fault, or the limit that it passes.

ghost use Rattle.std.specs.Prelude.{◌≡◌, IfOk, IfErr};
ghost use Rattle.type_rules.specs.Reading.{Good};
ghost use Rattle.type_rules.specs.Units as units;
ghost use Rattle.type_units.specs.Answers.{Answers, Fills};
ghost use Rattle.type_units.specs.Reserved.{opened};
ghost use Rattle.type_units.specs.Ending.{last_tables, parts_with};
ghost use Rattle.type_units.specs.declared.refusal.TypeRefusal.TheVariants.{NoMemory};

use crate::limits::exceeded;
use crate::reading::{effects_of_all, read_unit};
use crate::refusal::TypeRefusal;
use crate::sites::sites_of;
use crate::warnings::in_order;
use crate::words::words_from;
use c_tree::Tree;
use core_unit::{SiteInfo, UnitParts, WordList};
use eff_types::Effects;
use sqlite_items::Items;
use std::alloc::{AllocError, Global};
use type_rules::TypeWarning;
use typing_state::Typing;

/// The parts of a typed unit, and what its typing warns of, in order of place.
#[derive(Drop)]
pub struct TypedParts {
    pub parts: UnitParts,
    pub warnings: Items<TypeWarning>,
}

/// The tables of a unit that are made last: its call sites, and what the words of its objects hold at first.
#[derive(Drop)]
pub(crate) struct LastTables {
    sites: Items<SiteInfo>,
    static_words: WordList,
    thread_words: WordList,
}

/// The tables that are made last, of the unit that was read. The one error is that no memory is left.
fn last_tables(alloc: Global, typing: &Typing) -> Result<LastTables, AllocError>
    ensures { IfOk result (λ tables. tables ≡ last_tables typing.now) }
{
    let sites = sites_of(alloc, typing.functions(), typing.definitions())?;
    let static_words = words_from(alloc, 1, typing.static_words(), typing.static_values())?;
    let thread_words = words_from(alloc, 0, typing.thread_words(), typing.thread_values())?;
    Ok(LastTables {
        sites,
        static_words,
        thread_words,
    })
}

/// The parts of the unit that was read, where its functions have their effects in the whole unit. The one error is that no memory is left.
fn settled_parts(alloc: Global, typing: Typing) -> Result<UnitParts, AllocError>
    ensures { IfOk result (λ parts. parts ≡ parts_with typing.entry (last_tables typing.entry)) }
{
    match last_tables(alloc, &typing) {
        Ok(last) => Ok(typing.into_parts(last.sites, last.static_words, last.thread_words)),
        Err(error) => Err(error),
    }
}

/// The parts of the unit that was read. The one error is that no memory is left.
fn parts(alloc: Global, typing: Typing) -> Result<UnitParts, AllocError>
    ensures { IfOk result (λ parts. parts ≡ units.parts_of typing.entry) }
{
    let mut typing = typing;
    typing.settle_effects();
    settled_parts(alloc, typing)
}

/// The parts of the unit that was read, and its warnings. The one error is that no memory is left.
fn typed_parts(alloc: Global, typing: Typing) -> Result<TypedParts, TypeRefusal>
    ensures value { IfOk result (λ typed. Fills typing.entry typed) }
    ensures memory { IfErr result (λ refusal. refusal ≡ NoMemory) }
{
    let warnings = in_order(alloc, typing.warnings())?;
    let parts = parts(alloc, typing)?;
    Ok(TypedParts { parts, warnings })
}

/// What a tree comes to that was read to its end.
fn within_limits(alloc: Global, typing: Typing) -> Result<TypedParts, TypeRefusal>
    ensures { Answers (units.outcome_of (Good tt typing.entry)) result }
{
    match exceeded(&typing) {
        Some(limit) => Err(TypeRefusal::Limit(limit)),
        None => typed_parts(alloc, typing),
    }
}

/// What a tree comes to, where the effects of the functions in the whole unit are known.
fn read_again(
    alloc: Global,
    source: &[u8],
    marks: &[u32],
    whole: &[Effects],
    tree: &Tree,
) -> Result<TypedParts, TypeRefusal>
    ensures { Answers (units.outcome_of (units.externals tree.now.externals (opened source.now marks.now whole.now))) result }
{
    match read_unit(alloc, source, marks, whole, tree) {
        Ok(typing) => within_limits(alloc, typing),
        Err(stop) => Err(TypeRefusal::from(stop)),
    }
}

/// What a tree comes to, where it was read once: its functions have the effects of the whole unit.
fn read_with_effects(
    alloc: Global,
    source: &[u8],
    marks: &[u32],
    first: &Typing,
    tree: &Tree,
) -> Result<TypedParts, TypeRefusal>
    ensures { Answers (units.outcome_of (units.externals tree.now.externals (opened source.now marks.now (units.effects_of_all first.now.functions)))) result }
{
    match effects_of_all(alloc, first.functions()) {
        Ok(whole) => read_again(alloc, source, marks, whole.as_slice(), tree),
        Err(_) => Err(TypeRefusal::NoMemory),
    }
}

/// The parts of the unit of a tree and what its typing warns of, where the functions of these numbers are marked (Clang's manual
/// 'Function Effect Analysis'): Ok exactly where the tree is typed inside the limits, Bad exactly with its first fault, and Limit
/// exactly with the first limit that it passes, where it has no fault. Want of memory alone is free.
pub fn type_parts(
    alloc: Global,
    source: &[u8],
    marks: &[u32],
    tree: &Tree,
) -> Result<TypedParts, TypeRefusal>
    ensures { Answers (units.outcome source.now marks.now tree.now) result }
{
    match read_unit(alloc, source, marks, &[], tree) {
        Ok(first) => read_with_effects(alloc, source, marks, &first, tree),
        Err(stop) => Err(TypeRefusal::from(stop)),
    }
}
