//! What stands behind a declarator, or in front of one.

ghost use Rattle.std.specs.Prelude.{◌≡◌, ◌≤◌, ◌∷◌, [], IfOk};
ghost use Rattle.c_tree.specs.declared.words.AttrSpelling.TheVariants.{Brackets};
ghost use Rattle.c_tree.specs.declared.expressions.Spec.TheVariants.{Attribute};
ghost use Rattle.c_grammar.specs.Specifiers.{attr};
ghost use Rattle.parse_input.specs.Reads.{named, reads, Says};
ghost use Rattle.parse_declared.specs.Starts.{function_parts};

use crate::declared::{Declared, ParameterList};
use c_grammar::Terminal;
use c_tree::{Attr, AttrSpelling, AttrWord, Declarator, Spec};
use parse_input::{Input, Read, Refusal};
use parse_specifiers::attributes;
use sqlite_items::Items;
use std::alloc::{AllocError, Global};

/// What stands behind the parameters of a function.
#[tactic(auto, using(parse_input::proofs::Steps::within))]
pub fn function_rest<'a>(
    alloc: Global,
    room: u32,
    given: Declared<'a>,
    place: u32,
    list: ParameterList<'a>,
    input: &mut Input<'a>,
) -> Result<Read<Declared<'a>>, Refusal>
    ensures reads { Says (reads (named room) (function_parts input.old.scope given.entry place list.entry) input.old.tokens) result input.new.tokens }
    ensures kept { IfOk result (λ read. input.new.scope ≡ input.old.scope) }
    ensures depth { IfOk result (λ read. read.depth ≤ room) }
{
    if !input.is(Terminal::CloseParen) {
        return Err(Refusal::Refused(false));
    }
    let _closed = input.take();
    let attributes = attributes(alloc, room, input)?;
    Ok(Read {
        depth: attributes.depth,
        value: Declared::function_of(alloc, given, place, list, attributes.value)?,
    })
}

/// The attribute in brackets that stands at the front of a parameter.
pub fn bracketed(
    alloc: Global,
    place: u32,
    words: Items<AttrWord>,
) -> Result<Items<Spec>, AllocError>
    ensures { IfOk result (λ specs. specs ≡ Attribute (attr place Brackets words) ∷ []) }
{
    let mut specs: Items<Spec> = Items::new(alloc);
    specs.push(Spec::Attribute(Attr {
        place,
        spelling: AttrSpelling::Brackets,
        words,
    }))?;
    Ok(specs)
}

/// The tree of a declarator.
pub fn tree_of(declared: Declared<'_>) -> Declarator
    ensures { result ≡ declared.entry.tree }
{
    declared.tree.into_inner()
}
