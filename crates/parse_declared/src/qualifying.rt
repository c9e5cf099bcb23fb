//! Qualifiers of pointers (C17 6.7.6.1).

ghost use Rattle.std.specs.Prelude.{◌≡◌, IfOk};
ghost use Rattle.c_grammar.specs.Rules.{Qualifiers};
ghost use Rattle.c_grammar.specs.Declarators.{qualifier_of};
ghost use Rattle.parse_input.specs.Reads.{named, Says};

use c_grammar::Terminal;
use c_tree::{PointerQualifier, Qualifier};
use parse_input::{Input, Read, Refusal, Seen};
use sqlite_items::Items;
use std::alloc::Global;

/// The qualifier that this word is.
fn qualifier_of(seen: &Seen<'_>) -> PointerQualifier
    ensures { result ≡ qualifier_of seen.now seen.now.terminal }
{
    let qualifier = match seen.terminal() {
        Terminal::Const => Qualifier::Const,
        Terminal::Volatile => Qualifier::Volatile,
        _ => Qualifier::Restrict,
    };
    PointerQualifier {
        place: seen.place(),
        qualifier,
    }
}

/// The qualifiers of a pointer.
#[tactic(auto, using(crate::proofs::QualifierRules::qualifiers_begin, crate::proofs::QualifierRules::qualifiers_more, crate::proofs::QualifierRules::qualifiers_end, parse_input::proofs::Steps::sees_less))]
pub fn qualifiers(
    alloc: Global,
    room: u32,
    input: &mut Input<'_>,
) -> Result<Read<Items<PointerQualifier>>, Refusal>
    ensures reads { Says (named room Qualifiers input.old.tokens) result input.new.tokens }
    ensures kept { IfOk result (λ read. input.new.scope ≡ input.old.scope) }
{
    let mut all: Items<PointerQualifier> = Items::new(alloc);
    'each: loop {
        if !input.is_among(&[Terminal::Const, Terminal::Volatile, Terminal::Restrict]) {
            break;
        }
        all.push(qualifier_of(&input.take()))?;
    }
    Ok(Read {
        value: all,
        depth: 0,
    })
}
