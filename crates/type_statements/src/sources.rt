//! The external declarations of a source (C17 6.9).

ghost use Rattle.std.specs.Prelude.{◌≡◌};
ghost use Rattle.type_rules.specs.Units as spec;
ghost use Rattle.typing_state.specs.Answers.{Gives};

use crate::definitions::definition;
use c_tree::External;
use std::alloc::Global;
use type_declarations::file_declaration;
use typing_state::{Stop, Typing};

/// An external declaration.
fn external_read(alloc: Global, typing: &mut Typing, e: &External) -> Result<(), Stop>
    ensures { Gives (spec.external_read e.now typing.old) result typing.new }
{
    match e {
        External::Declaration(d) => file_declaration(alloc, typing, d.get()),
        External::Function(f) => definition(alloc, typing, f.get()),
    }
}

/// All external declarations of a source, in order, behind what was seen of it: what was seen by their end, or the first rule that they break.
#[tactic(auto, using(crate::proofs::Files::external_rules))]
pub fn externals(alloc: Global, typing: &mut Typing, all: &[External]) -> Result<(), Stop>
    ensures { Gives (spec.externals all.now typing.old) result typing.new }
{
    'each: for e in all {
        external_read(alloc, typing, e)?;
    }
    Ok(())
}
