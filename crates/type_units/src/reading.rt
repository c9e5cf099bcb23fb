//! Both readings of a tree (C17 6.9).

ghost use Rattle.std.specs.Prelude.{◌≡◌, IfOk};
ghost use Rattle.type_rules.specs.Units as units;
ghost use Rattle.type_units.specs.Answers.{Reads};
ghost use Rattle.type_units.specs.Reserved.{opened};

use crate::opening::opening;
use c_tree::Tree;
use core_unit::FunctionInfo;
use eff_types::Effects;
use std::alloc::{AllocError, Global};
use type_statements::externals;
use typing_state::{Stop, Typing};

/// The external declarations of a tree, behind what was seen before them.
fn read_behind<'a>(alloc: Global, typing: Typing<'a>, tree: &Tree) -> Result<Typing<'a>, Stop>
    ensures { Reads (units.externals tree.now.externals typing.entry) result }
{
    let mut typing = typing;
    match externals(alloc, &mut typing, tree.externals.as_slice()) {
        Ok(()) => Ok(typing),
        Err(stop) => Err(stop),
    }
}

/// A tree from its first external declaration to its last, with the effects that the functions have in the whole unit.
pub(crate) fn read_unit<'a>(
    alloc: Global,
    source: &'a [u8],
    marks: &'a [u32],
    whole: &'a [Effects],
    tree: &Tree,
) -> Result<Typing<'a>, Stop>
    ensures { Reads (units.externals tree.now.externals (opened source.now marks.now whole.now)) result }
{
    match opening(alloc, source, marks, whole) {
        Ok(typing) => read_behind(alloc, typing, tree),
        Err(_) => Err(Stop::NoMemory),
    }
}

/// The effects of the functions, in order of first declaration. The one error is that no memory is left.
pub(crate) fn effects_of_all(
    alloc: Global,
    functions: &[FunctionInfo],
) -> Result<Vec<Effects>, AllocError>
    ensures { IfOk result (λ effects. effects.items ≡ units.effects_of_all functions.now) }
{
    let mut effects = Vec::new(alloc);
    'each: for function in functions {
        effects.push(function.kind.effects)?;
    }
    Ok(effects)
}
