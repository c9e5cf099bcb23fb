//! What the entry is called with.

ghost use Rattle.std.specs.Prelude.{◌≡◌, ◌≤◌, length, IfOk, slice_index_or, pos};
ghost use Rattle.arithmetic.specs.Numbers.{bits_of};
ghost use Rattle.arithmetic.specs.Values.{number};
ghost use Rattle.core_unit.specs.Words.{packed};
ghost use Rattle.src_model.specs.Runs as runs;
ghost use Rattle.thread_run.specs.Threads as threads;

use crate::world::World;
use core_unit::pack;
use eff_types::CType;
use std::alloc::{AllocError, Global};

/// The word of the argument at this place; 0 where there is none.
fn argument_at(arguments: &[i32], at: usize) -> u64
    ensures { result ≡ packed (number (bits_of (slice_index_or arguments.now at (pos 0)))) }
{
    let argument = arguments.get(at).copied().unwrap_or(0);
    pack(arithmetic::number(wrapped(argument)))
}

/// The bits of an argument.
fn wrapped(argument: i32) -> u32
    ensures { result ≡ bits_of argument }
{
    i64::from(argument).rem_euclid(1 << 32) as u32
}

/// The words for parameters of these types.
fn argument_words(
    alloc: Global,
    params: &[CType],
    arguments: &[i32],
) -> Result<Vec<u64>, AllocError>
    ensures { IfOk result (λ words. words.items ≡ runs.argument_words params.now arguments.now) }
{
    let mut words = Vec::new(alloc);
    let mut used = 0;
    'each: for kind in params {
        if kind.is_number() {
            words.push(argument_at(arguments, used))?;
            used += 1;
        } else {
            words.push(0)?;
        }
    }
    Ok(words)
}

/// The words that the entry of the code is called with.
pub(crate) fn entry_words(
    alloc: Global,
    world: &World<'_>,
    arguments: &[i32],
) -> Result<Vec<u64>, AllocError>
    ensures words { IfOk result (λ words. words.items ≡ threads.entry_words world.now.unit world.now.code.entry arguments.now) }
    ensures few { IfOk result (λ words. length words.items ≤ 16) }
{
    let functions = world.unit.parts().functions.as_slice();
    match functions.get(world.code.entry() as usize) {
        Some(info) => argument_words(alloc, info.kind.params.as_slice(), arguments),
        None => Ok(Vec::new(alloc)),
    }
}
