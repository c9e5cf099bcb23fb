//! The same work over each memory.
ghost use Rattle.std.specs.Prelude.{◌≡◌, ◌<◌, length, IfOk};
ghost use Rattle.word_mem.specs.Held.{born, Closes};
ghost use Rattle.word_threads.specs.Work.{AddsAlone, AddsInTwo};

use crate::work::{add_both, add_many};
use std::alloc::{AllocError, Global};
use std::sync::Wait;
use std::thread::Threads;
use word_mem::{LockedWords, PlainWords, WordList};
use word_table::TableWords;

/// One pass adds to a word of a plain memory. The words that are left are those after its calls.
pub fn add_alone(
    alloc: Global,
    words: WordList,
    at: u32,
    count: u64,
) -> Result<WordList, AllocError>
    requires { at < length words }
    ensures { IfOk result (λ r. AddsAlone words at count r) }
{
    let (memory, mut pass, _spares) = PlainWords::new(alloc, words, 1, count)?;
    add_many(&memory, &mut pass, at, count);
    memory.close(pass)
}

/// Two threads add to a word of a shared memory without a lock.
pub fn add_in_two<R: Threads + Sync>(
    rt: &R,
    alloc: Global,
    words: WordList,
    at: u32,
    count: u64,
) -> Result<WordList, AllocError>
    requires { at < length words }
    ensures { IfOk result (λ r. AddsInTwo words at count r) }
{
    let (memory, pass, mut spares) = TableWords::new(alloc, words, 2, count)?;
    let Some(spare) = spares.pop() else {
        unreachable!()
    };
    let pass = add_both(rt, &memory, pass, spare, at, count);
    memory.close(pass)
}

/// Two threads add to a word of a memory under a lock.
pub fn add_under_lock<R: Wait + Sync + Drop, T: Threads + Sync>(
    rt: R,
    threads: &T,
    alloc: Global,
    words: WordList,
    at: u32,
    count: u64,
) -> Result<WordList, AllocError>
    requires { at < length words }
    ensures { IfOk result (λ r. AddsInTwo words at count r) }
{
    let (memory, pass, mut spares) = LockedWords::new(rt, alloc, words, 2, count)?;
    let Some(spare) = spares.pop() else {
        unreachable!()
    };
    let pass = add_both(threads, &memory, pass, spare, at, count);
    memory.close(pass)
}
