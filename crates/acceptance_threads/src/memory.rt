//! The three memories of words.
ghost use Rattle.std.specs.Prelude.{◌≡◌, length, IfOk};

use std::alloc::{AllocError, Global};
use std::test::Fail;
use word_mem::{LockedWords, PlainWords, WordList, Words};
use word_table::TableWords;
use word_threads::{add_alone, add_in_two, add_under_lock, join_all};

/// Three words.
fn three(alloc: Global) -> Result<WordList, AllocError>
    ensures { IfOk result (λ words. length words ≡ 3) }
{
    Ok(WordList::new(vec![in alloc; 7, 8, 9]?))
}

#[test]
fn a_stored_word_stands_after_close_in_a_plain_memory(rt: HostRuntime) -> Result<(), Fail> {
    let (memory, mut pass, spares) = PlainWords::new(rt.alloc(), three(rt.alloc())?, 1, 2)?;
    assert!(rt; spares.is_empty());
    memory.store(&mut pass, 1, 50);
    let found = memory.compare_exchange(&mut pass, 2, 8, 1);
    let words = memory.close(pass)?;
    assert_eq!(rt; found, 9);
    assert_eq!(rt; words.as_slice(), [7, 50, 9].as_slice());
    Ok(())
}

#[test]
fn a_stored_word_stands_after_close_in_a_table(rt: HostRuntime) -> Result<(), Fail> {
    let (memory, mut pass, _spares) = TableWords::new(rt.alloc(), three(rt.alloc())?, 2, 2)?;
    memory.store(&mut pass, 1, 50);
    let found = memory.compare_exchange(&mut pass, 0, 7, 1);
    let words = memory.close(pass)?;
    assert_eq!(rt; found, 7);
    assert_eq!(rt; words.as_slice(), [1, 50, 9].as_slice());
    Ok(())
}

#[test]
fn a_stored_word_stands_after_close_under_a_lock(rt: HostRuntime) -> Result<(), Fail> {
    let alloc = rt.alloc();
    let (memory, mut pass, _spares) = LockedWords::new(rt, alloc, three(alloc)?, 2, 2)?;
    memory.store(&mut pass, 1, 50);
    let found = memory.fetch_sub(&mut pass, 0, 8);
    let words = memory.close(pass)?;
    assert_eq!(rt; found, 7);
    assert_eq!(rt; words.as_slice(), [u64::MAX, 50, 9].as_slice());
    Ok(())
}

#[test]
fn one_pass_adds(rt: HostRuntime) -> Result<(), Fail> {
    let words = add_alone(rt.alloc(), three(rt.alloc())?, 2, 1000)?;
    assert_eq!(rt; words.as_slice(), [7, 8, 1009].as_slice());
    Ok(())
}

#[test]
fn two_threads_add_on_one_word_of_a_table(rt: HostRuntime) -> Result<(), Fail> {
    let words = add_in_two(&rt, rt.alloc(), three(rt.alloc())?, 1, 10_000)?;
    assert_eq!(rt; words.as_slice(), [7, 20_008, 9].as_slice());
    Ok(())
}

#[test]
fn two_threads_add_on_one_word_under_a_lock(rt: HostRuntime) -> Result<(), Fail> {
    let alloc = rt.alloc();
    let words = add_under_lock(rt, &rt, alloc, three(alloc)?, 1, 1000)?;
    assert_eq!(rt; words.as_slice(), [7, 2008, 9].as_slice());
    Ok(())
}

#[test]
fn the_journal_has_each_event(rt: HostRuntime) -> Result<(), Fail> {
    let alloc = rt.alloc();
    let (memory, mut pass, _spares) = LockedWords::new(rt, alloc, three(alloc)?, 1, 2)?;
    memory.store(&mut pass, 1, 50);
    let found = memory.load(&mut pass, 1);
    let journal = memory.close_log(pass)?;
    assert_eq!(rt; found, 50);
    assert_eq!(rt; journal.len(), 2);
    Ok(())
}

#[test]
fn no_other_pass_is_joined(rt: HostRuntime) -> Result<(), Fail> {
    let (memory, mut pass, _spares) = TableWords::new(rt.alloc(), three(rt.alloc())?, 1, 1)?;
    join_all(&memory, &mut pass, Vec::new(rt.alloc()));
    let words = memory.close(pass)?;
    assert_eq!(rt; words.len(), 3);
    Ok(())
}
