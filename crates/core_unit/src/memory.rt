//! What memory holds when a run begins.

ghost use Rattle.std.specs.Prelude.{◌≡◌, ◌++◌, ◌+◌, ◌*◌, ◌^◌, ◌<◌, ◌≤◌, ℕ, length, replicate, IfOk, OnOk};
ghost use Rattle.core_unit.specs.Layout.{region, copies, opening_of};

use std::alloc::{AllocError, Global};

/// How many words the regions of threads have, one for each thread.
const THREADS: usize = 64;
/// The words of the region of a thread.
const REGION_WORDS: usize = 5120;
/// The address of the break; the halt word stands before it.
const BREAK: usize = (1 << 20) + 1;
/// How many words stand behind the break.
const LAST_WORDS: usize = 190;

/// Adds words that are zero.
fn add_zeros(words: &mut Vec<u64>, count: usize) -> Result<(), AllocError>
    requires { length words.old.items + count < 2 ^ 32 }
    ensures { OnOk result (words.new.items ≡ words.old.items ++ replicate count 0) }
{
    words.resize(words.len() + count, 0)
}

/// Adds the region of a thread.
fn add_region(words: &mut Vec<u64>, thread_words: &[u64]) -> Result<(), AllocError>
    requires few { length thread_words.now ≤ 1024 }
    requires room { length words.old.items < 2 ^ 30 }
    ensures { OnOk result (words.new.items ≡ words.old.items ++ region thread_words.now) }
{
    words.extend_from_slice(thread_words)?;
    add_zeros(words, REGION_WORDS - thread_words.len())
}

/// Adds the regions of all threads.
#[tactic(auto, using(crate::proofs::Regions::one_more, crate::proofs::Regions::room_for))]
fn add_regions(words: &mut Vec<u64>, thread_words: &[u64]) -> Result<(), AllocError>
    requires few { length thread_words.now ≤ 1024 }
    requires room { length words.old.items ≤ 2 ^ 20 }
    ensures { OnOk result (words.new.items ≡ words.old.items ++ copies 64 (region thread_words.now)) }
{
    'each: for _ in 0..THREADS {
        add_region(words, thread_words)?;
    }
    Ok(())
}

/// The words of memory at first, where the objects hold these.
#[tactic(auto, unfolding(crate::specs::Layout::opening_of), using(crate::proofs::Regions::room_for))]
pub fn opening(
    alloc: Global,
    static_words: &[u64],
    thread_words: &[u64],
) -> Result<Vec<u64>, AllocError>
    requires few { length static_words.now ≤ 524288 }
    requires few_thread { length thread_words.now ≤ 1024 }
    ensures { IfOk result (λ words. words.items ≡ opening_of static_words.now thread_words.now) }
{
    let heap = 1 + static_words.len() + THREADS * REGION_WORDS;
    let mut words = Vec::new(alloc);
    words.push(0)?;
    words.extend_from_slice(static_words)?;
    add_regions(&mut words, thread_words)?;
    add_zeros(&mut words, BREAK - heap)?;
    words.push(heap as u64)?;
    add_zeros(&mut words, LAST_WORDS)?;
    Ok(words)
}
