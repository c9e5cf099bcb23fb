//! Work over any memory.
ghost use Rattle.std.specs.Prelude.{◌≡◌, ◌≢◌, ◌+◌, ◌<◌, ◌≤◌, All, map, reverse, length};
ghost use Rattle.word_mem.specs.Held.{born, makes, IsWhole, HasMerge};
ghost use Rattle.word_threads.specs.Work.{Adds, BothAdd, joins_all};

use std::thread;
use std::thread::Threads;
use word_mem::{Words, law_merged};

/// Adds one to a word, so many times.
#[tactic(auto, using(crate::proofs::Adding::Adds_none))]
pub fn add_many<W: Words>(words: &W, pass: &mut W::Pass, at: u32, count: u64)
    requires within { at < length (W.place words.now).opening }
    requires calls { count ≤ W.left pass.old }
    requires belongs { W.belongs (W.place words.now) pass.old }
    ensures held { Adds at count (W.held pass.old) (W.held pass.new) }
    ensures left { W.left pass.new + count ≡ W.left pass.old }
    ensures belongs { W.belongs (W.place words.now) pass.new }
{
    let mut done = 0;
    while done < count {
        words.fetch_add(pass, at, 1);
        done += 1;
    }
}

/// The same with a pass that is handed in and back.
fn added<W: Words>(words: &W, mut pass: W::Pass, at: u32, count: u64) -> W::Pass
    requires within { at < length (W.place words.now).opening }
    requires calls { count ≤ W.left pass }
    requires belongs { W.belongs (W.place words.now) pass }
    ensures held { Adds at count (W.held pass) (W.held result) }
    ensures belongs { W.belongs (W.place words.now) result }
{
    add_many(words, &mut pass, at, count);
    pass
}

/// Joins all passes of a list, the last first.
pub fn join_all<W: Words>(words: &W, pass: &mut W::Pass, mut others: Vec<W::Pass>)
    requires belongs { W.belongs (W.place words.now) pass.old }
    requires others { All (λ p. W.belongs (W.place words.now) p) others.items }
    ensures held { W.held pass.new ≡ joins_all (W.held pass.old) (reverse (map W.held others.items)) }
    ensures left { W.left pass.new ≡ W.left pass.old }
    ensures belongs { W.belongs (W.place words.now) pass.new }
{
    while let Some(other) = others.pop() {
        words.join(pass, other);
    }
    others.destroy_empty();
}

/// Two threads add to one word. Their passes are joined again, and their lists have a legal merge.
pub fn add_both<W: Words + Sync, R: Threads + Sync>(
    rt: &R,
    words: &W,
    mut pass: W::Pass,
    spare: W::Spare,
    at: u32,
    count: u64,
) -> W::Pass
where
    W::Pass: Send + Drop,
    requires within { at < length (W.place words.now).opening }
    requires calls { (count ≤ W.left pass) × (count ≤ W.calls spare) }
    requires belongs { W.belongs (W.place words.now) pass × W.spares (W.place words.now) spare }
    requires first { (W.held pass ≡ born 0) × (W.number spare ≢ 0) }
    ensures held { BothAdd at count (W.number spare) (W.held result) }
    ensures whole { IsWhole (W.held result) }
    ensures merge { HasMerge (W.place words.now).opening (W.held result) }
    ensures belongs { W.belongs (W.place words.now) result }
{
    let child = words.split(&mut pass, spare);
    let (mut pass, child) = thread::join(
        rt,
        move || -> W::Pass
            requires { (at < length (W.place words.now).opening) × (count ≤ W.left pass) × W.belongs (W.place words.now) pass }
            ensures { Adds at count (W.held pass) (W.held result) × W.belongs (W.place words.entry.now) result }
        { added(words, pass, at, count) },
        move || -> W::Pass
            requires { (at < length (W.place words.now).opening) × (count ≤ W.left child) × W.belongs (W.place words.now) child }
            ensures { Adds at count (W.held child) (W.held result) × W.belongs (W.place words.entry.now) result }
        { added(words, child, at, count) },
    );
    words.join(&mut pass, child);
    law_merged(words, &pass);
    pass
}
