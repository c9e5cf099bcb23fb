//! Events at a memory.

ghost use Rattle.std.specs.Prelude.{◌≡◌, ◌+◌, ◌<◌, length};
ghost use Rattle.machine_code.specs.Bounds.{IsInTable, table_words};
ghost use Rattle.src_model.specs.Runs.{HasItsWord};
ghost use Rattle.src_model.specs.Traces.{word_event};
ghost use Rattle.thread_run.specs.Slices.{dids};

use machine_code::Ask;
use word_mem::Words;

/// Makes the word event that an event is, if it is one, and gives the word that answers it; 0 where none does.
#[tactic(auto, using(crate::proofs::Growing::dids_none))]
pub(crate) fn perform<W: Words>(words: &W, pass: &mut W::Pass, ask: Ask) -> u64
    requires size { length (W.place words.now).opening ≡ table_words }
    requires within { IsInTable ask }
    requires calls { 0 < W.left pass.old }
    requires belongs { W.belongs (W.place words.now) pass.old }
    ensures held { W.held pass.new ≡ dids (W.held pass.old) (word_event ask result) }
    ensures left { W.left pass.new + length (word_event ask result) ≡ W.left pass.old }
    ensures heard { HasItsWord (record { ask = ask; word = result }) }
    ensures belongs { W.belongs (W.place words.now) pass.new }
{
    match ask {
        Ask::Load(at) => words.load(pass, at),
        Ask::Store(at, word) => {
            words.store(pass, at, word);
            0
        }
        Ask::Exchange(at, old, new) => words.compare_exchange(pass, at, old, new),
        Ask::FetchAdd(at, n) => words.fetch_add(pass, at, n),
        Ask::FetchSub(at, n) => words.fetch_sub(pass, at, n),
        Ask::Enter(_, _) => 0,
        Ask::Leave => 0,
        Ask::Reach(_, _) => 0,
        Ask::Create(_, _) => 0,
        Ask::Out(_) => 0,
        Ask::Trap(_) => 0,
        Ask::Over(_) => 0,
    }
}
