//! Slices: events of a thread with the passes that it holds.

ghost use Rattle.std.specs.Prelude.{◌≡◌, ◌+◌, ◌<◌, ◌≤◌, length, true, false, None};
ghost use Rattle.machine_code.specs.Bounds.{IsInTable, table_words};
ghost use Rattle.thread_run.specs.Slices.{IsMade, WentOn, IsEnough, IsTurn, made_since};
ghost use Rattle.thread_run.specs.Threads.{makes, next_event, end_of, is_creation, is_last_a_try};
ghost use Rattle.thread_run.specs.Worlds.{CanRun};
ghost use Rattle.mcode.specs.declared.events.Ask.TheVariants.{Create};

use crate::judged::Judged;
use crate::performing::perform;
use crate::running::Running;
use crate::turn::Turn;
use crate::world::World;
use machine_code::{Ask, Turned};
use reports::Board;
use word_mem::Words;

/// Makes the next event of a thread, which is no Create. Tells whether it was a failed try.
#[tactic(auto, using(crate::proofs::Growing::made_here, crate::proofs::Growing::can_answer))]
fn step<W: Words, B: Board>(
    running: &mut Running,
    world: &World<'_>,
    words: &W,
    board: &B,
    passes: &mut (W::Pass, B::Pass),
    ask: Ask,
) -> bool
    requires runs { CanRun world.now }
    requires world { running.old.world ≡ world.now }
    requires going { end_of running.old ≡ None }
    requires next { ask ≡ next_event running.old }
    requires within { IsInTable ask }
    requires settled { is_creation ask ≡ false }
    requires size { length (W.place words.now).opening ≡ table_words }
    requires belongs { W.belongs (W.place words.now) passes.old.0 }
    requires calls { 0 < W.left passes.old.0 }
    requires board { B.belongs (B.place board.now) passes.old.1 }
    requires can { B.can_report passes.old.1 ≡ true }
    ensures made { IsMade B.is_exact ask running.old running.new (W.held passes.old.0) (W.held passes.new.0) (W.left passes.old.0) (W.left passes.new.0) (B.held passes.old.1) (B.held passes.new.1) }
    ensures belongs { W.belongs (W.place words.now) passes.new.0 }
    ensures board { B.belongs (B.place board.now) passes.new.1 }
    ensures can { B.can_report passes.new.1 ≡ true }
    ensures tried { result ≡ is_last_a_try running.new.world running.new.begin running.new.trace }
    ensures parted { end_of running.new ≡ None → result ≡ true → is_creation (next_event running.new) ≡ false }
{
    let judged = running.judge(world, board, &mut passes.1, ask);
    let word = perform(words, &mut passes.0, ask);
    match running.make(world, ask, word, judged) {
        Turned::FailedTry => true,
        Turned::Went => false,
    }
}

/// Makes up to so many events of a thread that hasn't ended. It stops after a failed try, before a Create, and where the thread has
/// ended; where a Create comes next already, it makes none.
pub(crate) fn slice<W: Words, B: Board>(
    running: &mut Running,
    world: &World<'_>,
    words: &W,
    board: &B,
    passes: &mut (W::Pass, B::Pass),
    events: u32,
) -> Turn
    requires runs { CanRun world.now }
    requires world { running.old.world ≡ world.now }
    requires events { 0 < events }
    requires going { end_of running.old ≡ None }
    requires size { length (W.place words.now).opening ≡ table_words }
    requires belongs { W.belongs (W.place words.now) passes.old.0 }
    requires enough { IsEnough running.old events (W.left passes.old.0) }
    requires board { B.belongs (B.place board.now) passes.old.1 }
    requires can { B.can_report passes.old.1 ≡ true }
    ensures went { WentOn B.is_exact running.old running.new (W.held passes.old.0) (W.held passes.new.0) (W.left passes.old.0) (W.left passes.new.0) (B.held passes.old.1) (B.held passes.new.1) }
    ensures few { made_since running.old running.new ≤ events }
    ensures turn { IsTurn result events (made_since running.old running.new) running.new }
    ensures belongs { W.belongs (W.place words.now) passes.new.0 }
    ensures board { B.belongs (B.place board.now) passes.new.1 }
    ensures can { B.can_report passes.new.1 ≡ true }
{
    let mut made = 0;
    'events: loop {
        let ask = running.next(world);
        if let Ask::Create(function, argument) = ask {
            return Turn::Create(function, argument);
        }
        if made == events {
            return Turn::More;
        }
        let tried = step(running, world, words, board, passes, ask);
        made += 1;
        if running.has_ended() {
            return Turn::Ended;
        }
        if tried {
            return Turn::Tried;
        }
    }
}

/// Answers the Create that comes next, by a number or by none. Gives the function and the argument of that.
pub(crate) fn answer_creation(running: &mut Running, world: &World<'_>, number: u32) -> (u32, u64)
    requires runs { CanRun world.now }
    requires world { running.old.world ≡ world.now }
    requires going { end_of running.old ≡ None }
    requires creation { is_creation (next_event running.old) ≡ true }
    requires low { number < 64 }
    ensures made { running.new ≡ makes running.old (next_event running.old) number false }
    ensures creation { next_event running.old ≡ Create result.0 result.1 }
{
    let ask = running.next(world);
    match ask {
        Ask::Create(function, argument) => {
            running.make(world, ask, u64::from(number), Judged::Passed);
            (function, argument)
        }
        Ask::Load(_)
        | Ask::Store(_, _)
        | Ask::Exchange(_, _, _)
        | Ask::FetchAdd(_, _)
        | Ask::FetchSub(_, _)
        | Ask::Enter(_, _)
        | Ask::Leave
        | Ask::Reach(_, _)
        | Ask::Out(_)
        | Ask::Trap(_)
        | Ask::Over(_) => unreachable!(),
    }
}
