//! How threads end.

ghost use Rattle.std.specs.Prelude.{◌≡◌, ◌+◌, ◌<◌, ◌^◌};
ghost use Rattle.mcode.specs.declared.events.Turned.TheVariants.{Went};
ghost use Rattle.src_model.specs.Runs as runs;
ghost use Rattle.thread_run.specs.UnderWay.{one_if};

use machine_code::{Ask, Finish, Turned};
use src_model::{End, Options};

/// The address of the word that tells all threads to halt; from there on stand the words of endings.
const HALT: u32 = 1 << 20;

/// The ending of a finished thread.
fn end_of(finish: Finish) -> End
    ensures { result ≡ runs.end_by finish }
{
    match finish {
        Finish::Returned => End::Returned,
        Finish::Exited(status) => End::Exited(status),
        Finish::Trapped(kind) => End::Trapped(kind),
        Finish::Halted => End::Halted,
    }
}

/// Whether an ending has begun with this event.
fn is_ending(ask: Ask) -> bool
    ensures { result ≡ runs.is_ending ask }
{
    match ask {
        Ask::Trap(_) => true,
        Ask::Store(at, _) => at >= HALT,
        Ask::Load(_)
        | Ask::Exchange(_, _, _)
        | Ask::FetchAdd(_, _)
        | Ask::FetchSub(_, _)
        | Ask::Enter(_, _)
        | Ask::Leave
        | Ask::Reach(_, _)
        | Ask::Create(_, _)
        | Ask::Out(_)
        | Ask::Over(_) => false,
    }
}

/// The ending of a thread with this next event, which made so many events, the last of them so many failed tries in a row.
pub(crate) fn ending(options: Options, ask: Ask, made: u64, tries: u64) -> Option<End>
    ensures { result ≡ runs.ending options ask made tries }
{
    match ask {
        Ask::Over(finish) => Some(end_of(finish)),
        Ask::Load(_)
        | Ask::Store(_, _)
        | Ask::Exchange(_, _, _)
        | Ask::FetchAdd(_, _)
        | Ask::FetchSub(_, _)
        | Ask::Enter(_, _)
        | Ask::Leave
        | Ask::Reach(_, _)
        | Ask::Create(_, _)
        | Ask::Out(_)
        | Ask::Trap(_) => {
            if u64::from(options.wait_limit) <= tries {
                Some(End::Waiting)
            } else if is_ending(ask) || made < u64::from(options.events) {
                None
            } else {
                Some(End::Stopped)
            }
        }
    }
}

/// The failed tries in a row after an event that turned out so.
pub(crate) fn tries_with(turned: Turned, ask: Ask, tries: u64) -> u64
    requires { tries + 1 < 2 ^ 64 }
    ensures { result ≡ runs.tries_with turned ask tries }
{
    match turned {
        Turned::FailedTry => tries + 1,
        Turned::Went => tries_after(ask, tries),
    }
}

/// The failed tries in a row after an event that is none.
fn tries_after(ask: Ask, tries: u64) -> u64
    ensures { result ≡ runs.tries_with Went ask tries }
{
    match ask {
        Ask::Load(at) => { if at == HALT { tries } else { 0 } }
        Ask::Store(_, _)
        | Ask::Exchange(_, _, _)
        | Ask::FetchAdd(_, _)
        | Ask::FetchSub(_, _)
        | Ask::Enter(_, _)
        | Ask::Leave
        | Ask::Reach(_, _)
        | Ask::Create(_, _)
        | Ask::Out(_)
        | Ask::Trap(_)
        | Ask::Over(_) => 0,
    }
}

/// One more, where this is so.
pub(crate) fn counted(count: u64, is_more: bool) -> u64
    requires { count + 1 < 2 ^ 64 }
    ensures { result ≡ count + one_if is_more }
{
    if is_more { count + 1 } else { count }
}
