//! The top call.

ghost use Rattle.std.specs.Prelude.{◌≡◌, ◌≢◌, ◌≤◌, true, IfSome, None};
ghost use Rattle.rt_base.specs.Outside.{Rose, KeepsContents};
ghost use Rattle.command.specs.Lines.{texts};
ghost use Rattle.rtsan_core.specs.Served.{is_served, served_command};
ghost use Rattle.rtsan_core.specs.Causes.{OutOfMemory};
ghost use Rattle.rtsan_core.specs.Ladder.{Ladder, CommandLadder};
ghost use Rattle.rtsan_core.specs.Outcomes.{IsOutcome, IsUndisturbed, IsCalm, HasTheAnswer, IsPrinted, answer_of};
ghost use Rattle.rtsan_core.specs.Rows.{HasLine, IsStopped, FileFailed, IsRefused, IsOverLimit, IsUnlinked, IsRunOf, Exactly, LeftReports, LeftTrapped, LeftStopped};

use crate::commands::{check_unit, step_unit};
use crate::printed::{print_no_memory, print_usage};
use crate::served::read_served;
use crate::status::{Outcome, Status, ended};
use command::{Command, Job, WordsFault};
use rt_base::{Files, Sink};
use std::alloc::Global;
use std::sync::Wait;
use std::thread::Threads;

/// Is called before each slice of a C thread, and promises nothing.
pub trait Gate: Sync {
    fn before_slice(&self, thread: u32);
}

/// Runs a command: the words after the program's name, over files and into a sink.
pub fn serve<R: Threads + Wait + Copy + Send + Sync, F: Files, S: Sink, G: Gate>(
    rt: R,
    alloc: Global,
    words: &[&str],
    files: &mut F,
    out: &mut S,
    gate: &G,
) -> Outcome
    // status, text and what is left belong together, by where the ladder ends
    ensures outcome { IsOutcome (Ladder (texts words.now) (F.state files.old) (F.state files.new))
        result (S.state out.old) (S.state out.new) }
    // a status from 3 to 9 other than the write fault has one line and leaves nothing
    ensures line { HasLine result.status →
        IsStopped (Ladder (texts words.now) (F.state files.old) (F.state files.new))
        result (S.state out.old) (S.state out.new) }
    ensures usage { result.status ≡ Status.Usage → served_command (texts words.now) ≡ None }
    ensures read_fault { result.status ≡ Status.ReadFault →
        FileFailed (texts words.now) (F.state files.old) (F.state files.new) }
    ensures write_fault { result.status ≡ Status.WriteFault →
        Rose (S.state out.old).faults (S.state out.new).faults }
    ensures refused { result.status ≡ Status.Refused → IsRefused (texts words.now) (F.state files.old) }
    ensures limit { result.status ≡ Status.Limit → IsOverLimit (texts words.now) (F.state files.old) }
    ensures unlinked { result.status ≡ Status.Unlinked → IsUnlinked (texts words.now) (F.state files.old) }
    ensures reported { Exactly result.status Status.Reported (LeftReports result.finished) }
    ensures trapped { Exactly result.status Status.Trapped (LeftTrapped result.finished) }
    ensures stopped { Exactly result.status Status.Stopped (LeftStopped result.finished) }
    ensures left { IfSome result.finished (IsRunOf (texts words.now) (F.state files.old)) }
    // the answer is a function of the words and the bytes
    ensures determined { IsCalm (texts words.now) (F.state files.old) (F.state files.new)
        (S.state out.old) (S.state out.new) → result.status ≢ Status.NoMemory →
        HasTheAnswer (Ladder (texts words.now) (F.state files.old) (F.state files.new))
        result (S.state out.old) (S.state out.new) }
    ensures files { KeepsContents (F.state files.old) (F.state files.new) }
    ensures sink { (S.state out.old).faults ≤ (S.state out.new).faults }
{
    answer_words(alloc, words, files, out)
}

/// Runs the command of these words, which starts no thread.
fn answer_words<F: Files, S: Sink>(
    alloc: Global,
    words: &[&str],
    files: &mut F,
    out: &mut S,
) -> Outcome
    ensures outcome { IsOutcome (Ladder (texts words.now) (F.state files.old) (F.state files.new))
        result (S.state out.old) (S.state out.new) }
    ensures determined { IsCalm (texts words.now) (F.state files.old) (F.state files.new)
        (S.state out.old) (S.state out.new) → result.status ≢ Status.NoMemory →
        HasTheAnswer (Ladder (texts words.now) (F.state files.old) (F.state files.new))
        result (S.state out.old) (S.state out.new) }
    ensures files { KeepsContents (F.state files.old) (F.state files.new) }
{
    match read_served(alloc, words) {
        Ok(command) => answer_command(alloc, &command, files, out),
        Err(WordsFault::Usage) => ended(print_usage(out)),
        Err(WordsFault::NoMemory) => ended(print_no_memory(out)),
    }
}

/// Does the job of a command.
fn answer_command<F: Files, S: Sink>(
    alloc: Global,
    command: &Command,
    files: &mut F,
    out: &mut S,
) -> Outcome
    requires { is_served command.now.job ≡ true }
    ensures outcome { IsOutcome (CommandLadder command.now (F.state files.old) (F.state files.new))
        result (S.state out.old) (S.state out.new) }
    ensures determined { IsUndisturbed command.now.file (F.state files.old) (F.state files.new)
        (S.state out.old) (S.state out.new) → result.status ≢ Status.NoMemory →
        HasTheAnswer (CommandLadder command.now (F.state files.old) (F.state files.new))
        result (S.state out.old) (S.state out.new) }
    ensures files { KeepsContents (F.state files.old) (F.state files.new) }
{
    match command.job {
        Job::Check => check_unit(alloc, command, files, out),
        Job::Step => step_unit(alloc, command, files, out),
        Job::Run => unreachable!(),
        Job::Gen(_) => unreachable!(),
    }
}

/// What a caller answers where memory did not suffice for the words themselves.
pub fn out_of_memory<S: Sink>(out: &mut S) -> Outcome
    ensures printed { IsPrinted (answer_of OutOfMemory) result.status (S.state out.old) (S.state out.new) }
    ensures finished { result.finished ≡ None }
{
    ended(print_no_memory(out))
}
