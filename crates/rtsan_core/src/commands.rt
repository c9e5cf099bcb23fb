//! The jobs: from a command and its file to a printed answer.

ghost use Rattle.std.specs.Prelude.{◌≡◌, ◌≢◌, ◌≤◌};
ghost use Rattle.rt_base.specs.Outside.{KeepsContents};
ghost use Rattle.rtsan_core.specs.Ladder.{CommandLadder};
ghost use Rattle.rtsan_core.specs.Outcomes.{IsOutcome, IsUndisturbed, HasTheAnswer};

use crate::printed::{print_refusal, print_warnings};
use crate::reading::read_file;
use crate::status::{Outcome, Status, ended};
use crate::stepping::step_command;
use command::{Command, Job};
use rt_base::{Files, Sink};
use std::alloc::Global;

/// Warns by the function effect rules: reads the file of the command and prints its warnings, or the line of the status. The
/// command is one of `check`.
pub fn check_unit<F: Files, S: Sink>(
    alloc: Global,
    command: &Command,
    files: &mut F,
    out: &mut S,
) -> Outcome
    requires { command.now.job ≡ Job.Check }
    ensures outcome { IsOutcome (CommandLadder command.now (F.state files.old) (F.state files.new))
        result (S.state out.old) (S.state out.new) }
    ensures determined { IsUndisturbed command.now.file (F.state files.old) (F.state files.new)
        (S.state out.old) (S.state out.new) → result.status ≢ Status.NoMemory →
        HasTheAnswer (CommandLadder command.now (F.state files.old) (F.state files.new))
        result (S.state out.old) (S.state out.new) }
    ensures files { KeepsContents (F.state files.old) (F.state files.new) }
{
    let file = command.file.as_str();
    match read_file(alloc, files, file) {
        Ok(found) => ended(print_warnings(out, file, &found)),
        Err(refusal) => ended(print_refusal(out, file, refusal)),
    }
}

/// Warns, and runs the file of the command event by event, as one C thread from `main`: prints the warnings, the reports and
/// the ending of the thread, or the line of the status. The command is one of `step`; with other options than the defaults it
/// isn't run.
pub fn step_unit<F: Files, S: Sink>(
    alloc: Global,
    command: &Command,
    files: &mut F,
    out: &mut S,
) -> Outcome
    requires { command.now.job ≡ Job.Step }
    ensures outcome { IsOutcome (CommandLadder command.now (F.state files.old) (F.state files.new))
        result (S.state out.old) (S.state out.new) }
    ensures determined { IsUndisturbed command.now.file (F.state files.old) (F.state files.new)
        (S.state out.old) (S.state out.new) → result.status ≢ Status.NoMemory →
        HasTheAnswer (CommandLadder command.now (F.state files.old) (F.state files.new))
        result (S.state out.old) (S.state out.new) }
    ensures files { KeepsContents (F.state files.old) (F.state files.new) }
{
    let file = command.file.as_str();
    match read_file(alloc, files, file) {
        Ok(found) => step_command(alloc, out, command, &found),
        Err(refusal) => ended(print_refusal(out, file, refusal)),
    }
}
