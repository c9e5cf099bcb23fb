//! What is served so far of the commands that words may be.

ghost use Rattle.std.specs.Prelude.{◌≡◌, ◌↔◌, true, IsTrue, IfOk};
ghost use Rattle.command.specs.Lines.{texts};
ghost use Rattle.command.specs.Readings.{IsReading};
ghost use Rattle.rtsan_core.specs.Served.{is_served, served_command, HasDefaults};

use command::{Command, EVENT_LIMIT, Job, WAIT_LIMIT, WordsFault, read_words};
use std::alloc::Global;

/// The command that the words are, where they are one and it is served.
#[tactic(auto, unfolding(crate::specs::Served::served_command))]
pub fn read_served(alloc: Global, words: &[&str]) -> Result<Command, WordsFault>
    ensures reading { IsReading (served_command (texts words.now)) result }
    ensures served { IfOk result (λ command. is_served command.job ≡ true) }
{
    let command = read_words(alloc, words)?;
    if !is_served(command.job) {
        return Err(WordsFault::Usage);
    }
    Ok(command)
}

/// Whether the program does this job yet.
fn is_served(job: Job) -> bool
    ensures { result ≡ is_served job }
{
    match job {
        Job::Check => true,
        Job::Step => true,
        Job::Run => false,
        Job::Gen(_) => false,
    }
}

/// Whether each option of `step` has the value that it has where it isn't given.
pub fn has_defaults(command: &Command) -> bool
    ensures { IsTrue result ↔ HasDefaults command.now }
{
    if command.options.is_some() {
        return false;
    }
    if command.suppressions.is_some() {
        return false;
    }
    if command.entry.as_str() != "main" {
        return false;
    }
    if !command.args.as_slice().is_empty() {
        return false;
    }
    if !command.schedule.as_slice().is_empty() {
        return false;
    }
    if command.events != EVENT_LIMIT {
        return false;
    }
    command.wait_limit == WAIT_LIMIT
}
