//! The command words.

ghost use Rattle.std.specs.Prelude.{◌≡◌, codes, Some, None};
ghost use Rattle.command.specs.Lines.{texts, pairs};
ghost use Rattle.command.specs.Commands.{takes, takes_all, job_of, file_of, if_taken, command_from, command_of};
ghost use Rattle.command.specs.Readings.{IsReading};

use crate::fault::WordsFault;
use crate::forms::number_within;
use crate::line::{Given, read_line};
use crate::lists::{ArgList, NumberList};
use crate::settings::{read_limits, read_lists, read_texts};
use crate::text::Text;
use std::alloc::Global;

/// What a command does.
#[derive(Clone, Copy)]
pub enum Job {
    /// Warn by the function effect rules.
    Check,
    /// Warn, and run the file event by event under the detector.
    Step,
    /// Warn, and run the file in threads under the detector.
    Run,
    /// Make a text of this many functions and run it.
    Gen(u32),
}

/// A command.
#[derive(Drop)]
pub struct Command {
    pub job: Job,
    /// The name of the source file, empty for `gen`.
    pub file: Text,
    /// The option text as it was given.
    pub options: Option<Text>,
    /// The name of the suppression file.
    pub suppressions: Option<Text>,
    /// The name of the function that thread 0 runs.
    pub entry: Text,
    /// The numbers that the entry is given.
    pub args: ArgList,
    /// The threads in the order of their first turns.
    pub schedule: NumberList,
    /// The most events of a thread.
    pub events: u32,
    /// The most tries in a row of one call that waits.
    pub wait_limit: u32,
    /// The threads of the host that run the file's threads.
    pub workers: u32,
}

#[tactic(auto, unfolding(crate::specs::Commands::takes))]
fn takes(job: Job, name: &str) -> bool
    ensures { result ≡ takes job name.now }
{
    match job {
        Job::Check => false,
        Job::Step => name != "--workers",
        Job::Run => name != "--schedule",
        Job::Gen(_) => false,
    }
}

fn takes_all(job: Job, given: &[Given]) -> bool
    ensures { result ≡ takes_all job (pairs given.now) }
{
    let mut rest = given;
    'options: while let [first, later @ ..] = rest {
        if !takes(job, first.name) {
            return false;
        }
        rest = later;
    }
    true
}

fn job_of(word: &str, operand: &str) -> Option<Job>
    ensures { result ≡ job_of word.now operand.now }
{
    if operand.is_empty() {
        return None;
    }
    match word {
        "check" => Some(Job::Check),
        "step" => Some(Job::Step),
        "run" => Some(Job::Run),
        "gen" => {
            let count = number_within(operand.as_bytes(), 1, 4000)?;
            Some(Job::Gen(count))
        }
        _ => None,
    }
}

fn file_of<'a>(job: Job, operand: &'a str) -> &'a str
    ensures { result.now ≡ file_of job operand.now }
{
    match job {
        Job::Gen(_) => "",
        Job::Check => operand,
        Job::Step => operand,
        Job::Run => operand,
    }
}

fn with_options(alloc: Global, job: Job, file: &str, given: &[Given]) -> Result<Command, WordsFault>
    ensures { IsReading (if_taken job file.now (pairs given.now)) result }
{
    if !takes_all(job, given) {
        return Err(WordsFault::Usage);
    }
    let file = Text::new(alloc, file)?;
    let texts = read_texts(alloc, given)?;
    let limits = read_limits(given)?;
    let lists = read_lists(alloc, given)?;
    Ok(Command {
        job,
        file,
        options: texts.options,
        suppressions: texts.suppressions,
        entry: texts.entry,
        args: lists.args,
        schedule: lists.schedule,
        events: limits.events,
        wait_limit: limits.wait_limit,
        workers: limits.workers,
    })
}

fn command_from(alloc: Global, words: &[&str], given: &[Given]) -> Result<Command, WordsFault>
    ensures { IsReading (command_from (texts words.now) (pairs given.now)) result }
{
    let [word, operand] = words else {
        return Err(WordsFault::Usage);
    };
    match job_of(word, operand) {
        Some(job) => with_options(alloc, job, file_of(job, operand), given),
        None => Err(WordsFault::Usage),
    }
}

/// The command that these words are, which are those behind the program's name.
///
/// # Errors
///
/// Usage comes exactly where they are no command.
pub fn read_words(alloc: Global, words: &[&str]) -> Result<Command, WordsFault>
    ensures { IsReading (command_of (texts words.now)) result }
{
    let line = read_line(alloc, words)?;
    command_from(alloc, line.words.as_slice(), line.given.as_slice())
}
