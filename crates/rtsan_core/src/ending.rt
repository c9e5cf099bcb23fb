//! The status of what a command found.

ghost use Rattle.std.specs.Prelude.{◌≡◌};
ghost use Rattle.rtsan_core.specs.Runs.{is_full, is_trapped, is_stopped, has_full, has_trapped, has_stopped, status_by, status_with, run_status};

use crate::finished::Finished;
use crate::reading::Found;
use crate::status::Status;
use built_model::End;

/// The status of a unit, where nothing else is said of it than what is warned of.
pub fn warned_status(found: &Found) -> Status
    ensures { result ≡ status_with found.now.read.warnings found.now.verdicts.warnings }
{
    if !found.read.warnings.as_slice().is_empty() {
        Status::Warned
    } else if !found.verdicts.warnings().is_empty() {
        Status::Warned
    } else {
        Status::Clean
    }
}

/// The status of a run, by what it left, and else by what is warned of.
pub fn run_status(warned: Status, finished: &Finished) -> Status
    ensures { result ≡ run_status warned finished.now }
{
    let reported = finished.total > 0;
    status_by(
        reported,
        has_full(finished),
        has_trapped(finished),
        has_stopped(finished),
        warned,
    )
}

/// The first status that applies.
fn status_by(reported: bool, full: bool, trapped: bool, stopped: bool, warned: Status) -> Status
    ensures { result ≡ status_by reported full trapped stopped warned }
{
    if reported {
        Status::Reported
    } else if full {
        Status::Reported
    } else if trapped {
        Status::Trapped
    } else if stopped {
        Status::Stopped
    } else {
        warned
    }
}

/// Whether there was no room for a report of a thread.
fn has_full(finished: &Finished) -> bool
    ensures { result ≡ has_full finished.now }
{
    let threads = finished.threads.as_slice();
    threads.iter().any(|thread| is_full(thread.end))
}

/// Whether a thread was trapped.
fn has_trapped(finished: &Finished) -> bool
    ensures { result ≡ has_trapped finished.now }
{
    let threads = finished.threads.as_slice();
    threads.iter().any(|thread| is_trapped(thread.end))
}

/// Whether a thread was stopped.
fn has_stopped(finished: &Finished) -> bool
    ensures { result ≡ has_stopped finished.now }
{
    let threads = finished.threads.as_slice();
    threads.iter().any(|thread| is_stopped(thread.end))
}

fn is_full(end: End) -> bool
    ensures { result ≡ is_full end }
{
    matches!(end, End::Full)
}

fn is_trapped(end: End) -> bool
    ensures { result ≡ is_trapped end }
{
    matches!(end, End::Trapped(_))
}

fn is_stopped(end: End) -> bool
    ensures { result ≡ is_stopped end }
{
    match end {
        End::Stopped => true,
        End::Waiting => true,
        _ => false,
    }
}
