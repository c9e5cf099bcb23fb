//! `step`: from a unit to its run.

ghost use Rattle.std.specs.Prelude.{◌≡◌, [], ◌∷◌, length, IfOk};
ghost use Rattle.std.specs.Option.{option_to_list};
ghost use Rattle.built_model.specs.Follows.{Behaves};
ghost use Rattle.built_reports.specs.Totals.{counted};
ghost use Rattle.built_form.specs.Built.{IsOfForm, AreCallsWithin};
ghost use Rattle.built_unit.specs.Units.{UnitParts};
ghost use Rattle.rtsan_core.specs.Ladder.{StepLadder, PlainLadder, RunLadder};
ghost use Rattle.rtsan_core.specs.Runs.{IsFinished};
ghost use Rattle.rtsan_core.specs.Found.{HasOneRun, IsReady, IsOnlyOutcome, ended_of};

use crate::finished::{Ended, EndedList, Finished};
use crate::printed::{ENTRY, print_no_memory, print_not_built, print_run, print_uncompiled};
use crate::reading::Found;
use crate::served::has_defaults;
use crate::status::{Outcome, ended};
use built_code::Code;
use built_codegen::compile;
use built_form::{FormRefusal, read_form};
use built_reports::collect_one;
use built_run::{Ran, run_thread};
use built_unit::Unit;
use command::Command;
use rt_base::Sink;
use std::alloc::{AllocError, Global};

/// The law of one run: a unit has one trace and one ending from each entry. The call itself does nothing.
pub fn law_one_run(unit: &Unit)
    ensures { HasOneRun unit.now }
{}

/// Does a `step` of the file that was found, where its unit is of the form that is run so far.
pub fn step_command<S: Sink>(
    alloc: Global,
    out: &mut S,
    command: &Command,
    found: &Found,
) -> Outcome
    requires { IsReady found.now }
    ensures { IsOnlyOutcome (StepLadder command.now found.now.source found.now.read) result (S.state out.old) (S.state out.new) }
{
    match read_form(alloc, found.source.as_slice(), found.read.tokens.as_slice()) {
        Ok(unit) => step_formed(alloc, out, command, found, &unit),
        Err(FormRefusal::NotBuilt) => ended(print_not_built(out)),
        Err(FormRefusal::NoMemory) => ended(print_no_memory(out)),
    }
}

/// Does it where the options are the defaults.
fn step_formed<S: Sink>(
    alloc: Global,
    out: &mut S,
    command: &Command,
    found: &Found,
    unit: &Unit,
) -> Outcome
    requires ready { IsReady found.now }
    requires placed { AreCallsWithin found.now.source unit.now }
    ensures { IsOnlyOutcome (PlainLadder command.now found.now.source found.now.read unit.now) result (S.state out.old) (S.state out.new) }
{
    if has_defaults(command) {
        step_plain(alloc, out, command.file.as_str(), found, unit)
    } else {
        ended(print_not_built(out))
    }
}

/// Runs the unit, and prints what is warned of, its reports and its ending, or why it can't be run.
fn step_plain<S: Sink>(
    alloc: Global,
    out: &mut S,
    file: &str,
    found: &Found,
    unit: &Unit,
) -> Outcome
    requires ready { IsReady found.now }
    requires placed { AreCallsWithin found.now.source unit.now }
    ensures { IsOnlyOutcome (RunLadder file.now found.now.source found.now.read unit.now) result (S.state out.old) (S.state out.new) }
{
    let code = match compile(alloc, unit, ENTRY) {
        Ok(code) => code,
        Err(refusal) => return ended(print_uncompiled(out, unit, refusal)),
    };
    law_one_run(unit);
    match run_code(alloc, unit, code) {
        Ok(finished) => {
            let status = print_run(out, file, found, unit, &finished);
            Outcome {
                status,
                finished: Some(finished),
            }
        }
        Err(AllocError) => ended(print_no_memory(out)),
    }
}

/// Runs the code of a unit as one thread, and collects what the run leaves. The only error is want of memory.
fn run_code(alloc: Global, unit: &Unit, code: Code) -> Result<Finished, AllocError>
    requires { Behaves unit.now code }
    ensures { IfOk result (IsFinished unit.now code.entry) }
{
    let ran = run_thread(alloc, unit, &code)?;
    let finished = collect(alloc, code, ran)?;
    Ok(finished)
}

/// What a run leaves, of its one thread.
fn collect(alloc: Global, code: Code, ran: Ran) -> Result<Finished, AllocError>
    ensures code { IfOk result (λ f. f.code ≡ code) }
    ensures thread { IfOk result (λ f. f.threads ≡ ended_of ran ∷ []) }
    ensures stacks { IfOk result (λ f. f.stacks ≡ counted (option_to_list ran.report)) }
    ensures total { IfOk result (λ f. f.total ≡ length (option_to_list ran.report)) }
    ensures unique { IfOk result (λ f. f.unique ≡ length f.stacks) }
    ensures suppressed { IfOk result (λ f. f.suppressed ≡ 0) }
{
    let reports = u64::from(ran.report.is_some());
    let stacks = collect_one(alloc, ran.report)?;
    let unique = stacks.len() as u64;
    let mut threads = EndedList::new(alloc);
    threads.push(Ended {
        number: 0,
        end: ran.end,
        events: ran.events,
        reports,
        suppressed: 0,
        trace: ran.trace,
        machine: ran.machine,
    })?;
    Ok(Finished {
        code,
        threads,
        stacks,
        total: reports,
        unique,
        suppressed: 0,
    })
}
