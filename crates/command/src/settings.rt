//! The values of options.

ghost use Rattle.std.specs.Prelude.{◌≡◌, [], codes, IfOk, IfErr, Some, None, option_copied};
ghost use Rattle.command.specs.Forms.{number_within, argument_of};
ghost use Rattle.command.specs.Lists.{list_of};
ghost use Rattle.command.specs.Lines.{pairs};
ghost use Rattle.command.specs.Settings.{sole, values_of, setting, some_text, identifier, texts_in, limits_in, lists_in};
ghost use Rattle.command.specs.Readings.{IsRefusal, IsReading};

use crate::fault::WordsFault;
use crate::forms::{is_identifier, number_within};
use crate::limits::{EVENT_LIMIT, WAIT_LIMIT};
use crate::line::Given;
use crate::lists::{ArgList, NumberList};
use crate::text::Text;
use std::alloc::Global;

/// The options that are texts.
#[derive(Drop)]
pub(crate) struct Texts {
    pub(crate) options: Option<Text>,
    pub(crate) suppressions: Option<Text>,
    pub(crate) entry: Text,
}

/// The options that are numbers.
#[derive(Clone, Copy)]
pub(crate) struct Limits {
    pub(crate) events: u32,
    pub(crate) wait_limit: u32,
    pub(crate) workers: u32,
}

/// The options that are lists.
#[derive(Drop)]
pub(crate) struct Lists {
    pub(crate) args: ArgList,
    pub(crate) schedule: NumberList,
}

// The one value that was given to the option of this name, if one was.
fn sole_value<'a>(name: &str, given: &[Given<'a>]) -> Result<Option<&'a str>, WordsFault>
    ensures value { IfOk result (λ value. sole (values_of name.now (pairs given.now)) ≡ Some (option_copied value)) }
    ensures refused { IfErr result (IsRefusal (sole (values_of name.now (pairs given.now)))) }
{
    let mut found = None;
    let mut rest = given;
    'options: while let [first, later @ ..] = rest {
        if first.name == name {
            if found.is_some() {
                return Err(WordsFault::Usage);
            }
            found = Some(first.value);
        }
        rest = later;
    }
    Ok(found)
}

fn number_setting(name: &str, default: u32, most: u32, given: &[Given]) -> Result<u32, WordsFault>
    ensures { IsReading (setting name.now default (number_within 1 most) (pairs given.now)) result }
{
    let Some(value) = sole_value(name, given)? else {
        return Ok(default);
    };
    match number_within(value.as_bytes(), 1, most) {
        Some(number) => Ok(number),
        None => Err(WordsFault::Usage),
    }
}

fn text_setting(alloc: Global, name: &str, given: &[Given]) -> Result<Option<Text>, WordsFault>
    ensures { IsReading (setting name.now None some_text (pairs given.now)) result }
{
    let Some(value) = sole_value(name, given)? else {
        return Ok(None);
    };
    if value.is_empty() {
        return Err(WordsFault::Usage);
    }
    let text = Text::new(alloc, value)?;
    Ok(Some(text))
}

fn read_entry(alloc: Global, given: &[Given]) -> Result<Text, WordsFault>
    ensures { IsReading (setting (codes "--entry") (codes "main") identifier (pairs given.now)) result }
{
    let Some(name) = sole_value("--entry", given)? else {
        let main = Text::new(alloc, "main")?;
        return Ok(main);
    };
    if !is_identifier(name.as_bytes()) {
        return Err(WordsFault::Usage);
    }
    let name = Text::new(alloc, name)?;
    Ok(name)
}

pub(crate) fn read_texts(alloc: Global, given: &[Given]) -> Result<Texts, WordsFault>
    ensures { IsReading (texts_in (pairs given.now)) result }
{
    let options = text_setting(alloc, "--options", given)?;
    let suppressions = text_setting(alloc, "--suppressions", given)?;
    let entry = read_entry(alloc, given)?;
    Ok(Texts {
        options,
        suppressions,
        entry,
    })
}

pub(crate) fn read_limits(given: &[Given]) -> Result<Limits, WordsFault>
    ensures { IsReading (limits_in (pairs given.now)) result }
{
    let events = number_setting("--events", EVENT_LIMIT, u32::MAX, given)?;
    let wait_limit = number_setting("--wait-limit", WAIT_LIMIT, u32::MAX, given)?;
    let workers = number_setting("--workers", 4, 8, given)?;
    Ok(Limits {
        events,
        wait_limit,
        workers,
    })
}

fn read_args(alloc: Global, given: &[Given]) -> Result<ArgList, WordsFault>
    ensures { IsReading (setting (codes "--args") [] (list_of 16 argument_of) (pairs given.now)) result }
{
    match sole_value("--args", given)? {
        None => Ok(ArgList::none(alloc)),
        Some(value) => ArgList::read(alloc, value),
    }
}

fn read_schedule(alloc: Global, given: &[Given]) -> Result<NumberList, WordsFault>
    ensures { IsReading (setting (codes "--schedule") [] (list_of 65536 (number_within 0 63)) (pairs given.now)) result }
{
    match sole_value("--schedule", given)? {
        None => Ok(NumberList::none(alloc)),
        Some(value) => NumberList::read(alloc, value),
    }
}

pub(crate) fn read_lists(alloc: Global, given: &[Given]) -> Result<Lists, WordsFault>
    ensures { IsReading (lists_in (pairs given.now)) result }
{
    let args = read_args(alloc, given)?;
    let schedule = read_schedule(alloc, given)?;
    Ok(Lists { args, schedule })
}
