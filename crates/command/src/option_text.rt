//! The option text: items between `:`.

ghost use Rattle.std.specs.Prelude.{◌≡◌, ◌≤◌, length, IfSome};
ghost use Rattle.command.specs.Lists.{items_of};
ghost use Rattle.command.specs.OptionText.{item_of, with_item, options_from, default_options};

use crate::lists::first_item;

/// What an option text sets.
#[derive(Clone, Copy)]
pub struct Options {
    /// Whether the first report ends the run.
    pub halt_on_error: bool,
    /// Whether the totals are printed at the end.
    pub print_stats_on_exit: bool,
}

/// The first bad item of an option text.
#[derive(Clone, Copy)]
pub struct BadItem {
    /// Its number, from 1.
    pub number: u64,
}

// What one item sets.
#[derive(Clone, Copy)]
enum Setting {
    HaltOnError(bool),
    PrintStatsOnExit(bool),
}

#[tactic(auto, unfolding(crate::specs::OptionText::item_of))]
fn item_of(text: &str) -> Option<Setting>
    ensures item { result ≡ item_of text.now }
    ensures some { IfSome result (λ setting. 1 ≤ length text.now) }
{
    match text {
        "halt_on_error=true" => Some(Setting::HaltOnError(true)),
        "halt_on_error=1" => Some(Setting::HaltOnError(true)),
        "halt_on_error=false" => Some(Setting::HaltOnError(false)),
        "halt_on_error=0" => Some(Setting::HaltOnError(false)),
        "print_stats_on_exit=true" => Some(Setting::PrintStatsOnExit(true)),
        "print_stats_on_exit=1" => Some(Setting::PrintStatsOnExit(true)),
        "print_stats_on_exit=false" => Some(Setting::PrintStatsOnExit(false)),
        "print_stats_on_exit=0" => Some(Setting::PrintStatsOnExit(false)),
        _ => None,
    }
}

fn with_item(options: Options, setting: Setting) -> Options
    ensures { result ≡ with_item options setting }
{
    match setting {
        Setting::HaltOnError(halt_on_error) => Options {
            halt_on_error,
            print_stats_on_exit: options.print_stats_on_exit,
        },
        Setting::PrintStatsOnExit(print_stats_on_exit) => Options {
            halt_on_error: options.halt_on_error,
            print_stats_on_exit,
        },
    }
}

/// Reads an option text: items between `:`, of which a later one overrides an earlier one.
///
/// # Errors
///
/// `BadItem` names the first item that is none, exactly where there is one.
pub fn read_options(text: &str) -> Result<Options, BadItem>
    ensures { result ≡ options_from default_options 1 (items_of 58 text.now) }
{
    let mut options = Options {
        halt_on_error: true,
        print_stats_on_exit: false,
    };
    let mut number: u64 = 1;
    let mut rest = text;
    'items: loop {
        let (item, later) = first_item(rest, ':');
        let Some(setting) = item_of(item) else {
            return Err(BadItem { number });
        };
        options = with_item(options, setting);
        let Some(later) = later else {
            return Ok(options);
        };
        number += 1;
        rest = later;
    }
}
