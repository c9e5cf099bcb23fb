//! What a parser of C reads from: tokens by their terminals, the typedef names in scope, and what the next token begins.
#![tactic(auto)]

mod begins;
mod input;
mod names;
mod places;
mod read;
mod terminals;

pub use begins::{begins_bare, begins_expression, begins_prefix, begins_specifiers, is_barred};
pub use input::{Input, Seen, seen_in};
pub use names::{begins_ordinary_name, has_text, is_one_of, is_ordinary_name, is_reserved};
pub use places::{place_of, specs_place};
pub use read::{Limits, Read, Refusal, deeper, flat};
pub use terminals::terminal_of;
