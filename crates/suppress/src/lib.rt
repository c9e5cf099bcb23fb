//! Suppression files of the runtime detector, and the patterns in them.
//!
//! A file has one suppression a line, `KIND:PATTERN`. A detected call is suppressed where a pattern of
//! the right kind matches the called function's name or a name on the call stack.
#![tactic(auto)]

mod file;
mod line;
mod pattern;
mod search;
mod suppressions;

pub use file::{SupRefusal, read};
pub use pattern::{Pattern, Piece, PieceList};
pub use suppressions::{Suppression, SuppressionKind, Suppressions};
