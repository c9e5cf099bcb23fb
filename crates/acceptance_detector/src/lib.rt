//! Tests of the detector's context and verdicts, and of the texts of reports and threads, as tables.
#![tactic(auto)]

#[cfg(test)]
mod boards;
#[cfg(test)]
mod contexts;
#[cfg(test)]
mod texts;
#[cfg(test)]
mod threads;
mod units;
#[cfg(test)]
mod verdicts;

pub use units::calling;
