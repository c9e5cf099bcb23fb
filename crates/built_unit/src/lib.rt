//! The typed unit: functions and call sites of one source file.
#![tactic(auto)]

pub mod names;
pub mod units;

pub use names::{Name, NumberList};
pub use units::{Body, FunctionInfo, FunctionList, SiteInfo, SiteList, Unit};
