//! Parameters, members and type names of C (C17 6.7.2.1, 6.7.6.3 and 6.7.7), read by descent.
#![tactic(auto)]

mod members;
mod params;
mod rules;

pub use rules::DeclaratorRules;
