//! Tests of the form that is built so far: its units, warnings, machine and texts, as tables.
#![tactic(auto)]

#[cfg(test)]
mod machine;
#[cfg(test)]
mod printed;
#[cfg(test)]
mod units;
#[cfg(test)]
mod warnings;
