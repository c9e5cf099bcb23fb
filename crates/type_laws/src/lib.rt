//! Laws of the typing: what its rules make is a unit.
#![tactic(auto)]
