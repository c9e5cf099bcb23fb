//! The order of a syntax tree in its source.
#![tactic(auto)]
