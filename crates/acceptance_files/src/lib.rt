//! Tests of what is read of whole files, as tables: their spelling, their trees and their types.
#![tactic(auto)]

#[cfg(test)]
mod parse;
#[cfg(test)]
mod source;
#[cfg(test)]
mod typing;
