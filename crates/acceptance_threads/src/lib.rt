//! Tests of what threads share: the memories of words, the set of calling contexts, and the boards.
#![tactic(auto)]

#[cfg(test)]
mod boards;
#[cfg(test)]
mod contexts;
#[cfg(test)]
mod memory;
