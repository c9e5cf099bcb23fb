//! Tests of the public calls of the parts, as tables of what goes in and what must come out. A crate that they call has
//! no tests of its own, so it is proved once.
#![tactic(auto)]

#[cfg(test)]
mod effects;
#[cfg(test)]
mod outside;
#[cfg(test)]
mod shortest_chains;
#[cfg(test)]
mod suppressions;
#[cfg(test)]
mod typedef_names;
