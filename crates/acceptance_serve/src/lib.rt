//! Tests of the top call, as tables: what commands answer over files in memory, and what each list of words comes to.
#![tactic(auto)]

#[cfg(test)]
mod checks;
#[cfg(test)]
mod serve;
#[cfg(test)]
mod words;
