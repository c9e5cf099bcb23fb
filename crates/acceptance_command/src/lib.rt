//! Tests of the command words, the option text and the generated text, as tables of what goes in and what must come out.
#![tactic(auto)]

#[cfg(test)]
mod words;
