//! How the places of bodies stand to a level that is asked of them (Clang's manual 'Function Effect Analysis'), and the chains of calls that lead from
//! them to a violation.
#![tactic(auto)]

mod marks;

pub use marks::chains_for;
