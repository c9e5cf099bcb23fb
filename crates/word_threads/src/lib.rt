//! Work over a memory of words, whichever it is: a loop of calls, passes that are joined, two passes in two threads.
#![tactic(auto)]

mod memories;
mod work;

pub use memories::{add_alone, add_in_two, add_under_lock};
pub use work::{add_both, add_many, join_all};
