//! A set of calling contexts that threads share: a node for each path of calls, and counts of the nodes.
#![tactic(auto)]

mod close;
mod count;
mod keys;
mod node;
mod rule;
mod set;
mod table;
mod tries;
mod view;

pub use count::{PathCount, PathCountList, PathSteps};
pub use node::{Counted, CtxFull, Node};
pub use rule::OneNode;
pub use table::{CtxPass, CtxSet};
pub use view::{CtxView, Past};
