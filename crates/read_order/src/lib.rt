//! Laws of reading: the tree that the grammar reads of the tokens of a source stands in order.
#![tactic(auto)]
