//! What printed texts share: a buffer that gathers their pieces in front of a sink, and the lines and columns of places in any order. Nothing here
//! takes memory.
#![tactic(auto)]

mod buffer;
mod lines;

pub use buffer::TextBuffer;
pub use lines::{LineAt, LineTable};
