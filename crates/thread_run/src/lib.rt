//! C threads as they run: the plain machine over a memory and a board, up to its ending.
#![tactic(auto)]

mod arguments;
mod blank;
mod detector;
mod endings;
mod given;
mod judged;
mod kept;
mod output;
mod performing;
mod ran;
mod running;
mod slices;
mod thread;
mod turn;
mod world;

pub use blank::{Blank, BlankList, blanks};
pub use detector::Detector;
pub use given::{Given, Row};
pub use judged::Judged;
pub use kept::Kept;
pub use output::Output;
pub use ran::{Ran, RunRefusal, ThreadList};
pub use running::Running;
pub use thread::CThread;
pub use turn::Turn;
pub use world::{SeenWorld, World};
