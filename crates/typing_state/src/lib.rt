//! What the typing keeps of a unit while it reads it. Each call is a step of the rules in `type_rules`.
#![tactic(auto)]

mod functions;
mod names;
mod opening;
mod parts;
mod state;
mod stop;
mod storage;
mod structures;

pub use state::Typing;
pub use stop::Stop;
