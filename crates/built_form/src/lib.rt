//! The form of files that is read so far: functions without parameters, whose bodies are calls.
#![tactic(auto)]

pub mod calls;
pub mod cursor;
pub mod fixed;
pub mod form;
pub mod item;
pub mod marks;
pub mod refusal;
pub mod scope;
pub mod syntax;
pub mod unit;

pub use form::read_form;
pub use refusal::FormRefusal;
