//! The typing of a unit as definitions: specs/ says which unit and which warnings a tree has, or which rule it breaks first. What
//! the typing keeps meanwhile stands here.
#![tactic(auto)]

mod declarators;
mod durations;
mod found;
mod names;
mod notes;
mod specifiers;

pub use declarators::{FunctionDeclaration, Made, Parameter, Part, Shape};
pub use durations::Duration;
pub use found::{Constant, Form, Found, Operand, Pair, Worth};
pub use names::{Entity, Tag};
pub use notes::{Initial, TypeWarning};
pub use specifiers::Specifiers;
