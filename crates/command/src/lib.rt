//! Command words: what the words after the program's name ask for, the option text, and the text of `gen`.
#![tactic(auto)]

mod command;
mod fault;
mod forms;
mod generated;
mod limits;
mod line;
mod lists;
mod option_text;
mod settings;
mod text;

pub use command::{Command, Job, read_words};
pub use fault::WordsFault;
pub use generated::generated_text;
pub use limits::{EVENT_LIMIT, WAIT_LIMIT};
pub use lists::{ArgList, NumberList};
pub use option_text::{BadItem, Options, read_options};
pub use text::Text;
