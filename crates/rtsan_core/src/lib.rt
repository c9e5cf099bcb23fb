//! The commands of `rtsan`, from their words and their files to a status and a printed text.
#![tactic(auto)]

mod commands;
mod ending;
mod finished;
mod printed;
mod reading;
mod served;
mod serving;
mod status;
mod stepping;

pub use command::{Command, Job, WordsFault, read_words};
pub use commands::{check_unit, step_unit};
pub use finished::{Ended, EndedList, Finished};
pub use serving::{Gate, out_of_memory, serve};
pub use status::{Outcome, Status};
pub use stepping::law_one_run;
