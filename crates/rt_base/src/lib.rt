//! The outside of the program: files that are read and a sink that is written, by what they tell
//! and by their counts of faults, so that the code above is proved once for every outside.
#![tactic(auto)]

mod bytes;
mod host;
mod listed;
mod memory;
mod outside;
mod reading;
mod sure;
mod taken;
mod writing;

pub use bytes::{Bytes, CallList};
pub use host::{HostFiles, HostSink};
pub use listed::{FileList, MemFile};
pub use memory::{MemFiles, MemSink};
pub use outside::{Failed, Files, Sink};
pub use reading::{ReadRefusal, read_all};
pub use sure::{SureFiles, SureSink};
pub use writing::{SinkFault, write_all};
