//! Memories of 64-bit words that several threads reach: what a pass to one means, and the contract of its calls.
#![tactic(auto)]

mod access;
mod book;
mod event;
mod lock_rule;
mod locked;
mod past;
mod plain;
mod view;
mod word_list;
mod words;

pub use book::{Book, LockView};
pub use event::{Entry, WordEvent};
pub use lock_rule::OneBook;
pub use locked::{LockedPass, LockedSpare, LockedWords};
pub use past::{Life, Past};
pub use plain::{PlainPass, PlainSpare, PlainWords};
pub use view::{Fresh, View};
pub use word_list::WordList;
pub use words::{SpareList, Words, law_merged};
