// A list of files in memory.
ghost use Rattle.std.specs.Prelude.{◌≡◌, ◌+◌, ◌-◌, ◌<◌, ◌≤◌, min, [], ◌∷◌, ◌++◌, length, take, IsTrue, IsSome, ◌↔◌, IfOk, OnOk, OnErr, Some};
ghost use Rattle.std.specs.Option.{option_copied};
ghost use Rattle.std.specs.Str.{bytes_eq};
ghost use Rattle.rt_base.specs.Memory.{file_named, with_fault};
ghost use Rattle.rt_base.specs.Outside.{IsReadFrom};

use crate::bytes::Bytes;
use std::alloc::{AllocError, Global};
use std::marker::Model;

/// A file in memory: its name, its bytes, and how many reads of it failed.
#[derive(Drop)]
pub struct MemFile {
    /// The name, as the bytes of a text.
    pub name: Bytes,
    /// The bytes of the file.
    pub bytes: Bytes,
    /// How many reads of the file failed, which stays at the last value of its type.
    pub faults: u64,
}

impl MemFile {
    /// Whether the file has this name.
    pub fn is_named(&self, name: &str) -> bool
        ensures { result ≡ bytes_eq self.now.name name.now }
    {
        self.name.as_slice() == name.as_bytes()
    }
}

/// A list of files, where the first of a name counts.
#[derive(Drop)]
pub struct FileList {
    items: Vec<MemFile>,
}

impl Model for FileList {
    ghost use Rattle.std.specs.Prelude.{List};
    ghost use Rattle.rt_base.specs.declared.listed.MemFile.{MemFile};

    ghost Value = { List MemFile };

    ghost view = { λ l. l.items.items };
}

impl FileList {
    /// No file, which takes no memory yet.
    pub fn new(alloc: Global) -> FileList
        ensures { result ≡ [] }
    {
        FileList {
            items: Vec::new(alloc),
        }
    }

    /// Puts a file at the end. For want of memory the list stays as it was.
    pub fn push(&mut self, file: MemFile) -> Result<(), AllocError>
        ensures ok { OnOk result (self.new ≡ self.old ++ file ∷ []) }
        ensures err { OnErr result (self.new ≡ self.old) }
    {
        self.items.push(file)?;
        Ok(())
    }

    /// The first file of this name.
    pub fn find(&self, name: &str) -> Option<&MemFile>
        ensures { option_copied result ≡ file_named self.now name.now }
    {
        self.items.iter().find(|file| file.is_named(name))
    }

    // Counts a fault of the first file of this name, and says whether there is one.
    pub(crate) fn count_fault(&mut self, name: &str) -> bool
        ensures found { IsTrue result ↔ IsSome (file_named self.old name.now) }
        ensures counted { self.new ≡ with_fault self.old name.now }
    {
        for i in 0..self.items.len() {
            if self.items[i].is_named(name) {
                self.items[i].faults = self.items[i].faults.saturating_add(1);
                return true;
            }
        }
        false
    }
}

// Copies bytes of a file into the front of the buffer, from the offset `at` on, as many as there
// are and as fit, and gives their number.
pub(crate) fn copy_from(file: &[u8], at: u64, buf: &mut [u8]) -> usize
    requires { 0 < length buf.old }
    ensures within { result ≤ length buf.old }
    ensures bytes { IsReadFrom (Some file.now) at result buf.new }
    ensures most { result ≡ min (length buf.old) (length file.now - at) }
{
    let start = file.len().min(at as usize);
    let left = &file[start..];
    let count = left.len().min(buf.len());
    buf[..count].copy_from_slice(&left[..count]);
    count
}
