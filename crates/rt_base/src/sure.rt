// Files and a sink in memory that never fail.
ghost use Rattle.std.specs.Prelude.{◌≡◌, [], Some, length};
ghost use Rattle.rt_base.specs.Memory.{bytes_or_none};
ghost use Rattle.rt_base.specs.InMemory.{SureReads, SureWrites};

use crate::listed::{FileList, copy_from};
use crate::outside::{Failed, Files, Sink};
use crate::taken::TakenBytes;
use std::marker::Model;

/// Files in memory that never fail. A name that they lack is an empty file.
#[derive(Drop)]
pub struct SureFiles {
    files: FileList,
}

impl Model for SureFiles {
    ghost use Rattle.std.specs.Prelude.{List};
    ghost use Rattle.rt_base.specs.declared.listed.MemFile.{MemFile};

    ghost Value = { List MemFile };

    ghost view = { λ s. s.files };
}

impl SureFiles {
    /// The files of a list.
    pub fn new(files: FileList) -> SureFiles
        ensures { result ≡ files }
    {
        SureFiles { files }
    }
}

impl Files for SureFiles {
    ghost state = { λ files. record { contents = λ name. Some (bytes_or_none files name); faults = λ _. 0 } };

    ghost read_gives = { SureReads };

    fn read(&mut self, name: &str, at: u64, buf: &mut [u8]) -> Result<usize, Failed> {
        match self.files.find(name) {
            Some(file) => Ok(copy_from(file.bytes.as_slice(), at, buf)),
            None => Ok(0),
        }
    }
}

/// A sink that takes every piece whole and never fails. It tells the bytes taken and stores none.
#[derive(Drop)]
pub struct SureSink {
    taken: TakenBytes,
}

impl Model for SureSink {
    ghost use Rattle.std.specs.Prelude.{List, ℕ};

    ghost Value = { List ℕ };

    ghost view = { λ s. s.taken };
}

impl SureSink {
    /// A sink that has taken nothing.
    pub fn new() -> SureSink
        ensures { result ≡ [] }
    {
        SureSink {
            taken: TakenBytes::new(),
        }
    }
}

impl Sink for SureSink {
    ghost state = { λ taken. record { taken = Some taken; faults = 0 } };

    ghost write_gives = { SureWrites };

    fn write(&mut self, bytes: &[u8]) -> Result<usize, Failed> {
        self.taken.extend(bytes);
        Ok(bytes.len())
    }
}
