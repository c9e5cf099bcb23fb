// Files and a sink in memory, some of whose calls fail.
ghost use Rattle.std.specs.Prelude.{◌≡◌, ◌+◌, ◌-◌, ◌^◌, ◌<◌, ◌≤◌, ◌↔◌, ◌⊎◌, min, [], ◌∷◌, ◌++◌, length, take, IsTrue, IsNone, IsErr, IfOk, OnErr, Some, Contains, ℕ, List};
ghost use Rattle.rt_base.specs.Memory.{bytes_named, faults_named, one_more, file_named};
ghost use Rattle.rt_base.specs.InMemory.{after_fault, MemReads, MemWrites};
ghost use Rattle.rt_base.specs.Outside.{Rose, IsReadFrom, Appends};

use crate::bytes::CallList;
use crate::listed::{FileList, copy_from};
use crate::outside::{Failed, Files, Sink};
use std::alloc::{AllocError, Global};
use std::marker::Model;

/// Files in memory, some of whose reads fail. A read of a name that the list lacks fails too.
#[derive(Drop)]
pub struct MemFiles {
    files: FileList,
    failing: CallList,
    calls: u64,
    lacking: u64,
}

impl Model for MemFiles {
    ghost use Rattle.rt_base.specs.InMemory.{FilesInMemory};

    ghost Value = { FilesInMemory };

    ghost view = { λ m. record { files = m.files; failing = m.failing; calls = m.calls; lacking = m.lacking } };
}

impl MemFiles {
    /// The files of a list, where the calls of `read` fail whose number from 0 stands in `failing`.
    /// The one count of faults of all names that the list lacks begins at 0.
    pub fn new(files: FileList, failing: CallList) -> MemFiles
        ensures { result ≡ record { files = files; failing = failing; calls = 0; lacking = 0 } }
    {
        MemFiles {
            files,
            failing,
            calls: 0,
            lacking: 0,
        }
    }

    /// How many reads of this name failed.
    pub fn faults(&self, name: &str) -> u64
        ensures { result ≡ faults_named self.now.files self.now.lacking name.now }
    {
        match self.files.find(name) {
            Some(file) => file.faults,
            None => self.lacking,
        }
    }

    // Counts a call, and says whether it is one that fails.
    fn count_call(&mut self) -> bool
        ensures fails { IsTrue result ↔ Contains self.old.failing self.old.calls }
        ensures counted { self.new ≡ record self.old { calls = one_more self.old.calls } }
    {
        let fails = self.failing.names(self.calls);
        self.calls = self.calls.saturating_add(1);
        fails
    }

    // Counts a fault of this name.
    fn count_fault(&mut self, name: &str)
        ensures { self.new ≡ after_fault self.old name.now }
    {
        if !self.files.count_fault(name) {
            self.lacking = self.lacking.saturating_add(1);
        }
    }
}

impl Files for MemFiles {
    ghost state = { λ m. record { contents = λ name. bytes_named m.files name; faults = λ name. faults_named m.files m.lacking name } };

    ghost read_gives = { MemReads };

    fn read(&mut self, name: &str, at: u64, buf: &mut [u8]) -> Result<usize, Failed> {
        let fails = self.count_call();
        match self.files.find(name) {
            Some(file) if !fails => Ok(copy_from(file.bytes.as_slice(), at, buf)),
            _ => {
                self.count_fault(name);
                Err(Failed)
            }
        }
    }
}

/// A sink that keeps what it takes in memory, and some of whose writes fail.
#[derive(Drop)]
pub struct MemSink {
    bytes: Vec<u8>,
    room: u32,
    most: u32,
    failing: CallList,
    calls: u64,
    faults: u64,
}

impl Model for MemSink {
    ghost use Rattle.std.specs.Prelude.{◌≤◌, ◌<◌, vec_len, vec_capacity};
    ghost use Rattle.rt_base.specs.InMemory.{SinkInMemory};

    ghost Value = { SinkInMemory };

    ghost view = { λ s. record { bytes = s.bytes.items; room = s.room; most = s.most; failing = s.failing; calls = s.calls; faults = s.faults } };

    ghost invariant = { λ s. (0 < s.most) × (vec_len s.bytes ≤ s.room) × (s.room ≤ vec_capacity s.bytes) };
}

impl MemSink {
    /// An empty sink that has room for `room` bytes and takes at most `most` bytes in a call. The
    /// calls of `write` fail whose number from 0 stands in `failing`, and those into a full room.
    /// All the room is made here.
    pub fn new(
        alloc: Global,
        room: u32,
        most: u32,
        failing: CallList,
    ) -> Result<MemSink, AllocError>
        requires { 1 ≤ most }
        ensures { IfOk result (λ sink. sink ≡ record { bytes = []; room = room; most = most; failing = failing; calls = 0; faults = 0 }) }
    {
        let bytes = Vec::with_capacity(alloc, room as usize)?;
        Ok(MemSink {
            bytes,
            room,
            most,
            failing,
            calls: 0,
            faults: 0,
        })
    }

    /// The bytes taken so far.
    pub fn bytes(&self) -> &[u8]
        ensures { result.now ≡ self.now.bytes }
    {
        self.bytes.as_slice()
    }

    /// How many writes failed.
    pub fn faults(&self) -> u64
        ensures { result ≡ self.now.faults }
    {
        self.faults
    }

    // Counts a call, and says whether it is one that fails.
    fn count_call(&mut self) -> bool
        ensures fails { IsTrue result ↔ Contains self.old.failing self.old.calls }
        ensures counted { self.new ≡ record self.old { calls = one_more self.old.calls } }
    {
        let fails = self.failing.names(self.calls);
        self.calls = self.calls.saturating_add(1);
        fails
    }
}

impl Sink for MemSink {
    ghost state = { λ s. record { taken = Some s.bytes; faults = s.faults } };

    ghost write_gives = { MemWrites };

    fn write(&mut self, bytes: &[u8]) -> Result<usize, Failed> {
        let fails = self.count_call();
        let left = self.room as usize - self.bytes.len();
        if fails || left == 0 {
            self.faults = self.faults.saturating_add(1);
            return Err(Failed);
        }
        let count = bytes.len().min(left).min(self.most as usize);
        self.bytes.extend_from_slice(&bytes[..count]).unwrap();
        Ok(count)
    }
}
