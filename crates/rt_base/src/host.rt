// The trusted edge: files and standard output of the system.
ghost use Rattle.std.specs.Prelude.{◌≡◌, ◌<◌, ◌≤◌, List, ℕ, None, length, IfOk};

use crate::bytes::Bytes;
use crate::outside::{Failed, Files, Sink};
use std::io::{Read, Seek, SeekFrom};
use std::{fs, io, rt};

// A file that was read, with the offset at which its next read begins.
#[derive(Drop)]
struct Opened<F: Drop> {
    file: F,
    name: Bytes,
    next: u64,
}

/// The files of the system. They tell no byte, and one counter is the count of every name. A file
/// that is not there is a fault.
#[derive(Drop)]
pub struct HostFiles<R: rt::Files + AllocGlobal + Drop> {
    rt: R,
    opened: Option<Opened<R::File>>,
    faults: u64,
}

impl<R: rt::Files + AllocGlobal + Drop> HostFiles<R> {
    /// The files that this runtime reaches, with no fault counted.
    pub fn new(rt: R) -> HostFiles<R>
        ensures { (q : List ℕ) → (⟦<HostFiles<R> as Files>⟧.state result).faults q ≡ 0 }
    {
        HostFiles {
            rt,
            opened: None,
            faults: 0,
        }
    }

    // The file, ready to be read at this offset: the one that was read last where it stands there.
    fn open_at(&mut self, name: &str, at: u64) -> io::Result<Opened<R::File>>
        ensures { self.new.faults ≡ self.old.faults }
    {
        if let Some(opened) = self.opened.take()
            && opened.next == at
            && opened.name.as_slice() == name.as_bytes()
        {
            return Ok(opened);
        }
        let mut file = fs::open(&self.rt, name)?;
        if at > 0 {
            file.seek(SeekFrom::Start(at))?;
        }
        let name = Bytes::from_slice(self.rt.alloc(), name.as_bytes())?;
        Ok(Opened {
            file,
            name,
            next: at,
        })
    }

    // Reads without a count of faults. The file stays open only where the read succeeds.
    fn read_at(&mut self, name: &str, at: u64, buf: &mut [u8]) -> io::Result<usize>
        ensures kept { self.new.faults ≡ self.old.faults }
        ensures within { IfOk result (λ count. count ≤ length buf.old) }
    {
        let mut opened = self.open_at(name, at)?;
        let count = opened.file.read(buf)?;
        opened.next = opened.next.saturating_add(count as u64);
        self.opened = Some(opened);
        Ok(count)
    }
}

impl<R: rt::Files + AllocGlobal + Drop> Files for HostFiles<R> {
    ghost state = { λ h. record { contents = λ _. None; faults = λ _. h.faults } };

    fn read(&mut self, name: &str, at: u64, buf: &mut [u8]) -> Result<usize, Failed> {
        match self.read_at(name, at, buf) {
            Ok(count) => Ok(count),
            Err(_) => {
                self.faults = self.faults.saturating_add(1);
                Err(Failed)
            }
        }
    }
}

/// Standard output. It tells no byte, and counts its faults.
#[derive(Drop)]
pub struct HostSink<R: Print + Drop> {
    rt: R,
    faults: u64,
}

impl<R: Print + Drop> HostSink<R> {
    /// The standard output that this runtime reaches, with no fault counted.
    pub fn new(rt: R) -> HostSink<R>
        ensures { (⟦<HostSink<R> as Sink>⟧.state result).faults ≡ 0 }
    {
        HostSink { rt, faults: 0 }
    }
}

impl<R: Print + Drop> Sink for HostSink<R> {
    ghost state = { λ h. record { taken = None; faults = h.faults } };

    fn write(&mut self, bytes: &[u8]) -> Result<usize, Failed> {
        match self.rt.write_some(bytes) {
            Ok(count) if count > 0 => Ok(count),
            _ => {
                self.faults = self.faults.saturating_add(1);
                Err(Failed)
            }
        }
    }
}
