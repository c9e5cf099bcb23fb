//! Files and sinks: that calls succeed, in memory and over the system.

use rt_base::{
    Bytes, CallList, FileList, HostFiles, HostSink, MemFile, MemFiles, MemSink, ReadRefusal,
    SureFiles, SureSink, read_all, write_all,
};
use std::alloc::{AllocError, Global};
use std::mem::size_of;
use std::test::Fail;
use std::{fs, process};

// A list of one file `a`, of `length` bytes, each of them 7.
fn one_file(alloc: Global, length: usize) -> Result<FileList, AllocError> {
    let mut bytes = Bytes::new(alloc);
    for _ in 0..length {
        bytes.push(7)?;
    }
    let name = Bytes::from_slice(alloc, b"a")?;
    let mut files = FileList::new(alloc);
    files.push(MemFile {
        name,
        bytes,
        faults: 0,
    })?;
    Ok(files)
}

// How `read_all` ended.
#[derive(Clone, Copy, Debug, PartialEq)]
enum Ended {
    Read(usize),
    Fault,
    Long,
    NoMemory,
}

fn ending_of(outcome: Result<Bytes, ReadRefusal>) -> Ended {
    match outcome {
        Ok(bytes) => Ended::Read(bytes.len()),
        Err(ReadRefusal::Fault) => Ended::Fault,
        Err(ReadRefusal::Long) => Ended::Long,
        Err(ReadRefusal::NoMemory) => Ended::NoMemory,
    }
}

#[test]
fn bytes_and_calls_are_kept(rt: HostRuntime) -> Result<(), Fail> {
    let mut bytes = Bytes::from_slice(rt.alloc(), b"ab")?;
    bytes.push(b'c')?;
    bytes.extend(b"de")?;
    assert_eq!(rt; bytes.as_slice(), b"abcde".as_slice());
    assert_eq!(rt; bytes.len(), 5);
    assert!(rt; !bytes.is_empty());
    assert!(rt; Bytes::new(rt.alloc()).is_empty());
    let calls = CallList::from_slice(rt.alloc(), &[3])?;
    assert!(rt; calls.names(3));
    assert!(rt; !calls.names(4));
    assert!(rt; !CallList::new(rt.alloc()).names(0));
    Ok(())
}

/// A file of so many bytes that is read under a limit, while one call fails, if it is made; and how that ends.
#[derive(Clone, Copy)]
struct Row {
    length: usize,
    limit: u32,
    failing: u32,
    wanted: Ended,
}

/// The number of no call that is made.
const NEVER: u32 = 99;

const ROWS: [Row; 9] = [
    Row {
        length: 0,
        limit: 0,
        failing: NEVER,
        wanted: Ended::Read(0),
    },
    Row {
        length: 3,
        limit: 3,
        failing: NEVER,
        wanted: Ended::Read(3),
    },
    Row {
        length: 3,
        limit: 2,
        failing: NEVER,
        wanted: Ended::Long,
    },
    Row {
        length: 20000,
        limit: 20000,
        failing: NEVER,
        wanted: Ended::Read(20000),
    },
    Row {
        length: 20000,
        limit: 19999,
        failing: NEVER,
        wanted: Ended::Long,
    },
    Row {
        length: 10000,
        limit: 10000,
        failing: 0,
        wanted: Ended::Fault,
    },
    Row {
        length: 10000,
        limit: 10000,
        failing: 1,
        wanted: Ended::Fault,
    },
    Row {
        length: 10000,
        limit: 10000,
        failing: 2,
        wanted: Ended::Fault,
    },
    Row {
        length: 10000,
        limit: 10000,
        failing: 3,
        wanted: Ended::Read(10000),
    },
];

#[test]
fn files_are_read_up_to_their_limit_or_to_a_fault(rt: HostRuntime) -> Result<(), Fail> {
    for row in ROWS {
        let files = one_file(rt.alloc(), row.length)?;
        let failing = CallList::from_slice(rt.alloc(), &[row.failing])?;
        let mut files = MemFiles::new(files, failing);
        let outcome = read_all(rt.alloc(), &mut files, "a", row.limit);
        assert_eq!(rt; ending_of(outcome), row.wanted);
        assert_eq!(rt; files.faults("a"), u64::from(row.wanted == Ended::Fault));
        assert_eq!(rt; files.faults("b"), 0);
    }
    Ok(())
}

#[test]
fn a_name_that_is_lacking_is_a_fault_or_empty(rt: HostRuntime) -> Result<(), Fail> {
    let files = one_file(rt.alloc(), 1)?;
    let mut files = MemFiles::new(files, CallList::new(rt.alloc()));
    let outcome = read_all(rt.alloc(), &mut files, "b", 9);
    assert_eq!(rt; ending_of(outcome), Ended::Fault);
    assert_eq!(rt; files.faults("b"), 1);
    assert_eq!(rt; files.faults("a"), 0);
    let mut sure = SureFiles::new(one_file(rt.alloc(), 1)?);
    assert_eq!(rt;
        ending_of(read_all(rt.alloc(), &mut sure, "b", 9)),
        Ended::Read(0)
    );
    assert_eq!(rt;
        ending_of(read_all(rt.alloc(), &mut sure, "a", 9)),
        Ended::Read(1)
    );
    Ok(())
}

#[test]
fn each_write_of_one_byte_fails_in_turn(rt: HostRuntime) -> Result<(), Fail> {
    let text = b"hello";
    for failing in 0..6u32 {
        let calls = CallList::from_slice(rt.alloc(), &[failing])?;
        let mut sink = MemSink::new(rt.alloc(), 5, 1, calls)?;
        let outcome = write_all(&mut sink, text);
        assert_eq!(rt; outcome.is_ok(), failing == 5);
        assert_eq!(rt; sink.bytes(), &text[..(failing as usize).min(5)]);
        assert_eq!(rt; sink.faults(), u64::from(failing < 5));
    }
    Ok(())
}

#[test]
fn a_full_room_is_a_fault(rt: HostRuntime) -> Result<(), Fail> {
    let mut sink = MemSink::new(rt.alloc(), 3, 2, CallList::new(rt.alloc()))?;
    assert!(rt; write_all(&mut sink, b"hello").is_err());
    assert_eq!(rt; sink.bytes(), b"hel".as_slice());
    assert_eq!(rt; sink.faults(), 1);
    Ok(())
}

#[test]
fn a_sure_sink_takes_no_bytes(rt: HostRuntime) -> Result<(), Fail> {
    let mut sink = SureSink::new();
    write_all(&mut sink, b"hello")?;
    assert_eq!(rt; size_of::<SureSink>(), 0);
    Ok(())
}

#[test]
fn a_file_of_the_host_is_read(rt: HostRuntime) -> Result<(), Fail> {
    let path = format!(in rt.alloc(); "/tmp/rt_base-{}", process::id(rt.process()))?;
    let text = [b'x'; 9000];
    fs::write(&rt, path.as_str(), text.as_slice())?;
    let mut files = HostFiles::new(rt.clone()?);
    let outcome = read_all(rt.alloc(), &mut files, path.as_str(), 9000);
    fs::remove_file(&rt, path.as_str())?;
    let bytes = outcome?;
    assert_eq!(rt; bytes.as_slice(), text.as_slice());
    let outcome = read_all(rt.alloc(), &mut files, path.as_str(), 9000);
    assert_eq!(rt; ending_of(outcome), Ended::Fault);
    Ok(())
}

#[test]
fn standard_output_takes_a_text(rt: HostRuntime) -> Result<(), Fail> {
    let mut sink = HostSink::new(rt.clone()?);
    write_all(&mut sink, b"written whole\n")?;
    Ok(())
}
