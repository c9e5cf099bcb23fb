//! The command words at the top call: what each list of words comes to, over files that hold one small program. Memory is
//! ample, so want of it is never the answer.

use crate::serve::{EmptyGate, USAGE};
use rt_base::{Bytes, CallList, FileList, MemFile, MemFiles, MemSink};
use rtsan_core::{Outcome, Status, serve};
use std::alloc::{AllocError, Global};
use std::sync::Wait;
use std::test::Fail;
use std::thread::Threads;

/// What words come to.
#[derive(Clone, Copy)]
enum Comes {
    /// They are no command, or one that isn't served yet.
    Usage,
    /// They ask for what no run carries yet.
    NotBuilt,
    /// The file is checked.
    Checked,
    /// The file is stepped.
    Stepped,
    /// A file that isn't there is asked for.
    Missing,
}

impl Comes {
    fn text(self) -> &'static [u8] {
        match self {
            Comes::Usage => USAGE,
            Comes::NotBuilt => b"rtsan: not built\n",
            Comes::Checked => b"",
            Comes::Stepped => b"thread 0: exited 0\n",
            Comes::Missing => b"rtsan: read fault: no.c\n",
        }
    }

    fn status(self) -> Status {
        match self {
            Comes::Usage => Status::Usage,
            Comes::NotBuilt => Status::Refused,
            Comes::Checked => Status::Clean,
            Comes::Stepped => Status::Clean,
            Comes::Missing => Status::ReadFault,
        }
    }
}

const PROGRAM: &[u8] = b"int main(void) { return 0; }\n";

/// The names of the files, each of which holds the program.
const NAMES: [&str; 5] = ["a.c", "-a.c", "-", "--events", "run"];

/// Words that check a file; each word ends at a blank.
const CHECKED: [&str; 4] = ["check a.c", "check -", "check run", "check -- -a.c"];

/// Words that step a file, with options that have the values of their defaults.
const STEPPED: [&str; 9] = [
    "step a.c",
    "step -",
    "step -- -a.c",
    "-- step -a.c",
    "step a.c --",
    "step -- --events",
    "step a.c --events 10000000",
    "step a.c --wait-limit=2000000",
    "step a.c --entry main",
];

/// Words that ask for a file that isn't there.
const MISSING: [&str; 3] = ["check no.c", "step no.c", "step no.c --events 10"];

/// Words with options that no run carries yet.
const NOT_BUILT: [&str; 11] = [
    "step a.c --events=10",
    "step a.c --events 10",
    "--events 10 step a.c",
    "step --wait-limit 5 a.c",
    "step a.c --options halt_on_error=no",
    "step a.c --options=halt_on_error=true",
    "step a.c --suppressions no.txt",
    "step a.c --entry f",
    "step a.c --args=-5",
    "step a.c --schedule 0",
    "step --events=10 -- -a.c",
];

/// Words that are no command, or one that isn't served yet.
const NO_COMMAND: [&str; 30] = [
    "check -a.c",
    "step -a.c",
    "check -- a.c --",
    "check -- a.c --events",
    "check",
    "--",
    "check ",
    " a.c",
    "check a.c a.c",
    "Check a.c",
    "chec a.c",
    "--help",
    "--version",
    "step a.c -h",
    "run a.c",
    "run a.c --workers 8",
    "gen 1",
    "gen 4000",
    "gen 4001",
    "check a.c --events 10",
    "step a.c --events 10 --events 10",
    "step a.c --events 10 --events=10",
    "step a.c --event 10",
    "step a.c --events",
    "step a.c --events=",
    "step a.c --events +1",
    "step a.c --events 00000000001",
    "step a.c --args 1,",
    "step a.c --args -5",
    "step a.c --workers 4",
];

/// A source, and what a `step` of it with an option prints.
const REFUSALS: [(&[u8], &[u8]); 4] = [
    (b"int a; /* x", b"a.c:1:8: refused: text 2 open comment\n"),
    (
        b"void f(void) [[clang::nonbl",
        b"a.c:1:23: refused: parse 1 token not expected\n",
    ),
    (b"int x;", b"rtsan: not built\n"),
    // the program has no `main`, which is asked only of what is run
    (b"", b"rtsan: not built\n"),
];

/// A file of these bytes.
fn file_of(alloc: Global, name: &str, bytes: &[u8]) -> Result<MemFile, AllocError> {
    Ok(MemFile {
        name: Bytes::from_slice(alloc, name.as_bytes())?,
        bytes: Bytes::from_slice(alloc, bytes)?,
        faults: 0,
    })
}

/// Serves the words over the files of these names, which all hold these bytes.
fn served<R: Threads + Wait + Copy + Send + Sync>(
    rt: R,
    alloc: Global,
    words: &[&str],
    bytes: &[u8],
    out: &mut MemSink,
) -> Result<Outcome, AllocError> {
    let mut list = FileList::new(alloc);
    for name in &NAMES {
        list.push(file_of(alloc, name, bytes)?)?;
    }
    let mut files = MemFiles::new(list, CallList::new(alloc));
    Ok(serve(rt, alloc, words, &mut files, out, &EmptyGate))
}

/// The words of a text, which single blanks part.
fn words_of(alloc: Global, text: &str) -> Result<Vec<&str>, AllocError> {
    let mut words = Vec::new(alloc);
    for word in text.split(' ') {
        words.push(word)?;
    }
    Ok(words)
}

#[test]
fn words_come_to_their_answer(rt: HostRuntime) -> Result<(), Fail> {
    let rows: [(&[&str], Comes); 5] = [
        (&CHECKED, Comes::Checked),
        (&STEPPED, Comes::Stepped),
        (&MISSING, Comes::Missing),
        (&NOT_BUILT, Comes::NotBuilt),
        (&NO_COMMAND, Comes::Usage),
    ];
    for (texts, comes) in rows {
        for text in texts {
            let words = words_of(rt.alloc(), text)?;
            let mut out = MemSink::new(rt.alloc(), 100, 100, CallList::new(rt.alloc()))?;
            let outcome = served(rt, rt.alloc(), words.as_slice(), PROGRAM, &mut out)?;
            assert_eq!(rt; out.bytes(), comes.text(), "{text}");
            assert_eq!(rt; outcome.status, comes.status(), "{text}");
        }
    }
    Ok(())
}

#[test]
fn no_words_are_no_command(rt: HostRuntime) -> Result<(), Fail> {
    let mut out = MemSink::new(rt.alloc(), 100, 100, CallList::new(rt.alloc()))?;
    let outcome = served(rt, rt.alloc(), &[], PROGRAM, &mut out)?;
    assert_eq!(rt; outcome.status, Status::Usage);
    Ok(())
}

#[test]
fn options_are_asked_once_the_source_is_read(rt: HostRuntime) -> Result<(), Fail> {
    let words = ["step", "a.c", "--events", "10"];
    for (bytes, text) in REFUSALS {
        let mut out = MemSink::new(rt.alloc(), 100, 100, CallList::new(rt.alloc()))?;
        let outcome = served(rt, rt.alloc(), &words, bytes, &mut out)?;
        assert_eq!(rt; out.bytes(), text);
        assert_eq!(rt; outcome.status, Status::Refused);
        assert!(rt; outcome.finished.is_none());
    }
    Ok(())
}
