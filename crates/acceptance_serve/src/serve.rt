//! The top call: each status of each command, with its text, and what is left. Memory is ample, so want of it is never the
//! answer.

use built_model::End;
use rt_base::{Bytes, CallList, FileList, MemFile, MemFiles, MemSink};
use rtsan_core::{Gate, Outcome, Status, serve};
use std::alloc::{AllocError, Global};
use std::process::Abort;
use std::sync::Wait;
use std::test::Fail;
use std::thread::Threads;

pub(crate) struct EmptyGate;

impl Gate for EmptyGate {
    fn before_slice(&self, _thread: u32) {}
}

/// A command over the file `a.c`, and what it must print.
#[derive(Clone, Copy)]
struct Row {
    words: &'static [&'static str],
    file: &'static [u8],
    text: &'static [u8],
    status: Status,
}

const CHECK: &[&str] = &["check", "a.c"];

const STEP: &[&str] = &["step", "a.c"];

pub(crate) const USAGE: &[u8] = b"usage: rtsan check FILE | step FILE\n";

/// A blocking function that is called by a nonblocking one, which `main` calls.
const BLOCKING: &[u8] =
    b"void slow(void) [[clang::blocking]] { }\nvoid f(void) [[clang::nonblocking]] { slow(); }\nint main(void) { f(); return 0; }\n";

const BLOCKING_WARNING: &[u8] =
    b"a.c:2:39: warning: function with 'nonblocking' attribute must not call non-'nonblocking' function 'slow' [-Wfunction-effects]\n";

const BLOCKING_RUN: &[u8] =
    b"a.c:2:39: warning: function with 'nonblocking' attribute must not call non-'nonblocking' function 'slow' [-Wfunction-effects]\nerror: blocking-call: 'slow' called in a real-time context, count 1\n  #0 slow\n  #1 f 2:39\n  #2 main 3:18\nthread 0: halted\n";

/// The same, but `main` calls nothing.
const UNCALLED: &[u8] =
    b"void slow(void) [[clang::blocking]] { }\nvoid f(void) [[clang::nonblocking]] { slow(); }\nint main(void) { return 0; }\n";

const UNCALLED_RUN: &[u8] =
    b"a.c:2:39: warning: function with 'nonblocking' attribute must not call non-'nonblocking' function 'slow' [-Wfunction-effects]\nthread 0: exited 0\n";

/// Functions of which each calls the one before twice, so that the run makes more events than it may.
const DOUBLING: &[u8] =
    b"void a(void) { }\nvoid b(void) { a(); a(); a(); a(); }\nvoid c(void) { b(); b(); b(); b(); }\nvoid d(void) { c(); c(); c(); c(); }\nvoid e(void) { d(); d(); d(); d(); }\nvoid f(void) { e(); e(); e(); e(); }\nvoid g(void) { f(); f(); f(); f(); }\nvoid h(void) { g(); g(); g(); g(); }\nvoid i(void) { h(); h(); h(); h(); }\nvoid j(void) { i(); i(); i(); i(); }\nvoid k(void) { j(); j(); j(); j(); }\nvoid l(void) { k(); k(); k(); k(); }\nint main(void) { l(); return 0; }\n";

/// A pointer to functions of a nonblocking argument, where the argument of the function has no effects.
const INNER_EFFECTS: &[u8] =
    b"typedef void (*nb)(void) [[clang::nonblocking]];\ntypedef void (*pl)(void);\nvoid u(pl p) { }\nvoid (*q)(nb) = u;\n";

/// Each status of each command that a small file comes to.
static ROWS: [Row; 35] = [
    Row {
        words: &[],
        file: b"",
        text: USAGE,
        status: Status::Usage,
    },
    Row {
        words: &["check"],
        file: b"",
        text: USAGE,
        status: Status::Usage,
    },
    Row {
        words: &["step", "-a.c"],
        file: b"",
        text: USAGE,
        status: Status::Usage,
    },
    Row {
        words: &["check", ""],
        file: b"",
        text: USAGE,
        status: Status::Usage,
    },
    Row {
        words: &["step", "a.c", "a.c"],
        file: b"",
        text: USAGE,
        status: Status::Usage,
    },
    Row {
        words: &["run", "a.c"],
        file: b"",
        text: USAGE,
        status: Status::Usage,
    },
    Row {
        words: &["check", "no.c"],
        file: b"",
        text: b"rtsan: read fault: no.c\n",
        status: Status::ReadFault,
    },
    Row {
        words: &["step", "no.c"],
        file: b"",
        text: b"rtsan: read fault: no.c\n",
        status: Status::ReadFault,
    },
    Row {
        words: CHECK,
        file: b"int a; /* x",
        text: b"a.c:1:8: refused: text 2 open comment\n",
        status: Status::Refused,
    },
    Row {
        words: STEP,
        file: b"char *s = \"ab",
        text: b"a.c:1:11: refused: text 3 open string\n",
        status: Status::Refused,
    },
    Row {
        words: CHECK,
        file: b"void f(void) [[clang::nonbl",
        text: b"a.c:1:23: refused: parse 1 token not expected\n",
        status: Status::Refused,
    },
    Row {
        words: STEP,
        file: b"void f(void) [[clang::nonbl",
        text: b"a.c:1:23: refused: parse 1 token not expected\n",
        status: Status::Refused,
    },
    Row {
        words: CHECK,
        file: INNER_EFFECTS,
        text: b"a.c:4:17: refused: type 11 left-out conversion\n",
        status: Status::Refused,
    },
    Row {
        words: STEP,
        file: INNER_EFFECTS,
        text: b"a.c:4:17: refused: type 11 left-out conversion\n",
        status: Status::Refused,
    },
    Row {
        words: CHECK,
        file: b"void f(void) [[clang::nonblocking]];\nvoid f(void) [[clang::blocking]];\n",
        text: b"a.c:2:6: refused: type 4 effects conflict\n",
        status: Status::Refused,
    },
    Row {
        words: CHECK,
        file: b"int x[524289];\nint y = z;\n",
        text: b"a.c:2:9: refused: type 1 unknown name\n",
        status: Status::Refused,
    },
    Row {
        words: CHECK,
        file: b"int x[524289];\nvoid f(int, int, int, int, int, int, int, int, int, int, int, int, int, int, int, int, int);\n",
        text: b"rtsan: limit: parameters\n",
        status: Status::Limit,
    },
    Row {
        words: CHECK,
        file: b"int x[524289];\n_Thread_local int t[1025];\n",
        text: b"rtsan: limit: static words\n",
        status: Status::Limit,
    },
    Row {
        words: STEP,
        file: b"_Thread_local int t[1025];\n",
        text: b"rtsan: limit: thread words\n",
        status: Status::Limit,
    },
    Row {
        words: STEP,
        file: b"int f(int a) { int b[4096]; return 0; }\n",
        text: b"rtsan: limit: frame words\n",
        status: Status::Limit,
    },
    Row {
        words: STEP,
        file: b"int f(int a) { int b[4095]; return 0; }\n",
        text: b"rtsan: not built\n",
        status: Status::Refused,
    },
    Row {
        words: CHECK,
        file: b"int x;",
        text: b"",
        status: Status::Clean,
    },
    Row {
        words: STEP,
        file: b"int x;",
        text: b"rtsan: not built\n",
        status: Status::Refused,
    },
    Row {
        words: CHECK,
        file: b"",
        text: b"",
        status: Status::Clean,
    },
    Row {
        words: CHECK,
        file: b"void g(void);\nint main(void) { g(); return 0; }\n",
        text: b"",
        status: Status::Clean,
    },
    Row {
        words: CHECK,
        file: b"void slow(void);\nvoid f(void) [[clang::nonblocking]] { slow(); f(); }\n",
        text: BLOCKING_WARNING,
        status: Status::Warned,
    },
    Row {
        words: CHECK,
        file: BLOCKING,
        text: BLOCKING_WARNING,
        status: Status::Warned,
    },
    Row {
        words: STEP,
        file: b"",
        text: b"rtsan: unlinked: main\n",
        status: Status::Unlinked,
    },
    Row {
        words: STEP,
        file: b"void g(void);\nint main(void) { g(); return 0; }\n",
        text: b"rtsan: unlinked: g\n",
        status: Status::Unlinked,
    },
    Row {
        words: STEP,
        file: b"int main(void) { return 0; }\n",
        text: b"thread 0: exited 0\n",
        status: Status::Clean,
    },
    Row {
        words: STEP,
        file: UNCALLED,
        text: UNCALLED_RUN,
        status: Status::Warned,
    },
    Row {
        words: STEP,
        file: BLOCKING,
        text: BLOCKING_RUN,
        status: Status::Reported,
    },
    Row {
        words: STEP,
        file: b"void f(void) { f(); }\nint main(void) { f(); return 0; }\n",
        text: b"thread 0: trapped stack-overflow\n",
        status: Status::Trapped,
    },
    Row {
        words: CHECK,
        file: DOUBLING,
        text: b"",
        status: Status::Clean,
    },
    Row {
        words: CHECK,
        file: UNCALLED,
        text: BLOCKING_WARNING,
        status: Status::Warned,
    },
];

/// The files that hold this one file, `a.c`.
fn files_of(alloc: Global, bytes: &[u8]) -> Result<MemFiles, AllocError> {
    let mut files = FileList::new(alloc);
    files.push(MemFile {
        name: Bytes::from_slice(alloc, b"a.c")?,
        bytes: Bytes::from_slice(alloc, bytes)?,
        faults: 0,
    })?;
    Ok(MemFiles::new(files, CallList::new(alloc)))
}

/// Serves the words over `a.c`.
pub(crate) fn served<R: Threads + Wait + Copy + Send + Sync>(
    rt: R,
    alloc: Global,
    words: &[&str],
    file: &[u8],
    out: &mut MemSink,
) -> Result<Outcome, AllocError> {
    let mut files = files_of(alloc, file)?;
    Ok(serve(rt, alloc, words, &mut files, out, &EmptyGate))
}

#[test]
fn each_row_has_its_text_and_status(rt: HostRuntime) -> Result<(), Fail> {
    for row in &ROWS {
        let mut out = MemSink::new(rt.alloc(), 1000, 1000, CallList::new(rt.alloc()))?;
        let outcome = served(rt, rt.alloc(), row.words, row.file, &mut out)?;
        assert_eq!(rt; out.bytes(), row.text);
        assert_eq!(rt; outcome.status, row.status);
    }
    Ok(())
}

#[test]
fn a_run_is_stopped_at_the_event_limit(rt: HostRuntime) -> Result<(), Fail> {
    let mut out = MemSink::new(rt.alloc(), 100, 100, CallList::new(rt.alloc()))?;
    let outcome = served(rt, rt.alloc(), STEP, DOUBLING, &mut out)?;
    let text: &[u8] = b"thread 0: stopped after 10000000 events\n";
    assert_eq!(rt; out.bytes(), text);
    assert_eq!(rt; outcome.status, Status::Stopped);
    Ok(())
}

/// `main`, which calls a function so many times.
fn calls(alloc: Global, count: u32) -> Result<String, AllocError> {
    let mut text = String::from_str(alloc, "void g(void) { }\nint main(void) { ")?;
    for _ in 0..count {
        text.push_str("g();")?;
    }
    text.push_str(" return 0; }\n")?;
    Ok(text)
}

/// So many functions that are declared.
fn declarations(alloc: Global, count: u32) -> Result<String, AllocError> {
    let mut text = String::new(alloc);
    for number in 0..count {
        text.push_str(&format!(in alloc; "void f{number}(void);\n")?)?;
    }
    Ok(text)
}

/// Functions that call one another in a row, of which `main` calls the last: so many and `main`.
fn row_of_calls(alloc: Global, count: u32) -> Result<String, AllocError> {
    let mut text = format!(in alloc; "void f1(void) {{ }}\n")?;
    for number in 2..=count {
        let before = number - 1;
        text.push_str(&format!(in alloc; "void f{number}(void) {{ f{before}(); }}\n")?)?;
    }
    text.push_str(&format!(in alloc; "int main(void) {{ f{count}(); return 0; }}\n")?)?;
    Ok(text)
}

/// Serves each row, and compares its text and its status.
fn serves_rows<R: Abort + Threads + Wait + Copy + Send + Sync>(
    rt: R,
    alloc: Global,
    rows: &[(&[&str], &[u8], &[u8], Status)],
) -> Result<(), Fail> {
    for row in rows {
        let mut out = MemSink::new(alloc, 200, 200, CallList::new(alloc))?;
        let outcome = served(rt, alloc, row.0, row.1, &mut out)?;
        assert_eq!(rt; out.bytes(), row.2);
        assert_eq!(rt; outcome.status, row.3);
    }
    Ok(())
}

#[test]
fn sources_and_units_are_read_up_to_their_limits(rt: HostRuntime) -> Result<(), Fail> {
    let most = vec![in rt.alloc(); b' '; 1_048_576]?;
    let more = vec![in rt.alloc(); b' '; 1_048_577]?;
    let functions = declarations(rt.alloc(), 4096)?;
    let functions_over = declarations(rt.alloc(), 4097)?;
    let unlinked: &[u8] = b"rtsan: unlinked: main\n";
    let too_long: &[u8] = b"rtsan: limit: source bytes\n";
    let too_many: &[u8] = b"rtsan: limit: functions\n";
    let rows: [(&[&str], &[u8], &[u8], Status); 6] = [
        (CHECK, most.as_slice(), b"", Status::Clean),
        (CHECK, more.as_slice(), too_long, Status::Limit),
        (STEP, most.as_slice(), unlinked, Status::Unlinked),
        (STEP, more.as_slice(), too_long, Status::Limit),
        (CHECK, functions.as_bytes(), b"", Status::Clean),
        (CHECK, functions_over.as_bytes(), too_many, Status::Limit),
    ];
    serves_rows(rt, rt.alloc(), &rows)
}

#[test]
fn code_and_stack_are_used_up_to_their_limits(rt: HostRuntime) -> Result<(), Fail> {
    let nodes = calls(rt.alloc(), 87_379)?;
    let nodes_over = calls(rt.alloc(), 87_400)?;
    let depth = row_of_calls(rt.alloc(), 255)?;
    let depth_over = row_of_calls(rt.alloc(), 256)?;
    let exited: &[u8] = b"thread 0: exited 0\n";
    let too_long: &[u8] = b"rtsan: limit: code\n";
    let too_deep: &[u8] = b"thread 0: trapped stack-overflow\n";
    let rows: [(&[&str], &[u8], &[u8], Status); 5] = [
        (CHECK, nodes_over.as_bytes(), b"", Status::Clean),
        (STEP, nodes.as_bytes(), exited, Status::Clean),
        (STEP, nodes_over.as_bytes(), too_long, Status::Limit),
        (STEP, depth.as_bytes(), exited, Status::Clean),
        (STEP, depth_over.as_bytes(), too_deep, Status::Trapped),
    ];
    serves_rows(rt, rt.alloc(), &rows)
}

#[test]
fn a_sink_that_fails_has_a_prefix_and_the_run_is_left(rt: HostRuntime) -> Result<(), Fail> {
    for (words, failing, runs) in [(CHECK, 1, false), (STEP, 1, true), (STEP, 130, true)] {
        let calls = CallList::from_slice(rt.alloc(), &[failing])?;
        let mut out = MemSink::new(rt.alloc(), 400, 1, calls)?;
        let outcome = served(rt, rt.alloc(), words, BLOCKING, &mut out)?;
        assert_eq!(rt; outcome.status, Status::WriteFault);
        assert_eq!(rt; out.bytes(), &BLOCKING_RUN[..failing as usize]);
        assert_eq!(rt; outcome.finished.is_some(), runs);
    }
    Ok(())
}

#[test]
fn a_run_leaves_its_thread_and_its_totals(rt: HostRuntime) -> Result<(), Fail> {
    let mut out = MemSink::new(rt.alloc(), 1000, 1000, CallList::new(rt.alloc()))?;
    let outcome = served(rt, rt.alloc(), STEP, BLOCKING, &mut out)?;
    let finished = outcome.finished.as_ref().ok_or("nothing is left")?;
    assert_eq!(rt; finished.total, 1);
    let thread = finished.threads.as_slice().first().ok_or("no thread")?;
    assert!(rt; matches!(thread.end, End::Halted));
    // three functions, each loaded for and entered, the blocking one reached, and the store of halt
    assert_eq!(rt; thread.events, 8);
    Ok(())
}
