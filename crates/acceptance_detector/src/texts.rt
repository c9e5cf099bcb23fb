//! The printed totals, and printed reports, one for each of a few worked sources.

use crate::units::calling;
use ctx_set::StackStep;
use reports::{StackList, write_reports, write_stats};
use rt_base::{CallList, MemSink};
use stack_counts::add_stack;
use std::alloc::{AllocError, Global};
use std::test::Fail;

// A source with the places of two calls: of a function of the library or the first function of the unit in `f`, and of `f` in its
// last function; the names of the first and the last; a stack with its count; and what is printed of it. Names and places alone
// are read of the unit, so its first function serves for what `f` calls.
struct Printed {
    source: &'static [u8],
    inner: u32,
    outer: u32,
    low: &'static str,
    root: &'static str,
    stack: &'static [StackStep],
    count: u64,
    text: &'static str,
}

const ROOT: StackStep = StackStep { target: 2, site: 0 };

const F: StackStep = StackStep { target: 1, site: 2 };

const LOW: StackStep = StackStep { target: 0, site: 1 };

const MALLOC: StackStep = StackStep {
    target: 4096,
    site: 1,
};

const USLEEP: StackStep = StackStep {
    target: 4103,
    site: 1,
};

const IN_LINES: Printed = Printed {
    source: b"#include <stdlib.h>\nvoid f(void) [[clang::nonblocking]] {\n  malloc(1);\n}\nint main(void) {\n  f();\n  return 0;\n}\n",
    inner: 60,
    outer: 92,
    low: "malloc",
    root: "main",
    stack: &[ROOT, F, MALLOC],
    count: 1,
    text: "error: unsafe-library-call: 'malloc' called in a real-time context, count 1\n  #0 malloc\n  #1 f 3:3\n  #2 main 6:3\n",
};

const IN_A_THREAD: Printed = Printed {
    source: b"#include <pthread.h>\n#include <unistd.h>\nvoid f(void) [[clang::nonblocking]] { usleep(1); }\nvoid *w(void *p) { for (int i = 0; i < 100; i++) f(); return p; }\n",
    inner: 79,
    outer: 141,
    low: "usleep",
    root: "w",
    stack: &[ROOT, F, USLEEP],
    count: 200,
    text: "error: unsafe-library-call: 'usleep' called in a real-time context, count 200\n  #0 usleep\n  #1 f 3:39\n  #2 w 4:50\n",
};

const BLOCKING: Printed = Printed {
    source: b"void slow(void) [[clang::blocking]] { }\nvoid f(void) [[clang::nonblocking]] { slow(); }\nint main(void) { f(); return 0; }\n",
    inner: 78,
    outer: 105,
    low: "slow",
    root: "main",
    stack: &[ROOT, F, LOW],
    count: 1,
    text: "error: blocking-call: 'slow' called in a real-time context, count 1\n  #0 slow\n  #1 f 2:39\n  #2 main 3:18\n",
};

// Prints the report of a row, and says whether it was all taken.
fn print_report(alloc: Global, row: &Printed, sink: &mut MemSink) -> Result<bool, AllocError> {
    let last = row.source.len().min(1000) as u32;
    if row.source.len() > 1000 || row.inner > last || row.outer > last || row.stack.len() > 257 {
        return Ok(false);
    }
    let mut stacks = StackList::new(alloc);
    add_stack(alloc, &mut stacks, row.stack, row.count)?;
    let unit = calling(alloc, row.low, row.root, row.inner, row.outer)?;
    Ok(write_reports(&unit, row.source, &stacks, sink).is_ok())
}

#[test]
fn prints_reports(rt: HostRuntime) -> Result<(), Fail> {
    for row in [&IN_LINES, &IN_A_THREAD, &BLOCKING] {
        let mut sink = MemSink::new(rt.alloc(), 200, 7, CallList::new(rt.alloc()))?;
        let all_taken = print_report(rt.alloc(), row, &mut sink)?;
        assert!(rt; all_taken);
        assert_eq!(rt; sink.bytes(), row.text.as_bytes());
    }
    Ok(())
}

#[test]
fn prints_totals(rt: HostRuntime) -> Result<(), Fail> {
    let mut sink = MemSink::new(rt.alloc(), 100, 7, CallList::new(rt.alloc()))?;
    let written = write_stats(200, 1, 0, &mut sink);
    assert!(rt; written.is_ok());
    let wanted = "total reports: 200\nunique reports: 1\nsuppressed reports: 0\n";
    assert_eq!(rt; sink.bytes(), wanted.as_bytes());
    Ok(())
}
