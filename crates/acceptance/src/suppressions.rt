//! Suppression files: reading them, and what they match.

use std::alloc::{AllocError, Global};
use std::test::Fail;
use suppress::{SupRefusal, Suppressions, read};

/// A file, the name of a called function, and whether the file suppresses it.
const NAMES: [(&[u8], &str, bool); 46] = [
    // patterns
    (b"function-name-matches:a*b*c", "xaxbxcx", true),
    (b"function-name-matches:a*b*c", "abc", true),
    (b"function-name-matches:a*b*c", "acb", false),
    (b"function-name-matches:a*b*c", "ab", false),
    (b"function-name-matches:^a$", "a", true),
    (b"function-name-matches:^a$", "aa", false),
    (b"function-name-matches:^a$", "", false),
    (b"function-name-matches:*", "", true),
    (b"function-name-matches:*", "abc", true),
    (b"function-name-matches:^*$", "", true),
    (b"function-name-matches:^*$", "abc", true),
    (b"function-name-matches:^ab*ba$", "aba", false),
    (b"function-name-matches:^ab*ba$", "abba", true),
    (b"function-name-matches:^ab*ba$", "abxba", true),
    (b"function-name-matches:^", "", true),
    (b"function-name-matches:^", "x", true),
    (b"function-name-matches:$", "", true),
    (b"function-name-matches:$", "x", true),
    (b"function-name-matches:^$", "", true),
    (b"function-name-matches:^$", "x", false),
    (b"function-name-matches:^mall*c$", "malloc", true),
    (b"function-name-matches:^mall*c$", "mallc", true),
    (b"function-name-matches:^mall*c$", "xmalloc", false),
    (b"function-name-matches:^mall*c$", "mallocx", false),
    (b"function-name-matches:aba$", "ababa", true),
    (b"function-name-matches:ab$", "aba", false),
    (b"function-name-matches:a*a$", "a", false),
    (b"function-name-matches:a*a$", "aa", true),
    (b"function-name-matches:**", "", true),
    (b"function-name-matches:^^a", "^ab", true),
    (b"function-name-matches:^^a", "a", false),
    (b"function-name-matches:a$$", "a$", true),
    (b"function-name-matches:a$$", "a", false),
    (b"function-name-matches:a:b", "a:b", true),
    (b"function-name-matches:aab", "aaab", true),
    (b"call-stack-contains:a", "a", false),
    // the ends of lines
    (b"function-name-matches:a$\n", "ba", true),
    (b"function-name-matches:a$", "ba", true),
    (b"function-name-matches:a$\r\n", "ba", true),
    (b"function-name-matches:a$\r", "ba", true),
    (b"function-name-matches:^a\r\r\n", "a\r", true),
    (b"function-name-matches:^a\r\r\n", "a", false),
    (
        b"\n# function-name-matches:a\r\n\r\nfunction-name-matches:b\n",
        "b",
        true,
    ),
    (b"\n\n", "", false),
    // each kind is compared with its own names
    (TWO_KINDS, "malloc", true),
    (TWO_KINDS, "helper", false),
];

const TWO_KINDS: &[u8] = b"function-name-matches:^mall*c$\ncall-stack-contains:helper\n";

/// A stack, and whether `TWO_KINDS` suppresses it.
const STACKS: [(&[&str], bool); 3] = [
    (&["main", "f", "helper", "puts"], true),
    (&["main", "f", "malloc"], false),
    (&[], false),
];

/// A file, its first fault and the line of that.
const FAULTS: [(&[u8], u8, u32); 9] = [
    (b"nothing:a", 1, 1),
    (b"function-name-matches\n", 1, 1),
    (b" function-name-matches:a\n", 1, 1),
    (b"Function-name-matches:a\n", 1, 1),
    (b":a\n", 1, 1),
    (b"\n# a comment\ncall-stack-contains:\n", 2, 3),
    (b"function-name-matches:\r\n", 2, 1),
    (b"call-stack-contains:\nnothing:a\n", 2, 1),
    (b"nothing:a\ncall-stack-contains:\n", 1, 1),
];

/// So many empty lines, what follows them, and the first fault with its line; 0 and 0 where there is none.
const LENGTHS: [(usize, &[u8], u8, u32); 3] = [
    (1000, b"", 0, 0),
    (1000, b"\r", 3, 1001),
    (999, b"x\nx\n", 1, 1000),
];

fn read_whole(alloc: Global, file: &[u8]) -> Result<Suppressions, Fail> {
    Ok(read(alloc, file).ok().ok_or("the file was refused")?)
}

/// The fault of a file and its line: 0 and 0 where it is accepted, 0 and 1 for want of memory.
fn fault_of(alloc: Global, file: &[u8]) -> (u8, u32) {
    match read(alloc, file) {
        Err(SupRefusal::Bad { number, line }) => (number, line),
        Err(SupRefusal::NoMemory) => (0, 1),
        Ok(_) => (0, 0),
    }
}

fn lines(alloc: Global, count: usize, last: &[u8]) -> Result<Vec<u8>, AllocError> {
    let mut file = vec![in alloc; b'\n'; count]?;
    file.extend_from_slice(last)?;
    Ok(file)
}

#[test]
fn files_suppress_names(rt: HostRuntime) -> Result<(), Fail> {
    for (row, (file, name, wanted)) in NAMES.iter().enumerate() {
        let suppressions = read_whole(rt.alloc(), file)?;
        assert!(rt; suppressions.function_matches(name) == *wanted, "row {row}");
    }
    Ok(())
}

#[test]
fn files_suppress_stacks(rt: HostRuntime) -> Result<(), Fail> {
    let suppressions = read_whole(rt.alloc(), TWO_KINDS)?;
    for (row, (names, wanted)) in STACKS.iter().enumerate() {
        assert!(rt; suppressions.stack_matches(names) == *wanted, "row {row}");
    }
    Ok(())
}

#[test]
fn the_first_bad_line_decides(rt: HostRuntime) {
    for (row, (file, number, line)) in FAULTS.iter().enumerate() {
        assert!(rt; fault_of(rt.alloc(), file) == (*number, *line), "row {row}");
    }
}

#[test]
fn a_file_has_at_most_1000_lines(rt: HostRuntime) -> Result<(), Fail> {
    for (count, last, number, line) in LENGTHS {
        let file = lines(rt.alloc(), count, last)?;
        assert!(rt;
            fault_of(rt.alloc(), file.as_slice()) == (number, line),
            "{count} lines"
        );
    }
    Ok(())
}
