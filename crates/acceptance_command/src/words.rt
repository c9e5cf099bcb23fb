//! Command words, option texts and generated texts.

use command::{BadItem, Command, Job, WordsFault, generated_text, read_options, read_words};
use std::alloc::{AllocError, Global};
use std::test::Fail;

/// Words that are a command.
const COMMANDS: [&[&str]; 36] = [
    &["check", "r2.c"],
    &["step", "r2.c"],
    &["run", "r2.c"],
    &["gen", "1"],
    &["gen", "4000"],
    &["gen", "0001"],
    &["step", "r17.c", "--events=10"],
    &["step", "r17.c", "--events", "10"],
    &["step", "--", "-a.c"],
    &["--", "check", "-a.c"],
    &["step", "--", "--events"],
    &["step", "a.c", "--"],
    &["check", "-"],
    &["--events", "10", "step", "r17.c"],
    &["step", "--events", "10", "r17.c"],
    &["step", "a.c", "--events", "10", "--"],
    &["step", "a.c", "--events", "1"],
    &["step", "a.c", "--events", "4294967295"],
    &["step", "a.c", "--events", "0000000001"],
    &["step", "a.c", "--wait-limit", "5"],
    &["step", "a.c", "--options", "halt_on_error=no"],
    &["step", "a.c", "--options=-x"],
    &["step", "a.c", "--options=a=b"],
    &["step", "a.c", "--options", "-"],
    &["step", "a.c", "--suppressions", "s.txt"],
    &["step", "a.c", "--entry", "_f9"],
    &["step", "a.c", "--entry", "int"],
    &["step", "a.c", "--args", "1"],
    &["step", "a.c", "--args=-2147483648,2147483647,-0"],
    &[
        "step",
        "a.c",
        "--args",
        "1,2,3,4,5,6,7,8,9,10,11,12,13,14,15,16",
    ],
    &["step", "a.c", "--schedule", "0,63,0"],
    &["run", "a.c", "--workers", "8"],
    &["run", "a.c", "--workers=1", "--args", "7", "--entry=f"],
    &[
        "run",
        "a.c",
        "--events",
        "10",
        "--wait-limit=3",
        "--options=x",
        "--suppressions=y",
    ],
    &[
        "step",
        "a.c",
        "--events=7",
        "--wait-limit=3",
        "--options=x",
        "--suppressions=y",
        "--args=1",
        "--entry=e",
        "--schedule=0",
    ],
    &["check", "é.c"],
];

/// Words that are none.
const USAGE: [&[&str]; 50] = [
    &[],
    &["check"],
    &["--"],
    &["check", ""],
    &["", "a.c"],
    &["check", "a.c", "b.c"],
    &["check", "a.c", ""],
    &["Check", "a.c"],
    &["chec", "a.c"],
    &["a.c", "check"],
    &["check", "-a.c"],
    &["check", "--help"],
    &["--help"],
    &["--version"],
    &["step", "a.c", "-h"],
    &["check", "--", "a.c", "--"],
    &["check", "--", "a.c", "--events"],
    &["step", "r17.c", "--events", "10", "--events", "10"],
    &["step", "r17.c", "--events", "10", "--events=10"],
    &["check", "r2.c", "--events", "10"],
    &["step", "r17.c", "--args", "1,"],
    &["gen", "4001"],
    &["gen", "0"],
    &["gen", "-1"],
    &["gen", "+1"],
    &["gen", "1", "--events", "10"],
    &["gen", "1x"],
    &["step", "a.c", "--event", "10"],
    &["step", "a.c", "--events"],
    &["step", "a.c", "--events="],
    &["step", "a.c", "--events", ""],
    &["step", "a.c", "--events", "0"],
    &["step", "a.c", "--events", "4294967296"],
    &["step", "a.c", "--events", "00000000001"],
    &["step", "a.c", "--events", "+1"],
    &["step", "a.c", "--events", "--", "10"],
    &["step", "a.c", "--args", "-1"],
    &["step", "a.c", "--args=2147483648"],
    &["step", "a.c", "--args=-2147483649"],
    &["step", "a.c", "--args=--1"],
    &[
        "step",
        "a.c",
        "--args",
        "1,2,3,4,5,6,7,8,9,10,11,12,13,14,15,16,17",
    ],
    &["step", "a.c", "--schedule", "64"],
    &["step", "a.c", "--schedule", "-1"],
    &["step", "a.c", "--workers", "4"],
    &["run", "a.c", "--schedule", "0"],
    &["run", "a.c", "--workers", "9"],
    &["step", "a.c", "--entry", "9f"],
    &["step", "a.c", "--entry", "a b"],
    &["step", "a.c", "--options="],
    &["step", "a.c", "--suppressions", ""],
];

/// An option text, whether it halts, whether it prints the totals, and its first bad item, 0 where it has none.
const OPTION_TEXTS: [(&str, bool, bool, u64); 14] = [
    ("halt_on_error=true", true, false, 0),
    ("halt_on_error=0", false, false, 0),
    ("print_stats_on_exit=1", true, true, 0),
    (
        "halt_on_error=false:print_stats_on_exit=true",
        false,
        true,
        0,
    ),
    ("halt_on_error=false:halt_on_error=1", true, false, 0),
    (
        "print_stats_on_exit=1:print_stats_on_exit=false",
        true,
        false,
        0,
    ),
    ("halt_on_error=no", true, false, 1),
    ("halt_on_error=1:", true, false, 2),
    ("halt_on_error=1::halt_on_error=0", true, false, 2),
    (":halt_on_error=1", true, false, 1),
    ("halt_on_error=1:x:y", true, false, 2),
    ("halt_on_error", true, false, 1),
    ("halt_on_error=true ", true, false, 1),
    ("", true, false, 1),
];

const ONE_FUNCTION: &str = "int g[8];
int f0(int x) { return x + 1; }
int main(void) {
  int s = 0;
  s = s + f0(0) % 100;
  return s % 256;
}
";

const FOUR_FUNCTIONS: &str = "int g[8];
int f0(int x) { return x + 1; }
int f1(int x) { g[1] = x; return f0(x) + 1; }
int f2(int x) { g[2] = x; return f0(x) + 1; }
int f3(int x) [[clang::nonblocking]] { g[3] = x; return f1(x) + 1; }
int main(void) {
  int s = 0;
  s = s + f0(0) % 100;
  s = s + f1(1) % 100;
  s = s + f2(2) % 100;
  s = s + f3(3) % 100;
  return s % 256;
}
";

/// Whether the words are a command; the message says that memory ran out.
fn is_command(alloc: Global, words: &[&str]) -> Result<bool, Fail> {
    match read_words(alloc, words) {
        Ok(_) => Ok(true),
        Err(WordsFault::Usage) => Ok(false),
        Err(WordsFault::NoMemory) => Err("no memory")?,
    }
}

fn command_of(alloc: Global, words: &[&str]) -> Result<Command, Fail> {
    Ok(read_words(alloc, words).ok().ok_or("no command")?)
}

#[test]
fn these_words_are_commands(rt: HostRuntime) -> Result<(), Fail> {
    for (row, words) in COMMANDS.iter().enumerate() {
        assert!(rt; is_command(rt.alloc(), words)?, "row {row}");
    }
    Ok(())
}

#[test]
fn these_words_are_none(rt: HostRuntime) -> Result<(), Fail> {
    for (row, words) in USAGE.iter().enumerate() {
        assert!(rt; !is_command(rt.alloc(), words)?, "row {row}");
    }
    Ok(())
}

#[test]
fn a_command_without_options_has_the_defaults(rt: HostRuntime) -> Result<(), Fail> {
    let command = command_of(rt.alloc(), &["step", "a.c"])?;
    assert!(rt; matches!(command.job, Job::Step));
    assert!(rt; command.file.as_str() == "a.c");
    assert!(rt; command.options.is_none() && command.suppressions.is_none());
    assert!(rt; command.entry.as_str() == "main");
    assert!(rt; command.args.as_slice().is_empty() && command.schedule.as_slice().is_empty());
    assert!(rt;
        command.events == 10_000_000 && command.wait_limit == 2_000_000 && command.workers == 4
    );
    Ok(())
}

#[test]
fn a_command_has_what_its_options_say(rt: HostRuntime) -> Result<(), Fail> {
    let words = [
        "--args=-5,007",
        "step",
        "--events",
        "9",
        "--entry=f",
        "--schedule",
        "1,0",
        "--",
        "--a.c",
    ];
    let command = command_of(rt.alloc(), &words)?;
    assert!(rt; command.file.as_str() == "--a.c");
    assert!(rt; command.entry.as_str() == "f");
    assert!(rt; command.args.as_slice() == [-5, 7].as_slice());
    assert!(rt; command.schedule.as_slice() == [1, 0].as_slice());
    assert!(rt; command.events == 9);
    Ok(())
}

#[test]
fn gen_has_a_number_and_no_file(rt: HostRuntime) -> Result<(), Fail> {
    let command = command_of(rt.alloc(), &["gen", "0012"])?;
    assert!(rt; matches!(command.job, Job::Gen(12)));
    assert!(rt; command.file.as_str().is_empty());
    Ok(())
}

#[test]
fn option_texts_are_read(rt: HostRuntime) {
    for (row, (text, halts, prints, bad)) in OPTION_TEXTS.iter().enumerate() {
        let agrees = match read_options(text) {
            Ok(options) => *bad == 0
                && options.halt_on_error == *halts
                && options.print_stats_on_exit == *prints,
            Err(BadItem { number }) => number == *bad,
        };
        assert!(rt; agrees, "row {row}");
    }
}

#[test]
fn few_functions_are_made_byte_for_byte(rt: HostRuntime) -> Result<(), Fail> {
    let one = generated_text(rt.alloc(), 1)?;
    assert!(rt; one.as_str() == ONE_FUNCTION);
    let four = generated_text(rt.alloc(), 4)?;
    assert!(rt; four.as_str() == FOUR_FUNCTIONS);
    Ok(())
}

/// A list of so many zeros between commas.
fn zeros(alloc: Global, count: usize) -> Result<String, AllocError> {
    let mut list = String::from_str(alloc, "0")?;
    for _ in 1..count {
        list.push_str(",0")?;
    }
    Ok(list)
}

#[test]
fn a_schedule_has_at_most_65536_numbers(rt: HostRuntime) -> Result<(), Fail> {
    let whole = zeros(rt.alloc(), 65_536)?;
    assert!(rt; is_command(rt.alloc(), &["step", "a.c", "--schedule", whole.as_str()])?);
    let over = zeros(rt.alloc(), 65_537)?;
    assert!(rt; !is_command(rt.alloc(), &["step", "a.c", "--schedule", over.as_str()])?);
    Ok(())
}

#[test]
fn many_words_are_read_at_once(rt: HostRuntime) -> Result<(), Fail> {
    let words = vec![in rt.alloc(); "--events=1"; 100_000]?;
    assert!(rt; !is_command(rt.alloc(), words.as_slice())?);
    Ok(())
}

#[test]
fn four_thousand_functions_are_made(rt: HostRuntime) -> Result<(), Fail> {
    let text = generated_text(rt.alloc(), 4000)?;
    assert!(rt;
        text.as_str()
            .ends_with("  s = s + f3999(3999) % 100;\n  return s % 256;\n}\n")
    );
    Ok(())
}
