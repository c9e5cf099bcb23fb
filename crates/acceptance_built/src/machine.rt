//! Code and its threads: a thread over code made by hand, and compiled units made by hand, in which `main` is function 0
//! and `f` is function 1.

ghost use Rattle.std.specs.Prelude.{◌≡◌, ◌<◌, ◌≤◌, length, IfOk};

use built_code::words::HALT;
use built_code::{
    Ask, Code, EntryList, Finish, Instruction, InstructionList, Thread, TrapKind, Turned,
};
use built_codegen::{CompileRefusal, compile};
use built_unit::{Body, FunctionInfo, FunctionList, Name, NumberList, SiteInfo, SiteList, Unit};
use eff_types::{Effects, Level};
use std::alloc::{AllocError, Global};
use std::test::Fail;

const MAIN: u32 = 0;

const F: u32 = 1;

/// An event by a letter and its numbers; a dot for one that no unit here makes.
fn shown(ask: Ask) -> (char, u32, u64) {
    match ask {
        Ask::Load(at) => ('l', at, 0),
        Ask::Store(at, word) => ('s', at, word),
        Ask::Enter(function, site) => ('e', function, u64::from(site)),
        Ask::Leave => ('v', 0, 0),
        Ask::Reach(function, site) => ('r', function, u64::from(site)),
        Ask::Trap(TrapKind::StackOverflow) => ('t', 0, 0),
        Ask::Over(Finish::Exited(number)) => ('x', number.cast_unsigned(), 0),
        Ask::Over(Finish::Halted) => ('h', 0, 0),
        Ask::Over(_)
        | Ask::Trap(_)
        | Ask::Exchange(_, _, _)
        | Ask::FetchAdd(_, _)
        | Ask::FetchSub(_, _)
        | Ask::Create(_, _)
        | Ask::Out(_) => ('.', 0, 0),
    }
}

/// The code of one function that returns 7.
fn seven(alloc: Global) -> Result<Code, AllocError> {
    let mut instructions = InstructionList::new(alloc);
    instructions.push(Instruction::SetValue(7))?;
    instructions.push(Instruction::LeaveFunction)?;
    let mut entries = EntryList::new(alloc);
    entries.push(Some(0))?;
    Ok(Code::new(instructions, entries, 0))
}

/// The events of that code, and its exit.
const EVENTS_OF_SEVEN: [(char, u32, u64); 5] = [
    ('l', HALT, 0),
    ('e', 0, 0),
    ('v', 0, 0),
    ('s', HALT, 1),
    ('x', 7, 0),
];

/// The events of a call of a function that is marked `blocking`, and its exit.
const EVENTS_OF_A_BLOCKING_CALL: [(char, u32, u64); 9] = [
    ('l', HALT, 0),
    ('e', MAIN, 0),
    ('l', HALT, 0),
    ('e', F, 1),
    ('r', F, 1),
    ('v', 0, 0),
    ('v', 0, 0),
    ('s', HALT, 1),
    ('x', 0, 0),
];

/// Whether the thread makes these events, each answered by 0.
fn makes(thread: &mut Thread, code: &Code, events: &[(char, u32, u64)]) -> bool {
    for event in events {
        if shown(thread.next(code)) != *event {
            return false;
        }
        thread.answer(code, 0);
    }
    true
}

#[test]
fn thread_zero_exits_with_the_number_that_it_returns(rt: HostRuntime) -> Result<(), Fail> {
    let code = seven(rt.alloc())?;
    let mut thread = Thread::blank(rt.alloc())?;
    assert!(rt; shown(thread.next(&code)) == ('h', 0, 0));
    thread.start(0, 0, &[]);
    assert!(rt; makes(&mut thread, &code, &EVENTS_OF_SEVEN));
    Ok(())
}

fn body(alloc: Global, call: u32, returns: Option<u32>) -> Result<Body, AllocError> {
    let mut calls = NumberList::new(alloc);
    calls.push(call)?;
    Ok(Body { calls, returns })
}

fn function(
    alloc: Global,
    name: &str,
    blocking: bool,
    body: Option<Body>,
) -> Result<FunctionInfo, AllocError> {
    let name = Name::new(alloc, name)?;
    let effects = Effects {
        level: Level::Plain,
        no_block_inference: blocking,
        no_alloc_inference: false,
    };
    Ok(FunctionInfo {
        name,
        effects,
        place: 0,
        body,
    })
}

/// `main` calls `f` at site 1 and returns 0; the body of `f` is given.
fn unit(alloc: Global, blocking: bool, inner: Option<Body>) -> Result<Unit, AllocError> {
    let mut functions = FunctionList::new(alloc);
    functions.push(function(alloc, "main", false, Some(body(alloc, 1, Some(0))?))?)?;
    functions.push(function(alloc, "f", blocking, inner)?)?;
    let mut sites = SiteList::new(alloc);
    sites.push(SiteInfo {
        function: MAIN,
        place: 10,
        direct: Some(F),
    })?;
    sites.push(SiteInfo {
        function: F,
        place: 20,
        direct: Some(F),
    })?;
    Ok(Unit::new(functions, sites))
}

fn compiled(alloc: Global, unit: &Unit) -> Result<Code, Fail> {
    Ok(
        compile(alloc, unit, "main")
            .ok()
            .ok_or("the unit was refused")?,
    )
}

#[test]
fn a_blocking_callee_is_reached_when_it_is_entered(rt: HostRuntime) -> Result<(), Fail> {
    let empty = Body {
        calls: NumberList::new(rt.alloc()),
        returns: None,
    };
    let unit = unit(rt.alloc(), true, Some(empty))?;
    let code = compiled(rt.alloc(), &unit)?;
    assert!(rt; code.entry() == MAIN);
    let mut thread = Thread::blank(rt.alloc())?;
    thread.start(0, code.entry(), &[]);
    assert!(rt; makes(&mut thread, &code, &EVENTS_OF_A_BLOCKING_CALL));
    Ok(())
}

#[test]
fn a_recursion_stands_at_256_frames(rt: HostRuntime) -> Result<(), Fail> {
    let inner = body(rt.alloc(), 2, None)?;
    let unit = unit(rt.alloc(), false, Some(inner))?;
    let code = compiled(rt.alloc(), &unit)?;
    let mut thread = Thread::blank(rt.alloc())?;
    thread.start(0, code.entry(), &[]);
    // 256 functions are entered, each after a load of halt, and one more load comes
    for _ in 0..513 {
        assert!(rt; matches!(thread.next(&code), Ask::Load(_) | Ask::Enter(_, _)));
        thread.answer(&code, 0);
    }
    assert!(rt; shown(thread.next(&code)) == ('t', 0, 0));
    Ok(())
}

#[test]
fn a_missing_definition_and_a_missing_entry_are_refused(rt: HostRuntime) -> Result<(), Fail> {
    let unit = unit(rt.alloc(), false, None)?;
    assert!(rt;
        matches!(
            compile(rt.alloc(), &unit, "main"),
            Err(CompileRefusal::Undefined(F))
        )
    );
    assert!(rt;
        matches!(
            compile(rt.alloc(), &unit, "f"),
            Err(CompileRefusal::NoEntry)
        )
    );
    Ok(())
}
