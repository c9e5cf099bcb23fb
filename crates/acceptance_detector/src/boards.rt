//! Reports over a board of one thread, and what it collects.

ghost use Rattle.std.specs.Prelude.{◌≡◌, ◌+◌, ◌<◌, ◌^◌, length, IfOk};
ghost use Rattle.reports.specs.Stacks.{IsStack};
ghost use Rattle.stack_counts.specs.Totals.{sum_of};
ghost use Rattle.acceptance_detector.specs.Lone.{IsLone};

use ctx_set::StackStep;
use plain_board::{PlainBoard, PlainPass};
use reports::{Board, Noted, StackList};
use stack_counts::total_count;
use std::alloc::{AllocError, Global};
use std::test::Fail;

// The stack of one step from this site, and of two of them.
fn one(site: u32) -> [StackStep; 1]
    requires { site < 2 ^ 20 }
    ensures { IsStack result }
{
    [StackStep { target: 1, site }; 1]
}

fn two(site: u32) -> [StackStep; 2]
    requires { site < 2 ^ 20 }
    ensures { IsStack result }
{
    [StackStep { target: 1, site }; 2]
}

fn board_of(alloc: Global) -> Result<(PlainBoard, PlainPass), AllocError>
    ensures { IfOk result (λ r. IsLone r.1 × (length r.1.held.own ≡ 0)) }
{
    PlainBoard::new(alloc)
}

// Reports a stack, and gives the answer as a word.
fn said(board: &PlainBoard, pass: &mut PlainPass, stack: &[StackStep]) -> &'static str
    requires stack { IsStack stack.now }
    requires lone { IsLone pass.old }
    ensures lone { IsLone pass.new }
    ensures longer { length pass.new.held.own ≡ length pass.old.held.own + 1 }
{
    match board.report(pass, stack) {
        Noted::First => "first",
        Noted::Again => "again",
        Noted::Full => "full",
    }
}

fn stacks_of(board: PlainBoard, pass: PlainPass) -> Result<StackList, AllocError>
    requires lone { IsLone pass }
    requires few { length pass.held.own < 2 ^ 64 }
    ensures { IfOk result (λ stacks. sum_of stacks < 2 ^ 64) }
{
    board.collect(pass)
}

// Reports so many stacks, the last site first.
fn fill(board: &PlainBoard, pass: &mut PlainPass, count: u32)
    requires few { count < 2 ^ 20 }
    requires lone { IsLone pass.old }
    ensures lone { IsLone pass.new }
    ensures longer { length pass.new.held.own ≡ length pass.old.held.own + count }
{
    'each: for number in 0..count {
        said(board, pass, &one(count - number));
    }
}

// What is answered to a stack of two steps, to it again, to the one step from its site, and to the two steps once more.
fn in_turn(board: &PlainBoard, pass: &mut PlainPass) -> [&'static str; 4]
    requires lone { IsLone pass.old }
    ensures lone { IsLone pass.new }
    ensures longer { length pass.new.held.own ≡ length pass.old.held.own + 4 }
{
    let first = said(board, pass, &two(3));
    let second = said(board, pass, &two(3));
    let third = said(board, pass, &one(3));
    let fourth = said(board, pass, &two(3));
    [first, second, third, fourth]
}

// Whether the one step was counted once, and the two steps three times.
fn are_one_and_three(stacks: &StackList) -> bool {
    match stacks.as_slice() {
        [one, two] => {
            one.stack.len() == 1 && one.count == 1 && two.stack.len() == 2 && two.count == 3
        }
        _ => false,
    }
}

#[test]
fn a_stack_is_first_and_then_again(rt: HostRuntime) -> Result<(), Fail> {
    let (board, mut pass) = board_of(rt.alloc())?;
    let answers = in_turn(&board, &mut pass);
    assert!(rt; answers == ["first", "again", "first", "again"]);
    let stacks = stacks_of(board, pass)?;
    assert!(rt; are_one_and_three(&stacks));
    assert_eq!(rt; total_count(&stacks), 4);
    Ok(())
}

// What is answered to a new stack, to a known one with a step more, and to a known one.
fn at_the_end(board: &PlainBoard, pass: &mut PlainPass) -> [&'static str; 3]
    requires lone { IsLone pass.old }
    ensures lone { IsLone pass.new }
    ensures longer { length pass.new.held.own ≡ length pass.old.held.own + 3 }
{
    let new = said(board, pass, &one(0));
    let longer = said(board, pass, &two(7));
    let known = said(board, pass, &one(7));
    [new, longer, known]
}

// Whether so many stacks were counted, the one from site 7 twice and the last one once.
fn are_full(stacks: &StackList) -> bool {
    let stacks = stacks.as_slice();
    stacks.len() == 65_536 && stacks[6].count == 2 && stacks[65_535].count == 1
}

#[test]
fn a_board_has_room_for_65536_prefixes(rt: HostRuntime) -> Result<(), Fail> {
    let (board, mut pass) = board_of(rt.alloc())?;
    fill(&board, &mut pass, 65_536);
    let answers = at_the_end(&board, &mut pass);
    assert!(rt; answers == ["full", "full", "again"]);
    let stacks = stacks_of(board, pass)?;
    assert!(rt; are_full(&stacks));
    Ok(())
}

// A pass that was split off holds no report, and its maker goes on with the table.
#[test]
fn a_joined_pass_brings_nothing(rt: HostRuntime) -> Result<(), Fail> {
    let (board, mut pass) = board_of(rt.alloc())?;
    let before = said(&board, &mut pass, &one(3));
    let child = board.split(&mut pass);
    board.join(&mut pass, child);
    let answer = board.report(&mut pass, &one(3));
    assert!(rt; before == "first" && matches!(answer, Noted::Again));
    Ok(())
}
