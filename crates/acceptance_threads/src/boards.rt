//! The boards that threads share.
ghost use Rattle.std.specs.Prelude.{◌≡◌, ◌+◌, ◌<◌, ◌^◌, length, true};
ghost use Rattle.reports.specs.Passes.{born, all_reports, IsWhole};
ghost use Rattle.reports.specs.Stacks.{IsStack};
ghost use Rattle.acceptance_threads.specs.Reporting.{EachReports, Reports};

use ctx_set::StackStep;
use locked_board::LockedBoard;
use reports::{Board, StackList};
use set_board::SetBoard;
use std::test::Fail;
use std::thread;
use std::thread::Threads;

/// A stack of two steps, whose second is of this function.
fn stack(target: u32) -> [StackStep; 2]
    requires { target < 8192 }
    ensures { IsStack result }
{
    [
        StackStep { target: 1, site: 0 },
        StackStep { target, site: 3 },
    ]
}

/// Reports a stack this many times.
fn reported<B: Board>(board: &B, mut pass: B::Pass, stack: &[StackStep], count: u32) -> B::Pass
    requires belongs { B.belongs (B.place board.now) pass }
    requires can { EachReports B.can_report }
    requires stack { IsStack stack.now }
    ensures reports { Reports count (B.held pass) (B.held result) }
    ensures belongs { B.belongs (B.place board.now) result }
{
    'each: for done in 0..count {
        board.report(&mut pass, stack);
    }
    pass
}

/// Two threads report one stack, and one of them another one too. Their passes are joined again.
fn report_in_two<B: Board + Sync, R: Threads + Sync>(
    rt: &R,
    board: &B,
    mut pass: B::Pass,
    same: &[StackStep],
    other: &[StackStep],
    count: u32,
) -> B::Pass
where
    B::Pass: Send + Drop,
    requires belongs { B.belongs (B.place board.now) pass }
    requires can { EachReports B.can_report }
    requires stacks { IsStack same.now × IsStack other.now }
    requires first { B.held pass ≡ born 0 }
    ensures whole { IsWhole (B.held result) }
    ensures few { length (all_reports (B.held result)) < 2 ^ 64 }
    ensures belongs { B.belongs (B.place board.now) result }
{
    let child = board.split(&mut pass);
    let (mut pass, child) = thread::join(
        rt,
        move || -> B::Pass
            requires { B.belongs (B.place board.now) pass × EachReports B.can_report × IsStack same.now }
            ensures { Reports count (B.held pass) (B.held result) × B.belongs (B.place board.entry.now) result }
        { reported(board, pass, same, count) },
        move || -> B::Pass
            requires { B.belongs (B.place board.now) child × EachReports B.can_report × IsStack other.now }
            ensures { Reports count (B.held child) (B.held result) × B.belongs (B.place board.entry.now) result }
        { reported(board, child, other, count) },
    );
    board.join(&mut pass, child);
    pass
}

/// How often the stack with this function was counted, 0 where it wasn't.
fn count_of(stacks: &StackList, target: u32) -> u64 {
    for counted in stacks.as_slice() {
        if matches!(counted.stack.as_slice(), [_, last] if last.target == target) {
            return counted.count;
        }
    }
    0
}

#[test]
fn two_threads_report_without_a_lock(rt: HostRuntime) -> Result<(), Fail> {
    let (board, pass) = SetBoard::new(rt.alloc())?;
    let pass = report_in_two(&rt, &board, pass, &stack(7), &stack(7), 1000);
    let stacks = board.collect(pass)?;
    assert_eq!(rt; stacks.len(), 1);
    assert_eq!(rt; count_of(&stacks, 7), 2000);
    Ok(())
}

#[test]
fn two_threads_report_different_stacks_without_a_lock(rt: HostRuntime) -> Result<(), Fail> {
    let (board, pass) = SetBoard::new(rt.alloc())?;
    let pass = report_in_two(&rt, &board, pass, &stack(7), &stack(9), 1000);
    let stacks = board.collect(pass)?;
    assert_eq!(rt; stacks.len(), 2);
    assert_eq!(rt; count_of(&stacks, 7), 1000);
    assert_eq!(rt; count_of(&stacks, 9), 1000);
    Ok(())
}

#[test]
fn two_threads_report_under_a_lock(rt: HostRuntime) -> Result<(), Fail> {
    let alloc = rt.alloc();
    let (board, pass) = LockedBoard::new(rt, alloc)?;
    let pass = report_in_two(&rt, &board, pass, &stack(7), &stack(9), 100);
    let stacks = board.collect(pass)?;
    assert_eq!(rt; stacks.len(), 2);
    assert_eq!(rt; count_of(&stacks, 9), 100);
    Ok(())
}
