//! A board that threads share without a lock.
ghost use Rattle.std.specs.Prelude.{◌≡◌, ◌∷◌, [], Some, IfOk, IfSome, IfNone, true};
ghost use Rattle.context_set.specs.Passes.{place_of, held_of, IsPassOf};
ghost use Rattle.reports.specs.Passes.{born};
ghost use Rattle.reports.specs.Prefixes.{room};
ghost use Rattle.reports.specs.Stacks.{IsStack};
ghost use Rattle.set_board.specs.Mirrors.{IsWalking, HasStopped, IsNoted, IsBoardPass};

use crate::past::Past;
use context_set::{Counted, CtxPass, CtxSet, Node};
use ctx_set::StackStep;
use reports::{Board, Noted};
use std::alloc::{AllocError, Global};

// So many different prefixes of stacks a board has room for.
const ROOM: u32 = 65536;

/// A board for threads. It has no lock: its stacks are paths of a set of calling contexts.
#[derive(Drop)]
pub struct SetBoard {
    pub(crate) alloc: Global,
    pub(crate) set: CtxSet,
    ghost wide: { (place_of set).slots ≡ room },
}

/// A pass of a `SetBoard`. Every one can report.
#[derive(Drop)]
pub struct SetPass {
    pub(crate) ctx: CtxPass,
    pub(crate) past: Past,
}

impl SetBoard {
    /// A board without reports, with its first pass. All memory for reports is taken here.
    pub fn new(alloc: Global) -> Result<(SetBoard, SetPass), AllocError>
        ensures first { IfOk result (λ r. ⟦<SetBoard as Board>⟧.held r.1 ≡ born 0) }
        ensures belongs { IfOk result (λ r. ⟦<SetBoard as Board>⟧.belongs (⟦<SetBoard as Board>⟧.place r.0) r.1) }
    {
        let (set, ctx) = CtxSet::new(alloc, ROOM)?;
        let past = Past::born(&ctx);
        Ok((SetBoard { alloc, set }, SetPass { ctx, past }))
    }

    // Enters the prefixes of a stack, the shortest first, and gives the node of the whole; None where one is refused.
    fn walk(&self, ctx: &mut CtxPass, stack: &[StackStep]) -> Option<Node>
        requires pass { IsPassOf (place_of self.now.set) ctx.old }
        requires stack { IsStack stack.now }
        ensures some { IfSome result (λ node. IsWalking (held_of ctx.old) (held_of ctx.new) stack.now (Some node)) }
        ensures none { IfNone result (HasStopped (held_of ctx.old) (held_of ctx.new) stack.now) }
        ensures pass { IsPassOf (place_of self.now.set) ctx.new }
    {
        let mut at = None;
        'each: for step in stack {
            match self.set.enter(ctx, at, *step) {
                Ok(node) => at = Some(node),
                Err(_) => return None,
            }
        }
        at
    }

    // Enters a stack and counts it.
    fn note(&self, ctx: &mut CtxPass, stack: &[StackStep]) -> Noted
        requires pass { IsPassOf (place_of self.now.set) ctx.old }
        requires stack { IsStack stack.now }
        ensures noted { IsNoted (held_of ctx.old) (held_of ctx.new) stack.now result }
        ensures pass { IsPassOf (place_of self.now.set) ctx.new }
    {
        let Some(node) = self.walk(ctx, stack) else {
            return Noted::Full;
        };
        match self.set.count(ctx, node) {
            Counted::First => Noted::First,
            Counted::Again => Noted::Again,
        }
    }
}

impl Board for SetBoard {
    type Pass = SetPass;

    ghost place = { λ b. record { tables = (place_of b.set).table ∷ [] } };

    ghost belongs = { λ at p. IsBoardPass at p.ctx p.past };

    ghost held = { λ p. p.past };

    ghost can_report = { λ p. true };

    ghost is_exact = { true };

    ghost fair = { λ at p own whole. own.tells whole };

    fn report(&self, pass: &mut SetPass, stack: &[StackStep]) -> Noted {
        let answer = self.note(&mut pass.ctx, stack);
        pass.past.reported(stack, answer);
        answer
    }

    fn split(&self, pass: &mut SetPass) -> SetPass {
        let ctx = self.set.split(&mut pass.ctx);
        pass.past.makes(&ctx);
        let past = Past::born(&ctx);
        SetPass { ctx, past }
    }

    fn join(&self, pass: &mut SetPass, other: SetPass) {
        let SetPass { ctx, past } = other;
        self.set.join(&mut pass.ctx, ctx);
        pass.past.joins(past);
    }
}
