//! The board, its passes, and the stacks that they counted.

ghost use Rattle.std.specs.Prelude.{◌≡◌, ◌<◌, ◌^◌, true, false, [], length, IfOk};
ghost use Rattle.reports.specs.Counts.{is_counted};
ghost use Rattle.reports.specs.Passes.{born, reported, all_reports, IsWhole};
ghost use Rattle.reports.specs.Prefixes.{has_room};
ghost use Rattle.reports.specs.Stacks.{IsStack};
ghost use Rattle.stack_counts.specs.Totals.{AreTotals, sum_of};
ghost use Rattle.plain_board.specs.Passes.{PassIsFair};

use crate::counts::Counts;
use board_past::{Past, walked};
use ctx_set::StackStep;
use reports::{Board, Noted, StackList};
use stack_counts::sort_stacks;
use std::alloc::{AllocError, Global};
use std::marker::Model;

/// A board whose first pass makes every report. The table stands in that pass.
#[derive(Drop)]
pub struct PlainBoard {
    alloc: Global,
}

/// A pass of a `PlainBoard`.
#[derive(Drop)]
pub struct PlainPass {
    counts: Option<Counts>,
    past: Past,
}

impl Model for PlainPass {
    ghost use Rattle.std.specs.Prelude.{is_some};
    ghost use Rattle.plain_board.specs.Passes.{PlainParts, IsPass};

    ghost Value = { PlainParts };

    ghost view = { λ p. record { held = p.past; reports = is_some p.counts } };

    ghost invariant = { λ p. IsPass p.counts p.past };
}

impl PlainPass {
    /// Counts a report with this stack, in a pass that can report.
    fn count(&mut self, stack: &[StackStep]) -> Noted
        requires can { self.old.reports ≡ true }
        requires stack { IsStack stack.now }
        ensures held { self.new.held ≡ reported self.old.held stack.now result }
        ensures can { self.new.reports ≡ true }
        ensures belongs { PassIsFair self.new }
        ensures exact { is_counted result ≡ has_room self.old.held.own stack.now }
    {
        let answer = match &mut self.counts {
            Some(counts) => counts.count(stack),
            None => unreachable!(),
        };
        self.past.reported(walked(stack), answer);
        answer
    }
}

impl Board for PlainBoard {
    type Pass = PlainPass;

    ghost place = { λ b. record { tables = [] } };

    ghost belongs = { λ at p. PassIsFair p };

    ghost held = { λ p. p.held };

    ghost can_report = { λ p. p.reports };

    ghost is_exact = { true };

    ghost fair = { λ at p own whole. own.tells whole };

    fn report(&self, pass: &mut PlainPass, stack: &[StackStep]) -> Noted {
        pass.count(stack)
    }

    fn split(&self, pass: &mut PlainPass) -> PlainPass {
        PlainPass {
            counts: None,
            past: pass.past.split(),
        }
    }

    fn join(&self, pass: &mut PlainPass, other: PlainPass) {
        let PlainPass { counts: _, past } = other;
        pass.past.joins(past);
    }
}

impl PlainBoard {
    /// A board without reports, with its first pass, the only one that can report. All memory for reports is taken here.
    pub fn new(alloc: Global) -> Result<(PlainBoard, PlainPass), AllocError>
        ensures first { IfOk result (λ r. ⟦<PlainBoard as Board>⟧.held r.1 ≡ born 0) }
        ensures can { IfOk result (λ r. ⟦<PlainBoard as Board>⟧.can_report r.1 ≡ true) }
        ensures belongs { IfOk result (λ r. ⟦<PlainBoard as Board>⟧.belongs (⟦<PlainBoard as Board>⟧.place r.0) r.1) }
    {
        let counts = Some(Counts::new(alloc)?);
        let pass = PlainPass {
            counts,
            past: Past::first(),
        };
        Ok((PlainBoard { alloc }, pass))
    }

    /// The stacks that were counted, in order, each with how many reports counted it.
    pub fn collect(self, pass: PlainPass) -> Result<StackList, AllocError>
        requires belongs { ⟦<PlainBoard as Board>⟧.belongs (⟦<PlainBoard as Board>⟧.place self) pass }
        requires whole { IsWhole (⟦<PlainBoard as Board>⟧.held pass) }
        requires few { length (all_reports (⟦<PlainBoard as Board>⟧.held pass)) < 2 ^ 64 }
        ensures totals { IfOk result (λ stacks. AreTotals (all_reports (⟦<PlainBoard as Board>⟧.held pass)) stacks) }
        ensures few { IfOk result (λ stacks. sum_of stacks < 2 ^ 64) }
    {
        let PlainPass { counts, past: _ } = pass;
        let Some(counts) = counts else {
            unreachable!();
        };
        let mut stacks = counts.stacks(self.alloc)?;
        sort_stacks(&mut stacks);
        Ok(stacks)
    }
}
