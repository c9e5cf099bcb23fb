//! The contract of a board, which counts the stacks of reports.

ghost use Rattle.std.specs.Prelude.{◌≡◌, ◌≢◌, Bool, true};
ghost use Rattle.reports.specs.Counts.{is_counted, AreFair};
ghost use Rattle.reports.specs.Passes.{Held, BoardPlace, reported, makes, joins, born, all_reports, IsWhole, IsAlone};
ghost use Rattle.reports.specs.Prefixes.{has_room};
ghost use Rattle.reports.specs.Stacks.{IsStack};

use ctx_set::StackStep;

/// What a board answers to a report.
#[derive(Clone, Copy)]
pub enum Noted {
    /// The stack is counted, and no report before had it.
    First,
    /// The stack is counted once more.
    Again,
    /// The board has no room for the stack, which is counted nowhere.
    Full,
}

/// A board, reached by passes. A pass means what it holds: its number, its own list of reports with their answers, the numbers of the
/// passes that were made from it, and the lists of those that were joined into it.
pub trait Board {
    /// The right to report, which one thread has at a time.
    type Pass: Drop + Send;

    // Which board it is.
    ghost place: { Self → BoardPlace };

    // The pass is one of this board.
    ghost belongs: { BoardPlace → Self.Pass → Type 0 };

    ghost held: { Self.Pass → Held };

    // Whether the pass can report.
    ghost can_report: { Self.Pass → Bool };

    // Whether the board refuses exactly the stacks without room where one pass alone reports.
    ghost is_exact: { Bool };

    /// Counts a report with this stack, whose steps stand from the first function of the thread on: 1 to 257 steps, each with a target
    /// below 8,192 and a site below 2^20. It is Full only where more than 65,536 different prefixes of stacks were asked, and where one
    /// pass reports alone to an exact board, exactly where some prefix of the stack isn't among the first 65,536 that were asked.
    fn report(&self, pass: &mut Self::Pass, stack: &[StackStep]) -> Noted
        requires belongs { belongs (place self.now) pass.old }
        requires can { can_report pass.old ≡ true }
        requires stack { IsStack stack.now }
        ensures held { held pass.new ≡ reported (held pass.old) stack.now result }
        ensures can { can_report pass.new ≡ true }
        ensures belongs { belongs (place self.now) pass.new }
        ensures exact { is_exact ≡ true → IsAlone (held pass.old) → is_counted result ≡ has_room (held pass.old).own stack.now };

    /// Gives a new pass, which holds no report. Whether it can report is the board's rule.
    fn split(&self, pass: &mut Self::Pass) -> Self::Pass
        requires belongs { belongs (place self.now) pass.old }
        ensures held { held pass.new ≡ makes (held pass.old) (held result).number }
        ensures can { can_report pass.new ≡ can_report pass.old }
        ensures belongs { belongs (place self.now) pass.new }
        ensures made { held result ≡ born (held result).number }
        ensures made_later { (held result).number ≢ 0 }
        ensures made_belongs { belongs (place self.now) result };

    /// Takes in another pass with all that it holds.
    fn join(&self, pass: &mut Self::Pass, other: Self::Pass)
        requires belongs { belongs (place self.now) pass.old }
        requires other { belongs (place self.now) other }
        ensures held { held pass.new ≡ joins (held pass.old) (held other) }
        ensures can { can_report pass.new ≡ can_report pass.old }
        ensures belongs { belongs (place self.now) pass.new };

    // The answers in all lists of a pass that is whole are fair.
    ghost fair: { (at : BoardPlace) (p : Self.Pass) → belongs at p → IsWhole (held p) → AreFair (all_reports (held p)) };
}

/// The answers in all lists that a whole pass holds are fair, as a call for code that can't cite the law.
pub fn law_fair<B: Board>(board: &B, pass: &B::Pass)
    requires belongs { B.belongs (B.place board.now) pass.now }
    requires whole { IsWhole (B.held pass.now) }
    ensures { AreFair (all_reports (B.held pass.now)) }
{}
