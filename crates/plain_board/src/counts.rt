//! The prefixes of the stacks that were asked, each with how often it was counted.

ghost use Rattle.std.specs.Prelude.{◌≡◌, ◌+◌, ◌<◌, ◌≤◌, ℕ, [], All, length, slice_set, slice_index, slice_index_or, IfOk};
ghost use Rattle.std.specs.List.{list_all};
ghost use Rattle.reports.specs.Counts.{is_counted};
ghost use Rattle.reports.specs.Prefixes.{prefixes, has, room};
ghost use Rattle.plain_board.specs.Counting.{held_after, one_more, answer_at, IsNoted, AreShort};
ghost use Rattle.plain_board.specs.Gathered.{IsGathered};

use ctx_set::StackStep;
use prefix_table::PrefixTable;
use reports::{Noted, StackList};
use stack_counts::add_stack;
use std::alloc::{AllocError, Global};

// So many different prefixes there is room for.
const ROOM: usize = 65536;

// The prefixes, and for each number how often that prefix was counted.
#[derive(Drop)]
pub(crate) struct Counts {
    pub(crate) prefixes: PrefixTable,
    pub(crate) counts: Vec<u64>,
}

// So many counts of 0.
fn zeros(alloc: Global, many: usize) -> Result<Vec<u64>, AllocError>
    ensures { IfOk result (λ counts. (length counts.items ≡ many) × All (λ count. count ≡ 0) counts.items) }
{
    vec![in alloc; 0; many]
}

// Counts once more at this number; a count stays at its last value.
fn add_one(counts: &mut Vec<u64>, number: u32) -> Noted
    requires { number < length counts.old.items }
    ensures counts { counts.new.items ≡ slice_set counts.old.items number (one_more (slice_index counts.old.items number)) }
    ensures answer { result ≡ answer_at (slice_index counts.old.items number) }
{
    let before = counts[number as usize];
    counts[number as usize] = before.saturating_add(1);
    if before == 0 {
        Noted::First
    } else {
        Noted::Again
    }
}

impl Counts {
    /// No prefix, and the memory for all that there is room for.
    pub(crate) fn new(alloc: Global) -> Result<Counts, AllocError>
        ensures none { IfOk result (λ counts. counts.prefixes ≡ []) }
        ensures zero { IfOk result (λ counts. (length counts.counts.items ≡ room) × All (λ count. count ≡ 0) counts.counts.items) }
    {
        let prefixes = PrefixTable::new(alloc)?;
        let counts = zeros(alloc, ROOM)?;
        Ok(Counts { prefixes, counts })
    }

    /// Enters all prefixes of a stack for which there is room, and counts the stack if all of them are held.
    pub(crate) fn count(&mut self, stack: &[StackStep]) -> Noted
        requires some { 0 < length stack.now }
        requires many { length self.old.counts.items ≡ room }
        ensures held { self.new.prefixes ≡ held_after self.old.prefixes stack.now }
        ensures counted { is_counted result ≡ list_all (has self.new.prefixes) (prefixes stack.now) }
        ensures noted { IsNoted self.old.counts.items stack.now self.new.prefixes self.new.counts.items result }
    {
        match self.prefixes.enter(stack) {
            Some(number) => add_one(&mut self.counts, number),
            None => Noted::Full,
        }
    }

    // Adds the prefix with this number to the stacks, if it was counted.
    fn gather(&self, alloc: Global, number: u32, stacks: &mut StackList) -> Result<(), AllocError>
        requires within { number < length self.now.prefixes }
        requires many { length self.now.prefixes ≤ length self.now.counts.items }
        requires short { AreShort self.now.prefixes self.now.counts.items }
        requires gathered { IsGathered self.now.prefixes self.now.counts.items number stacks.old }
        ensures { IfOk result (λ _. IsGathered self.now.prefixes self.now.counts.items (number + 1) stacks.new) }
    {
        let count = self.counts[number as usize];
        if count == 0 {
            return Ok(());
        }
        let steps = self.prefixes.steps(alloc, number)?;
        add_stack(alloc, stacks, steps.as_slice(), count)
    }

    /// The prefixes that were counted, each with its count.
    pub(crate) fn stacks(&self, alloc: Global) -> Result<StackList, AllocError>
        requires many { length self.now.prefixes ≤ length self.now.counts.items }
        requires short { AreShort self.now.prefixes self.now.counts.items }
        ensures { IfOk result (λ stacks. IsGathered self.now.prefixes self.now.counts.items (length self.now.prefixes) stacks) }
    {
        let mut stacks = StackList::new(alloc);
        'each: for number in 0..self.prefixes.len() as u32 {
            self.gather(alloc, number, &mut stacks)?;
        }
        Ok(stacks)
    }
}
