//! The end of a set: its paths and their counts.
ghost use Rattle.std.specs.Prelude.{◌≡◌, ◌<◌, ◌≤◌, ◌+◌, ◌^◌, ℕ, List, length, IfOk, reverse, slice_index};
ghost use Rattle.std.specs.Mem.Slots.{slots_items, slots_len, IsFull};
ghost use Rattle.ctx_set.specs.declared.steps.StackStep.{StackStep};
ghost use Rattle.context_set.specs.Paths.{Path, IsStep};
ghost use Rattle.context_set.specs.Held.{all_counted, IsWhole};
ghost use Rattle.context_set.specs.Keys.{key_of};
ghost use Rattle.context_set.specs.Closed.{IsTally, Climbs, Rows, IsRow, HasClimbs};
ghost use Rattle.context_set.specs.Passes.{place_of, held_of, IsPassOf};

use crate::count::{PathCount, PathCountList, PathSteps};
use crate::table::{CtxPass, CtxSet};
use atomic_table::Closed;
use ctx_set::StackStep;
use std::alloc::{AllocError, Global};

/// The parent and the step of a key; 65,536 stands for no parent.
fn unpacked(key: u64) -> (u32, StackStep)
    requires { 0 < key }
    ensures { (parent : ℕ) (step : StackStep) → parent ≤ 65536 → IsStep step → key ≡ key_of parent step → (result.0 ≡ parent) × (result.1.target ≡ step.target) × (result.1.site ≡ step.site) }
{
    let key = key - 1;
    let step = StackStep {
        target: (key / 137438953472 % 8192) as u32,
        site: (key / 131072 % 1048576) as u32,
    };
    ((key % 131072) as u32, step)
}

/// The steps from a slot up to an outermost one.
fn climbed(
    alloc: Global,
    closed: &Closed<u8, Global>,
    slots: u32,
    slot: u32,
) -> Result<Vec<StackStep>, AllocError>
    requires most { slots ≤ 65536 }
    requires full { IsFull closed.now.words }
    requires size { slots_len closed.now.words ≡ slots + slots }
    requires climbs { (p : List StackStep) × Climbs slots (slice_index (slots_items closed.now.words)) slot p × (length p ≤ slots) }
    ensures { IfOk result (λ steps. Climbs slots (slice_index (slots_items closed.now.words)) slot steps.items) }
{
    let mut steps = Vec::new(alloc);
    let mut at = slot;
    for climbed in 0..slots {
        let (parent, step) = unpacked(closed.word(at as usize));
        steps.push(step)?;
        if parent == 65536 {
            return Ok(steps);
        }
        at = parent;
    }
    unreachable!()
}

/// The path of a slot with its count, if the slot has a key.
fn row(
    alloc: Global,
    closed: &Closed<u8, Global>,
    slots: u32,
    slot: u32,
) -> Result<Option<PathCount>, AllocError>
    requires most { slots ≤ 65536 }
    requires within { slot < slots }
    requires full { IsFull closed.now.words }
    requires size { slots_len closed.now.words ≡ slots + slots }
    requires climbs { HasClimbs slots (slice_index (slots_items closed.now.words)) }
    ensures { IfOk result (λ row. IsRow slots (slice_index (slots_items closed.now.words)) slot row) }
{
    if closed.word(slot as usize) == 0 {
        return Ok(None);
    }
    let mut steps = climbed(alloc, closed, slots, slot)?;
    steps.reverse();
    let count = closed.word((slots + slot) as usize);
    Ok(Some(PathCount {
        path: PathSteps::new(steps),
        count,
    }))
}

/// Adds the row of the next slot.
#[tactic(auto, using(crate::proofs::Tally::rows_skip, crate::proofs::Tally::rows_more))]
fn add_row(
    alloc: Global,
    closed: &Closed<u8, Global>,
    slots: u32,
    slot: u32,
    list: &mut PathCountList,
) -> Result<(), AllocError>
    requires most { slots ≤ 65536 }
    requires within { slot < slots }
    requires full { IsFull closed.now.words }
    requires size { slots_len closed.now.words ≡ slots + slots }
    requires climbs { HasClimbs slots (slice_index (slots_items closed.now.words)) }
    requires rows { Rows slots (slice_index (slots_items closed.now.words)) slot list.old.items }
    ensures { IfOk result (λ _. Rows slots (slice_index (slots_items closed.now.words)) (slot + 1) list.new.items) }
{
    let Some(row) = row(alloc, closed, slots, slot)? else {
        return Ok(());
    };
    list.push(row)?;
    Ok(())
}

/// The paths of all slots that have keys, with their counts.
fn tallied(
    alloc: Global,
    closed: &Closed<u8, Global>,
    slots: u32,
) -> Result<PathCountList, AllocError>
    requires most { slots ≤ 65536 }
    requires full { IsFull closed.now.words }
    requires size { slots_len closed.now.words ≡ slots + slots }
    requires climbs { HasClimbs slots (slice_index (slots_items closed.now.words)) }
    ensures { IfOk result (λ list. Rows slots (slice_index (slots_items closed.now.words)) slots list.items) }
{
    let mut list = Vec::new(alloc);
    for slot in 0..slots {
        add_row(alloc, closed, slots, slot, &mut list)?;
    }
    Ok(list)
}

impl CtxSet {
    /// Each path that has a node, once, with the number of its counts.
    pub fn close(self, pass: CtxPass) -> Result<PathCountList, AllocError>
        requires pass { IsPassOf (place_of self) pass }
        requires whole { IsWhole (held_of pass) }
        requires few { length (all_counted (held_of pass)) < 2 ^ 64 }
        ensures { IfOk result (λ list. IsTally (held_of pass) list.items) }
    {
        let CtxSet {
            slots,
            alloc,
            table,
        } = self;
        let CtxPass { seat } = pass;
        let closed = table.close_with(seat);
        let list = tallied(alloc, &closed, slots);
        closed.free();
        list
    }
}
