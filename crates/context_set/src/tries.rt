//! One try: what a slot holds, and whether it is the one that is looked for.
ghost use Rattle.std.specs.Prelude.{◌≡◌, ◌+◌, ◌<◌, ◌≤◌, true, if◌then◌else◌};
ghost use Rattle.context_set.specs.Steps.{found, missed, looked, put, wanted, IsSeat};
ghost use Rattle.context_set.specs.Passes.{IsAsked};

use crate::keys::Ask;
use crate::rule::{Looks, Puts, Want};
use crate::table::CtxSet;
use crate::view::CtxView;
use atomic_table::Seat;
use std::marker::Brand;

impl CtxSet {
    /// Reads the key of a slot.
    fn look<G: Want>(&self, seat: &mut Seat<u8, CtxView>, ask: &Ask, at: u32, tried: u32) -> u64
        requires picked { (G.parent ≡ ask.now.parent) × (G.step ≡ ask.now.step) × (G.tried ≡ tried) }
        requires table { seat.old.table_id ≡ self.now.table.shared.table_id }
        requires seat { IsSeat self.now.slots seat.old.me }
        requires asked { IsAsked self.now.slots seat.old.me.0 ask.now at tried }
        ensures table { seat.new.table_id ≡ seat.old.table_id }
        ensures seat { IsSeat self.now.slots seat.new.me }
        ensures view { seat.new.me.0 ≡ looked seat.old.me.0 at ask.now.key tried (wanted seat.old.me.0 ask.now.parent ask.now.step) result }
    {
        self.table.shared.load::<Looks<G>>(seat, at as usize)
    }

    /// Gives a slot the key if it is empty, and says whether it has the key then.
    fn put<G: Want>(&self, seat: &mut Seat<u8, CtxView>, ask: &Ask, at: u32, tried: u32) -> bool
        requires picked { (G.parent ≡ ask.now.parent) × (G.step ≡ ask.now.step) × (G.tried ≡ tried) }
        requires table { seat.old.table_id ≡ self.now.table.shared.table_id }
        requires seat { IsSeat self.now.slots seat.old.me }
        requires asked { IsAsked self.now.slots seat.old.me.0 ask.now at tried }
        ensures table { seat.new.table_id ≡ seat.old.table_id }
        ensures seat { IsSeat self.now.slots seat.new.me }
        ensures view { seat.new.me.0 ≡ if result then found seat.old.me.0 at (wanted seat.old.me.0 ask.now.parent ask.now.step) else missed seat.old.me.0 ask.now.key tried (wanted seat.old.me.0 ask.now.parent ask.now.step) }
    {
        let word = self
            .table
            .shared
            .compare_exchange::<Puts<G>>(seat, at as usize, 0, ask.key);
        word == 0 || word == ask.key
    }

    /// Tries a slot, and says whether it has the key then.
    pub(crate) fn try_slot(
        &self,
        seat: &mut Seat<u8, CtxView>,
        ask: &Ask,
        at: u32,
        tried: u32,
    ) -> bool
        requires table { seat.old.table_id ≡ self.now.table.shared.table_id }
        requires seat { IsSeat self.now.slots seat.old.me }
        requires asked { IsAsked self.now.slots seat.old.me.0 ask.now at tried }
        ensures table { seat.new.table_id ≡ seat.old.table_id }
        ensures seat { IsSeat self.now.slots seat.new.me }
        ensures view { seat.new.me.0 ≡ if result then found seat.old.me.0 at (wanted seat.old.me.0 ask.now.parent ask.now.step) else missed seat.old.me.0 ask.now.key tried (wanted seat.old.me.0 ask.now.parent ask.now.step) }
    {
        let word = self.look::<Brand>(seat, ask, at, tried);
        if word == 0 {
            self.put::<Brand>(seat, ask, at, tried)
        } else {
            word == ask.key
        }
    }
}
