//! The calls on a set.
ghost use Rattle.std.specs.Prelude.{◌≡◌, ◌<◌, ◌≤◌, ℕ, [], IfOk};
ghost use Rattle.context_set.specs.Paths.{IsStep};
ghost use Rattle.context_set.specs.Held.{born, enters, counts, makes, joins, path_of, path_to, KnowsNode, KnowsParent, IsWhole};
ghost use Rattle.context_set.specs.Sound.{IsSound};
ghost use Rattle.context_set.specs.Passes.{place_of, held_of, IsPassOf};

use crate::keys::{Ask, key_of, place};
use crate::node::{Counted, CtxFull, Node};
use crate::rule::{Adds, Divides, Takes, Tells};
use crate::table::{CtxPass, CtxSet};
use atomic_table::Table;
use ctx_set::StackStep;
use std::alloc::{AllocError, Global};

impl CtxSet {
    /// An empty set of 1 to 65,536 slots, with its first pass.
    pub fn new(alloc: Global, slots: u32) -> Result<(CtxSet, CtxPass), AllocError>
        requires slots { (0 < slots) × (slots ≤ 65536) }
        ensures slots { IfOk result (λ r. (place_of r.0).slots ≡ slots) }
        ensures first { IfOk result (λ r. (held_of r.1 ≡ born 0 []) × IsPassOf (place_of r.0) r.1) }
    {
        let words = vec![in alloc; 0; 2 * slots as usize]?;
        let (table, seat) = Table::of_words(alloc, words.as_slice(), &slots)?;
        let set = CtxSet {
            slots,
            alloc,
            table,
        };
        Ok((set, CtxPass { seat }))
    }

    /// The node of the path of a step: alone, or under the path of a parent. Equal paths have equal nodes, and different paths
    /// different ones. Targets are below 8,192, sites below 2^20. `CtxFull` comes only where every slot holds another path.
    #[tactic(auto, using(crate::proofs::Laws::entered_path))]
    pub fn enter(
        &self,
        pass: &mut CtxPass,
        parent: Option<Node>,
        step: StackStep,
    ) -> Result<Node, CtxFull>
        requires pass { IsPassOf (place_of self.now) pass.old }
        requires parent { KnowsParent (held_of pass.old) parent }
        requires step { IsStep step }
        ensures held { held_of pass.new ≡ enters (held_of pass.old) (path_to (held_of pass.old).known parent step) result }
        ensures known { IfOk result (λ node. KnowsNode (held_of pass.new) node) }
        ensures path { IfOk result (λ node. path_of (held_of pass.new).known node ≡ path_to (held_of pass.old).known parent step) }
        ensures pass { IsPassOf (place_of self.now) pass.new }
    {
        let ask = Ask {
            parent,
            step,
            key: key_of(parent, step),
        };
        for tried in 0..self.slots {
            let at = place(self.slots, ask.key, tried);
            if self.try_slot(&mut pass.seat, &ask, at, tried) {
                return Ok(Node { number: at });
            }
        }
        Err(CtxFull)
    }

    /// Counts a node that the pass knows. `First` where its count was 0; a count wraps at 2^64.
    pub fn count(&self, pass: &mut CtxPass, node: Node) -> Counted
        requires pass { IsPassOf (place_of self.now) pass.old }
        requires node { KnowsNode (held_of pass.old) node }
        ensures held { held_of pass.new ≡ counts (held_of pass.old) (path_of (held_of pass.old).known node) result }
        ensures known { KnowsNode (held_of pass.new) node }
        ensures pass { IsPassOf (place_of self.now) pass.new }
    {
        let at = self.slots as usize + node.number as usize;
        let before = self.table.shared.fetch_add::<Adds>(&mut pass.seat, at, 1);
        if before == 0 {
            Counted::First
        } else {
            Counted::Again
        }
    }

    /// Gives a new pass, which knows the nodes that this one knows.
    pub fn split(&self, pass: &mut CtxPass) -> CtxPass
        requires pass { IsPassOf (place_of self.now) pass.old }
        ensures held { held_of pass.new ≡ makes (held_of pass.old) (held_of result).number }
        ensures made { held_of result ≡ born (held_of result).number (held_of pass.old).known }
        ensures later { 0 < (held_of result).number }
        ensures pass { IsPassOf (place_of self.now) pass.new }
        ensures made_pass { IsPassOf (place_of self.now) result }
    {
        let seat = self.table.shared.split_seat::<Divides>(&mut pass.seat);
        self.table.shared.load::<Tells>(&mut pass.seat, 0);
        CtxPass { seat }
    }

    /// Takes in another pass with all that it means.
    pub fn join(&self, pass: &mut CtxPass, other: CtxPass)
        requires pass { IsPassOf (place_of self.now) pass.old }
        requires other { IsPassOf (place_of self.now) other }
        ensures held { held_of pass.new ≡ joins (held_of pass.old) (held_of other) }
        ensures pass { IsPassOf (place_of self.now) pass.new }
    {
        let CtxPass { seat } = other;
        self.table.shared.join_seat::<Takes>(&mut pass.seat, seat);
        self.table.shared.load::<Tells>(&mut pass.seat, 0);
    }

    /// What is so of all lists that a whole pass holds.
    pub fn law_sound(&self, pass: &CtxPass)
        requires pass { IsPassOf (place_of self.now) pass.now }
        requires whole { IsWhole (held_of pass.now) }
        ensures { IsSound (place_of self.now).slots (held_of pass.now) }
    {}
}
