//! The rule of the table, and what each kind of step does to the view of its seat. These types are for the proofs alone.
ghost use Rattle.std.specs.Prelude.{ℕ, Option, None};
ghost use Rattle.ctx_set.specs.declared.steps.StackStep.{StackStep};
ghost use Rattle.context_set.specs.declared.node.Node.{Node};
ghost use Rattle.context_set.specs.Rule.{IsKept};
ghost use Rattle.context_set.specs.Steps.{first_view, splits, split_off, takes_in, spent, Looked, Put, Counts, Told};

use crate::view::CtxView;
use atomic_table::{Join, Play, Split, TableRule};
use std::marker::{Brand, PhantomData};

/// A key that a slot holds never changes. Keys are apart, each is that of a path that some pass entered, and the count of a slot is
/// that of its path in the lists of all passes.
pub struct OneNode;

impl TableRule<u8, CtxView, u32> for OneNode {
    ghost holds = { λ slots s. IsKept slots s };

    ghost first = { λ slots. first_view slots };
}

/// What is looked for. Each call picks it.
pub(crate) trait Want {
    ghost parent: { Option Node };

    ghost step: { StackStep };

    // how many slots were seen with other keys
    ghost tried: { ℕ };
}

impl Want for Brand {
    ghost parent = { None };

    ghost step = { record { target = 0; site = 0 } };

    ghost tried = { 0 };
}

/// A load of a key.
pub(crate) struct Looks<G: Want> {
    of: PhantomData<G>,
}

impl<G: Want> Play<u8, CtxView> for Looks<G> {
    ghost then = { Looked G.parent G.step G.tried };
}

/// A compare and exchange of a key with 0.
pub(crate) struct Puts<G: Want> {
    of: PhantomData<G>,
}

impl<G: Want> Play<u8, CtxView> for Puts<G> {
    ghost then = { Put G.parent G.step G.tried };
}

/// A fetch-add of a count.
pub(crate) struct Adds;

impl Play<u8, CtxView> for Adds {
    ghost then = { Counts };
}

/// A load that tells the pass what the rule says of its view.
pub(crate) struct Tells;

impl Play<u8, CtxView> for Tells {
    ghost then = { Told };
}

pub(crate) struct Divides;

impl Split<CtxView> for Divides {
    ghost left = { splits };

    ghost right = { split_off };
}

pub(crate) struct Takes;

impl Join<CtxView> for Takes {
    ghost both = { takes_in };

    ghost spent = { spent };
}
