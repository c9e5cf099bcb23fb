//! The set and its passes, as they lie in memory.
ghost use Rattle.std.specs.Prelude.{◌≡◌, ◌+◌, ◌<◌, ◌≤◌};

use crate::rule::OneNode;
use crate::view::CtxView;
use atomic_table::{Seat, Table};
use std::alloc::Global;

pub(crate) type KeyTable = Table<u8, CtxView, u32, OneNode, Global>;

/// A set of calling contexts. It has no lock.
#[derive(Drop)]
pub struct CtxSet {
    pub(crate) slots: u32,
    pub(crate) alloc: Global,
    /// The keys of all slots, and behind them their counts.
    pub(crate) table: KeyTable,
    ghost some: { 0 < slots },
    ghost most: { slots ≤ 65536 },
    ghost about: { table.shared.key ≡ slots },
    ghost size: { table.shared.table_id.words ≡ slots + slots },
    ghost bare: { table.shared.table_id.slots ≡ 0 },
}

/// A pass of a `CtxSet`: the right to use it, which one thread has at a time.
#[derive(Drop)]
pub struct CtxPass {
    pub(crate) seat: Seat<u8, CtxView>,
}
