//! What specifiers say.

use c_tree::Attr;
use eff_types::CType;
use sqlite_items::{Boxed, Items};

/// What the specifiers of a declaration say, as far as they were read (C17 6.7).
#[derive(Drop)]
pub struct Specifiers {
    pub is_typedef: bool,
    pub is_static: bool,
    pub is_thread_local: bool,
    /// `_Noreturn`.
    pub is_noreturn: bool,
    pub kind: Option<Boxed<CType>>,
    pub attributes: Items<Attr>,
}
