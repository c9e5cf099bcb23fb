//! What declarators are read by.

use parse_parameters::DeclaratorRules;

/// Declarators over the rules of what they hold.
#[derive(Clone, Copy)]
pub struct Declarators<C, D, M> {
    pub rules: DeclaratorRules<C, D, M>,
}
