//! Specifiers and attributes: storage, types, tags of structures and enumerations, members and enumerators, and the effects that attributes
//! give. Each function reads by the rule of `type_rules` that its contract names.
#![tactic(auto)]

mod attributes;
mod effects;
mod enumerators;
mod specifiers;
mod tags;

pub use attributes::{copy_attributes, effects_in, says_noreturn};
pub use effects::{attributed, conflicts, conflicts_with, outermost_effects, union};
pub use enumerators::{enumerator_named, enumerator_valued};
pub use specifiers::{
    base_type, no_specifiers, typedef_name, with_attribute, with_function_word, with_storage,
    with_type, with_type_word,
};
pub use tags::{
    enumeration_name, opened_enumeration, opened_structure, structure_closed, structure_name,
};
