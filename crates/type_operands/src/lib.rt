//! Operands of expressions: names, constants and strings, what an expression is once it is used for its value, its conversions, and what
//! it is worth before the program runs. Each function reads by the rule of `type_rules` that its contract names.
#![tactic(auto)]

mod constants;
mod conversions;
mod copies;
mod kinds;
mod literals;
mod operands;
mod primaries;
mod shapes;
mod signs;
mod sizes;
mod strings;
mod values;

pub use constants::{is_null_constant, number_constant, worth};
pub use conversions::{cast, cast_to, converted, null_cause};
pub use copies::{boxed_copy, copy_function};
pub use kinds::{
    common, is_array, is_char, is_data_pointer, is_object_pointer, is_result, is_scalar,
    is_unsized, is_void_pointer, is_whole, number_type, sign_of,
};
pub use literals::{character, number};
pub use operands::{common_sign, in_sign, lvalue, lvalue_in, operand, promoted, turned};
pub use primaries::{function_type, in_parentheses, name};
pub use shapes::{array_of, element_of, pointed, pointer_to, target_of};
pub use sizes::{is_incomplete, size, size_of, words_of};
pub use strings::{string_object, text, text_in};
pub use values::{as_value, found_object, found_value};
