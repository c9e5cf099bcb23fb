//! Declarations in blocks and at file scope: typedefs, functions and variables (C17 6.7 and 6.9.2). Each function reads by the rule of `type_rules`
//! that its contract names.
#![tactic(auto)]

mod blocks;
mod bools;
mod declarations;
mod files;
mod kept;
mod variables;

pub use declarations::{block_declaration, file_declaration, said_in};
pub use files::{function_copy, function_of, is_other_type};
