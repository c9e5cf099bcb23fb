//! How much is read.

/// How many bytes a source may have (this project's own limit).
pub const SOURCE_LIMIT: u32 = 1_048_576;
