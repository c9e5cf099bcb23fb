//! How far a run goes where options say nothing else (this project's own limits).

/// So many events a thread makes where no ending comes before.
pub const EVENT_LIMIT: u32 = 10_000_000;

/// So many failed tries in a row a thread makes at one call.
pub const WAIT_LIMIT: u32 = 2_000_000;
