// The limits that evaluation keeps.

/// How deep a document may be that a term gives, in levels.
pub const MAX_DEPTH: u32 = 100;

/// How many numbers a RANGE may give.
pub const MAX_RANGE: u64 = 1_000_000;
