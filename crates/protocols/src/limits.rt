// The largest timestamp, and so the largest place in a queue: it leaves a sum with an interval far below 2^32.
pub const LAST_TIMESTAMP: u32 = 1_000_000_000;
