//! The limits of a server and of its account, and of those who are served together.

/// The longest period, in the caller's units of time.
pub const LONGEST_PERIOD: u64 = 1_048_576;

/// The last moment at which a job may arrive.
pub const LAST_MOMENT: u64 = 1 << 60;

/// The most units of one charge.
pub const MOST_UNITS: u64 = 1 << 40;

/// So many units in all leave each charge within the numbers, whatever came before it.
pub const MOST_UNITS_IN_ALL: u64 = 1 << 39;

/// Every deadline is below this.
pub const DEADLINE_END: u64 = 1 << 62;

/// The millionths of one worker.
pub const WHOLE: u64 = 1_000_000;

/// The most workers that servers are admitted to.
pub const MOST_WORKERS: u64 = 16;

/// The most streams that are served together.
pub const MOST_STREAMS: usize = 64;

/// The most bands of one lease.
pub const MOST_QUANTUM: u64 = 64;

/// The fewest entries that a journal may be limited to.
pub const FEWEST_ENTRIES: usize = 16;

/// The most entries that a journal may be limited to.
pub const MOST_ENTRIES: usize = 1 << 20;
