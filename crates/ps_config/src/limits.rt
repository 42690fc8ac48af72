// What settings mean that aren't asked for, and what each may be. Times are in milliseconds where the name says nothing
// else (API reference, Topic and Subscription; the limits on labels and the greatest retention and expiration are this
// project's own).

/// The seconds of a lease, 7 days of retention and 31 days without use.
pub const DEFAULT_ACK_SECONDS: u32 = 10;

pub const DEFAULT_RETENTION: u64 = 604_800_000;

pub const DEFAULT_EXPIRATION: u64 = 2_678_400_000;

/// The seconds of a lease.
pub const LEAST_ACK_SECONDS: u32 = 10;

pub const MOST_ACK_SECONDS: u32 = 600;

/// 10 minutes and 31 days.
pub const LEAST_RETENTION: u64 = 600_000;

pub const MOST_RETENTION: u64 = 2_678_400_000;

/// 1 day and 10 years of 365 days.
pub const LEAST_EXPIRATION: u64 = 86_400_000;

pub const MOST_EXPIRATION: u64 = 315_360_000_000;

/// How many failures make a dead letter.
pub const LEAST_ATTEMPTS: u32 = 5;

pub const MOST_ATTEMPTS: u32 = 100;

/// The delays after a failure, if a retry policy doesn't name them: 10 seconds and 10 minutes.
pub const DEFAULT_LEAST_DELAY: u64 = 10_000;

pub const DEFAULT_MOST_DELAY: u64 = 600_000;

/// 10 minutes.
pub const MOST_DELAY: u64 = 600_000;

pub const MOST_LABELS: usize = 64;

/// Of a label's key, which isn't empty, and of its value.
pub const MOST_BYTES_OF_LABEL: usize = 63;

/// The items of a page, if no number is asked for, and the most of one page.
pub const DEFAULT_PAGE: u32 = 100;

pub const MOST_OF_PAGE: u32 = 1_000;
