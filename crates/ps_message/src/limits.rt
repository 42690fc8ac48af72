// The limits of messages (Pub/Sub documentation, "Quotas and limits": a profile after the published ones).

/// The most messages of a publish, and of a pull.
pub const MOST_MESSAGES: u32 = 1_000;

/// The most bytes of a publish: of payloads, keys and values of attributes, and ordering keys together. A pull ends
/// before a message if those before it have so many.
pub const MOST_BYTES: u64 = 10_000_000;

pub const MOST_ATTRIBUTES: usize = 100;

pub const MOST_BYTES_OF_ATTRIBUTE_KEY: usize = 256;

pub const MOST_BYTES_OF_ATTRIBUTE_VALUE: usize = 1_024;

pub const MOST_BYTES_OF_ORDERING_KEY: usize = 1_024;
