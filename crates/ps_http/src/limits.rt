//! The limits on what a client may send.

/// The bytes of a head, of a trailer, and of the line ends that are skipped before a head.
pub(crate) const HEAD: usize = 65536;

/// The lines of a head without the empty one: the request line, and as many fields as `FIELDS`.
pub(crate) const HEAD_LINES: usize = 101;

pub(crate) const FIELDS: usize = 100;

/// The bytes of a body.
pub(crate) const BODY: u64 = 16777216;

/// The bytes of a chunk line.
pub(crate) const CHUNK_LINE: usize = 1024;

/// The lines of a trailer without the empty one.
pub(crate) const TRAILER_LINES: usize = 100;
