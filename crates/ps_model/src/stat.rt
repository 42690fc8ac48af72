/// The counts of a world.
#[derive(Clone, Copy, PartialEq, Eq)]
pub struct Stat {
    /// The number of recorded entries.
    pub entries: u64,
    /// The moment of the last entry, in milliseconds since 1970.
    pub now: u64,
    pub topics: u64,
    pub subscriptions: u64,
    pub snapshots: u64,
    /// The messages that something still needs.
    pub messages: u64,
    /// The marks of each standing that isn't gone.
    pub backlog: u64,
    pub leased: u64,
    pub acknowledged: u64,
    pub dead_lettered: u64,
}
