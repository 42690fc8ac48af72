use ps_base::Text;

/// The state of a message on a subscription.
#[derive(Clone, Copy, PartialEq, Eq)]
pub enum Mark {
    /// It is in the backlog, for delivery not before `until`. `last` is its last lease, if one is kept.
    Backlog {
        failures: u32,
        until: u64,
        last: Option<u64>,
    },
    /// It is leased until `deadline`.
    Leased {
        failures: u32,
        lease: u64,
        deadline: u64,
    },
    /// It was acknowledged before an earlier message of its key.
    Ahead {
        failures: u32,
    },
    /// It was dealt with, and is still held.
    Done {
        cause: DoneCause,
    },
    /// It was dealt with, or nothing held it any more.
    Gone {
        cause: GoneCause,
    },
}

/// How a message was dealt with.
#[derive(Clone, Copy, PartialEq, Eq)]
pub enum DoneCause {
    Acknowledged,
    Dead,
}

/// How a message came to be gone.
#[derive(Clone, Copy, PartialEq, Eq)]
pub enum GoneCause {
    Acknowledged,
    Dead,
    Expired,
}

/// What a subscription knows of a message.
#[derive(Drop)]
pub struct Item {
    pub number: u64,
    /// When it was published, in milliseconds since 1970.
    pub publish: u64,
    /// Its ordering key, or an empty text if it has none.
    pub key: Text,
    /// Its size in bytes, as the budget of a pull counts them.
    pub size: u64,
}

/// A message of a subscription, with its mark.
#[derive(Drop)]
pub struct Slot {
    pub item: Item,
    pub mark: Mark,
}

/// One lease of one message.
#[derive(Clone, Copy, PartialEq, Eq)]
pub struct Ticket {
    pub number: u64,
    pub lease: u64,
}

/// A message that a pull delivers.
#[derive(Clone, Copy, PartialEq, Eq)]
pub struct Handed {
    pub number: u64,
    pub lease: u64,
    /// How often it failed before.
    pub failures: u32,
}

/// A message that failed too often.
#[derive(Clone, Copy, PartialEq, Eq)]
pub struct DeadLetter {
    pub number: u64,
    pub failures: u32,
}
