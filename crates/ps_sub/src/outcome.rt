use ps_base::List;
use ps_model::{DeadLetter, Ticket};

/// What an acknowledgement did.
#[derive(Drop)]
pub struct AckOutcome {
    /// Whether a mark changed.
    pub changed: bool,
    /// In exactly-once mode the tickets that don't name a living lease, each once.
    pub invalid: List<Ticket>,
    /// In exactly-once mode the tickets of messages whose turn hasn't come, each once.
    pub unordered: List<Ticket>,
}

/// What a change of deadlines did.
#[derive(Drop)]
pub struct ModifyOutcome {
    /// Whether a mark changed.
    pub changed: bool,
    /// In exactly-once mode the tickets that don't name a living lease, each once.
    pub invalid: List<Ticket>,
    /// The messages that have failed as often as the dead-letter policy allows, in order of number.
    pub dead: List<DeadLetter>,
}

/// How many messages of a subscription have a mark of each kind.
#[derive(Clone, Copy, Debug, PartialEq, Eq)]
pub struct SubCounts {
    pub backlog: u64,
    pub leased: u64,
    /// In turn or ahead of it.
    pub acknowledged: u64,
    pub dead: u64,
}
