use ps_base::List;

/// What one snapshot holds of its topic: the listed messages, and all those with a number above `after`.
#[derive(Drop)]
pub struct Hold {
    pub numbers: List<u64>,
    pub after: u64,
}

/// What holds messages of one topic, besides the subscriptions.
#[derive(Drop)]
pub struct Holds {
    /// The retention of the topic in milliseconds, if the topic exists and has one.
    pub topic_window: Option<u64>,
    pub snapshots: List<Hold>,
}
