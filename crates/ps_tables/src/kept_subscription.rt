use ps_filter::Filter;
use ps_names::SubName;
use ps_sub::Sub;

/// A subscription as the core keeps it.
#[derive(Drop)]
pub struct KeptSubscription {
    pub number: u64,
    pub name: SubName,
    /// The number of the topic, which may have been deleted.
    pub topic: u64,
    /// Whether nothing enters any more, and everything that had entered is gone.
    pub detached: bool,
    /// Which messages enter. None lets all enter.
    pub filter: Option<Filter>,
    pub sub: Sub,
}
