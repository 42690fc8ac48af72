//! The service as plain values: its types here, and its rules in specs/.
#![tactic(auto)]

mod checks;
mod command;
mod forms;
mod hold;
mod laws;
mod mark;
mod normal;
mod reply;
mod stat;
mod world;

pub use checks::check_new_sub;
pub use command::{Command, Entry, Paging};
pub use forms::Form;
pub use hold::{Hold, Holds};
pub use laws::{law_5, law_forms, law_in_turn, law_normal, law_starts_sound};
pub use mark::{DeadLetter, DoneCause, GoneCause, Handed, Item, Mark, Slot, Ticket};
pub use normal::is_normal;
pub use ps_config::{DeadLetterPolicy, Mask, RetryPolicy, SubConfig, TopicConfig};
pub use ps_names::{ProjectName, SnapName, SubName, TopicName};
pub use reply::{PageItems, ReceivedMessage, Reply, SnapShown, SubShown, TopicShown};
pub use stat::Stat;
pub use world::{MarkRow, MessageRow, SnapRow, SubRow, TopicRow, World};
