ghost use Rattle.std.specs.Prelude.{◌≡◌, true, IfOk};
ghost use Rattle.ps_model.specs.Families.{is_topic_command, is_subscription_command, is_delivery_command, is_snapshot_command, is_list_command};

use ps_base::{AckId, Duplicate, Labels, List, OutOfMemory, Text};
use ps_config::{Mask, SubConfig, TopicConfig};
use ps_message::Message;
use ps_names::{ProjectName, SnapName, SubName, TopicName};
use std::alloc::Global;

/// What a caller asks for.
#[derive(Drop)]
pub enum Command {
    /// Does nothing but what is due at the moment.
    Tick,
    CreateTopic {
        topic: TopicName,
        config: TopicConfig,
    },
    UpdateTopic {
        topic: TopicName,
        mask: Mask,
        config: TopicConfig,
    },
    GetTopic {
        topic: TopicName,
    },
    DeleteTopic {
        topic: TopicName,
    },
    ListTopics {
        project: ProjectName,
        paging: Paging,
    },
    ListTopicSubscriptions {
        topic: TopicName,
        paging: Paging,
    },
    ListTopicSnapshots {
        topic: TopicName,
        paging: Paging,
    },
    Publish {
        topic: TopicName,
        messages: List<Message>,
    },
    CreateSubscription {
        subscription: SubName,
        topic: TopicName,
        config: SubConfig,
    },
    UpdateSubscription {
        subscription: SubName,
        mask: Mask,
        config: SubConfig,
    },
    GetSubscription {
        subscription: SubName,
    },
    DeleteSubscription {
        subscription: SubName,
    },
    ListSubscriptions {
        project: ProjectName,
        paging: Paging,
    },
    /// Delivers at most `max` messages, and stops before a message if those before it have `budget` bytes. The leases
    /// last this many seconds, or as long as the subscription says.
    Pull {
        subscription: SubName,
        max: u32,
        budget: u64,
        seconds: Option<u32>,
    },
    Acknowledge {
        subscription: SubName,
        ids: List<AckId>,
    },
    /// Each id with its seconds from now. 0 gives up the lease.
    ModifyAckDeadline {
        subscription: SubName,
        items: List<(AckId, u32)>,
    },
    SeekTime {
        subscription: SubName,
        time: u64,
    },
    SeekSnapshot {
        subscription: SubName,
        snapshot: SnapName,
    },
    Detach {
        subscription: SubName,
    },
    CreateSnapshot {
        snapshot: SnapName,
        subscription: SubName,
        labels: Labels,
    },
    UpdateSnapshot {
        snapshot: SnapName,
        labels: Labels,
    },
    GetSnapshot {
        snapshot: SnapName,
    },
    DeleteSnapshot {
        snapshot: SnapName,
    },
    ListSnapshots {
        project: ProjectName,
        paging: Paging,
    },
}

/// The part of a list that is asked for.
#[derive(Clone, Drop)]
pub struct Paging {
    /// The maximum number of items. 0 counts as 100, and more than 1,000 as 1,000.
    pub size: u32,
    /// The last name of the page before. An empty text begins with the first name.
    pub after: Text,
}

/// One recorded command with its moment, in milliseconds since 1970.
#[derive(Drop)]
pub struct Entry {
    pub now: u64,
    pub command: Command,
}

impl Duplicate for Paging {
    fn copy(&self, _alloc: Global) -> Result<Paging, OutOfMemory> {
        Ok(self.clone()?)
    }
}

impl Duplicate for Command {
    fn copy(&self, alloc: Global) -> Result<Command, OutOfMemory> {
        match self {
            Command::Tick => Ok(Command::Tick),
            Command::CreateTopic { .. }
            | Command::UpdateTopic { .. }
            | Command::GetTopic { .. }
            | Command::DeleteTopic { .. }
            | Command::Publish { .. } => copy_topic_command(alloc, self),
            Command::CreateSubscription { .. }
            | Command::UpdateSubscription { .. }
            | Command::GetSubscription { .. }
            | Command::DeleteSubscription { .. }
            | Command::Detach { .. } => copy_subscription_command(alloc, self),
            Command::Pull { .. }
            | Command::Acknowledge { .. }
            | Command::ModifyAckDeadline { .. }
            | Command::SeekTime { .. }
            | Command::SeekSnapshot { .. } => copy_delivery_command(alloc, self),
            Command::CreateSnapshot { .. }
            | Command::UpdateSnapshot { .. }
            | Command::GetSnapshot { .. }
            | Command::DeleteSnapshot { .. } => copy_snapshot_command(alloc, self),
            Command::ListTopics { .. }
            | Command::ListTopicSubscriptions { .. }
            | Command::ListTopicSnapshots { .. }
            | Command::ListSubscriptions { .. }
            | Command::ListSnapshots { .. } => copy_list_command(alloc, self),
        }
    }
}

/// Copies a command on topics.
fn copy_topic_command(alloc: Global, command: &Command) -> Result<Command, OutOfMemory>
    requires { is_topic_command command.now ≡ true }
    ensures { IfOk result (λ made. made ≡ command.now) }
{
    match command {
        Command::CreateTopic { topic, config } => Ok(Command::CreateTopic {
            topic: topic.copy(alloc)?,
            config: config.copy(alloc)?,
        }),
        Command::UpdateTopic {
            topic,
            mask,
            config,
        } => Ok(Command::UpdateTopic {
            topic: topic.copy(alloc)?,
            mask: *mask,
            config: config.copy(alloc)?,
        }),
        Command::GetTopic { topic } => Ok(Command::GetTopic {
            topic: topic.copy(alloc)?,
        }),
        Command::DeleteTopic { topic } => Ok(Command::DeleteTopic {
            topic: topic.copy(alloc)?,
        }),
        Command::Publish { topic, messages } => Ok(Command::Publish {
            topic: topic.copy(alloc)?,
            messages: messages.copy(alloc)?,
        }),
        _ => Ok(Command::Tick),
    }
}

/// Copies a command on subscriptions.
fn copy_subscription_command(alloc: Global, command: &Command) -> Result<Command, OutOfMemory>
    requires { is_subscription_command command.now ≡ true }
    ensures { IfOk result (λ made. made ≡ command.now) }
{
    match command {
        Command::CreateSubscription {
            subscription,
            topic,
            config,
        } => Ok(Command::CreateSubscription {
            subscription: subscription.copy(alloc)?,
            topic: topic.copy(alloc)?,
            config: config.copy(alloc)?,
        }),
        Command::UpdateSubscription {
            subscription,
            mask,
            config,
        } => Ok(Command::UpdateSubscription {
            subscription: subscription.copy(alloc)?,
            mask: *mask,
            config: config.copy(alloc)?,
        }),
        Command::GetSubscription { subscription } => Ok(Command::GetSubscription {
            subscription: subscription.copy(alloc)?,
        }),
        Command::DeleteSubscription { subscription } => Ok(Command::DeleteSubscription {
            subscription: subscription.copy(alloc)?,
        }),
        Command::Detach { subscription } => Ok(Command::Detach {
            subscription: subscription.copy(alloc)?,
        }),
        _ => Ok(Command::Tick),
    }
}

/// Copies a command on messages of a subscription.
fn copy_delivery_command(alloc: Global, command: &Command) -> Result<Command, OutOfMemory>
    requires { is_delivery_command command.now ≡ true }
    ensures { IfOk result (λ made. made ≡ command.now) }
{
    match command {
        Command::Pull {
            subscription,
            max,
            budget,
            seconds,
        } => Ok(Command::Pull {
            subscription: subscription.copy(alloc)?,
            max: *max,
            budget: *budget,
            seconds: *seconds,
        }),
        Command::Acknowledge { subscription, ids } => Ok(Command::Acknowledge {
            subscription: subscription.copy(alloc)?,
            ids: ids.copy(alloc)?,
        }),
        Command::ModifyAckDeadline {
            subscription,
            items,
        } => Ok(Command::ModifyAckDeadline {
            subscription: subscription.copy(alloc)?,
            items: items.copy(alloc)?,
        }),
        Command::SeekTime { subscription, time } => Ok(Command::SeekTime {
            subscription: subscription.copy(alloc)?,
            time: *time,
        }),
        Command::SeekSnapshot {
            subscription,
            snapshot,
        } => Ok(Command::SeekSnapshot {
            subscription: subscription.copy(alloc)?,
            snapshot: snapshot.copy(alloc)?,
        }),
        _ => Ok(Command::Tick),
    }
}

/// Copies a command on snapshots.
fn copy_snapshot_command(alloc: Global, command: &Command) -> Result<Command, OutOfMemory>
    requires { is_snapshot_command command.now ≡ true }
    ensures { IfOk result (λ made. made ≡ command.now) }
{
    match command {
        Command::CreateSnapshot {
            snapshot,
            subscription,
            labels,
        } => Ok(Command::CreateSnapshot {
            snapshot: snapshot.copy(alloc)?,
            subscription: subscription.copy(alloc)?,
            labels: labels.copy(alloc)?,
        }),
        Command::UpdateSnapshot { snapshot, labels } => Ok(Command::UpdateSnapshot {
            snapshot: snapshot.copy(alloc)?,
            labels: labels.copy(alloc)?,
        }),
        Command::GetSnapshot { snapshot } => Ok(Command::GetSnapshot {
            snapshot: snapshot.copy(alloc)?,
        }),
        Command::DeleteSnapshot { snapshot } => Ok(Command::DeleteSnapshot {
            snapshot: snapshot.copy(alloc)?,
        }),
        _ => Ok(Command::Tick),
    }
}

/// Copies a command that lists resources.
fn copy_list_command(alloc: Global, command: &Command) -> Result<Command, OutOfMemory>
    requires { is_list_command command.now ≡ true }
    ensures { IfOk result (λ made. made ≡ command.now) }
{
    match command {
        Command::ListTopics { project, paging } => Ok(Command::ListTopics {
            project: project.copy(alloc)?,
            paging: paging.copy(alloc)?,
        }),
        Command::ListTopicSubscriptions { topic, paging } => Ok(Command::ListTopicSubscriptions {
            topic: topic.copy(alloc)?,
            paging: paging.copy(alloc)?,
        }),
        Command::ListTopicSnapshots { topic, paging } => Ok(Command::ListTopicSnapshots {
            topic: topic.copy(alloc)?,
            paging: paging.copy(alloc)?,
        }),
        Command::ListSubscriptions { project, paging } => Ok(Command::ListSubscriptions {
            project: project.copy(alloc)?,
            paging: paging.copy(alloc)?,
        }),
        Command::ListSnapshots { project, paging } => Ok(Command::ListSnapshots {
            project: project.copy(alloc)?,
            paging: paging.copy(alloc)?,
        }),
        _ => Ok(Command::Tick),
    }
}

impl Duplicate for Entry {
    fn copy(&self, alloc: Global) -> Result<Entry, OutOfMemory> {
        Ok(Entry {
            now: self.now,
            command: self.command.copy(alloc)?,
        })
    }
}
