ghost use Rattle.ps_examples.specs.AcknowledgeExamples.{AcknowledgeExamples};
ghost use Rattle.ps_examples.specs.DeadLetterExamples.{DeadLetterExamples};
ghost use Rattle.ps_examples.specs.DeadlineExamples.{DeadlineExamples};
ghost use Rattle.ps_examples.specs.FallingBackExamples.{FallingBackExamples};
ghost use Rattle.ps_examples.specs.ForwardedExamples.{ForwardedExamples};
ghost use Rattle.ps_examples.specs.LeaseExamples.{LeaseExamples};
ghost use Rattle.ps_examples.specs.LoadExamples.{LoadExamples};
ghost use Rattle.ps_examples.specs.ModifyOnceExamples.{ModifyOnceExamples};
ghost use Rattle.ps_examples.specs.OrderedOnceExamples.{OrderedOnceExamples};
ghost use Rattle.ps_examples.specs.OrderingExamples.{OrderingExamples};
ghost use Rattle.ps_examples.specs.RetryExamples.{RetryExamples};
ghost use Rattle.ps_examples.specs.SessionExamples.{SessionExamples};
ghost use Rattle.ps_examples.specs.DeadStandingExamples.{DeadStandingExamples};
ghost use Rattle.ps_examples.specs.DetachExamples.{DetachExamples};
ghost use Rattle.ps_examples.specs.FilterExamples.{FilterExamples};
ghost use Rattle.ps_examples.specs.FilterFaultExamples.{FilterFaultExamples};
ghost use Rattle.ps_examples.specs.FilterKeyExamples.{FilterKeyExamples};
ghost use Rattle.ps_examples.specs.FilterPlaceExamples.{FilterPlaceExamples};
ghost use Rattle.ps_examples.specs.FilteredExamples.{FilteredExamples};
ghost use Rattle.ps_examples.specs.ListExamples.{ListExamples};
ghost use Rattle.ps_examples.specs.MomentExamples.{MomentExamples};
ghost use Rattle.ps_examples.specs.PolicyExamples.{PolicyExamples};
ghost use Rattle.ps_examples.specs.PublishExamples.{PublishExamples};
ghost use Rattle.ps_examples.specs.PublishLimitExamples.{PublishLimitExamples};
ghost use Rattle.ps_examples.specs.PullExamples.{PullExamples};
ghost use Rattle.ps_examples.specs.RefusalExamples.{RefusalExamples};
ghost use Rattle.ps_examples.specs.RemadeExamples.{RemadeExamples};
ghost use Rattle.ps_examples.specs.RequestSizeExamples.{RequestSizeExamples};
ghost use Rattle.ps_examples.specs.RetentionExamples.{RetentionExamples};
ghost use Rattle.ps_examples.specs.SettingExamples.{SettingExamples};
ghost use Rattle.ps_examples.specs.SnapshotExamples.{SnapshotExamples};
ghost use Rattle.ps_examples.specs.SnapshotSeekExamples.{SnapshotSeekExamples};
ghost use Rattle.ps_examples.specs.StandingExamples.{StandingExamples};
ghost use Rattle.ps_examples.specs.SubscriptionExamples.{SubscriptionExamples};
ghost use Rattle.ps_examples.specs.TimeSeekExamples.{TimeSeekExamples};
ghost use Rattle.ps_examples.specs.TimestampExamples.{TimestampExamples};
ghost use Rattle.ps_examples.specs.TopicExamples.{TopicExamples};

/// Leases, their ends, and acknowledgements in both modes.
pub fn lease_examples()
    ensures { LeaseExamples }
{}

/// Which ids acknowledge a message, in both modes.
pub fn acknowledge_examples()
    ensures { AcknowledgeExamples }
{}

/// Deadlines that are moved, and leases that are given up.
pub fn deadline_examples()
    ensures { DeadlineExamples }
{}

/// Deadlines that are moved and leases that are given up, in exactly-once mode.
pub fn modify_once_examples()
    ensures { ModifyOnceExamples }
{}

/// How long a message rests after a failure.
pub fn retry_examples()
    ensures { RetryExamples }
{}

/// Ordering keys: turns, early acknowledgements, and delays that hold back the rest of a key.
pub fn ordering_examples()
    ensures { OrderingExamples }
{}

/// Ordering keys in exactly-once mode.
pub fn ordered_once_examples()
    ensures { OrderedOnceExamples }
{}

/// What a failure does to the later messages of its ordering key.
pub fn falling_back_examples()
    ensures { FallingBackExamples }
{}

/// Dead letters: when a message is one, and a policy whose topic is missing.
pub fn dead_letter_examples()
    ensures { DeadLetterExamples }
{}

/// Dead letters as the other topic has them.
pub fn forwarded_examples()
    ensures { ForwardedExamples }
{}

/// One run of calls on a subscription with a filter, ordering, retries and dead letters.
pub fn session_examples()
    ensures { SessionExamples }
{}

/// A run that publishes, pulls, acknowledges and gives up by rote, and what it leaves.
pub fn load_examples()
    ensures { LoadExamples }
{}

/// What a publish answers, and what is recorded of it.
pub fn publish_examples()
    ensures { PublishExamples }
{}

/// The limits of what is published, and which one is named.
pub fn publish_limit_examples()
    ensures { PublishLimitExamples }
{}

/// How many bytes a publish may have.
pub fn request_size_examples()
    ensures { RequestSizeExamples }
{}

/// How much a pull hands out, and how its numbers are read.
pub fn pull_examples()
    ensures { PullExamples }
{}

/// Which attributes meet a filter.
pub fn filter_examples()
    ensures { FilterExamples }
{}

/// How the terms of a filter are joined, and how its keys and values are spelled.
pub fn filter_key_examples()
    ensures { FilterKeyExamples }
{}

/// What keeps a text from being a filter, and at which byte.
pub fn filter_fault_examples()
    ensures { FilterFaultExamples }
{}

/// What breaks inside a term, in a token and at the end of a filter.
pub fn filter_place_examples()
    ensures { FilterPlaceExamples }
{}

/// Subscriptions with filters, and how long a filter may be.
pub fn filtered_examples()
    ensures { FilteredExamples }
{}

/// Topics that are made, read, changed and deleted.
pub fn topic_examples()
    ensures { TopicExamples }
{}

/// Subscriptions that are made, read, changed and deleted.
pub fn subscription_examples()
    ensures { SubscriptionExamples }
{}

/// Subscriptions whose topic was deleted, or that are detached.
pub fn detach_examples()
    ensures { DetachExamples }
{}

/// Lists of topics and subscriptions, a page at a time.
pub fn list_examples()
    ensures { ListExamples }
{}

/// The limits of the settings of topics and subscriptions.
pub fn setting_examples()
    ensures { SettingExamples }
{}

/// The limits of labels and policies, and which broken setting is named.
pub fn policy_examples()
    ensures { PolicyExamples }
{}

/// Which refusal is told where a call breaks several rules, and a full record.
pub fn refusal_examples()
    ensures { RefusalExamples }
{}

/// Snapshots, what they hold and when they end.
pub fn snapshot_examples()
    ensures { SnapshotExamples }
{}

/// Seeks to a snapshot.
pub fn snapshot_seek_examples()
    ensures { SnapshotSeekExamples }
{}

/// Seeks to a time.
pub fn time_seek_examples()
    ensures { TimeSeekExamples }
{}

/// What holds a message for a subscription, and what a mark lapses to.
pub fn retention_examples()
    ensures { RetentionExamples }
{}

/// The moment of a call, and calls that bring nothing but their moment.
pub fn moment_examples()
    ensures { MomentExamples }
{}

/// The text of a moment.
pub fn timestamp_examples()
    ensures { TimestampExamples }
{}

/// Where a message stands on a subscription.
pub fn standing_examples()
    ensures { StandingExamples }
{}

/// Where a dead letter stands on either subscription.
pub fn dead_standing_examples()
    ensures { DeadStandingExamples }
{}

/// Resources that are deleted and made anew under the same name.
pub fn remade_examples()
    ensures { RemadeExamples }
{}
