ghost use Rattle.std.specs.Prelude.{◌≡◌, IfOk};
ghost use Rattle.ps_base.specs.Reasons.{reason_text, words_of};

use crate::memory::OutOfMemory;
use crate::text::Text;
use std::alloc::Global;
use std::fmt;

/// A check that a call broke, named as a caller is told: by the field and, if it has one, by the place.
#[derive(Clone, Debug, Drop)]
pub enum Reason {
    /// A part of the path isn't UTF-8.
    Path,
    /// The body isn't a JSON object.
    Body,
    /// A name is outside the grammar, or isn't the one in the path.
    Name,
    /// The field at this path has a value of another kind.
    Shape(Text),
    /// No call has a field at this path.
    UnknownField(Text),
    /// The mask names no field, or one that an update can't change.
    UpdateMask,
    Labels,
    MessageRetentionDuration,
    Topic,
    AckDeadlineSeconds,
    ExpirationPolicy,
    FilterTooLong,
    /// The filter uses `AND` and `OR` at one level. The second one begins at this byte.
    FilterMixed(u32),
    /// No filter continues with the token at this byte.
    FilterSyntax(u32),
    DeadLetterTopic,
    MaxDeliveryAttempts,
    RetryPolicy,
    Subscription,
    /// A publish has no messages, or too many.
    Messages,
    /// The message at this place, from 0, has neither payload nor attributes.
    MessageEmpty(u32),
    /// The message at this place has too many attributes.
    MessageAttributes(u32),
    /// The message at this place has an attribute whose key is empty or too long.
    MessageAttributeKey(u32),
    /// The message at this place has an attribute whose value is too long.
    MessageAttributeValue(u32),
    /// The message at this place has an ordering key that is too long.
    MessageOrderingKey(u32),
    RequestSize,
    MaxMessages,
    AckIds,
    /// A seek has neither a time nor a snapshot, or both.
    SeekTarget,
    Snapshot,
    PageSize,
    /// The subscription is detached.
    Detached,
    /// The topic of the subscription was deleted.
    TopicDeleted,
    /// The snapshot would expire too soon.
    SnapshotLifetime,
    /// The snapshot belongs to another topic.
    SnapshotTopic,
}

impl Reason {
    /// The text of this reason. Fails only if out of memory.
    pub fn text(&self, alloc: Global) -> Result<Text, OutOfMemory>
        ensures { IfOk result (λ text. text ≡ reason_text self.now) }
    {
        Ok(Text::from_string(self.to_string(alloc)?))
    }

    /// The text of a reason that has no path and no place, and empty for the others.
    fn words(&self) -> &'static str
        ensures { result.now ≡ words_of self.now }
    {
        match self {
            Reason::Path => "path",
            Reason::Body => "body",
            Reason::Name => "name",
            Reason::UpdateMask => "updateMask",
            Reason::Labels => "labels",
            Reason::MessageRetentionDuration => "messageRetentionDuration",
            Reason::Topic => "topic",
            Reason::AckDeadlineSeconds => "ackDeadlineSeconds",
            Reason::ExpirationPolicy => "expirationPolicy",
            Reason::FilterTooLong => "filter: too long",
            Reason::DeadLetterTopic => "deadLetterTopic",
            Reason::MaxDeliveryAttempts => "maxDeliveryAttempts",
            Reason::RetryPolicy => "retryPolicy",
            Reason::Subscription => "subscription",
            Reason::Messages => "messages",
            Reason::RequestSize => "request size",
            Reason::MaxMessages => "maxMessages",
            Reason::AckIds => "ackIds",
            Reason::SeekTarget => "seek target",
            Reason::Snapshot => "snapshot",
            Reason::PageSize => "pageSize",
            Reason::Detached => "detached",
            Reason::TopicDeleted => "topic deleted",
            Reason::SnapshotLifetime => "snapshot lifetime",
            Reason::SnapshotTopic => "snapshot topic",
            _ => "",
        }
    }
}

impl fmt::Display for Reason {
    ghost use Rattle.std.specs.Prelude.{Some};
    ghost use Rattle.ps_base.specs.Reasons.{reason_text};

    ghost output = { λ reason. Some (reason_text reason) };

    fn fmt<W: fmt::Write>(&self, f: &mut fmt::Formatter<W>) -> fmt::Result {
        match self {
            Reason::Shape(path) => write!(f, "shape: {path}"),
            Reason::UnknownField(path) => write!(f, "unknown field: {path}"),
            Reason::FilterMixed(at) => write!(f, "filter: mixed at {at}"),
            Reason::FilterSyntax(at) => write!(f, "filter: syntax at {at}"),
            Reason::MessageEmpty(place) => write!(f, "messages[{place}]: empty"),
            Reason::MessageAttributes(place) => write!(f, "messages[{place}]: attributes"),
            Reason::MessageAttributeKey(place) => write!(f, "messages[{place}]: attribute key"),
            Reason::MessageAttributeValue(place) => write!(f, "messages[{place}]: attribute value"),
            Reason::MessageOrderingKey(place) => write!(f, "messages[{place}]: ordering key"),
            other => f.write_str(other.words()),
        }
    }
}
