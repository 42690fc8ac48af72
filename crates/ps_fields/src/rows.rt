// The fields of bodies and of the objects in them: a row for each, in the order in which they are read.
ghost use Rattle.std.specs.Prelude.{◌≡◌, map};
ghost use Rattle.ps_fields.specs.Rows as spec;

/// A field's name and kind.
pub type Row = (&'static str, Kind);

/// An object whose fields are listed.
#[derive(Clone, Copy)]
pub enum Object {
    Topic,
    Subscription,
    /// When a subscription expires.
    Expiration,
    /// Where the messages of a subscription go that failed too often.
    DeadLetter,
    /// How long a message of a subscription rests after a failure.
    Retry,
    /// The body of an update of a topic.
    TopicUpdate,
    /// The body of an update of a subscription.
    SubscriptionUpdate,
    /// The body of a publish.
    Publish,
    /// A message of a publish.
    Message,
    /// The body of a pull.
    Pull,
    /// The body of an acknowledgement.
    Acknowledge,
    /// The body of a change of deadlines.
    ModifyAckDeadline,
}

/// What values a field may have. Null stands for no value.
#[derive(Clone, Copy)]
pub enum Kind {
    Text,
    Flag,
    Whole,
    Duration,
    /// A text. What reads it checks that it is base64.
    Bytes,
    /// An object whose values are texts.
    Map,
    /// A list of texts.
    Texts,
    /// An object with the fields of a table.
    Listed(Object),
    /// A list of objects with the fields of a table. What reads it checks that they are objects with such fields.
    Items(Object),
    /// An object with any fields.
    Open,
    Any,
}

impl Object {
    /// The fields of an object.
    pub fn rows(self) -> &'static [Row]
        ensures { map spec.row_of result.now ≡ spec.rows self }
    {
        match self {
            Object::Topic => topic_rows(),
            Object::Subscription => subscription_rows(),
            Object::Expiration => &[("ttl", Kind::Duration)],
            Object::DeadLetter => &[
                ("deadLetterTopic", Kind::Text),
                ("maxDeliveryAttempts", Kind::Whole),
            ],
            Object::Retry => &[
                ("minimumBackoff", Kind::Duration),
                ("maximumBackoff", Kind::Duration),
            ],
            Object::TopicUpdate => &[
                ("topic", Kind::Listed(Object::Topic)),
                ("updateMask", Kind::Text),
            ],
            Object::SubscriptionUpdate => &[
                ("subscription", Kind::Listed(Object::Subscription)),
                ("updateMask", Kind::Text),
            ],
            Object::Publish => &[("messages", Kind::Items(Object::Message))],
            Object::Message => message_rows(),
            Object::Pull => &[
                ("maxMessages", Kind::Whole),
                ("returnImmediately", Kind::Flag),
            ],
            Object::Acknowledge => &[("ackIds", Kind::Texts)],
            Object::ModifyAckDeadline => &[
                ("ackIds", Kind::Texts),
                ("ackDeadlineSeconds", Kind::Whole),
            ],
        }
    }

    /// The kind of the field of this name, if it is listed.
    pub fn kind(self, name: &str) -> Option<Kind>
        ensures { result ≡ spec.kind_in name.now (spec.rows self) }
    {
        for (own, kind) in self.rows() {
            if *own == name {
                return Some(*kind);
            }
        }
        None
    }
}

fn topic_rows() -> &'static [Row]
    ensures { map spec.row_of result.now ≡ spec.topic_rows }
{
    &[
        ("name", Kind::Text),
        ("labels", Kind::Map),
        ("messageRetentionDuration", Kind::Duration),
        ("state", Kind::Any),
        ("satisfiesPzs", Kind::Any),
        ("kmsKeyName", Kind::Any),
        ("schemaSettings", Kind::Any),
        ("messageStoragePolicy", Kind::Any),
        ("ingestionDataSourceSettings", Kind::Any),
        ("messageTransforms", Kind::Any),
        ("tags", Kind::Any),
    ]
}

fn subscription_rows() -> &'static [Row]
    ensures { map spec.row_of result.now ≡ spec.subscription_rows }
{
    &[
        ("name", Kind::Text),
        ("topic", Kind::Text),
        ("ackDeadlineSeconds", Kind::Whole),
        ("retainAckedMessages", Kind::Flag),
        ("messageRetentionDuration", Kind::Duration),
        ("labels", Kind::Map),
        ("enableMessageOrdering", Kind::Flag),
        ("expirationPolicy", Kind::Listed(Object::Expiration)),
        ("filter", Kind::Text),
        ("deadLetterPolicy", Kind::Listed(Object::DeadLetter)),
        ("retryPolicy", Kind::Listed(Object::Retry)),
        ("enableExactlyOnceDelivery", Kind::Flag),
        ("pushConfig", Kind::Open),
        ("detached", Kind::Any),
        ("topicMessageRetentionDuration", Kind::Any),
        ("state", Kind::Any),
        ("analyticsHubSubscriptionInfo", Kind::Any),
        ("bigqueryConfig", Kind::Any),
        ("cloudStorageConfig", Kind::Any),
        ("messageTransforms", Kind::Any),
        ("tags", Kind::Any),
    ]
}

fn message_rows() -> &'static [Row]
    ensures { map spec.row_of result.now ≡ spec.message_rows }
{
    &[
        ("data", Kind::Bytes),
        ("attributes", Kind::Map),
        ("orderingKey", Kind::Text),
        ("messageId", Kind::Any),
        ("publishTime", Kind::Any),
    ]
}
