//! Topics through whole runs, with answers that were written by hand from the rules.

use crate::tests::transcripts::{session, transcript};
use std::test::Fail;

/// The topic.
const TOPIC: &str = r#"
    call 1000 PUT /v1/projects/p/topics/abc {}
    gives {"name":"projects/p/topics/abc"}
"#;

/// The topic and its subscription.
const BASE: &str = r#"
    call 1000 PUT /v1/projects/p/topics/abc {}
    gives {"name":"projects/p/topics/abc"}
    call 1000 PUT /v1/projects/p/subscriptions/sub {"topic":"projects/p/topics/abc"}
    gives {"ackDeadlineSeconds":10,"expirationPolicy":{"ttl":"2678400s"},"messageRetentionDuration":"604800s","name":"projects/p/subscriptions/sub","topic":"projects/p/topics/abc"}
"#;

/// An id has 3 to 255 characters, and doesn't begin with `goog`.
#[test]
fn names_have_their_lengths(rt: HostRuntime) -> Result<(), Fail> {
    session(
        rt.alloc(),
        "",
        r#"
        call 1000 PUT /v1/projects/p/topics/aa {}
        refuses 400 INVALID_ARGUMENT name
        call 1000 PUT /v1/projects/p/topics/aaa {}
        gives {"name":"projects/p/topics/aaa"}
        call 1000 PUT /v1/projects/p/topics/aaaaaaaaaaaaaaaaaaaaaaaaaaaaaaaaaaaaaaaaaaaaaaaaaaaaaaaaaaaaaaaaaaaaaaaaaaaaaaaaaaaaaaaaaaaaaaaaaaaaaaaaaaaaaaaaaaaaaaaaaaaaaaaaaaaaaaaaaaaaaaaaaaaaaaaaaaaaaaaaaaaaaaaaaaaaaaaaaaaaaaaaaaaaaaaaaaaaaaaaaaaaaaaaaaaaaaaaaaaaaaaaaaaaaaaaaaaaaaaaaaaaaaaaaaaaaaa {}
        gives {"name":"projects/p/topics/aaaaaaaaaaaaaaaaaaaaaaaaaaaaaaaaaaaaaaaaaaaaaaaaaaaaaaaaaaaaaaaaaaaaaaaaaaaaaaaaaaaaaaaaaaaaaaaaaaaaaaaaaaaaaaaaaaaaaaaaaaaaaaaaaaaaaaaaaaaaaaaaaaaaaaaaaaaaaaaaaaaaaaaaaaaaaaaaaaaaaaaaaaaaaaaaaaaaaaaaaaaaaaaaaaaaaaaaaaaaaaaaaaaaaaaaaaaaaaaaaaaaaaaaaaaaaaa"}
        call 1000 PUT /v1/projects/p/topics/aaaaaaaaaaaaaaaaaaaaaaaaaaaaaaaaaaaaaaaaaaaaaaaaaaaaaaaaaaaaaaaaaaaaaaaaaaaaaaaaaaaaaaaaaaaaaaaaaaaaaaaaaaaaaaaaaaaaaaaaaaaaaaaaaaaaaaaaaaaaaaaaaaaaaaaaaaaaaaaaaaaaaaaaaaaaaaaaaaaaaaaaaaaaaaaaaaaaaaaaaaaaaaaaaaaaaaaaaaaaaaaaaaaaaaaaaaaaaaaaaaaaaaaaaaaaaaaa {}
        refuses 400 INVALID_ARGUMENT name
        call 1000 PUT /v1/projects/p/topics/google-x {}
        refuses 400 INVALID_ARGUMENT name
        call 1000 GET /v1/projects/p/topics/aaaaaaaaaaaaaaaaaaaaaaaaaaaaaaaaaaaaaaaaaaaaaaaaaaaaaaaaaaaaaaaaaaaaaaaaaaaaaaaaaaaaaaaaaaaaaaaaaaaaaaaaaaaaaaaaaaaaaaaaaaaaaaaaaaaaaaaaaaaaaaaaaaaaaaaaaaaaaaaaaaaaaaaaaaaaaaaaaaaaaaaaaaaaaaaaaaaaaaaaaaaaaaaaaaaaaaaaaaaaaaaaaaaaaaaaaaaaaaaaaaaaaaaaaaaaaaa {}
        gives {"name":"projects/p/topics/aaaaaaaaaaaaaaaaaaaaaaaaaaaaaaaaaaaaaaaaaaaaaaaaaaaaaaaaaaaaaaaaaaaaaaaaaaaaaaaaaaaaaaaaaaaaaaaaaaaaaaaaaaaaaaaaaaaaaaaaaaaaaaaaaaaaaaaaaaaaaaaaaaaaaaaaaaaaaaaaaaaaaaaaaaaaaaaaaaaaaaaaaaaaaaaaaaaaaaaaaaaaaaaaaaaaaaaaaaaaaaaaaaaaaaaaaaaaaaaaaaaaaaaaaaaaaaa"}
        "#,
    )
}

/// Labels come back in the order of their keys, and are 63 bytes long at most.
#[test]
fn labels_are_shown(rt: HostRuntime) -> Result<(), Fail> {
    session(
        rt.alloc(),
        "",
        r#"
        call 1000 PUT /v1/projects/p/topics/abc {"labels":{"b":"2","a":"1"}}
        gives {"labels":{"a":"1","b":"2"},"name":"projects/p/topics/abc"}
        call 1000 GET /v1/projects/p/topics/abc {}
        gives {"labels":{"a":"1","b":"2"},"name":"projects/p/topics/abc"}
        call 1000 PUT /v1/projects/p/topics/none {"labels":7}
        refuses 400 INVALID_ARGUMENT shape: labels
        call 1000 PUT /v1/projects/p/topics/none {"labels":{"a":7}}
        refuses 400 INVALID_ARGUMENT shape: labels
        call 1000 PUT /v1/projects/p/topics/none {"labels":{"":"1"}}
        refuses 400 INVALID_ARGUMENT labels
        call 1000 PUT /v1/projects/p/topics/none {"labels":{"kkkkkkkkkkkkkkkkkkkkkkkkkkkkkkkkkkkkkkkkkkkkkkkkkkkkkkkkkkkkkkkk":"1"}}
        refuses 400 INVALID_ARGUMENT labels
        call 1000 PUT /v1/projects/p/topics/none {"labels":{"a":"kkkkkkkkkkkkkkkkkkkkkkkkkkkkkkkkkkkkkkkkkkkkkkkkkkkkkkkkkkkkkkkk"}}
        refuses 400 INVALID_ARGUMENT labels
        call 1000 GET /v1/projects/p/topics/none {}
        refuses 404 NOT_FOUND projects/p/topics/none
        call 1000 PUT /v1/projects/p/topics/long {"labels":{"kkkkkkkkkkkkkkkkkkkkkkkkkkkkkkkkkkkkkkkkkkkkkkkkkkkkkkkkkkkkkkk":"kkkkkkkkkkkkkkkkkkkkkkkkkkkkkkkkkkkkkkkkkkkkkkkkkkkkkkkkkkkkkkk"}}
        gives {"labels":{"kkkkkkkkkkkkkkkkkkkkkkkkkkkkkkkkkkkkkkkkkkkkkkkkkkkkkkkkkkkkkkk":"kkkkkkkkkkkkkkkkkkkkkkkkkkkkkkkkkkkkkkkkkkkkkkkkkkkkkkkkkkkkkkk"},"name":"projects/p/topics/long"}
        call 1000 PUT /v1/projects/p/topics/plain {"labels":{},"schemaSettings":{}}
        gives {"name":"projects/p/topics/plain"}
        call 1000 PUT /v1/projects/p/topics/none {"schemaSettings":{"schema":"projects/p/schemas/s"}}
        refuses 501 UNIMPLEMENTED schemaSettings
        "#,
    )
}

/// An update that changes nothing is answered alike and not recorded.
#[test]
fn an_update_is_recorded_once(rt: HostRuntime) -> Result<(), Fail> {
    transcript(
        rt.alloc(),
        r#"
        $$ batch f
        call 1000 PUT /v1/projects/p/topics/abc {}
        gives {"name":"projects/p/topics/abc"}
        call 1000 PATCH /v1/projects/p/topics/abc {"topic":{"labels":{"a":"b"}},"updateMask":"labels"}
        gives {"labels":{"a":"b"},"name":"projects/p/topics/abc"}
        = 0
        log f 2
        $ batch f
        call 1000 PATCH /v1/projects/p/topics/abc {"topic":{"labels":{"a":"b"}},"updateMask":"labels"}
        gives {"labels":{"a":"b"},"name":"projects/p/topics/abc"}
        = 0
        log f 2
        $ batch f
        call 1000 PATCH /v1/projects/p/topics/abc {"topic":{"labels":{"a":"b"}},"updateMask":"name"}
        refuses 400 INVALID_ARGUMENT updateMask
        call 1000 GET /v1/projects/p/topics/abc {}
        gives {"labels":{"a":"b"},"name":"projects/p/topics/abc"}
        = 0
        log f 2
        $ batch f
        call 2000 PATCH /v1/projects/p/topics/abc {"topic":{},"updateMask":"labels,labels"}
        gives {"name":"projects/p/topics/abc"}
        call 3000 PATCH /v1/projects/p/topics/abc {"topic":{"name":"projects/p/topics/abc"},"updateMask":"labels"}
        gives {"name":"projects/p/topics/abc"}
        = 0
        log f 3
        $ stat f
        < entries 3
        < now 2000
        < topics 1
        < subscriptions 0
        < snapshots 0
        < messages 0
        < backlog 0
        < leased 0
        < acknowledged 0
        < dead-lettered 0
        = 0
        "#,
    )
}

/// An update is checked before its topic is looked up, and a mask has listed names alone.
#[test]
fn updates_are_checked(rt: HostRuntime) -> Result<(), Fail> {
    session(
        rt.alloc(),
        TOPIC,
        r#"
        call 1000 PATCH /v1/projects/p/topics/abc {"topic":{"labels":{"a":"b"}}}
        refuses 400 INVALID_ARGUMENT updateMask
        call 1000 PATCH /v1/projects/p/topics/abc {"topic":{"labels":{"a":"b"}},"updateMask":"labels,"}
        refuses 400 INVALID_ARGUMENT updateMask
        call 1000 PATCH /v1/projects/p/topics/abc {"topic":{"labels":{"":"b"}},"updateMask":"labels"}
        refuses 400 INVALID_ARGUMENT labels
        call 1000 PATCH /v1/projects/p/topics/abc {"topic":{"labels":[]},"updateMask":"labels"}
        refuses 400 INVALID_ARGUMENT shape: topic.labels
        call 1000 PATCH /v1/projects/p/topics/abc {"topic":{"more":1},"updateMask":"labels"}
        refuses 400 INVALID_ARGUMENT unknown field: topic.more
        call 1000 PATCH /v1/projects/p/topics/abc {"topic":{"name":"projects/p/topics/other"},"updateMask":"labels"}
        refuses 400 INVALID_ARGUMENT name
        call 1000 PATCH /v1/projects/p/topics/abc {"topic":{},"updateMask":"messageRetentionDuration"}
        refuses 501 UNIMPLEMENTED messageRetentionDuration
        call 1000 PATCH /v1/projects/p/topics/none {"topic":{},"updateMask":"name"}
        refuses 400 INVALID_ARGUMENT updateMask
        call 1000 PATCH /v1/projects/p/topics/none {"topic":{},"updateMask":"labels"}
        refuses 404 NOT_FOUND projects/p/topics/none
        call 1000 GET /v1/projects/p/topics/abc {}
        gives {"name":"projects/p/topics/abc"}
        "#,
    )
}

/// A deleted topic is gone. Its subscription stays, shows no topic, and gives what it had.
#[test]
fn a_deleted_topic_leaves_its_subscriptions(rt: HostRuntime) -> Result<(), Fail> {
    session(
        rt.alloc(),
        BASE,
        r#"
        call 1000 POST /v1/projects/p/topics/abc:publish {"messages":[{"data":"aGk="}]}
        gives {"messageIds":["1"]}
        call 1000 DELETE /v1/projects/p/topics/abc {}
        gives {}
        call 1000 DELETE /v1/projects/p/topics/abc {}
        refuses 404 NOT_FOUND projects/p/topics/abc
        call 1000 GET /v1/projects/p/topics/abc {}
        refuses 404 NOT_FOUND projects/p/topics/abc
        call 1000 GET /v1/projects/p/topics/abc/subscriptions {}
        refuses 404 NOT_FOUND projects/p/topics/abc
        call 1000 GET /v1/projects/p/topics {}
        gives {}
        call 1000 POST /v1/projects/p/topics/abc:publish {"messages":[{"data":"aGk="}]}
        refuses 404 NOT_FOUND projects/p/topics/abc
        call 1000 PUT /v1/projects/p/subscriptions/other {"topic":"projects/p/topics/abc"}
        refuses 404 NOT_FOUND projects/p/topics/abc
        call 1000 GET /v1/projects/p/subscriptions/sub {}
        gives {"ackDeadlineSeconds":10,"expirationPolicy":{"ttl":"2678400s"},"messageRetentionDuration":"604800s","name":"projects/p/subscriptions/sub","topic":"_deleted-topic_"}
        call 1000 GET /v1/projects/p/subscriptions {}
        gives {"subscriptions":[{"ackDeadlineSeconds":10,"expirationPolicy":{"ttl":"2678400s"},"messageRetentionDuration":"604800s","name":"projects/p/subscriptions/sub","topic":"_deleted-topic_"}]}
        call 2000 POST /v1/projects/p/subscriptions/sub:pull {"maxMessages":10}
        gives {"receivedMessages":[{"ackId":"AAAAAAAAAAEAAAAAAAAAAQAAAAAAAAAB","message":{"data":"aGk=","messageId":"1","publishTime":"1970-01-01T00:00:01.000Z"}}]}
        "#,
    )
}

/// A topic that is created again is another one: the subscriptions of the old one get nothing of it.
#[test]
fn a_topic_comes_back_as_another(rt: HostRuntime) -> Result<(), Fail> {
    session(
        rt.alloc(),
        BASE,
        r#"
        call 1000 DELETE /v1/projects/p/topics/abc {}
        gives {}
        call 1000 PUT /v1/projects/p/topics/abc {"labels":{"a":"1"}}
        gives {"labels":{"a":"1"},"name":"projects/p/topics/abc"}
        call 1000 POST /v1/projects/p/topics/abc:publish {"messages":[{"data":"aGk="}]}
        gives {"messageIds":["1"]}
        call 2000 POST /v1/projects/p/subscriptions/sub:pull {"maxMessages":10}
        gives {}
        call 2000 GET /v1/projects/p/subscriptions/sub {}
        gives {"ackDeadlineSeconds":10,"expirationPolicy":{"ttl":"2678400s"},"messageRetentionDuration":"604800s","name":"projects/p/subscriptions/sub","topic":"_deleted-topic_"}
        call 2000 GET /v1/projects/p/topics/abc/subscriptions {}
        gives {}
        call 2000 PUT /v1/projects/p/subscriptions/other {"topic":"projects/p/topics/abc"}
        gives {"ackDeadlineSeconds":10,"expirationPolicy":{"ttl":"2678400s"},"messageRetentionDuration":"604800s","name":"projects/p/subscriptions/other","topic":"projects/p/topics/abc"}
        call 3000 POST /v1/projects/p/topics/abc:publish {"messages":[{"data":"aGk="}]}
        gives {"messageIds":["2"]}
        call 3000 GET /v1/projects/p/topics/abc/subscriptions {}
        gives {"subscriptions":["projects/p/subscriptions/other"]}
        call 4000 POST /v1/projects/p/subscriptions/other:pull {"maxMessages":10}
        gives {"receivedMessages":[{"ackId":"AAAAAAAAAAIAAAAAAAAAAgAAAAAAAAAB","message":{"data":"aGk=","messageId":"2","publishTime":"1970-01-01T00:00:03.000Z"}}]}
        call 4000 POST /v1/projects/p/subscriptions/sub:pull {"maxMessages":10}
        gives {}
        "#,
    )
}

/// A message of a topic without subscriptions has a number, and nothing keeps it.
#[test]
fn messages_that_nothing_wants_are_numbered(rt: HostRuntime) -> Result<(), Fail> {
    transcript(
        rt.alloc(),
        r#"
        $$ batch f
        call 1000 PUT /v1/projects/p/topics/abc {}
        gives {"name":"projects/p/topics/abc"}
        call 1000 POST /v1/projects/p/topics/abc:publish {"messages":[{"data":"aGk="}]}
        gives {"messageIds":["1"]}
        call 2000 PUT /v1/projects/p/subscriptions/sub {"topic":"projects/p/topics/abc"}
        gives {"ackDeadlineSeconds":10,"expirationPolicy":{"ttl":"2678400s"},"messageRetentionDuration":"604800s","name":"projects/p/subscriptions/sub","topic":"projects/p/topics/abc"}
        call 2000 POST /v1/projects/p/subscriptions/sub:pull {"maxMessages":10}
        gives {}
        = 0
        $ stat f
        < entries 3
        < now 2000
        < topics 1
        < subscriptions 1
        < snapshots 0
        < messages 0
        < backlog 0
        < leased 0
        < acknowledged 0
        < dead-lettered 0
        = 0
        $ batch f
        call 3000 POST /v1/projects/p/topics/abc:publish {"messages":[{"data":"aGk="}]}
        gives {"messageIds":["2"]}
        call 3000 POST /v1/projects/p/subscriptions/sub:pull {"maxMessages":10}
        gives {"receivedMessages":[{"ackId":"AAAAAAAAAAEAAAAAAAAAAgAAAAAAAAAB","message":{"data":"aGk=","messageId":"2","publishTime":"1970-01-01T00:00:03.000Z"}}]}
        = 0
        "#,
    )
}
