//! Sessions of calls through whole runs, with answers that were written by hand from the rules.

use crate::tests::transcripts::{session, transcript};
use std::test::Fail;

/// The topic and its subscription.
const BASE: &str = r#"
    call 1000 PUT /v1/projects/p/topics/abc {}
    gives {"name":"projects/p/topics/abc"}
    call 1000 PUT /v1/projects/p/subscriptions/sub {"topic":"projects/p/topics/abc"}
    gives {"ackDeadlineSeconds":10,"expirationPolicy":{"ttl":"2678400s"},"messageRetentionDuration":"604800s","name":"projects/p/subscriptions/sub","topic":"projects/p/topics/abc"}
"#;

/// The same with one message, pulled at 2000.
const LEASED: &str = r#"
    call 1000 PUT /v1/projects/p/topics/abc {}
    gives {"name":"projects/p/topics/abc"}
    call 1000 PUT /v1/projects/p/subscriptions/sub {"topic":"projects/p/topics/abc"}
    gives {"ackDeadlineSeconds":10,"expirationPolicy":{"ttl":"2678400s"},"messageRetentionDuration":"604800s","name":"projects/p/subscriptions/sub","topic":"projects/p/topics/abc"}
    call 1000 POST /v1/projects/p/topics/abc:publish {"messages":[{"data":"aGk="}]}
    gives {"messageIds":["1"]}
    call 2000 POST /v1/projects/p/subscriptions/sub:pull {"maxMessages":1}
    gives {"receivedMessages":[{"ackId":"AAAAAAAAAAEAAAAAAAAAAQAAAAAAAAAB","message":{"data":"aGk=","messageId":"1","publishTime":"1970-01-01T00:00:01.000Z"}}]}
"#;

/// A lease ends with its deadline, to the millisecond, and the message is handed out again.
#[test]
fn a_lease_ends_with_its_deadline(rt: HostRuntime) -> Result<(), Fail> {
    session(
        rt.alloc(),
        LEASED,
        r#"
        call 11999 POST /v1/projects/p/subscriptions/sub:pull {"maxMessages":1}
        gives {}
        call 12000 POST /v1/projects/p/subscriptions/sub:pull {"maxMessages":1}
        gives {"receivedMessages":[{"ackId":"AAAAAAAAAAEAAAAAAAAAAQAAAAAAAAAC","message":{"data":"aGk=","messageId":"1","publishTime":"1970-01-01T00:00:01.000Z"}}]}
        call 12000 POST /v1/projects/p/subscriptions/sub:pull {"maxMessages":1}
        gives {}
        call 12001 POST /v1/projects/p/subscriptions/sub:acknowledge {"ackIds":["AAAAAAAAAAEAAAAAAAAAAQAAAAAAAAAC"]}
        gives {}
        call 22000 POST /v1/projects/p/subscriptions/sub:pull {"maxMessages":1}
        gives {}
        "#,
    )
}

/// The reports of a file tell its world as it stands, and change nothing.
#[test]
fn reports_settle_nothing(rt: HostRuntime) -> Result<(), Fail> {
    transcript(
        rt.alloc(),
        r#"
        $$ batch f
        call 1000 PUT /v1/projects/p/topics/abc {}
        gives {"name":"projects/p/topics/abc"}
        call 1000 PUT /v1/projects/p/subscriptions/sub {"topic":"projects/p/topics/abc"}
        gives {"ackDeadlineSeconds":10,"expirationPolicy":{"ttl":"2678400s"},"messageRetentionDuration":"604800s","name":"projects/p/subscriptions/sub","topic":"projects/p/topics/abc"}
        call 1000 POST /v1/projects/p/topics/abc:publish {"messages":[{"data":"aGk="}]}
        gives {"messageIds":["1"]}
        call 2000 POST /v1/projects/p/subscriptions/sub:pull {"maxMessages":1}
        gives {"receivedMessages":[{"ackId":"AAAAAAAAAAEAAAAAAAAAAQAAAAAAAAAB","message":{"data":"aGk=","messageId":"1","publishTime":"1970-01-01T00:00:01.000Z"}}]}
        = 0
        $ stat f
        < entries 4
        < now 2000
        < topics 1
        < subscriptions 1
        < snapshots 0
        < messages 1
        < backlog 0
        < leased 1
        < acknowledged 0
        < dead-lettered 0
        = 0
        $ check f
        < ok 4
        = 0
        $ batch f
        call 12000 POST /v1/projects/p/subscriptions/sub:pull {"maxMessages":1}
        gives {"receivedMessages":[{"ackId":"AAAAAAAAAAEAAAAAAAAAAQAAAAAAAAAC","message":{"data":"aGk=","messageId":"1","publishTime":"1970-01-01T00:00:01.000Z"}}]}
        = 0
        "#,
    )
}

/// A moment before that of the last entry counts as that one: the lease is counted on from there.
#[test]
fn a_moment_never_goes_back(rt: HostRuntime) -> Result<(), Fail> {
    session(
        rt.alloc(),
        BASE,
        r#"
        call 5000 POST /v1/projects/p/topics/abc:publish {"messages":[{"data":"aGk="}]}
        gives {"messageIds":["1"]}
        call 1000 POST /v1/projects/p/subscriptions/sub:pull {"maxMessages":1}
        gives {"receivedMessages":[{"ackId":"AAAAAAAAAAEAAAAAAAAAAQAAAAAAAAAB","message":{"data":"aGk=","messageId":"1","publishTime":"1970-01-01T00:00:05.000Z"}}]}
        call 14999 POST /v1/projects/p/subscriptions/sub:pull {"maxMessages":1}
        gives {}
        "#,
    )
}

/// An acknowledgement after the deadline has its effect as long as the message wasn't handed out again, a second one
/// has none, and neither is refused.
#[test]
fn acknowledgements_may_come_late_and_twice(rt: HostRuntime) -> Result<(), Fail> {
    session(
        rt.alloc(),
        LEASED,
        r#"
        call 12000 POST /v1/projects/p/subscriptions/sub:acknowledge {"ackIds":["AAAAAAAAAAEAAAAAAAAAAQAAAAAAAAAB"]}
        gives {}
        call 12000 POST /v1/projects/p/subscriptions/sub:pull {"maxMessages":1}
        gives {}
        "#,
    )?;
    session(
        rt.alloc(),
        LEASED,
        r#"
        call 3000 POST /v1/projects/p/subscriptions/sub:acknowledge {"ackIds":["AAAAAAAAAAEAAAAAAAAAAQAAAAAAAAAB"]}
        gives {}
        call 3000 POST /v1/projects/p/subscriptions/sub:acknowledge {"ackIds":["AAAAAAAAAAEAAAAAAAAAAQAAAAAAAAAB"]}
        gives {}
        call 12000 POST /v1/projects/p/subscriptions/sub:pull {"maxMessages":1}
        gives {}
        "#,
    )
}

/// An id counts on its own subscription alone.
#[test]
fn ids_of_another_subscription_have_no_effect(rt: HostRuntime) -> Result<(), Fail> {
    session(
        rt.alloc(),
        BASE,
        r#"
        call 1000 PUT /v1/projects/p/subscriptions/other {"topic":"projects/p/topics/abc"}
        gives {"ackDeadlineSeconds":10,"expirationPolicy":{"ttl":"2678400s"},"messageRetentionDuration":"604800s","name":"projects/p/subscriptions/other","topic":"projects/p/topics/abc"}
        call 1000 POST /v1/projects/p/topics/abc:publish {"messages":[{"data":"aGk="}]}
        gives {"messageIds":["1"]}
        call 2000 POST /v1/projects/p/subscriptions/sub:pull {"maxMessages":1}
        gives {"receivedMessages":[{"ackId":"AAAAAAAAAAEAAAAAAAAAAQAAAAAAAAAB","message":{"data":"aGk=","messageId":"1","publishTime":"1970-01-01T00:00:01.000Z"}}]}
        call 3000 POST /v1/projects/p/subscriptions/other:acknowledge {"ackIds":["AAAAAAAAAAEAAAAAAAAAAQAAAAAAAAAB"]}
        gives {}
        call 4000 POST /v1/projects/p/subscriptions/other:pull {"maxMessages":1}
        gives {"receivedMessages":[{"ackId":"AAAAAAAAAAIAAAAAAAAAAQAAAAAAAAAB","message":{"data":"aGk=","messageId":"1","publishTime":"1970-01-01T00:00:01.000Z"}}]}
        call 12000 POST /v1/projects/p/subscriptions/sub:pull {"maxMessages":1}
        gives {"receivedMessages":[{"ackId":"AAAAAAAAAAEAAAAAAAAAAQAAAAAAAAAC","message":{"data":"aGk=","messageId":"1","publishTime":"1970-01-01T00:00:01.000Z"}}]}
        "#,
    )
}

/// Attributes and ordering keys come back as they were given, both alphabets of base64 and texts of numbers are read,
/// and fields that are null count as absent.
#[test]
fn messages_come_back_as_they_were_given(rt: HostRuntime) -> Result<(), Fail> {
    session(
        rt.alloc(),
        BASE,
        r#"
        call 1000 POST /v1/projects/p/topics/abc:publish {"messages":[{"data":"-_8","attributes":{"b":"2","a":"1","b":"3"},"orderingKey":"k","messageId":7,"publishTime":[]},{"data":"+/8="},{"data":null,"attributes":{"a":""},"orderingKey":null}]}
        gives {"messageIds":["1","2","3"]}
        call 2000 POST /v1/projects/p/subscriptions/sub:pull {"maxMessages":"2000","returnImmediately":true}
        gives {"receivedMessages":[{"ackId":"AAAAAAAAAAEAAAAAAAAAAQAAAAAAAAAB","message":{"attributes":{"a":"1","b":"3"},"data":"+/8=","messageId":"1","orderingKey":"k","publishTime":"1970-01-01T00:00:01.000Z"}},{"ackId":"AAAAAAAAAAEAAAAAAAAAAgAAAAAAAAAC","message":{"data":"+/8=","messageId":"2","publishTime":"1970-01-01T00:00:01.000Z"}},{"ackId":"AAAAAAAAAAEAAAAAAAAAAwAAAAAAAAAD","message":{"attributes":{"a":""},"messageId":"3","publishTime":"1970-01-01T00:00:01.000Z"}}]}
        "#,
    )
}

/// A refusal names the first check that is broken, and leaves everything as it was.
#[test]
fn refusals_name_the_first_check(rt: HostRuntime) -> Result<(), Fail> {
    session(
        rt.alloc(),
        "",
        r#"
        call 1000 PUT /v1/projects/p/topics/abc {}
        gives {"name":"projects/p/topics/abc"}
        call 1000 PUT /v1/projects/p/subscriptions/none {"topic":"projects/p/topics/none"}
        refuses 404 NOT_FOUND projects/p/topics/none
        call 1000 PUT /v1/projects/p/subscriptions/none {"topic":"projects/p/topics/abc","tags":{"a":"b"}}
        refuses 501 UNIMPLEMENTED tags
        call 1000 PUT /v1/projects/p/subscriptions/none {"topic":"projects/p/topics/abc","more":""}
        refuses 400 INVALID_ARGUMENT unknown field: more
        call 1000 PUT /v1/projects/p/subscriptions/none {"topic":7,"more":""}
        refuses 400 INVALID_ARGUMENT shape: topic
        call 1000 PUT /v1/projects/p/subscriptions/none {}
        refuses 400 INVALID_ARGUMENT topic
        call 1000 PUT /v1/projects/p/subscriptions/sub {"topic":"projects/p/topics/abc"}
        gives {"ackDeadlineSeconds":10,"expirationPolicy":{"ttl":"2678400s"},"messageRetentionDuration":"604800s","name":"projects/p/subscriptions/sub","topic":"projects/p/topics/abc"}
        call 1000 PUT /v1/projects/p/subscriptions/sub {"topic":"projects/p/topics/abc"}
        refuses 409 ALREADY_EXISTS projects/p/subscriptions/sub
        call 1000 POST /v1/projects/p/topics/abc:publish {"messages":[{}]}
        refuses 400 INVALID_ARGUMENT messages[0]: empty
        call 1000 POST /v1/projects/p/topics/abc:publish {}
        refuses 400 INVALID_ARGUMENT messages
        call 1000 POST /v1/projects/p/topics/abc:publish {"messages":[{"data":"aGk"},{"data":"aGl="}]}
        refuses 400 INVALID_ARGUMENT shape: messages[1].data
        call 1000 POST /v1/projects/p/topics/abc:publish {"messages":[{"data":"aGk=","x":1}],"y":1}
        refuses 400 INVALID_ARGUMENT unknown field: messages[0].x
        call 1000 POST /v1/projects/p/topics/none:publish {"messages":[{"data":"aGk="}]}
        refuses 404 NOT_FOUND projects/p/topics/none
        call 1000 POST /v1/projects/p/subscriptions/sub:pull {"maxMessages":0}
        refuses 400 INVALID_ARGUMENT maxMessages
        call 1000 POST /v1/projects/p/subscriptions/sub:pull {"maxMessages":1.0}
        refuses 400 INVALID_ARGUMENT shape: maxMessages
        call 1000 POST /v1/projects/p/subscriptions/sub:pull {"maxMessages":"9223372036854775808"}
        refuses 400 INVALID_ARGUMENT shape: maxMessages
        call 1000 POST /v1/projects/p/subscriptions/none:pull {"maxMessages":1}
        refuses 404 NOT_FOUND projects/p/subscriptions/none
        call 1000 POST /v1/projects/p/subscriptions/sub:acknowledge {}
        refuses 400 INVALID_ARGUMENT ackIds
        call 1000 POST /v1/projects/p/subscriptions/sub:acknowledge {"ackIds":["x"]}
        refuses 400 INVALID_ARGUMENT ackIds
        call 1000 POST /v1/projects/p/subscriptions/sub:acknowledge {"ackIds":["x",null]}
        refuses 400 INVALID_ARGUMENT shape: ackIds[1]
        call 1000 POST /v1/projects/p/subscriptions/sub:seek 7
        refuses 501 UNIMPLEMENTED Seek
        call 1000 POST /v1/projects/p/subscriptions/none:shake {}
        refuses 404 NOT_FOUND /v1/projects/p/subscriptions/none:shake
        call 1000 GET /v1/projects/p/topics/abc {}
        gives {"name":"projects/p/topics/abc"}
        call 1000 GET /v1/projects/p/topics/none {}
        refuses 404 NOT_FOUND projects/p/topics/none
        call 1000 DELETE /v1/projects/p/snapshots/abc {}
        refuses 501 UNIMPLEMENTED DeleteSnapshot
        call 1000 GET /v1/projects/p/snapshots?pageSize=x {}
        refuses 501 UNIMPLEMENTED ListSnapshots
        call 1000 POST /v1/projects/p/topics/abc:publish {"messages":[{"attributes":{"a":"1"}}]}
        gives {"messageIds":["1"]}
        "#,
    )
}
