//! How messages come back: deadlines, delays after failures, exactly-once mode and ordering keys, through whole runs.

use crate::tests::transcripts::{session, transcript};
use std::test::Fail;

/// A message rests after its first failure for the least delay, and for twice as long after the second.
#[test]
fn messages_rest_after_failures(rt: HostRuntime) -> Result<(), Fail> {
    session(
        rt.alloc(),
        "",
        r#"
        call 1000 PUT /v1/projects/p/topics/abc {}
        gives {"name":"projects/p/topics/abc"}
        call 1000 PUT /v1/projects/p/subscriptions/sub {"topic":"projects/p/topics/abc","retryPolicy":{"maximumBackoff":"60s","minimumBackoff":"10s"}}
        gives {"ackDeadlineSeconds":10,"expirationPolicy":{"ttl":"2678400s"},"messageRetentionDuration":"604800s","name":"projects/p/subscriptions/sub","retryPolicy":{"maximumBackoff":"60s","minimumBackoff":"10s"},"topic":"projects/p/topics/abc"}
        call 1000 POST /v1/projects/p/topics/abc:publish {"messages":[{"data":"aGk="}]}
        gives {"messageIds":["1"]}
        call 2000 POST /v1/projects/p/subscriptions/sub:pull {"maxMessages":1}
        gives {"receivedMessages":[{"ackId":"AAAAAAAAAAEAAAAAAAAAAQAAAAAAAAAB","message":{"data":"aGk=","messageId":"1","publishTime":"1970-01-01T00:00:01.000Z"}}]}
        call 3000 POST /v1/projects/p/subscriptions/sub:modifyAckDeadline {"ackIds":["AAAAAAAAAAEAAAAAAAAAAQAAAAAAAAAB"],"ackDeadlineSeconds":0}
        gives {}
        call 12999 POST /v1/projects/p/subscriptions/sub:pull {"maxMessages":1}
        gives {}
        call 13000 POST /v1/projects/p/subscriptions/sub:pull {"maxMessages":1}
        gives {"receivedMessages":[{"ackId":"AAAAAAAAAAEAAAAAAAAAAQAAAAAAAAAC","message":{"data":"aGk=","messageId":"1","publishTime":"1970-01-01T00:00:01.000Z"}}]}
        call 23000 POST /v1/projects/p/subscriptions/sub:pull {"maxMessages":1}
        gives {}
        call 42999 POST /v1/projects/p/subscriptions/sub:pull {"maxMessages":1}
        gives {}
        call 43000 POST /v1/projects/p/subscriptions/sub:pull {"maxMessages":1}
        gives {"receivedMessages":[{"ackId":"AAAAAAAAAAEAAAAAAAAAAQAAAAAAAAAD","message":{"data":"aGk=","messageId":"1","publishTime":"1970-01-01T00:00:01.000Z"}}]}
        "#,
    )
}

/// What settling did is recorded for a pull that gives nothing, and a change of deadlines that changes nothing is not recorded.
#[test]
fn what_comes_back_is_recorded(rt: HostRuntime) -> Result<(), Fail> {
    transcript(
        rt.alloc(),
        r#"
        $$ batch f
        call 1000 PUT /v1/projects/p/topics/abc {}
        gives {"name":"projects/p/topics/abc"}
        call 1000 PUT /v1/projects/p/subscriptions/sub {"topic":"projects/p/topics/abc","retryPolicy":{"maximumBackoff":"60s","minimumBackoff":"10s"}}
        gives {"ackDeadlineSeconds":10,"expirationPolicy":{"ttl":"2678400s"},"messageRetentionDuration":"604800s","name":"projects/p/subscriptions/sub","retryPolicy":{"maximumBackoff":"60s","minimumBackoff":"10s"},"topic":"projects/p/topics/abc"}
        call 1000 POST /v1/projects/p/topics/abc:publish {"messages":[{"data":"aGk="}]}
        gives {"messageIds":["1"]}
        call 2000 POST /v1/projects/p/subscriptions/sub:pull {"maxMessages":1}
        gives {"receivedMessages":[{"ackId":"AAAAAAAAAAEAAAAAAAAAAQAAAAAAAAAB","message":{"data":"aGk=","messageId":"1","publishTime":"1970-01-01T00:00:01.000Z"}}]}
        call 2000 POST /v1/projects/p/subscriptions/sub:modifyAckDeadline {"ackIds":["AAAAAAAAAAEAAAAAAAAAAQAAAAAAAAAB"],"ackDeadlineSeconds":10}
        gives {}
        = 0
        log f 4
        $ batch f
        call 3000 POST /v1/projects/p/subscriptions/sub:modifyAckDeadline {"ackIds":["AAAAAAAAAAEAAAAAAAAAAQAAAAAAAAAB"],"ackDeadlineSeconds":0}
        gives {}
        = 0
        log f 5
        $ batch f
        call 3000 POST /v1/projects/p/subscriptions/sub:modifyAckDeadline {"ackIds":["AAAAAAAAAAEAAAAAAAAAAQAAAAAAAAAB"],"ackDeadlineSeconds":0}
        gives {}
        call 3000 POST /v1/projects/p/subscriptions/sub:modifyAckDeadline {"ackIds":["AAAAAAAAAAEAAAAAAAAAAQAAAAAAAAAJ"],"ackDeadlineSeconds":60}
        gives {}
        call 12999 POST /v1/projects/p/subscriptions/sub:pull {"maxMessages":1}
        gives {}
        = 0
        log f 5
        $ batch f
        call 13000 POST /v1/projects/p/subscriptions/sub:pull {"maxMessages":1}
        gives {"receivedMessages":[{"ackId":"AAAAAAAAAAEAAAAAAAAAAQAAAAAAAAAC","message":{"data":"aGk=","messageId":"1","publishTime":"1970-01-01T00:00:01.000Z"}}]}
        = 0
        log f 6
        $ batch f
        call 23000 POST /v1/projects/p/subscriptions/sub:pull {"maxMessages":1}
        gives {}
        = 0
        log f 7
        $ batch f
        call 42999 POST /v1/projects/p/subscriptions/sub:pull {"maxMessages":1}
        gives {}
        = 0
        log f 7
        "#,
    )
}

/// A deadline is put off and brought forward, for all ids of a request alike. Without seconds the messages come again at once.
#[test]
fn deadlines_are_changed(rt: HostRuntime) -> Result<(), Fail> {
    session(
        rt.alloc(),
        "",
        r#"
        call 1000 PUT /v1/projects/p/topics/abc {}
        gives {"name":"projects/p/topics/abc"}
        call 1000 PUT /v1/projects/p/subscriptions/sub {"topic":"projects/p/topics/abc"}
        gives {"ackDeadlineSeconds":10,"expirationPolicy":{"ttl":"2678400s"},"messageRetentionDuration":"604800s","name":"projects/p/subscriptions/sub","topic":"projects/p/topics/abc"}
        call 1000 POST /v1/projects/p/topics/abc:publish {"messages":[{"data":"aGk="},{"data":"aGk="}]}
        gives {"messageIds":["1","2"]}
        call 2000 POST /v1/projects/p/subscriptions/sub:pull {"maxMessages":2}
        gives {"receivedMessages":[{"ackId":"AAAAAAAAAAEAAAAAAAAAAQAAAAAAAAAB","message":{"data":"aGk=","messageId":"1","publishTime":"1970-01-01T00:00:01.000Z"}},{"ackId":"AAAAAAAAAAEAAAAAAAAAAgAAAAAAAAAC","message":{"data":"aGk=","messageId":"2","publishTime":"1970-01-01T00:00:01.000Z"}}]}
        call 3000 POST /v1/projects/p/subscriptions/sub:modifyAckDeadline {"ackIds":["AAAAAAAAAAEAAAAAAAAAAQAAAAAAAAAB","AAAAAAAAAAEAAAAAAAAAAgAAAAAAAAAC","AAAAAAAAAAEAAAAAAAAAAQAAAAAAAAAB"],"ackDeadlineSeconds":60}
        gives {}
        call 62999 POST /v1/projects/p/subscriptions/sub:pull {"maxMessages":2}
        gives {}
        call 63000 POST /v1/projects/p/subscriptions/sub:pull {"maxMessages":2}
        gives {"receivedMessages":[{"ackId":"AAAAAAAAAAEAAAAAAAAAAQAAAAAAAAAD","message":{"data":"aGk=","messageId":"1","publishTime":"1970-01-01T00:00:01.000Z"}},{"ackId":"AAAAAAAAAAEAAAAAAAAAAgAAAAAAAAAE","message":{"data":"aGk=","messageId":"2","publishTime":"1970-01-01T00:00:01.000Z"}}]}
        call 63000 POST /v1/projects/p/subscriptions/sub:modifyAckDeadline {"ackIds":["AAAAAAAAAAEAAAAAAAAAAQAAAAAAAAAD"],"ackDeadlineSeconds":1}
        gives {}
        call 63999 POST /v1/projects/p/subscriptions/sub:pull {"maxMessages":2}
        gives {}
        call 64000 POST /v1/projects/p/subscriptions/sub:pull {"maxMessages":2}
        gives {"receivedMessages":[{"ackId":"AAAAAAAAAAEAAAAAAAAAAQAAAAAAAAAF","message":{"data":"aGk=","messageId":"1","publishTime":"1970-01-01T00:00:01.000Z"}}]}
        call 64000 POST /v1/projects/p/subscriptions/sub:modifyAckDeadline {"ackIds":["AAAAAAAAAAEAAAAAAAAAAQAAAAAAAAAF","AAAAAAAAAAEAAAAAAAAAAgAAAAAAAAAE"]}
        gives {}
        call 64000 POST /v1/projects/p/subscriptions/sub:pull {"maxMessages":2}
        gives {"receivedMessages":[{"ackId":"AAAAAAAAAAEAAAAAAAAAAQAAAAAAAAAG","message":{"data":"aGk=","messageId":"1","publishTime":"1970-01-01T00:00:01.000Z"}},{"ackId":"AAAAAAAAAAEAAAAAAAAAAgAAAAAAAAAH","message":{"data":"aGk=","messageId":"2","publishTime":"1970-01-01T00:00:01.000Z"}}]}
        call 64000 POST /v1/projects/p/subscriptions/sub:modifyAckDeadline {"ackIds":["AAAAAAAAAAIAAAAAAAAAAQAAAAAAAAAG","AAAAAAAAAAEAAAAAAAAAAQAAAAAAAAAF"],"ackDeadlineSeconds":0}
        gives {}
        call 64000 POST /v1/projects/p/subscriptions/sub:pull {"maxMessages":2}
        gives {}
        "#,
    )
}

/// What is wrong is told in the order in which it is looked at, and changes nothing.
#[test]
fn bad_changes_of_deadlines_are_refused(rt: HostRuntime) -> Result<(), Fail> {
    session(
        rt.alloc(),
        "",
        r#"
        call 1000 PUT /v1/projects/p/topics/abc {}
        gives {"name":"projects/p/topics/abc"}
        call 1000 PUT /v1/projects/p/subscriptions/sub {"topic":"projects/p/topics/abc"}
        gives {"ackDeadlineSeconds":10,"expirationPolicy":{"ttl":"2678400s"},"messageRetentionDuration":"604800s","name":"projects/p/subscriptions/sub","topic":"projects/p/topics/abc"}
        call 1000 POST /v1/projects/p/topics/abc:publish {"messages":[{"data":"aGk="}]}
        gives {"messageIds":["1"]}
        call 2000 POST /v1/projects/p/subscriptions/sub:pull {"maxMessages":1}
        gives {"receivedMessages":[{"ackId":"AAAAAAAAAAEAAAAAAAAAAQAAAAAAAAAB","message":{"data":"aGk=","messageId":"1","publishTime":"1970-01-01T00:00:01.000Z"}}]}
        call 3000 POST /v1/projects/p/subscriptions/x:modifyAckDeadline {"ackIds":7}
        refuses 400 INVALID_ARGUMENT name
        call 3000 POST /v1/projects/p/subscriptions/sub:modifyAckDeadline {"ackIds":7,"ackDeadlineSeconds":"a","x":1}
        refuses 400 INVALID_ARGUMENT shape: ackIds
        call 3000 POST /v1/projects/p/subscriptions/sub:modifyAckDeadline {"ackIds":[7],"ackDeadlineSeconds":1.5,"x":1}
        refuses 400 INVALID_ARGUMENT shape: ackIds[0]
        call 3000 POST /v1/projects/p/subscriptions/sub:modifyAckDeadline {"ackIds":["x"],"ackDeadlineSeconds":1.5,"x":1}
        refuses 400 INVALID_ARGUMENT shape: ackDeadlineSeconds
        call 3000 POST /v1/projects/p/subscriptions/sub:modifyAckDeadline {"ackIds":["x"],"ackDeadlineSeconds":601,"x":1}
        refuses 400 INVALID_ARGUMENT unknown field: x
        call 3000 POST /v1/projects/p/subscriptions/sub:modifyAckDeadline {"ackDeadlineSeconds":601}
        refuses 400 INVALID_ARGUMENT ackIds
        call 3000 POST /v1/projects/p/subscriptions/sub:modifyAckDeadline {"ackIds":[],"ackDeadlineSeconds":601}
        refuses 400 INVALID_ARGUMENT ackIds
        call 3000 POST /v1/projects/p/subscriptions/sub:modifyAckDeadline {"ackIds":["AAAAAAAAAAEAAAAAAAAAAQAAAAAAAAAB","x"],"ackDeadlineSeconds":601}
        refuses 400 INVALID_ARGUMENT ackIds
        call 3000 POST /v1/projects/p/subscriptions/sub:modifyAckDeadline {"ackIds":["AAAAAAAAAAEAAAAAAAAAAQAAAAAAAAAB"],"ackDeadlineSeconds":601}
        refuses 400 INVALID_ARGUMENT ackDeadlineSeconds
        call 3000 POST /v1/projects/p/subscriptions/sub:modifyAckDeadline {"ackIds":["AAAAAAAAAAEAAAAAAAAAAQAAAAAAAAAB"],"ackDeadlineSeconds":-1}
        refuses 400 INVALID_ARGUMENT ackDeadlineSeconds
        call 3000 POST /v1/projects/p/subscriptions/sub:modifyAckDeadline {"ackIds":["AAAAAAAAAAEAAAAAAAAAAQAAAAAAAAAB"],"ackDeadlineSeconds":"4294967296"}
        refuses 400 INVALID_ARGUMENT ackDeadlineSeconds
        call 3000 POST /v1/projects/p/subscriptions/none:modifyAckDeadline {"ackIds":["AAAAAAAAAAEAAAAAAAAAAQAAAAAAAAAB"],"ackDeadlineSeconds":600}
        refuses 404 NOT_FOUND projects/p/subscriptions/none
        call 11999 POST /v1/projects/p/subscriptions/sub:pull {"maxMessages":1}
        gives {}
        call 12000 POST /v1/projects/p/subscriptions/sub:pull {"maxMessages":1}
        gives {"receivedMessages":[{"ackId":"AAAAAAAAAAEAAAAAAAAAAQAAAAAAAAAC","message":{"data":"aGk=","messageId":"1","publishTime":"1970-01-01T00:00:01.000Z"}}]}
        call 12000 POST /v1/projects/p/subscriptions/sub:modifyAckDeadline {"ackIds":["AAAAAAAAAAEAAAAAAAAAAQAAAAAAAAAC"],"ackDeadlineSeconds":600}
        gives {}
        call 611999 POST /v1/projects/p/subscriptions/sub:pull {"maxMessages":1}
        gives {}
        call 612000 POST /v1/projects/p/subscriptions/sub:pull {"maxMessages":1}
        gives {"receivedMessages":[{"ackId":"AAAAAAAAAAEAAAAAAAAAAQAAAAAAAAAD","message":{"data":"aGk=","messageId":"1","publishTime":"1970-01-01T00:00:01.000Z"}}]}
        "#,
    )
}

/// In exactly-once mode a lease that is over acknowledges nothing. That it ended is recorded.
#[test]
fn a_late_acknowledgement_is_refused_in_exactly_once_mode(rt: HostRuntime) -> Result<(), Fail> {
    transcript(
        rt.alloc(),
        r#"
        $$ batch f
        call 1000 PUT /v1/projects/p/topics/abc {}
        gives {"name":"projects/p/topics/abc"}
        call 1000 PUT /v1/projects/p/subscriptions/sub {"topic":"projects/p/topics/abc","enableExactlyOnceDelivery":true}
        gives {"ackDeadlineSeconds":10,"enableExactlyOnceDelivery":true,"expirationPolicy":{"ttl":"2678400s"},"messageRetentionDuration":"604800s","name":"projects/p/subscriptions/sub","topic":"projects/p/topics/abc"}
        call 1000 POST /v1/projects/p/topics/abc:publish {"messages":[{"data":"aGk="}]}
        gives {"messageIds":["1"]}
        call 2000 POST /v1/projects/p/subscriptions/sub:pull {"maxMessages":1}
        gives {"receivedMessages":[{"ackId":"AAAAAAAAAAEAAAAAAAAAAQAAAAAAAAAB","message":{"data":"aGk=","messageId":"1","publishTime":"1970-01-01T00:00:01.000Z"}}]}
        = 0
        log f 4
        $ batch f
        call 12000 POST /v1/projects/p/subscriptions/sub:acknowledge {"ackIds":["AAAAAAAAAAEAAAAAAAAAAQAAAAAAAAAB"]}
        < {"body":{"error":{"code":400,"details":[{"ackId":"AAAAAAAAAAEAAAAAAAAAAQAAAAAAAAAB","reason":"PERMANENT_FAILURE_INVALID_ACK_ID"}],"message":"ack ids","status":"FAILED_PRECONDITION"}},"code":400}
        = 0
        log f 5
        $ batch f
        call 12000 POST /v1/projects/p/subscriptions/sub:pull {"maxMessages":1}
        gives {"receivedMessages":[{"ackId":"AAAAAAAAAAEAAAAAAAAAAQAAAAAAAAAC","message":{"data":"aGk=","messageId":"1","publishTime":"1970-01-01T00:00:01.000Z"}}]}
        = 0
        log f 6
        "#,
    )
}

/// In exactly-once mode an acknowledgement counts once, and a second one is refused and not recorded.
#[test]
fn an_acknowledgement_counts_once(rt: HostRuntime) -> Result<(), Fail> {
    transcript(
        rt.alloc(),
        r#"
        $$ batch f
        call 1000 PUT /v1/projects/p/topics/abc {}
        gives {"name":"projects/p/topics/abc"}
        call 1000 PUT /v1/projects/p/subscriptions/sub {"topic":"projects/p/topics/abc","enableExactlyOnceDelivery":true}
        gives {"ackDeadlineSeconds":10,"enableExactlyOnceDelivery":true,"expirationPolicy":{"ttl":"2678400s"},"messageRetentionDuration":"604800s","name":"projects/p/subscriptions/sub","topic":"projects/p/topics/abc"}
        call 1000 POST /v1/projects/p/topics/abc:publish {"messages":[{"data":"aGk="}]}
        gives {"messageIds":["1"]}
        call 2000 POST /v1/projects/p/subscriptions/sub:pull {"maxMessages":1}
        gives {"receivedMessages":[{"ackId":"AAAAAAAAAAEAAAAAAAAAAQAAAAAAAAAB","message":{"data":"aGk=","messageId":"1","publishTime":"1970-01-01T00:00:01.000Z"}}]}
        call 3000 POST /v1/projects/p/subscriptions/sub:acknowledge {"ackIds":["AAAAAAAAAAEAAAAAAAAAAQAAAAAAAAAB","AAAAAAAAAAEAAAAAAAAAAQAAAAAAAAAB"]}
        gives {}
        = 0
        log f 5
        $ batch f
        call 3000 POST /v1/projects/p/subscriptions/sub:acknowledge {"ackIds":["AAAAAAAAAAEAAAAAAAAAAQAAAAAAAAAB"]}
        < {"body":{"error":{"code":400,"details":[{"ackId":"AAAAAAAAAAEAAAAAAAAAAQAAAAAAAAAB","reason":"PERMANENT_FAILURE_INVALID_ACK_ID"}],"message":"ack ids","status":"FAILED_PRECONDITION"}},"code":400}
        = 0
        log f 5
        "#,
    )
}

/// Ids that did nothing are told once each, in the order of the request, and the others take effect.
#[test]
fn ids_that_did_nothing_are_told(rt: HostRuntime) -> Result<(), Fail> {
    session(
        rt.alloc(),
        "",
        r#"
        call 1000 PUT /v1/projects/p/topics/abc {}
        gives {"name":"projects/p/topics/abc"}
        call 1000 PUT /v1/projects/p/subscriptions/sub {"topic":"projects/p/topics/abc","enableExactlyOnceDelivery":true}
        gives {"ackDeadlineSeconds":10,"enableExactlyOnceDelivery":true,"expirationPolicy":{"ttl":"2678400s"},"messageRetentionDuration":"604800s","name":"projects/p/subscriptions/sub","topic":"projects/p/topics/abc"}
        call 1000 POST /v1/projects/p/topics/abc:publish {"messages":[{"data":"aGk="},{"data":"aGk="}]}
        gives {"messageIds":["1","2"]}
        call 2000 POST /v1/projects/p/subscriptions/sub:pull {"maxMessages":2}
        gives {"receivedMessages":[{"ackId":"AAAAAAAAAAEAAAAAAAAAAQAAAAAAAAAB","message":{"data":"aGk=","messageId":"1","publishTime":"1970-01-01T00:00:01.000Z"}},{"ackId":"AAAAAAAAAAEAAAAAAAAAAgAAAAAAAAAC","message":{"data":"aGk=","messageId":"2","publishTime":"1970-01-01T00:00:01.000Z"}}]}
        call 3000 POST /v1/projects/p/subscriptions/sub:acknowledge {"ackIds":["AAAAAAAAAAEAAAAAAAAACQAAAAAAAAAJ","AAAAAAAAAAIAAAAAAAAAAQAAAAAAAAAB","AAAAAAAAAAEAAAAAAAAAAQAAAAAAAAAB","AAAAAAAAAAEAAAAAAAAACQAAAAAAAAAJ","AAAAAAAAAAEAAAAAAAAAAQAAAAAAAAAC"]}
        < {"body":{"error":{"code":400,"details":[{"ackId":"AAAAAAAAAAEAAAAAAAAACQAAAAAAAAAJ","reason":"PERMANENT_FAILURE_INVALID_ACK_ID"},{"ackId":"AAAAAAAAAAIAAAAAAAAAAQAAAAAAAAAB","reason":"PERMANENT_FAILURE_INVALID_ACK_ID"},{"ackId":"AAAAAAAAAAEAAAAAAAAAAQAAAAAAAAAC","reason":"PERMANENT_FAILURE_INVALID_ACK_ID"}],"message":"ack ids","status":"FAILED_PRECONDITION"}},"code":400}
        call 3000 POST /v1/projects/p/subscriptions/sub:modifyAckDeadline {"ackIds":["AAAAAAAAAAEAAAAAAAAAAQAAAAAAAAAB","AAAAAAAAAAEAAAAAAAAAAgAAAAAAAAAC","AAAAAAAAAAEAAAAAAAAAAQAAAAAAAAAB","AAAAAAAAAAIAAAAAAAAAAgAAAAAAAAAC"],"ackDeadlineSeconds":0}
        < {"body":{"error":{"code":400,"details":[{"ackId":"AAAAAAAAAAEAAAAAAAAAAQAAAAAAAAAB","reason":"PERMANENT_FAILURE_INVALID_ACK_ID"},{"ackId":"AAAAAAAAAAIAAAAAAAAAAgAAAAAAAAAC","reason":"PERMANENT_FAILURE_INVALID_ACK_ID"}],"message":"ack ids","status":"FAILED_PRECONDITION"}},"code":400}
        call 3000 POST /v1/projects/p/subscriptions/sub:pull {"maxMessages":2}
        gives {"receivedMessages":[{"ackId":"AAAAAAAAAAEAAAAAAAAAAgAAAAAAAAAD","message":{"data":"aGk=","messageId":"2","publishTime":"1970-01-01T00:00:01.000Z"}}]}
        "#,
    )
}

/// Of three messages of one key the second is given up, and the third, which was acknowledged ahead of it, comes again with it.
/// The first stays out.
#[test]
fn a_message_that_is_given_up_brings_the_later_ones_of_its_key(
    rt: HostRuntime,
) -> Result<(), Fail> {
    transcript(
        rt.alloc(),
        r#"
        $$ batch f
        call 1000 PUT /v1/projects/p/topics/abc {}
        gives {"name":"projects/p/topics/abc"}
        call 1000 PUT /v1/projects/p/subscriptions/sub {"topic":"projects/p/topics/abc","enableMessageOrdering":true}
        gives {"ackDeadlineSeconds":10,"enableMessageOrdering":true,"expirationPolicy":{"ttl":"2678400s"},"messageRetentionDuration":"604800s","name":"projects/p/subscriptions/sub","topic":"projects/p/topics/abc"}
        call 1000 POST /v1/projects/p/topics/abc:publish {"messages":[{"data":"aGk=","orderingKey":"k"},{"data":"aGk=","orderingKey":"k"},{"data":"aGk=","orderingKey":"k"}]}
        gives {"messageIds":["1","2","3"]}
        call 2000 POST /v1/projects/p/subscriptions/sub:pull {"maxMessages":3}
        gives {"receivedMessages":[{"ackId":"AAAAAAAAAAEAAAAAAAAAAQAAAAAAAAAB","message":{"data":"aGk=","messageId":"1","orderingKey":"k","publishTime":"1970-01-01T00:00:01.000Z"}},{"ackId":"AAAAAAAAAAEAAAAAAAAAAgAAAAAAAAAC","message":{"data":"aGk=","messageId":"2","orderingKey":"k","publishTime":"1970-01-01T00:00:01.000Z"}},{"ackId":"AAAAAAAAAAEAAAAAAAAAAwAAAAAAAAAD","message":{"data":"aGk=","messageId":"3","orderingKey":"k","publishTime":"1970-01-01T00:00:01.000Z"}}]}
        call 2500 POST /v1/projects/p/subscriptions/sub:acknowledge {"ackIds":["AAAAAAAAAAEAAAAAAAAAAwAAAAAAAAAD"]}
        gives {}
        call 3000 POST /v1/projects/p/subscriptions/sub:modifyAckDeadline {"ackIds":["AAAAAAAAAAEAAAAAAAAAAgAAAAAAAAAC"],"ackDeadlineSeconds":0}
        gives {}
        call 3000 POST /v1/projects/p/subscriptions/sub:pull {"maxMessages":10}
        gives {"receivedMessages":[{"ackId":"AAAAAAAAAAEAAAAAAAAAAgAAAAAAAAAE","message":{"data":"aGk=","messageId":"2","orderingKey":"k","publishTime":"1970-01-01T00:00:01.000Z"}},{"ackId":"AAAAAAAAAAEAAAAAAAAAAwAAAAAAAAAF","message":{"data":"aGk=","messageId":"3","orderingKey":"k","publishTime":"1970-01-01T00:00:01.000Z"}}]}
        = 0
        log f 7
        $ stat f
        < entries 7
        < now 3000
        < topics 1
        < subscriptions 1
        < snapshots 0
        < messages 3
        < backlog 0
        < leased 3
        < acknowledged 0
        < dead-lettered 0
        = 0
        "#,
    )
}

/// In exactly-once mode too, a message can not be acknowledged before its turn.
#[test]
fn a_message_before_its_turn_is_refused_in_exactly_once_mode(rt: HostRuntime) -> Result<(), Fail> {
    transcript(
        rt.alloc(),
        r#"
        $$ batch f
        call 1000 PUT /v1/projects/p/topics/abc {}
        gives {"name":"projects/p/topics/abc"}
        call 1000 PUT /v1/projects/p/subscriptions/sub {"topic":"projects/p/topics/abc","enableMessageOrdering":true,"enableExactlyOnceDelivery":true}
        gives {"ackDeadlineSeconds":10,"enableExactlyOnceDelivery":true,"enableMessageOrdering":true,"expirationPolicy":{"ttl":"2678400s"},"messageRetentionDuration":"604800s","name":"projects/p/subscriptions/sub","topic":"projects/p/topics/abc"}
        call 1000 POST /v1/projects/p/topics/abc:publish {"messages":[{"data":"aGk=","orderingKey":"k"},{"data":"aGk=","orderingKey":"k"},{"data":"aGk=","orderingKey":"k"}]}
        gives {"messageIds":["1","2","3"]}
        call 2000 POST /v1/projects/p/subscriptions/sub:pull {"maxMessages":3}
        gives {"receivedMessages":[{"ackId":"AAAAAAAAAAEAAAAAAAAAAQAAAAAAAAAB","message":{"data":"aGk=","messageId":"1","orderingKey":"k","publishTime":"1970-01-01T00:00:01.000Z"}},{"ackId":"AAAAAAAAAAEAAAAAAAAAAgAAAAAAAAAC","message":{"data":"aGk=","messageId":"2","orderingKey":"k","publishTime":"1970-01-01T00:00:01.000Z"}},{"ackId":"AAAAAAAAAAEAAAAAAAAAAwAAAAAAAAAD","message":{"data":"aGk=","messageId":"3","orderingKey":"k","publishTime":"1970-01-01T00:00:01.000Z"}}]}
        = 0
        log f 4
        $ batch f
        call 2500 POST /v1/projects/p/subscriptions/sub:acknowledge {"ackIds":["AAAAAAAAAAEAAAAAAAAAAwAAAAAAAAAD"]}
        < {"body":{"error":{"code":400,"details":[{"ackId":"AAAAAAAAAAEAAAAAAAAAAwAAAAAAAAAD","reason":"UNORDERED_ACK_ID"}],"message":"ack ids","status":"FAILED_PRECONDITION"}},"code":400}
        = 0
        log f 4
        $ batch f
        call 2500 POST /v1/projects/p/subscriptions/sub:acknowledge {"ackIds":["AAAAAAAAAAEAAAAAAAAAAwAAAAAAAAAD","AAAAAAAAAAEAAAAAAAAACQAAAAAAAAAJ","AAAAAAAAAAEAAAAAAAAAAgAAAAAAAAAC"]}
        < {"body":{"error":{"code":400,"details":[{"ackId":"AAAAAAAAAAEAAAAAAAAACQAAAAAAAAAJ","reason":"PERMANENT_FAILURE_INVALID_ACK_ID"},{"ackId":"AAAAAAAAAAEAAAAAAAAAAwAAAAAAAAAD","reason":"UNORDERED_ACK_ID"},{"ackId":"AAAAAAAAAAEAAAAAAAAAAgAAAAAAAAAC","reason":"UNORDERED_ACK_ID"}],"message":"ack ids","status":"FAILED_PRECONDITION"}},"code":400}
        call 2500 POST /v1/projects/p/subscriptions/sub:acknowledge {"ackIds":["AAAAAAAAAAEAAAAAAAAAAwAAAAAAAAAD","AAAAAAAAAAEAAAAAAAAAAgAAAAAAAAAC","AAAAAAAAAAEAAAAAAAAAAQAAAAAAAAAB"]}
        gives {}
        call 2500 POST /v1/projects/p/subscriptions/sub:pull {"maxMessages":10}
        gives {}
        = 0
        log f 5
        "#,
    )
}

/// Other keys, and messages without one, don't wait for each other.
#[test]
fn keys_do_not_wait_for_each_other(rt: HostRuntime) -> Result<(), Fail> {
    session(
        rt.alloc(),
        "",
        r#"
        call 1000 PUT /v1/projects/p/topics/abc {}
        gives {"name":"projects/p/topics/abc"}
        call 1000 PUT /v1/projects/p/subscriptions/sub {"topic":"projects/p/topics/abc","enableMessageOrdering":true}
        gives {"ackDeadlineSeconds":10,"enableMessageOrdering":true,"expirationPolicy":{"ttl":"2678400s"},"messageRetentionDuration":"604800s","name":"projects/p/subscriptions/sub","topic":"projects/p/topics/abc"}
        call 1000 POST /v1/projects/p/topics/abc:publish {"messages":[{"data":"aGk=","orderingKey":"k"},{"data":"aGk=","orderingKey":"j"},{"data":"aGk="}]}
        gives {"messageIds":["1","2","3"]}
        call 2000 POST /v1/projects/p/subscriptions/sub:pull {"maxMessages":3}
        gives {"receivedMessages":[{"ackId":"AAAAAAAAAAEAAAAAAAAAAQAAAAAAAAAB","message":{"data":"aGk=","messageId":"1","orderingKey":"k","publishTime":"1970-01-01T00:00:01.000Z"}},{"ackId":"AAAAAAAAAAEAAAAAAAAAAgAAAAAAAAAC","message":{"data":"aGk=","messageId":"2","orderingKey":"j","publishTime":"1970-01-01T00:00:01.000Z"}},{"ackId":"AAAAAAAAAAEAAAAAAAAAAwAAAAAAAAAD","message":{"data":"aGk=","messageId":"3","publishTime":"1970-01-01T00:00:01.000Z"}}]}
        call 3000 POST /v1/projects/p/subscriptions/sub:modifyAckDeadline {"ackIds":["AAAAAAAAAAEAAAAAAAAAAQAAAAAAAAAB"],"ackDeadlineSeconds":0}
        gives {}
        call 3000 POST /v1/projects/p/subscriptions/sub:pull {"maxMessages":10}
        gives {"receivedMessages":[{"ackId":"AAAAAAAAAAEAAAAAAAAAAQAAAAAAAAAE","message":{"data":"aGk=","messageId":"1","orderingKey":"k","publishTime":"1970-01-01T00:00:01.000Z"}}]}
        "#,
    )
}

/// A message whose lease was lost since an earlier one of its key was given up is acknowledged by its old id, ahead of that one.
#[test]
fn an_old_id_acknowledges_ahead(rt: HostRuntime) -> Result<(), Fail> {
    session(
        rt.alloc(),
        "",
        r#"
        call 1000 PUT /v1/projects/p/topics/abc {}
        gives {"name":"projects/p/topics/abc"}
        call 1000 PUT /v1/projects/p/subscriptions/sub {"topic":"projects/p/topics/abc","enableMessageOrdering":true}
        gives {"ackDeadlineSeconds":10,"enableMessageOrdering":true,"expirationPolicy":{"ttl":"2678400s"},"messageRetentionDuration":"604800s","name":"projects/p/subscriptions/sub","topic":"projects/p/topics/abc"}
        call 1000 POST /v1/projects/p/topics/abc:publish {"messages":[{"data":"aGk=","orderingKey":"k"},{"data":"aGk=","orderingKey":"k"},{"data":"aGk=","orderingKey":"k"}]}
        gives {"messageIds":["1","2","3"]}
        call 2000 POST /v1/projects/p/subscriptions/sub:pull {"maxMessages":3}
        gives {"receivedMessages":[{"ackId":"AAAAAAAAAAEAAAAAAAAAAQAAAAAAAAAB","message":{"data":"aGk=","messageId":"1","orderingKey":"k","publishTime":"1970-01-01T00:00:01.000Z"}},{"ackId":"AAAAAAAAAAEAAAAAAAAAAgAAAAAAAAAC","message":{"data":"aGk=","messageId":"2","orderingKey":"k","publishTime":"1970-01-01T00:00:01.000Z"}},{"ackId":"AAAAAAAAAAEAAAAAAAAAAwAAAAAAAAAD","message":{"data":"aGk=","messageId":"3","orderingKey":"k","publishTime":"1970-01-01T00:00:01.000Z"}}]}
        call 3000 POST /v1/projects/p/subscriptions/sub:modifyAckDeadline {"ackIds":["AAAAAAAAAAEAAAAAAAAAAQAAAAAAAAAB"],"ackDeadlineSeconds":0}
        gives {}
        call 3000 POST /v1/projects/p/subscriptions/sub:acknowledge {"ackIds":["AAAAAAAAAAEAAAAAAAAAAgAAAAAAAAAC"]}
        gives {}
        call 3000 POST /v1/projects/p/subscriptions/sub:pull {"maxMessages":10}
        gives {"receivedMessages":[{"ackId":"AAAAAAAAAAEAAAAAAAAAAQAAAAAAAAAE","message":{"data":"aGk=","messageId":"1","orderingKey":"k","publishTime":"1970-01-01T00:00:01.000Z"}},{"ackId":"AAAAAAAAAAEAAAAAAAAAAwAAAAAAAAAF","message":{"data":"aGk=","messageId":"3","orderingKey":"k","publishTime":"1970-01-01T00:00:01.000Z"}}]}
        call 3000 POST /v1/projects/p/subscriptions/sub:acknowledge {"ackIds":["AAAAAAAAAAEAAAAAAAAAAQAAAAAAAAAE","AAAAAAAAAAEAAAAAAAAAAwAAAAAAAAAF"]}
        gives {}
        call 600000 POST /v1/projects/p/subscriptions/sub:pull {"maxMessages":10}
        gives {}
        "#,
    )
}

/// In exactly-once mode the old ids are good for nothing.
#[test]
fn old_ids_are_refused_in_exactly_once_mode(rt: HostRuntime) -> Result<(), Fail> {
    session(
        rt.alloc(),
        "",
        r#"
        call 1000 PUT /v1/projects/p/topics/abc {}
        gives {"name":"projects/p/topics/abc"}
        call 1000 PUT /v1/projects/p/subscriptions/sub {"topic":"projects/p/topics/abc","enableMessageOrdering":true,"enableExactlyOnceDelivery":true}
        gives {"ackDeadlineSeconds":10,"enableExactlyOnceDelivery":true,"enableMessageOrdering":true,"expirationPolicy":{"ttl":"2678400s"},"messageRetentionDuration":"604800s","name":"projects/p/subscriptions/sub","topic":"projects/p/topics/abc"}
        call 1000 POST /v1/projects/p/topics/abc:publish {"messages":[{"data":"aGk=","orderingKey":"k"},{"data":"aGk=","orderingKey":"k"},{"data":"aGk=","orderingKey":"k"}]}
        gives {"messageIds":["1","2","3"]}
        call 2000 POST /v1/projects/p/subscriptions/sub:pull {"maxMessages":3}
        gives {"receivedMessages":[{"ackId":"AAAAAAAAAAEAAAAAAAAAAQAAAAAAAAAB","message":{"data":"aGk=","messageId":"1","orderingKey":"k","publishTime":"1970-01-01T00:00:01.000Z"}},{"ackId":"AAAAAAAAAAEAAAAAAAAAAgAAAAAAAAAC","message":{"data":"aGk=","messageId":"2","orderingKey":"k","publishTime":"1970-01-01T00:00:01.000Z"}},{"ackId":"AAAAAAAAAAEAAAAAAAAAAwAAAAAAAAAD","message":{"data":"aGk=","messageId":"3","orderingKey":"k","publishTime":"1970-01-01T00:00:01.000Z"}}]}
        call 3000 POST /v1/projects/p/subscriptions/sub:modifyAckDeadline {"ackIds":["AAAAAAAAAAEAAAAAAAAAAQAAAAAAAAAB"],"ackDeadlineSeconds":0}
        gives {}
        call 3000 POST /v1/projects/p/subscriptions/sub:acknowledge {"ackIds":["AAAAAAAAAAEAAAAAAAAAAgAAAAAAAAAC","AAAAAAAAAAEAAAAAAAAAAwAAAAAAAAAD"]}
        < {"body":{"error":{"code":400,"details":[{"ackId":"AAAAAAAAAAEAAAAAAAAAAgAAAAAAAAAC","reason":"PERMANENT_FAILURE_INVALID_ACK_ID"},{"ackId":"AAAAAAAAAAEAAAAAAAAAAwAAAAAAAAAD","reason":"PERMANENT_FAILURE_INVALID_ACK_ID"}],"message":"ack ids","status":"FAILED_PRECONDITION"}},"code":400}
        call 3000 POST /v1/projects/p/subscriptions/sub:modifyAckDeadline {"ackIds":["AAAAAAAAAAEAAAAAAAAAAgAAAAAAAAAC"],"ackDeadlineSeconds":60}
        < {"body":{"error":{"code":400,"details":[{"ackId":"AAAAAAAAAAEAAAAAAAAAAgAAAAAAAAAC","reason":"PERMANENT_FAILURE_INVALID_ACK_ID"}],"message":"ack ids","status":"FAILED_PRECONDITION"}},"code":400}
        call 3000 POST /v1/projects/p/subscriptions/sub:pull {"maxMessages":10}
        gives {"receivedMessages":[{"ackId":"AAAAAAAAAAEAAAAAAAAAAQAAAAAAAAAE","message":{"data":"aGk=","messageId":"1","orderingKey":"k","publishTime":"1970-01-01T00:00:01.000Z"}},{"ackId":"AAAAAAAAAAEAAAAAAAAAAgAAAAAAAAAF","message":{"data":"aGk=","messageId":"2","orderingKey":"k","publishTime":"1970-01-01T00:00:01.000Z"}},{"ackId":"AAAAAAAAAAEAAAAAAAAAAwAAAAAAAAAG","message":{"data":"aGk=","messageId":"3","orderingKey":"k","publishTime":"1970-01-01T00:00:01.000Z"}}]}
        "#,
    )
}

/// Delays have defaults, the least may be above the most, and an update changes the policy and the mode, but never the order.
#[test]
fn policies_are_set_and_changed(rt: HostRuntime) -> Result<(), Fail> {
    session(
        rt.alloc(),
        "",
        r#"
        call 1000 PUT /v1/projects/p/topics/abc {}
        gives {"name":"projects/p/topics/abc"}
        call 1000 PUT /v1/projects/p/subscriptions/sub {"topic":"projects/p/topics/abc"}
        gives {"ackDeadlineSeconds":10,"expirationPolicy":{"ttl":"2678400s"},"messageRetentionDuration":"604800s","name":"projects/p/subscriptions/sub","topic":"projects/p/topics/abc"}
        call 1000 PATCH /v1/projects/p/subscriptions/sub {"subscription":{"retryPolicy":{}},"updateMask":"retryPolicy"}
        gives {"ackDeadlineSeconds":10,"expirationPolicy":{"ttl":"2678400s"},"messageRetentionDuration":"604800s","name":"projects/p/subscriptions/sub","retryPolicy":{"maximumBackoff":"600s","minimumBackoff":"10s"},"topic":"projects/p/topics/abc"}
        call 1000 PATCH /v1/projects/p/subscriptions/sub {"subscription":{"retryPolicy":{"minimumBackoff":"60s","maximumBackoff":"1.5s"},"enableMessageOrdering":true,"enableExactlyOnceDelivery":true},"updateMask":"retryPolicy"}
        gives {"ackDeadlineSeconds":10,"expirationPolicy":{"ttl":"2678400s"},"messageRetentionDuration":"604800s","name":"projects/p/subscriptions/sub","retryPolicy":{"maximumBackoff":"1.500s","minimumBackoff":"60s"},"topic":"projects/p/topics/abc"}
        call 1000 PATCH /v1/projects/p/subscriptions/sub {"subscription":{"enableExactlyOnceDelivery":true},"updateMask":"enableExactlyOnceDelivery"}
        gives {"ackDeadlineSeconds":10,"enableExactlyOnceDelivery":true,"expirationPolicy":{"ttl":"2678400s"},"messageRetentionDuration":"604800s","name":"projects/p/subscriptions/sub","retryPolicy":{"maximumBackoff":"1.500s","minimumBackoff":"60s"},"topic":"projects/p/topics/abc"}
        call 1000 PATCH /v1/projects/p/subscriptions/sub {"subscription":{},"updateMask":"enableExactlyOnceDelivery,retryPolicy"}
        gives {"ackDeadlineSeconds":10,"expirationPolicy":{"ttl":"2678400s"},"messageRetentionDuration":"604800s","name":"projects/p/subscriptions/sub","topic":"projects/p/topics/abc"}
        call 1000 PATCH /v1/projects/p/subscriptions/sub {"subscription":{"enableMessageOrdering":true},"updateMask":"enableMessageOrdering"}
        refuses 400 INVALID_ARGUMENT updateMask
        call 1000 PATCH /v1/projects/p/subscriptions/sub {"subscription":{"retryPolicy":{"maximumBackoff":"601s"}},"updateMask":"retryPolicy"}
        refuses 400 INVALID_ARGUMENT retryPolicy
        call 1000 PUT /v1/projects/p/subscriptions/none {"topic":"projects/p/topics/abc","retryPolicy":{"minimumBackoff":"600.001s"}}
        refuses 400 INVALID_ARGUMENT retryPolicy
        call 1000 PUT /v1/projects/p/subscriptions/none {"topic":"projects/p/topics/abc","retryPolicy":{"minimumBackoff":10}}
        refuses 400 INVALID_ARGUMENT shape: retryPolicy.minimumBackoff
        call 1000 PUT /v1/projects/p/subscriptions/none {"topic":"projects/p/topics/abc","retryPolicy":{"least":"10s"}}
        refuses 400 INVALID_ARGUMENT unknown field: retryPolicy.least
        call 1000 PUT /v1/projects/p/subscriptions/none {"topic":"projects/p/topics/abc","retryPolicy":[]}
        refuses 400 INVALID_ARGUMENT shape: retryPolicy
        call 1000 PUT /v1/projects/p/subscriptions/none {"topic":"projects/p/topics/abc","enableMessageOrdering":"true"}
        refuses 400 INVALID_ARGUMENT shape: enableMessageOrdering
        call 1000 PUT /v1/projects/p/subscriptions/none {"topic":"projects/p/topics/abc","retryPolicy":{"minimumBackoff":"601s"},"filter":"attributes:"}
        refuses 400 INVALID_ARGUMENT filter: syntax at 11
        "#,
    )
}
