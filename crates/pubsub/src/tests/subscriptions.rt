//! Subscriptions as resources through whole runs, with answers that were written by hand from the rules.

use crate::tests::transcripts::{session, transcript};
use std::test::Fail;

/// The topic and its subscription.
const BASE: &str = r#"
    call 1000 PUT /v1/projects/p/topics/abc {}
    gives {"name":"projects/p/topics/abc"}
    call 1000 PUT /v1/projects/p/subscriptions/sub {"topic":"projects/p/topics/abc"}
    gives {"ackDeadlineSeconds":10,"expirationPolicy":{"ttl":"2678400s"},"messageRetentionDuration":"604800s","name":"projects/p/subscriptions/sub","topic":"projects/p/topics/abc"}
"#;

/// The settings come back as they were given, and absent ones have their defaults.
#[test]
fn settings_are_shown(rt: HostRuntime) -> Result<(), Fail> {
    session(
        rt.alloc(),
        "",
        r#"
        call 1000 PUT /v1/projects/p/topics/abc {}
        gives {"name":"projects/p/topics/abc"}
        call 1000 PUT /v1/projects/p/subscriptions/all {"topic":"projects/p/topics/abc","ackDeadlineSeconds":600,"labels":{"b":"2","a":"1"},"expirationPolicy":{"ttl":"86400s"},"filter":"attributes:a"}
        gives {"ackDeadlineSeconds":600,"expirationPolicy":{"ttl":"86400s"},"filter":"attributes:a","labels":{"a":"1","b":"2"},"messageRetentionDuration":"604800s","name":"projects/p/subscriptions/all","topic":"projects/p/topics/abc"}
        call 1000 GET /v1/projects/p/subscriptions/all {}
        gives {"ackDeadlineSeconds":600,"expirationPolicy":{"ttl":"86400s"},"filter":"attributes:a","labels":{"a":"1","b":"2"},"messageRetentionDuration":"604800s","name":"projects/p/subscriptions/all","topic":"projects/p/topics/abc"}
        call 1000 PUT /v1/projects/p/subscriptions/never {"topic":"projects/p/topics/abc","ackDeadlineSeconds":0,"expirationPolicy":{}}
        gives {"ackDeadlineSeconds":10,"expirationPolicy":{},"messageRetentionDuration":"604800s","name":"projects/p/subscriptions/never","topic":"projects/p/topics/abc"}
        call 1000 GET /v1/projects/p/subscriptions/never {}
        gives {"ackDeadlineSeconds":10,"expirationPolicy":{},"messageRetentionDuration":"604800s","name":"projects/p/subscriptions/never","topic":"projects/p/topics/abc"}
        call 1000 PUT /v1/projects/p/subscriptions/sub {"topic":"projects/p/topics/abc","ackDeadlineSeconds":"10","expirationPolicy":null,"filter":"","labels":{}}
        gives {"ackDeadlineSeconds":10,"expirationPolicy":{"ttl":"2678400s"},"messageRetentionDuration":"604800s","name":"projects/p/subscriptions/sub","topic":"projects/p/topics/abc"}
        call 1000 PUT /v1/projects/p/subscriptions/none {"topic":"projects/p/topics/abc","ackDeadlineSeconds":9,"labels":{"":""}}
        refuses 400 INVALID_ARGUMENT ackDeadlineSeconds
        call 1000 PUT /v1/projects/p/subscriptions/none {"topic":"projects/p/topics/abc","ackDeadlineSeconds":601}
        refuses 400 INVALID_ARGUMENT ackDeadlineSeconds
        call 1000 PUT /v1/projects/p/subscriptions/none {"topic":"projects/p/topics/abc","labels":{"":""},"expirationPolicy":{"ttl":"86399s"}}
        refuses 400 INVALID_ARGUMENT labels
        call 1000 PUT /v1/projects/p/subscriptions/none {"topic":"projects/p/topics/abc","expirationPolicy":{"ttl":"86399s"},"filter":"x"}
        refuses 400 INVALID_ARGUMENT expirationPolicy
        call 1000 PUT /v1/projects/p/subscriptions/none {"topic":"projects/p/topics/abc","expirationPolicy":{"ttl":"315360001s"}}
        refuses 400 INVALID_ARGUMENT expirationPolicy
        call 1000 GET /v1/projects/p/subscriptions/none {}
        refuses 404 NOT_FOUND projects/p/subscriptions/none
        "#,
    )
}

/// An update changes the settings of its mask alone. A lease keeps the deadline that it has, and the next one is
/// longer.
#[test]
fn an_update_changes_what_its_mask_names(rt: HostRuntime) -> Result<(), Fail> {
    session(
        rt.alloc(),
        BASE,
        r#"
        call 1000 POST /v1/projects/p/topics/abc:publish {"messages":[{"data":"aGk="}]}
        gives {"messageIds":["1"]}
        call 2000 POST /v1/projects/p/subscriptions/sub:pull {"maxMessages":1}
        gives {"receivedMessages":[{"ackId":"AAAAAAAAAAEAAAAAAAAAAQAAAAAAAAAB","message":{"data":"aGk=","messageId":"1","publishTime":"1970-01-01T00:00:01.000Z"}}]}
        call 2000 PATCH /v1/projects/p/subscriptions/sub {"subscription":{"ackDeadlineSeconds":20,"labels":{"a":"1"},"topic":"projects/p/topics/other","filter":"attributes:b","expirationPolicy":{}},"updateMask":"ackDeadlineSeconds"}
        gives {"ackDeadlineSeconds":20,"expirationPolicy":{"ttl":"2678400s"},"messageRetentionDuration":"604800s","name":"projects/p/subscriptions/sub","topic":"projects/p/topics/abc"}
        call 11999 POST /v1/projects/p/subscriptions/sub:pull {"maxMessages":1}
        gives {}
        call 12000 POST /v1/projects/p/subscriptions/sub:pull {"maxMessages":1}
        gives {"receivedMessages":[{"ackId":"AAAAAAAAAAEAAAAAAAAAAQAAAAAAAAAC","message":{"data":"aGk=","messageId":"1","publishTime":"1970-01-01T00:00:01.000Z"}}]}
        call 31999 POST /v1/projects/p/subscriptions/sub:pull {"maxMessages":1}
        gives {}
        call 32000 POST /v1/projects/p/subscriptions/sub:pull {"maxMessages":1}
        gives {"receivedMessages":[{"ackId":"AAAAAAAAAAEAAAAAAAAAAQAAAAAAAAAD","message":{"data":"aGk=","messageId":"1","publishTime":"1970-01-01T00:00:01.000Z"}}]}
        call 33000 PATCH /v1/projects/p/subscriptions/sub {"subscription":{"labels":{"a":"1"},"expirationPolicy":{}},"updateMask":"expirationPolicy,labels"}
        gives {"ackDeadlineSeconds":20,"expirationPolicy":{},"labels":{"a":"1"},"messageRetentionDuration":"604800s","name":"projects/p/subscriptions/sub","topic":"projects/p/topics/abc"}
        call 33000 PATCH /v1/projects/p/subscriptions/sub {"updateMask":"ackDeadlineSeconds,expirationPolicy"}
        gives {"ackDeadlineSeconds":10,"expirationPolicy":{"ttl":"2678400s"},"labels":{"a":"1"},"messageRetentionDuration":"604800s","name":"projects/p/subscriptions/sub","topic":"projects/p/topics/abc"}
        call 33000 GET /v1/projects/p/subscriptions/sub {}
        gives {"ackDeadlineSeconds":10,"expirationPolicy":{"ttl":"2678400s"},"labels":{"a":"1"},"messageRetentionDuration":"604800s","name":"projects/p/subscriptions/sub","topic":"projects/p/topics/abc"}
        "#,
    )
}

/// An update that changes nothing is answered alike and not recorded, and a refused one neither.
#[test]
fn an_update_is_recorded_once(rt: HostRuntime) -> Result<(), Fail> {
    transcript(
        rt.alloc(),
        r#"
        $$ batch f
        call 1000 PUT /v1/projects/p/topics/abc {}
        gives {"name":"projects/p/topics/abc"}
        call 1000 PUT /v1/projects/p/subscriptions/sub {"topic":"projects/p/topics/abc"}
        gives {"ackDeadlineSeconds":10,"expirationPolicy":{"ttl":"2678400s"},"messageRetentionDuration":"604800s","name":"projects/p/subscriptions/sub","topic":"projects/p/topics/abc"}
        call 1000 PATCH /v1/projects/p/subscriptions/sub {"subscription":{"labels":{"a":"1"}},"updateMask":"labels"}
        gives {"ackDeadlineSeconds":10,"expirationPolicy":{"ttl":"2678400s"},"labels":{"a":"1"},"messageRetentionDuration":"604800s","name":"projects/p/subscriptions/sub","topic":"projects/p/topics/abc"}
        = 0
        log f 3
        $ batch f
        call 2000 PATCH /v1/projects/p/subscriptions/sub {"subscription":{"labels":{"a":"1"}},"updateMask":"labels"}
        gives {"ackDeadlineSeconds":10,"expirationPolicy":{"ttl":"2678400s"},"labels":{"a":"1"},"messageRetentionDuration":"604800s","name":"projects/p/subscriptions/sub","topic":"projects/p/topics/abc"}
        call 2000 PATCH /v1/projects/p/subscriptions/sub {"subscription":{},"updateMask":"ackDeadlineSeconds,expirationPolicy"}
        gives {"ackDeadlineSeconds":10,"expirationPolicy":{"ttl":"2678400s"},"labels":{"a":"1"},"messageRetentionDuration":"604800s","name":"projects/p/subscriptions/sub","topic":"projects/p/topics/abc"}
        call 2000 PATCH /v1/projects/p/subscriptions/sub {"subscription":{"filter":"attributes:a"},"updateMask":"filter"}
        refuses 400 INVALID_ARGUMENT updateMask
        call 2000 PATCH /v1/projects/p/subscriptions/sub {"subscription":{"topic":"projects/p/topics/abc"},"updateMask":"topic"}
        refuses 400 INVALID_ARGUMENT updateMask
        call 2000 PATCH /v1/projects/p/subscriptions/sub {"subscription":{"ackDeadlineSeconds":9},"updateMask":"ackDeadlineSeconds"}
        refuses 400 INVALID_ARGUMENT ackDeadlineSeconds
        call 2000 PATCH /v1/projects/p/subscriptions/sub {"subscription":{"expirationPolicy":{"ttl":"1s"}},"updateMask":"expirationPolicy"}
        refuses 400 INVALID_ARGUMENT expirationPolicy
        call 2000 PATCH /v1/projects/p/subscriptions/sub {"subscription":{},"updateMask":"deadLetterPolicy"}
        refuses 501 UNIMPLEMENTED deadLetterPolicy
        call 2000 PATCH /v1/projects/p/subscriptions/sub {"subscription":{},"updateMask":"messageRetentionDuration,labels"}
        refuses 501 UNIMPLEMENTED messageRetentionDuration
        call 2000 PATCH /v1/projects/p/subscriptions/none {"subscription":{},"updateMask":"labels"}
        refuses 404 NOT_FOUND projects/p/subscriptions/none
        = 0
        log f 3
        "#,
    )
}

/// After the topic is deleted and the subscription detached, a pull is refused, its argument first.
#[test]
fn a_detached_subscription_is_refused(rt: HostRuntime) -> Result<(), Fail> {
    transcript(
        rt.alloc(),
        r#"
        $$ batch f
        call 1000 PUT /v1/projects/p/topics/abc {}
        gives {"name":"projects/p/topics/abc"}
        call 1000 PUT /v1/projects/p/subscriptions/sub {"topic":"projects/p/topics/abc"}
        gives {"ackDeadlineSeconds":10,"expirationPolicy":{"ttl":"2678400s"},"messageRetentionDuration":"604800s","name":"projects/p/subscriptions/sub","topic":"projects/p/topics/abc"}
        call 1000 DELETE /v1/projects/p/topics/abc {}
        gives {}
        call 1000 GET /v1/projects/p/subscriptions/sub {}
        gives {"ackDeadlineSeconds":10,"expirationPolicy":{"ttl":"2678400s"},"messageRetentionDuration":"604800s","name":"projects/p/subscriptions/sub","topic":"_deleted-topic_"}
        call 1000 POST /v1/projects/p/subscriptions/sub:detach {}
        gives {}
        call 1000 POST /v1/projects/p/subscriptions/sub:pull {"maxMessages":1}
        refuses 400 FAILED_PRECONDITION detached
        call 1000 POST /v1/projects/p/subscriptions/sub:pull {"maxMessages":0}
        refuses 400 INVALID_ARGUMENT maxMessages
        call 1000 GET /v1/projects/p/subscriptions/none {}
        refuses 404 NOT_FOUND projects/p/subscriptions/none
        call 1000 GET /v1/projects/p/subscriptions/sub {}
        gives {"ackDeadlineSeconds":10,"detached":true,"expirationPolicy":{"ttl":"2678400s"},"messageRetentionDuration":"604800s","name":"projects/p/subscriptions/sub","topic":"_deleted-topic_"}
        = 0
        log f 4
        $ batch f
        call 1000 POST /v1/projects/p/subscriptions/sub:detach {}
        gives {}
        call 1000 POST /v1/projects/p/subscriptions/none:detach {}
        refuses 404 NOT_FOUND projects/p/subscriptions/none
        = 0
        log f 4
        "#,
    )
}

/// What a detached subscription had is gone, and nothing enters it any more. Others keep theirs.
#[test]
fn detaching_drops_what_it_had(rt: HostRuntime) -> Result<(), Fail> {
    transcript(
        rt.alloc(),
        r#"
        $$ batch f
        call 1000 PUT /v1/projects/p/topics/abc {}
        gives {"name":"projects/p/topics/abc"}
        call 1000 PUT /v1/projects/p/subscriptions/sub {"topic":"projects/p/topics/abc"}
        gives {"ackDeadlineSeconds":10,"expirationPolicy":{"ttl":"2678400s"},"messageRetentionDuration":"604800s","name":"projects/p/subscriptions/sub","topic":"projects/p/topics/abc"}
        call 1000 PUT /v1/projects/p/subscriptions/other {"topic":"projects/p/topics/abc","filter":"attributes:a"}
        gives {"ackDeadlineSeconds":10,"expirationPolicy":{"ttl":"2678400s"},"filter":"attributes:a","messageRetentionDuration":"604800s","name":"projects/p/subscriptions/other","topic":"projects/p/topics/abc"}
        call 1000 POST /v1/projects/p/topics/abc:publish {"messages":[{"data":"aGk="},{"data":"aGk=","attributes":{"a":"1"}}]}
        gives {"messageIds":["1","2"]}
        call 2000 POST /v1/projects/p/subscriptions/sub:pull {"maxMessages":1}
        gives {"receivedMessages":[{"ackId":"AAAAAAAAAAEAAAAAAAAAAQAAAAAAAAAB","message":{"data":"aGk=","messageId":"1","publishTime":"1970-01-01T00:00:01.000Z"}}]}
        = 0
        $ stat f
        < entries 5
        < now 2000
        < topics 1
        < subscriptions 2
        < snapshots 0
        < messages 2
        < backlog 2
        < leased 1
        < acknowledged 0
        < dead-lettered 0
        = 0
        $$ batch f
        call 3000 POST /v1/projects/p/subscriptions/sub:detach {}
        gives {}
        call 3000 POST /v1/projects/p/topics/abc:publish {"messages":[{"data":"aGk="}]}
        gives {"messageIds":["3"]}
        call 3000 POST /v1/projects/p/subscriptions/sub:acknowledge {"ackIds":["AAAAAAAAAAEAAAAAAAAAAQAAAAAAAAAB"]}
        gives {}
        call 12000 GET /v1/projects/p/subscriptions/sub {}
        gives {"ackDeadlineSeconds":10,"detached":true,"expirationPolicy":{"ttl":"2678400s"},"messageRetentionDuration":"604800s","name":"projects/p/subscriptions/sub","topic":"projects/p/topics/abc"}
        = 0
        $ stat f
        < entries 7
        < now 3000
        < topics 1
        < subscriptions 2
        < snapshots 0
        < messages 1
        < backlog 1
        < leased 0
        < acknowledged 0
        < dead-lettered 0
        = 0
        $ batch f
        call 12000 POST /v1/projects/p/subscriptions/other:pull {"maxMessages":10}
        gives {"receivedMessages":[{"ackId":"AAAAAAAAAAIAAAAAAAAAAgAAAAAAAAAB","message":{"attributes":{"a":"1"},"data":"aGk=","messageId":"2","publishTime":"1970-01-01T00:00:01.000Z"}}]}
        call 12000 PATCH /v1/projects/p/subscriptions/sub {"subscription":{"labels":{"a":"1"}},"updateMask":"labels"}
        gives {"ackDeadlineSeconds":10,"detached":true,"expirationPolicy":{"ttl":"2678400s"},"labels":{"a":"1"},"messageRetentionDuration":"604800s","name":"projects/p/subscriptions/sub","topic":"projects/p/topics/abc"}
        = 0
        log f 9
        "#,
    )
}

/// A subscription that is deleted and created again is another one: it has no old message, no old id counts, and its
/// leases begin at 1.
#[test]
fn a_subscription_comes_back_as_another(rt: HostRuntime) -> Result<(), Fail> {
    session(
        rt.alloc(),
        BASE,
        r#"
        call 1000 POST /v1/projects/p/topics/abc:publish {"messages":[{"data":"aGk="}]}
        gives {"messageIds":["1"]}
        call 2000 POST /v1/projects/p/subscriptions/sub:pull {"maxMessages":1}
        gives {"receivedMessages":[{"ackId":"AAAAAAAAAAEAAAAAAAAAAQAAAAAAAAAB","message":{"data":"aGk=","messageId":"1","publishTime":"1970-01-01T00:00:01.000Z"}}]}
        call 3000 DELETE /v1/projects/p/subscriptions/sub {}
        gives {}
        call 3000 DELETE /v1/projects/p/subscriptions/sub {}
        refuses 404 NOT_FOUND projects/p/subscriptions/sub
        call 3000 GET /v1/projects/p/subscriptions/sub {}
        refuses 404 NOT_FOUND projects/p/subscriptions/sub
        call 3000 POST /v1/projects/p/subscriptions/sub:pull {"maxMessages":1}
        refuses 404 NOT_FOUND projects/p/subscriptions/sub
        call 3000 GET /v1/projects/p/subscriptions {}
        gives {}
        call 3000 PUT /v1/projects/p/subscriptions/sub {"topic":"projects/p/topics/abc"}
        gives {"ackDeadlineSeconds":10,"expirationPolicy":{"ttl":"2678400s"},"messageRetentionDuration":"604800s","name":"projects/p/subscriptions/sub","topic":"projects/p/topics/abc"}
        call 12000 POST /v1/projects/p/subscriptions/sub:pull {"maxMessages":1}
        gives {}
        call 12000 POST /v1/projects/p/topics/abc:publish {"messages":[{"data":"aGk="}]}
        gives {"messageIds":["2"]}
        call 12000 POST /v1/projects/p/subscriptions/sub:acknowledge {"ackIds":["AAAAAAAAAAEAAAAAAAAAAQAAAAAAAAAB"]}
        gives {}
        call 13000 POST /v1/projects/p/subscriptions/sub:pull {"maxMessages":10}
        gives {"receivedMessages":[{"ackId":"AAAAAAAAAAIAAAAAAAAAAgAAAAAAAAAB","message":{"data":"aGk=","messageId":"2","publishTime":"1970-01-01T00:00:12.000Z"}}]}
        call 13000 POST /v1/projects/p/subscriptions/sub:acknowledge {"ackIds":["AAAAAAAAAAEAAAAAAAAAAgAAAAAAAAAB"]}
        gives {}
        call 23000 POST /v1/projects/p/subscriptions/sub:pull {"maxMessages":10}
        gives {"receivedMessages":[{"ackId":"AAAAAAAAAAIAAAAAAAAAAgAAAAAAAAAC","message":{"data":"aGk=","messageId":"2","publishTime":"1970-01-01T00:00:12.000Z"}}]}
        "#,
    )
}

/// A message stays as long as one subscription has it.
#[test]
fn a_deleted_subscription_leaves_others_their_messages(rt: HostRuntime) -> Result<(), Fail> {
    transcript(
        rt.alloc(),
        r#"
        $$ batch f
        call 1000 PUT /v1/projects/p/topics/abc {}
        gives {"name":"projects/p/topics/abc"}
        call 1000 PUT /v1/projects/p/subscriptions/sub {"topic":"projects/p/topics/abc"}
        gives {"ackDeadlineSeconds":10,"expirationPolicy":{"ttl":"2678400s"},"messageRetentionDuration":"604800s","name":"projects/p/subscriptions/sub","topic":"projects/p/topics/abc"}
        call 1000 PUT /v1/projects/p/subscriptions/other {"topic":"projects/p/topics/abc"}
        gives {"ackDeadlineSeconds":10,"expirationPolicy":{"ttl":"2678400s"},"messageRetentionDuration":"604800s","name":"projects/p/subscriptions/other","topic":"projects/p/topics/abc"}
        call 1000 POST /v1/projects/p/topics/abc:publish {"messages":[{"data":"aGk="}]}
        gives {"messageIds":["1"]}
        call 2000 DELETE /v1/projects/p/subscriptions/sub {}
        gives {}
        call 2000 POST /v1/projects/p/subscriptions/other:pull {"maxMessages":10}
        gives {"receivedMessages":[{"ackId":"AAAAAAAAAAIAAAAAAAAAAQAAAAAAAAAB","message":{"data":"aGk=","messageId":"1","publishTime":"1970-01-01T00:00:01.000Z"}}]}
        = 0
        $ stat f
        < entries 6
        < now 2000
        < topics 1
        < subscriptions 1
        < snapshots 0
        < messages 1
        < backlog 0
        < leased 1
        < acknowledged 0
        < dead-lettered 0
        = 0
        $ batch f
        call 2000 DELETE /v1/projects/p/subscriptions/other {}
        gives {}
        = 0
        $ stat f
        < entries 7
        < now 2000
        < topics 1
        < subscriptions 0
        < snapshots 0
        < messages 0
        < backlog 0
        < leased 0
        < acknowledged 0
        < dead-lettered 0
        = 0
        "#,
    )
}

/// What isn't built is refused by name, the least one first, and what is empty counts as absent.
#[test]
fn what_is_not_built_is_refused(rt: HostRuntime) -> Result<(), Fail> {
    session(
        rt.alloc(),
        BASE,
        r#"
        call 1000 PUT /v1/projects/p/topics/none {"messageRetentionDuration":"600s"}
        refuses 501 UNIMPLEMENTED messageRetentionDuration
        call 1000 PUT /v1/projects/p/subscriptions/none {"topic":"projects/p/topics/abc","retainAckedMessages":true}
        refuses 501 UNIMPLEMENTED retainAckedMessages
        call 1000 PUT /v1/projects/p/subscriptions/none {"topic":"projects/p/topics/abc","messageRetentionDuration":"600s"}
        refuses 501 UNIMPLEMENTED messageRetentionDuration
        call 1000 PUT /v1/projects/p/subscriptions/none {"topic":"projects/p/topics/abc","deadLetterPolicy":{"deadLetterTopic":"projects/p/topics/abc"}}
        refuses 501 UNIMPLEMENTED deadLetterPolicy
        call 1000 PUT /v1/projects/p/subscriptions/none {"topic":"projects/p/topics/abc","pushConfig":{"pushEndpoint":"x"}}
        refuses 501 UNIMPLEMENTED pushConfig
        call 1000 PUT /v1/projects/p/subscriptions/none {"topic":7,"retainAckedMessages":true,"messageRetentionDuration":"600s"}
        refuses 501 UNIMPLEMENTED messageRetentionDuration
        call 1000 GET /v1/projects/p/subscriptions/none {}
        refuses 404 NOT_FOUND projects/p/subscriptions/none
        call 1000 PUT /v1/projects/p/subscriptions/other {"topic":"projects/p/topics/abc","retainAckedMessages":false,"enableMessageOrdering":null,"pushConfig":{}}
        gives {"ackDeadlineSeconds":10,"expirationPolicy":{"ttl":"2678400s"},"messageRetentionDuration":"604800s","name":"projects/p/subscriptions/other","topic":"projects/p/topics/abc"}
        call 1000 POST /v1/projects/p/subscriptions/sub:seek {}
        refuses 501 UNIMPLEMENTED Seek
        call 1000 PUT /v1/projects/p/snapshots/snap {"subscription":"projects/p/subscriptions/sub"}
        refuses 501 UNIMPLEMENTED CreateSnapshot
        call 1000 PATCH /v1/projects/p/snapshots/snap {}
        refuses 501 UNIMPLEMENTED UpdateSnapshot
        call 1000 GET /v1/projects/p/snapshots/snap {}
        refuses 501 UNIMPLEMENTED GetSnapshot
        call 1000 PUT /v1/projects/p/nothing/abc {}
        refuses 404 NOT_FOUND /v1/projects/p/nothing/abc
        "#,
    )
}
