//! Filters through whole runs, with answers that were written by hand from the rules.

use crate::tests::transcripts::session;
use std::test::Fail;

/// A topic.
const TOPIC: &str = r#"
    call 1000 PUT /v1/projects/p/topics/abc {}
    gives {"name":"projects/p/topics/abc"}
"#;

/// A message enters the subscriptions whose filter it meets, and no others.
#[test]
fn only_messages_that_match_enter(rt: HostRuntime) -> Result<(), Fail> {
    session(
        rt.alloc(),
        TOPIC,
        r#"
        call 1000 PUT /v1/projects/p/subscriptions/has {"topic":"projects/p/topics/abc","filter":"attributes:a"}
        gives {"ackDeadlineSeconds":10,"expirationPolicy":{"ttl":"2678400s"},"filter":"attributes:a","messageRetentionDuration":"604800s","name":"projects/p/subscriptions/has","topic":"projects/p/topics/abc"}
        call 1000 PUT /v1/projects/p/subscriptions/other {"topic":"projects/p/topics/abc","filter":"attributes.a != \"x\""}
        gives {"ackDeadlineSeconds":10,"expirationPolicy":{"ttl":"2678400s"},"filter":"attributes.a != \"x\"","messageRetentionDuration":"604800s","name":"projects/p/subscriptions/other","topic":"projects/p/topics/abc"}
        call 1000 PUT /v1/projects/p/subscriptions/prefix {"topic":"projects/p/topics/abc","filter":"hasPrefix(attributes.a, \"\")"}
        gives {"ackDeadlineSeconds":10,"expirationPolicy":{"ttl":"2678400s"},"filter":"hasPrefix(attributes.a, \"\")","messageRetentionDuration":"604800s","name":"projects/p/subscriptions/prefix","topic":"projects/p/topics/abc"}
        call 1000 PUT /v1/projects/p/subscriptions/not {"topic":"projects/p/topics/abc","filter":"NOT attributes:a AND attributes:b"}
        gives {"ackDeadlineSeconds":10,"expirationPolicy":{"ttl":"2678400s"},"filter":"NOT attributes:a AND attributes:b","messageRetentionDuration":"604800s","name":"projects/p/subscriptions/not","topic":"projects/p/topics/abc"}
        call 1000 PUT /v1/projects/p/subscriptions/all {"topic":"projects/p/topics/abc"}
        gives {"ackDeadlineSeconds":10,"expirationPolicy":{"ttl":"2678400s"},"messageRetentionDuration":"604800s","name":"projects/p/subscriptions/all","topic":"projects/p/topics/abc"}
        call 1000 POST /v1/projects/p/topics/abc:publish {"messages":[{"attributes":{"b":"1"}},{"attributes":{"a":""}},{"attributes":{"a":"x"}},{"data":"aGk="}]}
        gives {"messageIds":["1","2","3","4"]}
        call 2000 POST /v1/projects/p/subscriptions/has:pull {"maxMessages":10}
        gives {"receivedMessages":[{"ackId":"AAAAAAAAAAEAAAAAAAAAAgAAAAAAAAAB","message":{"attributes":{"a":""},"messageId":"2","publishTime":"1970-01-01T00:00:01.000Z"}},{"ackId":"AAAAAAAAAAEAAAAAAAAAAwAAAAAAAAAC","message":{"attributes":{"a":"x"},"messageId":"3","publishTime":"1970-01-01T00:00:01.000Z"}}]}
        call 2000 POST /v1/projects/p/subscriptions/other:pull {"maxMessages":10}
        gives {"receivedMessages":[{"ackId":"AAAAAAAAAAIAAAAAAAAAAQAAAAAAAAAB","message":{"attributes":{"b":"1"},"messageId":"1","publishTime":"1970-01-01T00:00:01.000Z"}},{"ackId":"AAAAAAAAAAIAAAAAAAAAAgAAAAAAAAAC","message":{"attributes":{"a":""},"messageId":"2","publishTime":"1970-01-01T00:00:01.000Z"}},{"ackId":"AAAAAAAAAAIAAAAAAAAABAAAAAAAAAAD","message":{"data":"aGk=","messageId":"4","publishTime":"1970-01-01T00:00:01.000Z"}}]}
        call 2000 POST /v1/projects/p/subscriptions/prefix:pull {"maxMessages":10}
        gives {"receivedMessages":[{"ackId":"AAAAAAAAAAMAAAAAAAAAAgAAAAAAAAAB","message":{"attributes":{"a":""},"messageId":"2","publishTime":"1970-01-01T00:00:01.000Z"}},{"ackId":"AAAAAAAAAAMAAAAAAAAAAwAAAAAAAAAC","message":{"attributes":{"a":"x"},"messageId":"3","publishTime":"1970-01-01T00:00:01.000Z"}}]}
        call 2000 POST /v1/projects/p/subscriptions/not:pull {"maxMessages":10}
        gives {"receivedMessages":[{"ackId":"AAAAAAAAAAQAAAAAAAAAAQAAAAAAAAAB","message":{"attributes":{"b":"1"},"messageId":"1","publishTime":"1970-01-01T00:00:01.000Z"}}]}
        call 2000 POST /v1/projects/p/subscriptions/all:pull {"maxMessages":10}
        gives {"receivedMessages":[{"ackId":"AAAAAAAAAAUAAAAAAAAAAQAAAAAAAAAB","message":{"attributes":{"b":"1"},"messageId":"1","publishTime":"1970-01-01T00:00:01.000Z"}},{"ackId":"AAAAAAAAAAUAAAAAAAAAAgAAAAAAAAAC","message":{"attributes":{"a":""},"messageId":"2","publishTime":"1970-01-01T00:00:01.000Z"}},{"ackId":"AAAAAAAAAAUAAAAAAAAAAwAAAAAAAAAD","message":{"attributes":{"a":"x"},"messageId":"3","publishTime":"1970-01-01T00:00:01.000Z"}},{"ackId":"AAAAAAAAAAUAAAAAAAAABAAAAAAAAAAE","message":{"data":"aGk=","messageId":"4","publishTime":"1970-01-01T00:00:01.000Z"}}]}
        "#,
    )
}

/// A text that isn't a filter is refused at its first problem.
#[test]
fn other_texts_are_no_filter(rt: HostRuntime) -> Result<(), Fail> {
    session(
        rt.alloc(),
        TOPIC,
        r#"
        call 1000 PUT /v1/projects/p/subscriptions/none {"topic":"projects/p/topics/abc","filter":"attributes:a AND attributes:b OR attributes:c"}
        refuses 400 INVALID_ARGUMENT filter: mixed at 30
        call 1000 PUT /v1/projects/p/subscriptions/none {"topic":"projects/p/topics/abc","filter":"attributes:"}
        refuses 400 INVALID_ARGUMENT filter: syntax at 11
        call 1000 PUT /v1/projects/p/subscriptions/none {"topic":"projects/p/topics/abc","filter":"attributes:a attributes:b"}
        refuses 400 INVALID_ARGUMENT filter: syntax at 13
        call 1000 PUT /v1/projects/p/subscriptions/none {"topic":"projects/p/topics/abc","filter":"attributes.a = \"x"}
        refuses 400 INVALID_ARGUMENT filter: syntax at 15
        call 1000 PUT /v1/projects/p/subscriptions/none {"topic":"projects/p/topics/abc","filter":"attributes.a = \"xxxxxxxxxxxxxxxxxxxxxxxxxxxxxxxxxxxxxxxxxxxxxxxxxxxxxxxxxxxxxxxxxxxxxxxxxxxxxxxxxxxxxxxxxxxxxxxxxxxxxxxxxxxxxxxxxxxxxxxxxxxxxxxxxxxxxxxxxxxxxxxxxxxxxxxxxxxxxxxxxxxxxxxxxxxxxxxxxxxxxxxxxxxxxxxxxxxxxxxxxxxxxxxxxxxxxxxxxxxxxxxxxxxxxxxxxxxxxxxx\""}
        refuses 400 INVALID_ARGUMENT filter: too long
        call 1000 PUT /v1/projects/p/subscriptions/none {"topic":"projects/p/topics/abc","filter":7}
        refuses 400 INVALID_ARGUMENT shape: filter
        call 1000 GET /v1/projects/p/subscriptions {}
        gives {}
        call 1000 PUT /v1/projects/p/subscriptions/sub {"topic":"projects/p/topics/abc","filter":"attributes.a = \"xxxxxxxxxxxxxxxxxxxxxxxxxxxxxxxxxxxxxxxxxxxxxxxxxxxxxxxxxxxxxxxxxxxxxxxxxxxxxxxxxxxxxxxxxxxxxxxxxxxxxxxxxxxxxxxxxxxxxxxxxxxxxxxxxxxxxxxxxxxxxxxxxxxxxxxxxxxxxxxxxxxxxxxxxxxxxxxxxxxxxxxxxxxxxxxxxxxxxxxxxxxxxxxxxxxxxxxxxxxxxxxxxxxxxxxxxxxxxxx\""}
        gives {"ackDeadlineSeconds":10,"expirationPolicy":{"ttl":"2678400s"},"filter":"attributes.a = \"xxxxxxxxxxxxxxxxxxxxxxxxxxxxxxxxxxxxxxxxxxxxxxxxxxxxxxxxxxxxxxxxxxxxxxxxxxxxxxxxxxxxxxxxxxxxxxxxxxxxxxxxxxxxxxxxxxxxxxxxxxxxxxxxxxxxxxxxxxxxxxxxxxxxxxxxxxxxxxxxxxxxxxxxxxxxxxxxxxxxxxxxxxxxxxxxxxxxxxxxxxxxxxxxxxxxxxxxxxxxxxxxxxxxxxxxxxxxxxx\"","messageRetentionDuration":"604800s","name":"projects/p/subscriptions/sub","topic":"projects/p/topics/abc"}
        "#,
    )
}

/// No update changes a filter.
#[test]
fn a_filter_stays(rt: HostRuntime) -> Result<(), Fail> {
    session(
        rt.alloc(),
        TOPIC,
        r#"
        call 1000 PUT /v1/projects/p/subscriptions/sub {"topic":"projects/p/topics/abc","filter":"attributes:a"}
        gives {"ackDeadlineSeconds":10,"expirationPolicy":{"ttl":"2678400s"},"filter":"attributes:a","messageRetentionDuration":"604800s","name":"projects/p/subscriptions/sub","topic":"projects/p/topics/abc"}
        call 1000 PATCH /v1/projects/p/subscriptions/sub {"subscription":{"filter":"attributes:b","labels":{"a":"1"}},"updateMask":"labels"}
        gives {"ackDeadlineSeconds":10,"expirationPolicy":{"ttl":"2678400s"},"filter":"attributes:a","labels":{"a":"1"},"messageRetentionDuration":"604800s","name":"projects/p/subscriptions/sub","topic":"projects/p/topics/abc"}
        call 1000 POST /v1/projects/p/topics/abc:publish {"messages":[{"attributes":{"b":"1"}},{"attributes":{"a":"1"}}]}
        gives {"messageIds":["1","2"]}
        call 2000 POST /v1/projects/p/subscriptions/sub:pull {"maxMessages":10}
        gives {"receivedMessages":[{"ackId":"AAAAAAAAAAEAAAAAAAAAAgAAAAAAAAAB","message":{"attributes":{"a":"1"},"messageId":"2","publishTime":"1970-01-01T00:00:01.000Z"}}]}
        "#,
    )
}
