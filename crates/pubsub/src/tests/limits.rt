//! Lines, calls and texts at their limits, and one beyond.

use crate::tests::transcripts::transcript;
use std::test::Fail;

/// White space makes the first line so long: 71 bytes stand before it.
#[test]
fn a_line_may_have_16_777_216_bytes(rt: HostRuntime) -> Result<(), Fail> {
    transcript(
        rt.alloc(),
        r#"
        $ batch -
        >- {"at":1000,"verb":"PUT","path":"/v1/projects/p/topics/bbb","body":null}
        >* 72..16777216 \x20
        >
        gives {"name":"projects/p/topics/bbb"}
        call 1000 PUT /v1/projects/p/topics/aaa {}
        gives {"name":"projects/p/topics/aaa"}
        = 0
        $ batch -
        >- {"at":1000,"verb":"PUT","path":"/v1/projects/p/topics/bbb","body":null}
        >* 72..16777217 \x20
        >
        refuses 413 TOO_LARGE line
        call 1000 PUT /v1/projects/p/topics/aaa {}
        gives {"name":"projects/p/topics/aaa"}
        = 0
        "#,
    )
}

#[test]
fn a_publish_has_at_most_1_000_messages(rt: HostRuntime) -> Result<(), Fail> {
    transcript(
        rt.alloc(),
        r#"
        $$ batch f
        call 1000 PUT /v1/projects/p/topics/abc {}
        gives {"name":"projects/p/topics/abc"}
        call 1000 PUT /v1/projects/p/subscriptions/sub {"topic":"projects/p/topics/abc"}
        gives {"ackDeadlineSeconds":10,"expirationPolicy":{"ttl":"2678400s"},"messageRetentionDuration":"604800s","name":"projects/p/subscriptions/sub","topic":"projects/p/topics/abc"}
        = 0
        $ batch f
        >- {"at":1000,"verb":"POST","path":"/v1/projects/p/topics/abc:publish","body":{"messages":[{"data":"YQ=="}
        >* 2..1000 ,{"data":"YQ=="}
        > ]}}
        <- {"body":{"messageIds":["1"
        <* 2..1000 ,"@"
        < ]},"code":200}
        = 0
        $$ batch g
        call 1000 PUT /v1/projects/p/topics/abc {}
        gives {"name":"projects/p/topics/abc"}
        call 1000 PUT /v1/projects/p/subscriptions/sub {"topic":"projects/p/topics/abc"}
        gives {"ackDeadlineSeconds":10,"expirationPolicy":{"ttl":"2678400s"},"messageRetentionDuration":"604800s","name":"projects/p/subscriptions/sub","topic":"projects/p/topics/abc"}
        = 0
        $ batch g
        >- {"at":1000,"verb":"POST","path":"/v1/projects/p/topics/abc:publish","body":{"messages":[{"data":"YQ=="}
        >* 2..1001 ,{"data":"YQ=="}
        > ]}}
        refuses 400 INVALID_ARGUMENT messages
        = 0
        "#,
    )
}

/// Three bytes are four characters: 3,333,333 groups and one byte are 10,000,000 bytes.
#[test]
fn a_publish_has_at_most_10_000_000_bytes(rt: HostRuntime) -> Result<(), Fail> {
    transcript(
        rt.alloc(),
        r#"
        $$ batch f
        call 1000 PUT /v1/projects/p/topics/abc {}
        gives {"name":"projects/p/topics/abc"}
        call 1000 PUT /v1/projects/p/subscriptions/sub {"topic":"projects/p/topics/abc"}
        gives {"ackDeadlineSeconds":10,"expirationPolicy":{"ttl":"2678400s"},"messageRetentionDuration":"604800s","name":"projects/p/subscriptions/sub","topic":"projects/p/topics/abc"}
        = 0
        $ batch f
        >- {"at":1000,"verb":"POST","path":"/v1/projects/p/topics/abc:publish","body":{"messages":[{"data":"
        >* 1..3333333 AAAA
        > AA=="}]}}
        gives {"messageIds":["1"]}
        = 0
        $$ batch g
        call 1000 PUT /v1/projects/p/topics/abc {}
        gives {"name":"projects/p/topics/abc"}
        call 1000 PUT /v1/projects/p/subscriptions/sub {"topic":"projects/p/topics/abc"}
        gives {"ackDeadlineSeconds":10,"expirationPolicy":{"ttl":"2678400s"},"messageRetentionDuration":"604800s","name":"projects/p/subscriptions/sub","topic":"projects/p/topics/abc"}
        = 0
        $ batch g
        >- {"at":1000,"verb":"POST","path":"/v1/projects/p/topics/abc:publish","body":{"messages":[{"data":"
        >* 1..3333333 AAAA
        > AAA="}]}}
        refuses 400 INVALID_ARGUMENT request size
        = 0
        "#,
    )
}

/// The line's object is level 1, the body's is level 2, and the lists begin at level 3.
#[test]
fn a_line_is_at_most_127_levels_deep(rt: HostRuntime) -> Result<(), Fail> {
    transcript(
        rt.alloc(),
        r#"
        $ batch -
        >- {"at":1000,"verb":"PUT","path":"/v1/projects/p/topics/abc","body":{"x":
        >* 3..127 [
        >* 3..127 ]
        > }}
        refuses 400 INVALID_ARGUMENT unknown field: x
        = 0
        $ batch -
        >- {"at":1000,"verb":"PUT","path":"/v1/projects/p/topics/abc","body":{"x":
        >* 3..128 [
        >* 3..128 ]
        > }}
        refuses 400 INVALID_ARGUMENT line
        = 0
        "#,
    )
}
