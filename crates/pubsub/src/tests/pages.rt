//! Lists and their pages through whole runs, with answers that were written by hand from the rules.

use crate::tests::transcripts::session;
use std::test::Fail;

/// Three topics of one project, which aren't created in the order of their names, and one of another project.
const TOPICS: &str = r#"
    call 1000 PUT /v1/projects/p/topics/ccc {}
    gives {"name":"projects/p/topics/ccc"}
    call 1000 PUT /v1/projects/p/topics/aaa {}
    gives {"name":"projects/p/topics/aaa"}
    call 1000 PUT /v1/projects/p.x/topics/bbb {}
    gives {"name":"projects/p.x/topics/bbb"}
    call 1000 PUT /v1/projects/p/topics/bbb {}
    gives {"name":"projects/p/topics/bbb"}
"#;

/// A page ends with its size, and has the last name as its token exactly if more remain.
#[test]
fn pages_follow_each_other(rt: HostRuntime) -> Result<(), Fail> {
    session(
        rt.alloc(),
        TOPICS,
        r#"
        call 1000 GET /v1/projects/p/topics {}
        gives {"topics":[{"name":"projects/p/topics/aaa"},{"name":"projects/p/topics/bbb"},{"name":"projects/p/topics/ccc"}]}
        call 1000 GET /v1/projects/p/topics?pageSize=2 {}
        gives {"nextPageToken":"projects/p/topics/bbb","topics":[{"name":"projects/p/topics/aaa"},{"name":"projects/p/topics/bbb"}]}
        call 1000 GET /v1/projects/p/topics?pageSize=2&pageToken=projects%2Fp%2Ftopics%2Fbbb {}
        gives {"topics":[{"name":"projects/p/topics/ccc"}]}
        call 1000 GET /v1/projects/p/topics?pageSize=1 {}
        gives {"nextPageToken":"projects/p/topics/aaa","topics":[{"name":"projects/p/topics/aaa"}]}
        call 1000 GET /v1/projects/p/topics?pageToken=projects/p/topics/aaa&pageSize=1 {}
        gives {"nextPageToken":"projects/p/topics/bbb","topics":[{"name":"projects/p/topics/bbb"}]}
        call 1000 GET /v1/projects/p/topics?pageSize=3 {}
        gives {"topics":[{"name":"projects/p/topics/aaa"},{"name":"projects/p/topics/bbb"},{"name":"projects/p/topics/ccc"}]}
        call 1000 GET /v1/projects/p/topics?pageSize=0&alt=json {}
        gives {"topics":[{"name":"projects/p/topics/aaa"},{"name":"projects/p/topics/bbb"},{"name":"projects/p/topics/ccc"}]}
        call 1000 GET /v1/projects/p/topics?pageSize=4000 {}
        gives {"topics":[{"name":"projects/p/topics/aaa"},{"name":"projects/p/topics/bbb"},{"name":"projects/p/topics/ccc"}]}
        call 1000 GET /v1/projects/p.x/topics {}
        gives {"topics":[{"name":"projects/p.x/topics/bbb"}]}
        call 1000 GET /v1/projects/q/topics {}
        gives {}
        call 1000 GET /v1/projects/p/subscriptions {}
        gives {}
        "#,
    )
}

/// A token may be any text: a page has the names behind it.
#[test]
fn a_token_may_name_nothing(rt: HostRuntime) -> Result<(), Fail> {
    session(
        rt.alloc(),
        TOPICS,
        r#"
        call 1000 GET /v1/projects/p/topics?pageToken=projects%2Fp%2Ftopics%2Fabc {}
        gives {"topics":[{"name":"projects/p/topics/bbb"},{"name":"projects/p/topics/ccc"}]}
        call 1000 GET /v1/projects/p/topics?pageToken=projects%2Fp%2Ftopics%2Fccc {}
        gives {}
        call 1000 GET /v1/projects/p/topics?pageToken=x {}
        gives {}
        call 1000 GET /v1/projects/p/topics?pageSize=2&pageToken=a {}
        gives {"nextPageToken":"projects/p/topics/bbb","topics":[{"name":"projects/p/topics/aaa"},{"name":"projects/p/topics/bbb"}]}
        call 1000 GET /v1/projects/p/topics?pageToken= {}
        gives {"topics":[{"name":"projects/p/topics/aaa"},{"name":"projects/p/topics/bbb"},{"name":"projects/p/topics/ccc"}]}
        call 1000 DELETE /v1/projects/p/topics/bbb {}
        gives {}
        call 1000 GET /v1/projects/p/topics?pageSize=2&pageToken=projects%2Fp%2Ftopics%2Fbbb {}
        gives {"topics":[{"name":"projects/p/topics/ccc"}]}
        call 1000 GET /v1/projects/p/topics?pageSize=2 {}
        gives {"topics":[{"name":"projects/p/topics/aaa"},{"name":"projects/p/topics/ccc"}]}
        "#,
    )
}

/// The size of a page is a whole number that isn't below 0, and a project has a name.
#[test]
fn pages_are_checked(rt: HostRuntime) -> Result<(), Fail> {
    session(
        rt.alloc(),
        TOPICS,
        r#"
        call 1000 GET /v1/projects/p/topics?pageSize=-1 {}
        refuses 400 INVALID_ARGUMENT pageSize
        call 1000 GET /v1/projects/p/topics?pageSize=x {}
        refuses 400 INVALID_ARGUMENT pageSize
        call 1000 GET /v1/projects/P/topics?pageSize=x {}
        refuses 400 INVALID_ARGUMENT name
        call 1000 GET /v1/projects/p/topics/none/subscriptions?pageSize=-1 {}
        refuses 400 INVALID_ARGUMENT pageSize
        call 1000 GET /v1/projects/p/topics/none/subscriptions {}
        refuses 404 NOT_FOUND projects/p/topics/none
        call 1000 GET /v1/projects/p/topics/aaa/snapshots {}
        refuses 501 UNIMPLEMENTED ListTopicSnapshots
        "#,
    )
}

/// A topic lists the names of its subscriptions, without those that were detached or deleted. The project lists the
/// detached ones, too.
#[test]
fn a_topic_lists_what_is_attached(rt: HostRuntime) -> Result<(), Fail> {
    session(
        rt.alloc(),
        TOPICS,
        r#"
        call 1000 PUT /v1/projects/p/subscriptions/s-c {"topic":"projects/p/topics/aaa"}
        gives {"ackDeadlineSeconds":10,"expirationPolicy":{"ttl":"2678400s"},"messageRetentionDuration":"604800s","name":"projects/p/subscriptions/s-c","topic":"projects/p/topics/aaa"}
        call 1000 PUT /v1/projects/p/subscriptions/s-b {"topic":"projects/p/topics/aaa"}
        gives {"ackDeadlineSeconds":10,"expirationPolicy":{"ttl":"2678400s"},"messageRetentionDuration":"604800s","name":"projects/p/subscriptions/s-b","topic":"projects/p/topics/aaa"}
        call 1000 PUT /v1/projects/p/subscriptions/s-x {"topic":"projects/p/topics/bbb"}
        gives {"ackDeadlineSeconds":10,"expirationPolicy":{"ttl":"2678400s"},"messageRetentionDuration":"604800s","name":"projects/p/subscriptions/s-x","topic":"projects/p/topics/bbb"}
        call 1000 PUT /v1/projects/p/subscriptions/s-d {"topic":"projects/p/topics/aaa"}
        gives {"ackDeadlineSeconds":10,"expirationPolicy":{"ttl":"2678400s"},"messageRetentionDuration":"604800s","name":"projects/p/subscriptions/s-d","topic":"projects/p/topics/aaa"}
        call 1000 PUT /v1/projects/a/subscriptions/s-e {"topic":"projects/p/topics/aaa"}
        gives {"ackDeadlineSeconds":10,"expirationPolicy":{"ttl":"2678400s"},"messageRetentionDuration":"604800s","name":"projects/a/subscriptions/s-e","topic":"projects/p/topics/aaa"}
        call 1000 GET /v1/projects/p/topics/aaa/subscriptions {}
        gives {"subscriptions":["projects/a/subscriptions/s-e","projects/p/subscriptions/s-b","projects/p/subscriptions/s-c","projects/p/subscriptions/s-d"]}
        call 1000 GET /v1/projects/p/topics/aaa/subscriptions?pageSize=2 {}
        gives {"nextPageToken":"projects/p/subscriptions/s-b","subscriptions":["projects/a/subscriptions/s-e","projects/p/subscriptions/s-b"]}
        call 1000 GET /v1/projects/p/topics/aaa/subscriptions?pageSize=2&pageToken=projects%2Fp%2Fsubscriptions%2Fs-b {}
        gives {"subscriptions":["projects/p/subscriptions/s-c","projects/p/subscriptions/s-d"]}
        call 1000 POST /v1/projects/p/subscriptions/s-c:detach {}
        gives {}
        call 1000 DELETE /v1/projects/p/subscriptions/s-d {}
        gives {}
        call 1000 GET /v1/projects/p/topics/aaa/subscriptions {}
        gives {"subscriptions":["projects/a/subscriptions/s-e","projects/p/subscriptions/s-b"]}
        call 1000 GET /v1/projects/p/topics/ccc/subscriptions {}
        gives {}
        call 1000 GET /v1/projects/p/subscriptions {}
        gives {"subscriptions":[{"ackDeadlineSeconds":10,"expirationPolicy":{"ttl":"2678400s"},"messageRetentionDuration":"604800s","name":"projects/p/subscriptions/s-b","topic":"projects/p/topics/aaa"},{"ackDeadlineSeconds":10,"detached":true,"expirationPolicy":{"ttl":"2678400s"},"messageRetentionDuration":"604800s","name":"projects/p/subscriptions/s-c","topic":"projects/p/topics/aaa"},{"ackDeadlineSeconds":10,"expirationPolicy":{"ttl":"2678400s"},"messageRetentionDuration":"604800s","name":"projects/p/subscriptions/s-x","topic":"projects/p/topics/bbb"}]}
        call 1000 GET /v1/projects/p/subscriptions?pageSize=1&pageToken=projects/p/subscriptions/s-b {}
        gives {"nextPageToken":"projects/p/subscriptions/s-c","subscriptions":[{"ackDeadlineSeconds":10,"detached":true,"expirationPolicy":{"ttl":"2678400s"},"messageRetentionDuration":"604800s","name":"projects/p/subscriptions/s-c","topic":"projects/p/topics/aaa"}]}
        call 1000 DELETE /v1/projects/p/topics/bbb {}
        gives {}
        call 1000 GET /v1/projects/p/subscriptions?pageToken=projects/p/subscriptions/s-c {}
        gives {"subscriptions":[{"ackDeadlineSeconds":10,"expirationPolicy":{"ttl":"2678400s"},"messageRetentionDuration":"604800s","name":"projects/p/subscriptions/s-x","topic":"_deleted-topic_"}]}
        call 1000 DELETE /v1/projects/p/subscriptions/s-c {}
        gives {}
        call 1000 PUT /v1/projects/p/subscriptions/s-c {"topic":"projects/p/topics/ccc"}
        gives {"ackDeadlineSeconds":10,"expirationPolicy":{"ttl":"2678400s"},"messageRetentionDuration":"604800s","name":"projects/p/subscriptions/s-c","topic":"projects/p/topics/ccc"}
        call 1000 GET /v1/projects/p/topics/aaa/subscriptions {}
        gives {"subscriptions":["projects/a/subscriptions/s-e","projects/p/subscriptions/s-b"]}
        call 1000 GET /v1/projects/p/topics/ccc/subscriptions {}
        gives {"subscriptions":["projects/p/subscriptions/s-c"]}
        "#,
    )
}
