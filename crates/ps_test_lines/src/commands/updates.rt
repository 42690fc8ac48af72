// Updates: what isn't built is refused first, then the name in the path, the kinds of the fields, unknown fields, the name
// in the resource, the mask, and last what the settings that it names may be.

use super::expect_all;
use std::test::Fail;

/// Updates of topics.
const TOPICS: &str = r#"
> UpdateTopic projects/p/topics/abc {"topic":{"labels":{"a":"b"}},"updateMask":"labels"}
> UpdateTopic projects/p/topics/abc {"topic":{"labels":{"a":"b"},"name":"projects/p/topics/abc","state":7},"updateMask":"labels,labels"}
< projects/p/topics/abc mask 1 {a=b;} None
> UpdateTopic projects/p/topics/abc {"updateMask":"labels"}
> UpdateTopic projects/p/topics/abc {"topic":null,"updateMask":"labels"}
> UpdateTopic projects/p/topics/abc {"topic":{},"updateMask":"labels"}
> UpdateTopic projects/p/topics/abc {"topic":{"labels":null,"tags":[],"messageRetentionDuration":null},"updateMask":"labels"}
< projects/p/topics/abc mask 1 {} None
> UpdateTopic projects/p/topics/x {"topic":{"tags":1,"name":7},"updateMask":"messageRetentionDuration"}
> UpdateTopic projects/p/topics/abc {"topic":{},"updateMask":"labels,messageRetentionDuration"}
> UpdateTopic projects/p/topics/abc {"topic":{"labels":7},"updateMask":"x,messageRetentionDuration,"}
> UpdateTopic projects/p/topics/abc {"topic":7,"updateMask":"messageRetentionDuration"}
< 501 messageRetentionDuration
> UpdateTopic projects/p/topics/x {"topic":{"tags":1,"labels":7},"updateMask":"x"}
> UpdateTopic projects/p/topics/abc {"topic":{"tags":{"a":"b"}},"updateMask":7}
< 501 topic.tags
> UpdateTopic projects/p/topics/abc {"topic":{"messageRetentionDuration":"600s","tags":1},"updateMask":"labels"}
< 501 topic.messageRetentionDuration
> UpdateTopic projects/p/topics/x {"topic":7}
> UpdateTopic projects/P/topics/abc {"topic":{},"updateMask":"labels"}
< 400 name
> UpdateTopic projects/p/topics/abc {"topic":[{"tags":1}],"updateMask":"labels"}
> UpdateTopic projects/p/topics/abc {"topic":7,"updateMask":["messageRetentionDuration"]}
> UpdateTopic projects/p/topics/abc {"topic":"","updateMask":7}
> UpdateTopic projects/p/topics/abc {"topic":false}
< 400 shape: topic
> UpdateTopic projects/p/topics/abc {"topic":{"labels":7,"name":7},"updateMask":7}
< 400 shape: topic.name
> UpdateTopic projects/p/topics/abc {"topic":{"labels":7,"messageRetentionDuration":{}},"updateMask":7}
> UpdateTopic projects/p/topics/abc {"topic":{"labels":{"a":null}},"updateMask":"x"}
< 400 shape: topic.labels
> UpdateTopic projects/p/topics/abc {"topic":{"messageRetentionDuration":""},"updateMask":"labels"}
< 400 shape: topic.messageRetentionDuration
> UpdateTopic projects/p/topics/abc {"topic":{},"updateMask":7}
> UpdateTopic projects/p/topics/abc {"topic":{"zz":1},"updateMask":["messageRetentionDuration"]}
> UpdateTopic projects/p/topics/abc {"updateMask":false,"zz":1}
< 400 shape: updateMask
> UpdateTopic projects/p/topics/abc {"topic":{"zz":1},"updateMask":"","labels":{}}
< 400 unknown field: labels
> UpdateTopic projects/p/topics/abc {"topic":{"zz":1,"aa":[]},"updateMask":""}
> UpdateTopic projects/p/topics/abc {"topic":{"aa":1,"name":""},"topicX":1}
< 400 unknown field: topic.aa
> UpdateTopic projects/p/topics/abc {"topic":{"name":""},"updateMask":""}
> UpdateTopic projects/p/topics/abc {"topic":{"name":"projects/p/topics/other","labels":{"":""}},"updateMask":"labels"}
< 400 name
> UpdateTopic projects/p/topics/abc {}
> UpdateTopic projects/p/topics/abc {"topic":{}}
> UpdateTopic projects/p/topics/abc {"topic":{"labels":{"":""}},"updateMask":null}
> UpdateTopic projects/p/topics/abc {"topic":{"labels":{"":""}},"updateMask":""}
> UpdateTopic projects/p/topics/abc {"topic":{"labels":{"":""}},"updateMask":"labels,"}
> UpdateTopic projects/p/topics/abc {"topic":{"labels":{"":""}},"updateMask":",labels"}
> UpdateTopic projects/p/topics/abc {"topic":{"labels":{"":""}},"updateMask":","}
> UpdateTopic projects/p/topics/abc {"topic":{"labels":{"":""}},"updateMask":"labels,,labels"}
> UpdateTopic projects/p/topics/abc {"topic":{"labels":{"":""}},"updateMask":"name"}
> UpdateTopic projects/p/topics/abc {"topic":{"labels":{"":""}},"updateMask":"state"}
> UpdateTopic projects/p/topics/abc {"topic":{"labels":{"":""}},"updateMask":"tags"}
> UpdateTopic projects/p/topics/abc {"topic":{"labels":{"":""}},"updateMask":"labels, labels"}
> UpdateTopic projects/p/topics/abc {"topic":{"labels":{"":""}},"updateMask":"Labels"}
> UpdateTopic projects/p/topics/abc {"topic":{"labels":{"":""}},"updateMask":"topic.labels"}
> UpdateTopic projects/p/topics/abc {"topic":{"labels":{"":""}},"updateMask":"ackDeadlineSeconds"}
< 400 updateMask
> UpdateTopic projects/p/topics/abc {"topic":{"labels":{"":"x"}},"updateMask":"labels"}
> UpdateTopic projects/p/topics/abc {"topic":{"labels":{"aa":"","ab":"","ac":"","ad":"","ae":"","af":"","ag":"","ah":"","ai":"","aj":"","ak":"","al":"","am":"","an":"","ao":"","ap":"","aq":"","ar":"","as":"","at":"","au":"","av":"","aw":"","ax":"","ay":"","az":"","ba":"","bb":"","bc":"","bd":"","be":"","bf":"","bg":"","bh":"","bi":"","bj":"","bk":"","bl":"","bm":"","bn":"","bo":"","bp":"","bq":"","br":"","bs":"","bt":"","bu":"","bv":"","bw":"","bx":"","by":"","bz":"","ca":"","cb":"","cc":"","cd":"","ce":"","cf":"","cg":"","ch":"","ci":"","cj":"","ck":"","cl":"","cm":""}},"updateMask":"labels"}
< 400 labels
"#;

/// Updates of subscriptions: settings that the mask doesn't name are neither used nor checked.
const SUBSCRIPTIONS: &str = r#"
> UpdateSubscription projects/p/subscriptions/sub {"subscription":{"ackDeadlineSeconds":20,"labels":{"a":"b"},"expirationPolicy":{}},"updateMask":"ackDeadlineSeconds"}
< projects/p/subscriptions/sub mask 1 20 604800000 Some(2678400000) {} ""
> UpdateSubscription projects/p/subscriptions/sub {"subscription":{"ackDeadlineSeconds":20,"labels":{"a":"b"},"expirationPolicy":{}},"updateMask":"labels"}
< projects/p/subscriptions/sub mask 8 10 604800000 Some(2678400000) {a=b;} ""
> UpdateSubscription projects/p/subscriptions/sub {"subscription":{"ackDeadlineSeconds":20,"labels":{"a":"b"},"expirationPolicy":{}},"updateMask":"expirationPolicy"}
< projects/p/subscriptions/sub mask 16 10 604800000 None {} ""
> UpdateSubscription projects/p/subscriptions/sub {"subscription":{"ackDeadlineSeconds":20,"labels":{"a":"b"},"expirationPolicy":{"ttl":"86400.5s"}},"updateMask":"expirationPolicy,ackDeadlineSeconds,labels,ackDeadlineSeconds"}
< projects/p/subscriptions/sub mask 25 20 604800000 Some(86400500) {a=b;} ""
> UpdateSubscription projects/p/subscriptions/sub {"updateMask":"ackDeadlineSeconds,labels,expirationPolicy"}
> UpdateSubscription projects/p/subscriptions/sub {"subscription":{"ackDeadlineSeconds":0,"labels":{},"expirationPolicy":null},"updateMask":"ackDeadlineSeconds,labels,expirationPolicy"}
< projects/p/subscriptions/sub mask 25 10 604800000 Some(2678400000) {} ""
> UpdateSubscription projects/p/subscriptions/sub {"subscription":{"ackDeadlineSeconds":1,"topic":"x","filter":"a","labels":{"":""},"detached":7},"updateMask":"expirationPolicy"}
> UpdateSubscription projects/p/subscriptions/sub {"subscription":{"name":"projects/p/subscriptions/sub","topic":"projects/p/topics/abc","filter":"attributes:a","enableMessageOrdering":false,"pushConfig":{"pushEndpoint":""}},"updateMask":"expirationPolicy"}
< projects/p/subscriptions/sub mask 16 10 604800000 Some(2678400000) {} ""
"#;

/// Settings of subscriptions that aren't built, or that the service leaves out, in a mask or in the subscription.
const MISSING: &str = r#"
> UpdateSubscription projects/p/subscriptions/sub {"subscription":{"labels":{"":""}},"updateMask":"messageRetentionDuration"}
> UpdateSubscription projects/p/subscriptions/sub {"subscription":{"tags":1},"updateMask":"labels,messageRetentionDuration,x"}
< 501 messageRetentionDuration
> UpdateSubscription projects/p/subscriptions/sub {"subscription":{"labels":{"":""}},"updateMask":"retainAckedMessages"}
> UpdateSubscription projects/p/subscriptions/sub {"subscription":{"tags":1},"updateMask":"labels,retainAckedMessages,x"}
< 501 retainAckedMessages
> UpdateSubscription projects/p/subscriptions/sub {"subscription":{"labels":{"":""}},"updateMask":"deadLetterPolicy"}
> UpdateSubscription projects/p/subscriptions/sub {"subscription":{"tags":1},"updateMask":"labels,deadLetterPolicy,x"}
< 501 deadLetterPolicy
> UpdateSubscription projects/p/subscriptions/sub {"subscription":{"labels":{"":""}},"updateMask":"pushConfig"}
> UpdateSubscription projects/p/subscriptions/sub {"subscription":{"tags":1},"updateMask":"labels,pushConfig,x"}
< 501 pushConfig
> UpdateSubscription projects/p/subscriptions/sub {"subscription":{},"updateMask":"retryPolicy,pushConfig,deadLetterPolicy"}
< 501 deadLetterPolicy
> UpdateSubscription projects/p/subscriptions/sub {"subscription":{"messageRetentionDuration":"600s","labels":7},"updateMask":"labels"}
< 501 subscription.messageRetentionDuration
> UpdateSubscription projects/p/subscriptions/sub {"subscription":{"retainAckedMessages":true,"labels":7},"updateMask":"labels"}
< 501 subscription.retainAckedMessages
> UpdateSubscription projects/p/subscriptions/sub {"subscription":{"deadLetterPolicy":{"maxDeliveryAttempts":5},"labels":7},"updateMask":"labels"}
< 501 subscription.deadLetterPolicy
> UpdateSubscription projects/p/subscriptions/sub {"subscription":{"pushConfig":{"pushEndpoint":"http://x"},"labels":7},"updateMask":"labels"}
< 501 subscription.pushConfig
> UpdateSubscription projects/p/subscriptions/sub {"subscription":{"bigqueryConfig":{"table":"x"},"labels":7},"updateMask":"labels"}
< 501 subscription.bigqueryConfig
> UpdateSubscription projects/p/subscriptions/sub {"subscription":{"cloudStorageConfig":{"bucket":"x"},"labels":7},"updateMask":"labels"}
< 501 subscription.cloudStorageConfig
> UpdateSubscription projects/p/subscriptions/sub {"subscription":{"messageTransforms":[{}],"labels":7},"updateMask":"labels"}
< 501 subscription.messageTransforms
> UpdateSubscription projects/p/subscriptions/sub {"subscription":{"tags":{"a":"b"},"labels":7},"updateMask":"labels"}
< 501 subscription.tags
> UpdateSubscription projects/p/subscriptions/x {"subscription":{"tags":1,"messageTransforms":[1],"name":7},"updateMask":7}
< 501 subscription.messageTransforms
"#;

/// The checks of an update, one after another.
const ORDER: &str = r#"
> UpdateSubscription projects/P/subscriptions/abc {"subscription":7,"updateMask":"labels"}
> UpdateSubscription projects/p/subscriptions/x {}
< 400 name
> UpdateSubscription projects/p/subscriptions/sub {"subscription":[],"updateMask":"labels"}
> UpdateSubscription projects/p/subscriptions/sub {"subscription":"x","updateMask":7}
< 400 shape: subscription
> UpdateSubscription projects/p/subscriptions/sub {"subscription":{"ackDeadlineSeconds":"x","topic":7},"updateMask":7}
< 400 shape: subscription.topic
> UpdateSubscription projects/p/subscriptions/sub {"subscription":{"ackDeadlineSeconds":"x","labels":7},"updateMask":"labels"}
< 400 shape: subscription.ackDeadlineSeconds
> UpdateSubscription projects/p/subscriptions/sub {"subscription":{"expirationPolicy":7,"filter":7},"updateMask":"labels"}
< 400 shape: subscription.expirationPolicy
> UpdateSubscription projects/p/subscriptions/sub {"subscription":{"expirationPolicy":{"ttl":"1.0001s"},"filter":7},"updateMask":"labels"}
< 400 shape: subscription.expirationPolicy.ttl
> UpdateSubscription projects/p/subscriptions/sub {"subscription":{"pushConfig":"x","zz":1},"updateMask":7}
< 400 shape: subscription.pushConfig
> UpdateSubscription projects/p/subscriptions/sub {"subscription":{"zz":1},"updateMask":[]}
< 400 shape: updateMask
> UpdateSubscription projects/p/subscriptions/sub {"subscription":{"expirationPolicy":{"x":1},"zz":1},"updateMask":""}
> UpdateSubscription projects/p/subscriptions/sub {"subscription":{"expirationPolicy":{"x":""}},"topic":null,"updateMask":"x"}
< 400 unknown field: subscription.expirationPolicy.x
> UpdateSubscription projects/p/subscriptions/sub {"subscription":{"topics":"","zz":1,"name":""},"updateMask":""}
< 400 unknown field: subscription.topics
> UpdateSubscription projects/p/subscriptions/sub {"subscription":{"name":""},"updateMask":""}
> UpdateSubscription projects/p/subscriptions/sub {"subscription":{"name":"projects/p/subscriptions/other","ackDeadlineSeconds":1},"updateMask":"ackDeadlineSeconds"}
< 400 name
> UpdateSubscription projects/p/subscriptions/sub {}
> UpdateSubscription projects/p/subscriptions/sub {"subscription":{"ackDeadlineSeconds":1},"updateMask":null}
> UpdateSubscription projects/p/subscriptions/sub {"subscription":{"ackDeadlineSeconds":1},"updateMask":""}
> UpdateSubscription projects/p/subscriptions/sub {"subscription":{"ackDeadlineSeconds":1},"updateMask":"ackDeadlineSeconds,"}
> UpdateSubscription projects/p/subscriptions/sub {"subscription":{"ackDeadlineSeconds":1},"updateMask":"name"}
> UpdateSubscription projects/p/subscriptions/sub {"subscription":{"ackDeadlineSeconds":1},"updateMask":"topic"}
> UpdateSubscription projects/p/subscriptions/sub {"subscription":{"ackDeadlineSeconds":1},"updateMask":"filter"}
> UpdateSubscription projects/p/subscriptions/sub {"subscription":{"ackDeadlineSeconds":1},"updateMask":"detached"}
> UpdateSubscription projects/p/subscriptions/sub {"subscription":{"ackDeadlineSeconds":1},"updateMask":"tags"}
> UpdateSubscription projects/p/subscriptions/sub {"subscription":{"ackDeadlineSeconds":1},"updateMask":"labels,expirationPolicy.ttl"}
> UpdateSubscription projects/p/subscriptions/sub {"subscription":{"ackDeadlineSeconds":1},"updateMask":"ackDeadlineSeconds, labels"}
< 400 updateMask
> UpdateSubscription projects/p/subscriptions/sub {"subscription":{"expirationPolicy":{"ttl":"1s"},"labels":{"":""},"ackDeadlineSeconds":601},"updateMask":"labels,expirationPolicy,ackDeadlineSeconds"}
< 400 ackDeadlineSeconds
> UpdateSubscription projects/p/subscriptions/sub {"subscription":{"expirationPolicy":{"ttl":"1s"},"labels":{"":""},"ackDeadlineSeconds":601},"updateMask":"expirationPolicy,labels"}
< 400 labels
> UpdateSubscription projects/p/subscriptions/sub {"subscription":{"expirationPolicy":{"ttl":"1s"},"labels":{"":""},"ackDeadlineSeconds":601},"updateMask":"expirationPolicy"}
< 400 expirationPolicy
"#;

#[test]
fn updates_of_topics_are_read(rt: HostRuntime) -> Result<(), Fail> {
    expect_all(&rt, rt.alloc(), &[TOPICS])
}

#[test]
fn updates_of_subscriptions_are_read(rt: HostRuntime) -> Result<(), Fail> {
    expect_all(&rt, rt.alloc(), &[SUBSCRIPTIONS, MISSING, ORDER])
}
