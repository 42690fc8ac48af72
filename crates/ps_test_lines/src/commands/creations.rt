// Creations: what isn't built is refused first, then the name in the path, the kinds of the fields, unknown fields, the
// name in the body, and last what the settings may be.

use super::expect_all;
use std::test::Fail;

/// Creations of topics.
const TOPICS: &str = r#"
> CreateTopic projects/p/topics/abc {}
> CreateTopic projects/p/topics/abc {"name":"projects/p/topics/abc","labels":{},"messageRetentionDuration":null}
> CreateTopic projects/p/topics/abc {"name":null,"labels":null,"unlisted":null}
> CreateTopic projects/p/topics/abc {"state":"ACTIVE","satisfiesPzs":true}
> CreateTopic projects/p/topics/abc {"kmsKeyName":"","schemaSettings":{},"messageStoragePolicy":{},"ingestionDataSourceSettings":null,"messageTransforms":[],"tags":0}
< projects/p/topics/abc {} None
> CreateTopic projects/p/topics/abc {"labels":{"b":"2","a":""}}
> CreateTopic projects/p/topics/abc {"labels":{"a":"1","b":"2","a":""}}
< projects/p/topics/abc {a=;b=2;} None
> CreateTopic projects/p/topics/abc {"messageRetentionDuration":"600s"}
> CreateTopic projects/p/topics/x {"messageRetentionDuration":"x","name":7,"unlisted":1}
> CreateTopic projects/p/topics/abc {"messageRetentionDuration":7,"tags":{"a":"b"},"schemaSettings":{"schema":"x"}}
< 501 messageRetentionDuration
> CreateTopic projects/p/topics/abc {"kmsKeyName":"k","tags":1,"labels":7}
< 501 kmsKeyName
> CreateTopic projects/p/topics/abc {"schemaSettings":{"schema":"projects/p/schemas/s"}}
< 501 schemaSettings
> CreateTopic projects/p/topics/abc {"messageStoragePolicy":{"x":null}}
< 501 messageStoragePolicy
> CreateTopic projects/p/topics/abc {"ingestionDataSourceSettings":true}
< 501 ingestionDataSourceSettings
> CreateTopic projects/p/topics/abc {"messageTransforms":[null]}
< 501 messageTransforms
> CreateTopic projects/p/topics/abc {"tags":-0,"zz":1}
< 501 tags
> CreateTopic projects/p/topics/x {"name":7,"labels":7,"unlisted":1}
> CreateTopic projects/p/topics/google {}
> CreateTopic projects/p/topics/a/bc {}
> CreateTopic projects/P/topics/abc {}
< 400 name
> CreateTopic projects/p/topics/abc {"name":7,"labels":7}
> CreateTopic projects/p/topics/abc {"unlisted":1,"name":false}
< 400 shape: name
> CreateTopic projects/p/topics/abc {"labels":7,"messageRetentionDuration":{}}
> CreateTopic projects/p/topics/abc {"labels":[]}
> CreateTopic projects/p/topics/abc {"labels":""}
> CreateTopic projects/p/topics/abc {"labels":false,"unlisted":1}
> CreateTopic projects/p/topics/abc {"labels":{"a":7}}
> CreateTopic projects/p/topics/abc {"labels":{"a":"1","b":null}}
< 400 shape: labels
> CreateTopic projects/p/topics/abc {"messageRetentionDuration":{}}
> CreateTopic projects/p/topics/abc {"messageRetentionDuration":""}
> CreateTopic projects/p/topics/abc {"messageRetentionDuration":0}
> CreateTopic projects/p/topics/abc {"messageRetentionDuration":false,"unlisted":1}
< 400 shape: messageRetentionDuration
> CreateTopic projects/p/topics/abc {"unlisted":1,"aa":0,"name":""}
> CreateTopic projects/p/topics/abc {"aa":"","ab":1,"labels":{"":""}}
< 400 unknown field: aa
> CreateTopic projects/p/topics/abc {"Labels":{},"topic":""}
< 400 unknown field: Labels
> CreateTopic projects/p/topics/abc {"name":""}
> CreateTopic projects/p/topics/abc {"name":"projects/p/topics/other","labels":{"":"1"}}
< 400 name
"#;

/// Labels of a topic at their limits.
const LABELS: &str = r#"
> CreateTopic projects/p/topics/abc {"labels":{"aa":"","ab":"","ac":"","ad":"","ae":"","af":"","ag":"","ah":"","ai":"","aj":"","ak":"","al":"","am":"","an":"","ao":"","ap":"","aq":"","ar":"","as":"","at":"","au":"","av":"","aw":"","ax":"","ay":"","az":"","ba":"","bb":"","bc":"","bd":"","be":"","bf":"","bg":"","bh":"","bi":"","bj":"","bk":"","bl":"","bm":"","bn":"","bo":"","bp":"","bq":"","br":"","bs":"","bt":"","bu":"","bv":"","bw":"","bx":"","by":"","bz":"","ca":"","cb":"","cc":"","cd":"","ce":"","cf":"","cg":"","ch":"","ci":"","cj":"","ck":"","cl":""}}
< projects/p/topics/abc {aa=;ab=;ac=;ad=;ae=;af=;ag=;ah=;ai=;aj=;ak=;al=;am=;an=;ao=;ap=;aq=;ar=;as=;at=;au=;av=;aw=;ax=;ay=;az=;ba=;bb=;bc=;bd=;be=;bf=;bg=;bh=;bi=;bj=;bk=;bl=;bm=;bn=;bo=;bp=;bq=;br=;bs=;bt=;bu=;bv=;bw=;bx=;by=;bz=;ca=;cb=;cc=;cd=;ce=;cf=;cg=;ch=;ci=;cj=;ck=;cl=;} None
> CreateTopic projects/p/topics/abc {"labels":{"kkkkkkkkkkkkkkkkkkkkkkkkkkkkkkkkkkkkkkkkkkkkkkkkkkkkkkkkkkkkkkk":"kkkkkkkkkkkkkkkkkkkkkkkkkkkkkkkkkkkkkkkkkkkkkkkkkkkkkkkkkkkkkkk"}}
< projects/p/topics/abc {kkkkkkkkkkkkkkkkkkkkkkkkkkkkkkkkkkkkkkkkkkkkkkkkkkkkkkkkkkkkkkk=kkkkkkkkkkkkkkkkkkkkkkkkkkkkkkkkkkkkkkkkkkkkkkkkkkkkkkkkkkkkkkk;} None
> CreateTopic projects/p/topics/abc {"labels":{"aa":"","ab":"","ac":"","ad":"","ae":"","af":"","ag":"","ah":"","ai":"","aj":"","ak":"","al":"","am":"","an":"","ao":"","ap":"","aq":"","ar":"","as":"","at":"","au":"","av":"","aw":"","ax":"","ay":"","az":"","ba":"","bb":"","bc":"","bd":"","be":"","bf":"","bg":"","bh":"","bi":"","bj":"","bk":"","bl":"","bm":"","bn":"","bo":"","bp":"","bq":"","br":"","bs":"","bt":"","bu":"","bv":"","bw":"","bx":"","by":"","bz":"","ca":"","cb":"","cc":"","cd":"","ce":"","cf":"","cg":"","ch":"","ci":"","cj":"","ck":"","cl":"","cm":""}}
> CreateTopic projects/p/topics/abc {"labels":{"":"1"}}
> CreateTopic projects/p/topics/abc {"labels":{"kkkkkkkkkkkkkkkkkkkkkkkkkkkkkkkkkkkkkkkkkkkkkkkkkkkkkkkkkkkkkkkk":""}}
> CreateTopic projects/p/topics/abc {"labels":{"a":"kkkkkkkkkkkkkkkkkkkkkkkkkkkkkkkkkkkkkkkkkkkkkkkkkkkkkkkkkkkkkkkk"}}
> CreateTopic projects/p/topics/abc {"labels":{"a":"","b":"kkkkkkkkkkkkkkkkkkkkkkkkkkkkkkkkkkkkkkkkkkkkkkkkkkkkkkkkkkkkkkkk"}}
< 400 labels
"#;

/// Creations of subscriptions.
const SUBSCRIPTIONS: &str = r#"
> CreateSubscription projects/p/subscriptions/sub {"topic":"projects/p/topics/abc"}
> CreateSubscription projects/p/subscriptions/sub {"topic":"projects/p/topics/abc","name":"projects/p/subscriptions/sub","tags":{},"state":0,"detached":true,"topicMessageRetentionDuration":7,"analyticsHubSubscriptionInfo":{"a":1}}
> CreateSubscription projects/p/subscriptions/sub {"topic":"projects/p/topics/abc","unlisted":null,"ackDeadlineSeconds":null,"retainAckedMessages":null,"messageRetentionDuration":null,"labels":null,"enableMessageOrdering":null,"expirationPolicy":null,"filter":null,"deadLetterPolicy":null,"retryPolicy":null,"enableExactlyOnceDelivery":null,"pushConfig":null}
> CreateSubscription projects/p/subscriptions/sub {"topic":"projects/p/topics/abc","ackDeadlineSeconds":0,"retainAckedMessages":false,"labels":{},"enableMessageOrdering":false,"filter":"","deadLetterPolicy":{},"enableExactlyOnceDelivery":false,"pushConfig":{}}
> CreateSubscription projects/p/subscriptions/sub {"topic":"projects/p/topics/abc","pushConfig":{"pushEndpoint":"","attributes":{},"other":[]},"bigqueryConfig":{},"cloudStorageConfig":0,"messageTransforms":[]}
< projects/p/subscriptions/sub projects/p/topics/abc 10 604800000 Some(2678400000) {} ""
> CreateSubscription projects/p/subscriptions/sub {"topic":"projects/p/topics/abc","labels":{"b":"2","a":"1"},"ackDeadlineSeconds":600,"expirationPolicy":{},"filter":"attributes:a"}
< projects/p/subscriptions/sub projects/p/topics/abc 600 604800000 None {a=1;b=2;} "attributes:a"
> CreateSubscription projects/p/subscriptions/sub {"topic":"projects/p/topics/abc","enableMessageOrdering":true,"enableExactlyOnceDelivery":true}
< projects/p/subscriptions/sub projects/p/topics/abc 10 604800000 Some(2678400000) {} "" ordered once
> CreateSubscription projects/p/subscriptions/sub {"topic":"projects/p/topics/abc","retryPolicy":{}}
> CreateSubscription projects/p/subscriptions/sub {"topic":"projects/p/topics/abc","retryPolicy":{"minimumBackoff":null,"maximumBackoff":"600s"}}
< projects/p/subscriptions/sub projects/p/topics/abc 10 604800000 Some(2678400000) {} "" rests 10000 to 600000
> CreateSubscription projects/p/subscriptions/sub {"topic":"projects/p/topics/abc","retryPolicy":{"minimumBackoff":"600s","maximumBackoff":"0s"}}
< projects/p/subscriptions/sub projects/p/topics/abc 10 604800000 Some(2678400000) {} "" rests 600000 to 0
"#;

/// Settings of subscriptions that aren't built, or that the service leaves out: the least one in byte order is told.
const MISSING: &str = r#"
> CreateSubscription projects/p/subscriptions/x {"messageRetentionDuration":"604800s","name":7,"topic":7,"unlisted":1}
< 501 messageRetentionDuration
> CreateSubscription projects/p/subscriptions/sub {"retainAckedMessages":true,"tags":[1]}
> CreateSubscription projects/p/subscriptions/sub {"retainAckedMessages":"x"}
< 501 retainAckedMessages
> CreateSubscription projects/p/subscriptions/sub {"deadLetterPolicy":{"deadLetterTopic":""},"tags":1}
< 501 deadLetterPolicy
> CreateSubscription projects/p/subscriptions/sub {"enableExactlyOnceDelivery":true,"pushConfig":{"pushEndpoint":"x"}}
> CreateSubscription projects/p/subscriptions/sub {"pushConfig":{"pushEndpoint":"http://x"}}
> CreateSubscription projects/p/subscriptions/sub {"pushConfig":{"other":1},"retryPolicy":null,"tags":1}
< 501 pushConfig
> CreateSubscription projects/p/subscriptions/sub {"bigqueryConfig":{"table":"x"},"cloudStorageConfig":1}
< 501 bigqueryConfig
> CreateSubscription projects/p/subscriptions/sub {"cloudStorageConfig":{"bucket":"x"},"messageTransforms":[1]}
< 501 cloudStorageConfig
> CreateSubscription projects/p/subscriptions/sub {"messageTransforms":[1],"tags":[1]}
< 501 messageTransforms
> CreateSubscription projects/p/subscriptions/sub {"tags":[1],"topic":7}
< 501 tags
"#;

/// Kinds of fields, in the order in which they are read, and unknown fields.
const SHAPES: &str = r#"
> CreateSubscription projects/p/subscriptions/x {"name":7,"topic":7}
> CreateSubscription projects/P/subscriptions/abc {"topic":"projects/p/topics/abc"}
< 400 name
> CreateSubscription projects/p/subscriptions/sub {"topic":7,"name":7}
< 400 shape: name
> CreateSubscription projects/p/subscriptions/sub {"topic":7,"unlisted":0}
> CreateSubscription projects/p/subscriptions/sub {"topic":{},"ackDeadlineSeconds":""}
< 400 shape: topic
> CreateSubscription projects/p/subscriptions/sub {"ackDeadlineSeconds":"","retainAckedMessages":""}
> CreateSubscription projects/p/subscriptions/sub {"ackDeadlineSeconds":10.0}
> CreateSubscription projects/p/subscriptions/sub {"ackDeadlineSeconds":-0}
> CreateSubscription projects/p/subscriptions/sub {"ackDeadlineSeconds":true}
> CreateSubscription projects/p/subscriptions/sub {"ackDeadlineSeconds":9223372036854775808}
> CreateSubscription projects/p/subscriptions/sub {"ackDeadlineSeconds":"10s"}
< 400 shape: ackDeadlineSeconds
> CreateSubscription projects/p/subscriptions/sub {"retainAckedMessages":"","messageRetentionDuration":{}}
> CreateSubscription projects/p/subscriptions/sub {"retainAckedMessages":0}
< 400 shape: retainAckedMessages
> CreateSubscription projects/p/subscriptions/sub {"messageRetentionDuration":{},"labels":7}
> CreateSubscription projects/p/subscriptions/sub {"messageRetentionDuration":""}
< 400 shape: messageRetentionDuration
> CreateSubscription projects/p/subscriptions/sub {"labels":[],"enableMessageOrdering":""}
> CreateSubscription projects/p/subscriptions/sub {"labels":{"a":7}}
> CreateSubscription projects/p/subscriptions/sub {"labels":{"a":null},"expirationPolicy":{"ttl":7}}
< 400 shape: labels
> CreateSubscription projects/p/subscriptions/sub {"enableMessageOrdering":{},"expirationPolicy":7}
< 400 shape: enableMessageOrdering
> CreateSubscription projects/p/subscriptions/sub {"expirationPolicy":"","filter":7}
> CreateSubscription projects/p/subscriptions/sub {"expirationPolicy":"86400s"}
> CreateSubscription projects/p/subscriptions/sub {"expirationPolicy":[]}
< 400 shape: expirationPolicy
> CreateSubscription projects/p/subscriptions/sub {"expirationPolicy":{"ttl":7},"filter":7}
> CreateSubscription projects/p/subscriptions/sub {"expirationPolicy":{"ttl":"","x":1}}
> CreateSubscription projects/p/subscriptions/sub {"expirationPolicy":{"ttl":{}}}
< 400 shape: expirationPolicy.ttl
> CreateSubscription projects/p/subscriptions/sub {"filter":7,"deadLetterPolicy":""}
> CreateSubscription projects/p/subscriptions/sub {"filter":{}}
< 400 shape: filter
> CreateSubscription projects/p/subscriptions/sub {"deadLetterPolicy":"","retryPolicy":""}
> CreateSubscription projects/p/subscriptions/sub {"deadLetterPolicy":[]}
< 400 shape: deadLetterPolicy
> CreateSubscription projects/p/subscriptions/sub {"retryPolicy":[],"enableExactlyOnceDelivery":""}
> CreateSubscription projects/p/subscriptions/sub {"retryPolicy":false}
< 400 shape: retryPolicy
> CreateSubscription projects/p/subscriptions/sub {"retryPolicy":{"minimumBackoff":10,"maximumBackoff":""}}
< 400 shape: retryPolicy.minimumBackoff
> CreateSubscription projects/p/subscriptions/sub {"retryPolicy":{"x":1,"maximumBackoff":"60"}}
< 400 shape: retryPolicy.maximumBackoff
> CreateSubscription projects/p/subscriptions/sub {"enableExactlyOnceDelivery":0,"pushConfig":7}
< 400 shape: enableExactlyOnceDelivery
> CreateSubscription projects/p/subscriptions/sub {"pushConfig":7,"unlisted":1}
> CreateSubscription projects/p/subscriptions/sub {"pushConfig":"x"}
> CreateSubscription projects/p/subscriptions/sub {"pushConfig":[]}
> CreateSubscription projects/p/subscriptions/sub {"pushConfig":false}
< 400 shape: pushConfig
> CreateSubscription projects/p/subscriptions/sub {"name":"x","zz":0,"yy":""}
< 400 unknown field: yy
> CreateSubscription projects/p/subscriptions/sub {"expirationPolicy":{"x":1,"ttl":null},"expirationPolicyX":1}
> CreateSubscription projects/p/subscriptions/sub {"filters":"","expirationPolicy":{"y":null,"x":[]}}
< 400 unknown field: expirationPolicy.x
> CreateSubscription projects/p/subscriptions/sub {"expirationPolicy":{"x":1},"expirationPolicy-":1}
< 400 unknown field: expirationPolicy-
> CreateSubscription projects/p/subscriptions/sub {"name":"projects/p/subscriptions/other","topic":"x"}
> CreateSubscription projects/p/subscriptions/sub {"name":""}
< 400 name
"#;

/// The seconds of a lease.
const DEADLINES: &str = r#"
> CreateSubscription projects/p/subscriptions/sub {"topic":"projects/p/topics/abc","ackDeadlineSeconds":0}
> CreateSubscription projects/p/subscriptions/sub {"topic":"projects/p/topics/abc","ackDeadlineSeconds":"0"}
> CreateSubscription projects/p/subscriptions/sub {"topic":"projects/p/topics/abc","ackDeadlineSeconds":"-0"}
> CreateSubscription projects/p/subscriptions/sub {"topic":"projects/p/topics/abc","ackDeadlineSeconds":10}
> CreateSubscription projects/p/subscriptions/sub {"topic":"projects/p/topics/abc","ackDeadlineSeconds":"10"}
> CreateSubscription projects/p/subscriptions/sub {"topic":"projects/p/topics/abc","ackDeadlineSeconds":"0010"}
< projects/p/subscriptions/sub projects/p/topics/abc 10 604800000 Some(2678400000) {} ""
> CreateSubscription projects/p/subscriptions/sub {"topic":"projects/p/topics/abc","ackDeadlineSeconds":600}
> CreateSubscription projects/p/subscriptions/sub {"topic":"projects/p/topics/abc","ackDeadlineSeconds":"600"}
< projects/p/subscriptions/sub projects/p/topics/abc 600 604800000 Some(2678400000) {} ""
> CreateSubscription projects/p/subscriptions/sub {"topic":"projects/p/topics/abc","ackDeadlineSeconds":9}
> CreateSubscription projects/p/subscriptions/sub {"topic":"projects/p/topics/abc","ackDeadlineSeconds":1}
> CreateSubscription projects/p/subscriptions/sub {"topic":"projects/p/topics/abc","ackDeadlineSeconds":601}
> CreateSubscription projects/p/subscriptions/sub {"topic":"projects/p/topics/abc","ackDeadlineSeconds":-1}
> CreateSubscription projects/p/subscriptions/sub {"topic":"projects/p/topics/abc","ackDeadlineSeconds":"-10"}
> CreateSubscription projects/p/subscriptions/sub {"topic":"projects/p/topics/abc","ackDeadlineSeconds":4294967295}
> CreateSubscription projects/p/subscriptions/sub {"topic":"projects/p/topics/abc","ackDeadlineSeconds":4294967296}
> CreateSubscription projects/p/subscriptions/sub {"topic":"projects/p/topics/abc","ackDeadlineSeconds":4294967306}
> CreateSubscription projects/p/subscriptions/sub {"topic":"projects/p/topics/abc","ackDeadlineSeconds":9223372036854775807}
> CreateSubscription projects/p/subscriptions/sub {"topic":"projects/p/topics/abc","ackDeadlineSeconds":-9223372036854775808}
< 400 ackDeadlineSeconds
"#;

/// Durations, and how long a subscription may be without use.
const DURATIONS: &str = r#"
> CreateSubscription projects/p/subscriptions/sub {"topic":"projects/p/topics/abc","expirationPolicy":{"ttl":"86400s"}}
> CreateSubscription projects/p/subscriptions/sub {"topic":"projects/p/topics/abc","expirationPolicy":{"ttl":"000000086400s"}}
> CreateSubscription projects/p/subscriptions/sub {"topic":"projects/p/topics/abc","expirationPolicy":{"ttl":"86400.0s"}}
> CreateSubscription projects/p/subscriptions/sub {"topic":"projects/p/topics/abc","expirationPolicy":{"ttl":"86400.000000000s"}}
< projects/p/subscriptions/sub projects/p/topics/abc 10 604800000 Some(86400000) {} ""
> CreateSubscription projects/p/subscriptions/sub {"topic":"projects/p/topics/abc","expirationPolicy":{"ttl":"86400.5s"}}
> CreateSubscription projects/p/subscriptions/sub {"topic":"projects/p/topics/abc","expirationPolicy":{"ttl":"86400.50s"}}
> CreateSubscription projects/p/subscriptions/sub {"topic":"projects/p/topics/abc","expirationPolicy":{"ttl":"86400.500000000s"}}
< projects/p/subscriptions/sub projects/p/topics/abc 10 604800000 Some(86400500) {} ""
> CreateSubscription projects/p/subscriptions/sub {"topic":"projects/p/topics/abc","expirationPolicy":{"ttl":"86400.001s"}}
> CreateSubscription projects/p/subscriptions/sub {"topic":"projects/p/topics/abc","expirationPolicy":{"ttl":"86400.0010s"}}
< projects/p/subscriptions/sub projects/p/topics/abc 10 604800000 Some(86400001) {} ""
> CreateSubscription projects/p/subscriptions/sub {"topic":"projects/p/topics/abc","expirationPolicy":{"ttl":"86400.25s"}}
< projects/p/subscriptions/sub projects/p/topics/abc 10 604800000 Some(86400250) {} ""
> CreateSubscription projects/p/subscriptions/sub {"topic":"projects/p/topics/abc","expirationPolicy":{"ttl":"315359999.999s"}}
< projects/p/subscriptions/sub projects/p/topics/abc 10 604800000 Some(315359999999) {} ""
> CreateSubscription projects/p/subscriptions/sub {"topic":"projects/p/topics/abc","expirationPolicy":{"ttl":"315360000s"}}
< projects/p/subscriptions/sub projects/p/topics/abc 10 604800000 Some(315360000000) {} ""
> CreateSubscription projects/p/subscriptions/sub {"topic":"projects/p/topics/abc","expirationPolicy":{}}
> CreateSubscription projects/p/subscriptions/sub {"topic":"projects/p/topics/abc","expirationPolicy":{"ttl":null}}
< projects/p/subscriptions/sub projects/p/topics/abc 10 604800000 None {} ""
> CreateSubscription projects/p/subscriptions/sub {"topic":"projects/p/topics/abc","expirationPolicy":{"ttl":"0s"}}
> CreateSubscription projects/p/subscriptions/sub {"topic":"projects/p/topics/abc","expirationPolicy":{"ttl":"86399s"}}
> CreateSubscription projects/p/subscriptions/sub {"topic":"projects/p/topics/abc","expirationPolicy":{"ttl":"86399.999s"}}
> CreateSubscription projects/p/subscriptions/sub {"topic":"projects/p/topics/abc","expirationPolicy":{"ttl":"315360000.001s"}}
> CreateSubscription projects/p/subscriptions/sub {"topic":"projects/p/topics/abc","expirationPolicy":{"ttl":"999999999999s"}}
> CreateSubscription projects/p/subscriptions/sub {"topic":"projects/p/topics/abc","expirationPolicy":{"ttl":"999999999999.999s"}}
< 400 expirationPolicy
> CreateSubscription projects/p/subscriptions/sub {"topic":"projects/p/topics/abc","expirationPolicy":{"ttl":"0000000086400s"}}
> CreateSubscription projects/p/subscriptions/sub {"topic":"projects/p/topics/abc","expirationPolicy":{"ttl":"1000000000000s"}}
> CreateSubscription projects/p/subscriptions/sub {"topic":"projects/p/topics/abc","expirationPolicy":{"ttl":"86400.0001s"}}
> CreateSubscription projects/p/subscriptions/sub {"topic":"projects/p/topics/abc","expirationPolicy":{"ttl":"1.0001s"}}
> CreateSubscription projects/p/subscriptions/sub {"topic":"projects/p/topics/abc","expirationPolicy":{"ttl":"86400.000000001s"}}
> CreateSubscription projects/p/subscriptions/sub {"topic":"projects/p/topics/abc","expirationPolicy":{"ttl":"86400.0000000000s"}}
> CreateSubscription projects/p/subscriptions/sub {"topic":"projects/p/topics/abc","expirationPolicy":{"ttl":"86400.s"}}
> CreateSubscription projects/p/subscriptions/sub {"topic":"projects/p/topics/abc","expirationPolicy":{"ttl":".5s"}}
> CreateSubscription projects/p/subscriptions/sub {"topic":"projects/p/topics/abc","expirationPolicy":{"ttl":"."}}
> CreateSubscription projects/p/subscriptions/sub {"topic":"projects/p/topics/abc","expirationPolicy":{"ttl":"s"}}
> CreateSubscription projects/p/subscriptions/sub {"topic":"projects/p/topics/abc","expirationPolicy":{"ttl":""}}
> CreateSubscription projects/p/subscriptions/sub {"topic":"projects/p/topics/abc","expirationPolicy":{"ttl":"86400"}}
> CreateSubscription projects/p/subscriptions/sub {"topic":"projects/p/topics/abc","expirationPolicy":{"ttl":"86400S"}}
> CreateSubscription projects/p/subscriptions/sub {"topic":"projects/p/topics/abc","expirationPolicy":{"ttl":"86400ms"}}
> CreateSubscription projects/p/subscriptions/sub {"topic":"projects/p/topics/abc","expirationPolicy":{"ttl":"-86400s"}}
> CreateSubscription projects/p/subscriptions/sub {"topic":"projects/p/topics/abc","expirationPolicy":{"ttl":"+86400s"}}
> CreateSubscription projects/p/subscriptions/sub {"topic":"projects/p/topics/abc","expirationPolicy":{"ttl":" 86400s"}}
> CreateSubscription projects/p/subscriptions/sub {"topic":"projects/p/topics/abc","expirationPolicy":{"ttl":"86400s "}}
> CreateSubscription projects/p/subscriptions/sub {"topic":"projects/p/topics/abc","expirationPolicy":{"ttl":"86400ss"}}
> CreateSubscription projects/p/subscriptions/sub {"topic":"projects/p/topics/abc","expirationPolicy":{"ttl":"86400.5.5s"}}
> CreateSubscription projects/p/subscriptions/sub {"topic":"projects/p/topics/abc","expirationPolicy":{"ttl":"86400,5s"}}
> CreateSubscription projects/p/subscriptions/sub {"topic":"projects/p/topics/abc","expirationPolicy":{"ttl":"8640_0s"}}
> CreateSubscription projects/p/subscriptions/sub {"topic":"projects/p/topics/abc","expirationPolicy":{"ttl":86400}}
> CreateSubscription projects/p/subscriptions/sub {"topic":"projects/p/topics/abc","expirationPolicy":{"ttl":86400.0}}
> CreateSubscription projects/p/subscriptions/sub {"topic":"projects/p/topics/abc","expirationPolicy":{"ttl":true}}
> CreateSubscription projects/p/subscriptions/sub {"topic":"projects/p/topics/abc","expirationPolicy":{"ttl":[]}}
< 400 shape: expirationPolicy.ttl
"#;

/// Filters, which are checked after all other settings.
const FILTERS: &str = r#"
> CreateSubscription projects/p/subscriptions/sub {"topic":"projects/p/topics/abc","filter":"attributes.a = \"xxxxxxxxxxxxxxxxxxxxxxxxxxxxxxxxxxxxxxxxxxxxxxxxxxxxxxxxxxxxxxxxxxxxxxxxxxxxxxxxxxxxxxxxxxxxxxxxxxxxxxxxxxxxxxxxxxxxxxxxxxxxxxxxxxxxxxxxxxxxxxxxxxxxxxxxxxxxxxxxxxxxxxxxxxxxxxxxxxxxxxxxxxxxxxxxxxxxxxxxxxxxxxxxxxxxxxxxxxxxxxxxxxxxxxxxxxxxxxx\""}
< projects/p/subscriptions/sub projects/p/topics/abc 10 604800000 Some(2678400000) {} "attributes.a = "xxxxxxxxxxxxxxxxxxxxxxxxxxxxxxxxxxxxxxxxxxxxxxxxxxxxxxxxxxxxxxxxxxxxxxxxxxxxxxxxxxxxxxxxxxxxxxxxxxxxxxxxxxxxxxxxxxxxxxxxxxxxxxxxxxxxxxxxxxxxxxxxxxxxxxxxxxxxxxxxxxxxxxxxxxxxxxxxxxxxxxxxxxxxxxxxxxxxxxxxxxxxxxxxxxxxxxxxxxxxxxxxxxxxxxxxxxxxxxx""
> CreateSubscription projects/p/subscriptions/sub {"topic":"projects/p/topics/abc","filter":"attributes.a = \"xxxxxxxxxxxxxxxxxxxxxxxxxxxxxxxxxxxxxxxxxxxxxxxxxxxxxxxxxxxxxxxxxxxxxxxxxxxxxxxxxxxxxxxxxxxxxxxxxxxxxxxxxxxxxxxxxxxxxxxxxxxxxxxxxxxxxxxxxxxxxxxxxxxxxxxxxxxxxxxxxxxxxxxxxxxxxxxxxxxxxxxxxxxxxxxxxxxxxxxxxxxxxxxxxxxxxxxxxxxxxxxxxxxxxxxxxxxxxxxx\""}
> CreateSubscription projects/p/subscriptions/sub {"topic":"projects/p/topics/abc","filter":"aaaaaaaaaaaaaaaaaaaaaaaaaaaaaaaaaaaaaaaaaaaaaaaaaaaaaaaaaaaaaaaaaaaaaaaaaaaaaaaaaaaaaaaaaaaaaaaaaaaaaaaaaaaaaaaaaaaaaaaaaaaaaaaaaaaaaaaaaaaaaaaaaaaaaaaaaaaaaaaaaaaaaaaaaaaaaaaaaaaaaaaaaaaaaaaaaaaaaaaaaaaaaaaaaaaaaaaaaaaaaaaaaaaaaaaaaaaaaaaaaaaaaaaaaaaaaaaaa"}
< 400 filter: too long
> CreateSubscription projects/p/subscriptions/sub {"topic":"projects/p/topics/abc","filter":"attributes:a AND attributes:b OR attributes:c"}
< 400 filter: mixed at 30
> CreateSubscription projects/p/subscriptions/sub {"topic":"projects/p/topics/abc","filter":"attributes:"}
< 400 filter: syntax at 11
> CreateSubscription projects/p/subscriptions/sub {"topic":"projects/p/topics/abc","filter":"a"}
> CreateSubscription projects/p/subscriptions/sub {"topic":"projects/p/topics/abc","filter":"aaaaaaaaaaaaaaaaaaaaaaaaaaaaaaaaaaaaaaaaaaaaaaaaaaaaaaaaaaaaaaaaaaaaaaaaaaaaaaaaaaaaaaaaaaaaaaaaaaaaaaaaaaaaaaaaaaaaaaaaaaaaaaaaaaaaaaaaaaaaaaaaaaaaaaaaaaaaaaaaaaaaaaaaaaaaaaaaaaaaaaaaaaaaaaaaaaaaaaaaaaaaaaaaaaaaaaaaaaaaaaaaaaaaaaaaaaaaaaaaaaaaaaaaaaaaaaaa"}
< 400 filter: syntax at 0
> CreateSubscription projects/p/subscriptions/sub {"topic":"projects/p/topics/abc","filter":" "}
< 400 filter: syntax at 1
"#;

/// The checks of the settings, one after another.
const ORDER: &str = r#"
> CreateSubscription projects/p/subscriptions/sub {}
> CreateSubscription projects/p/subscriptions/sub {"topic":null}
> CreateSubscription projects/p/subscriptions/sub {"topic":"projects/p/subscriptions/sub"}
> CreateSubscription projects/p/subscriptions/sub {"topic":"x","ackDeadlineSeconds":1,"filter":"a"}
< 400 topic
> CreateSubscription projects/p/subscriptions/sub {"topic":"projects/p/topics/abc","filter":"a","expirationPolicy":{"ttl":"1s"},"labels":{"":""},"ackDeadlineSeconds":1}
< 400 ackDeadlineSeconds
> CreateSubscription projects/p/subscriptions/sub {"topic":"projects/p/topics/abc","filter":"a","expirationPolicy":{"ttl":"1s"},"labels":{"":""}}
< 400 labels
> CreateSubscription projects/p/subscriptions/sub {"topic":"projects/p/topics/abc","filter":"a","expirationPolicy":{"ttl":"1s"}}
< 400 expirationPolicy
> CreateSubscription projects/p/subscriptions/sub {"topic":"projects/p/topics/abc","labels":{"aa":"","ab":"","ac":"","ad":"","ae":"","af":"","ag":"","ah":"","ai":"","aj":"","ak":"","al":"","am":"","an":"","ao":"","ap":"","aq":"","ar":"","as":"","at":"","au":"","av":"","aw":"","ax":"","ay":"","az":"","ba":"","bb":"","bc":"","bd":"","be":"","bf":"","bg":"","bh":"","bi":"","bj":"","bk":"","bl":"","bm":"","bn":"","bo":"","bp":"","bq":"","br":"","bs":"","bt":"","bu":"","bv":"","bw":"","bx":"","by":"","bz":"","ca":"","cb":"","cc":"","cd":"","ce":"","cf":"","cg":"","ch":"","ci":"","cj":"","ck":"","cl":"","cm":""},"filter":"a"}
> CreateSubscription projects/p/subscriptions/sub {"topic":"projects/p/topics/abc","labels":{"kkkkkkkkkkkkkkkkkkkkkkkkkkkkkkkkkkkkkkkkkkkkkkkkkkkkkkkkkkkkkkkk":""}}
< 400 labels
"#;

#[test]
fn topics_are_read(rt: HostRuntime) -> Result<(), Fail> {
    expect_all(&rt, rt.alloc(), &[TOPICS, LABELS])
}

#[test]
fn subscriptions_are_read(rt: HostRuntime) -> Result<(), Fail> {
    expect_all(&rt, rt.alloc(), &[SUBSCRIPTIONS, MISSING, SHAPES])
}

#[test]
fn settings_are_checked(rt: HostRuntime) -> Result<(), Fail> {
    expect_all(&rt, rt.alloc(), &[DEADLINES, DURATIONS, FILTERS, ORDER])
}
