// Calls that ask no more than a name, and calls that aren't built.

use super::expect_all;
use std::test::Fail;

/// A body counts if the call is a POST, and it has no field then.
const NAMES: &str = r#"
> GetTopic projects/p/topics/abc {}
> GetTopic projects/p/topics/abc null
> GetTopic projects/p/topics/abc {"x":1}
> GetTopic projects/p/topics/abc ?pageSize=x [7]
< GetTopic projects/p/topics/abc
> DeleteTopic projects/p/topics/a%zz {}
< DeleteTopic projects/p/topics/a%zz
> DeleteTopic projects/p/topics/abc []
< DeleteTopic projects/p/topics/abc
> GetSubscription projects/p/subscriptions/sub 7
< GetSubscription projects/p/subscriptions/sub
> DeleteSubscription projects/p/subscriptions/sub "x"
< DeleteSubscription projects/p/subscriptions/sub
> Detach projects/p/subscriptions/sub {}
> Detach projects/p/subscriptions/sub {"x":null}
< Detach projects/p/subscriptions/sub
> Detach projects/p/subscriptions/sub {"x":0,"b":"","a":null}
< 400 unknown field: b
> Detach projects/p/subscriptions/ab {"x":0}
> GetTopic projects/p/topics/ab {}
> GetTopic projects/p/topics/a/bc {}
> GetTopic projects/p/topics/ {}
> GetTopic projects/p/topics/googabc {}
> GetTopic projects/1/topics/abc {}
> DeleteTopic projects//topics/abc {}
> GetSubscription projects/p/subscriptions/x []
> DeleteSubscription projects/P/subscriptions/sub {}
< 400 name
"#;

/// A call that isn't built is refused by its name, before its name and its body are looked at.
const UNBUILT: &str = r#"
> Seek projects/p/subscriptions/sub 7
< 501 Seek
> ListTopicSnapshots projects/p/topics/abc ?pageSize=x {}
< 501 ListTopicSnapshots
> CreateSnapshot projects/p/snapshots/abc {}
< 501 CreateSnapshot
> UpdateSnapshot projects/p/snapshots/abc {}
< 501 UpdateSnapshot
> GetSnapshot projects/p/snapshots/abc {}
< 501 GetSnapshot
> DeleteSnapshot projects/p/snapshots/abc {}
< 501 DeleteSnapshot
> ListSnapshots projects/P {}
< 501 ListSnapshots
"#;

#[test]
fn names_are_read(rt: HostRuntime) -> Result<(), Fail> {
    expect_all(&rt, rt.alloc(), &[NAMES, UNBUILT])
}
