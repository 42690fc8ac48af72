// Lists.

use super::expect_all;
use std::test::Fail;

/// The size of a page is 0 by default and 1,000 at most, and any text is a token.
const LISTS: &str = r#"
> ListTopics projects/p {}
> ListTopics projects/p null
> ListTopics projects/p ?pageSize=0 {}
> ListTopics projects/p ?pageSize=-0 {"pageSize":7}
> ListTopics projects/p ?pageToken= {}
< ListTopics p 0 ""
> ListTopics projects/p ?pageSize=2&pageToken=projects/p/topics/bbb {}
< ListTopics p 2 "projects/p/topics/bbb"
> ListTopics projects/p ?pageSize=1000 {}
> ListTopics projects/p ?pageSize=1001 {}
> ListTopics projects/p ?pageSize=4294967296 {}
> ListTopics projects/p ?pageSize=9223372036854775807 {}
< ListTopics p 1000 ""
> ListSubscriptions projects/p ?pageSize=007&pageToken=x {}
< ListSubscriptions p 7 "x"
> ListTopicSubscriptions projects/p/topics/abc ?pageToken=x {}
< ListTopicSubscriptions projects/p/topics/abc 0 "x"
"#;

/// A size is a whole number that isn't negative. The name is looked at first.
const REFUSED_LISTS: &str = r#"
> ListTopics projects/p ?pageSize= {}
> ListTopics projects/p ?pageSize=-1 {}
> ListTopics projects/p ?pageSize=+1 {}
> ListTopics projects/p ?pageSize=1.0 {}
> ListTopics projects/p ?pageSize=x {}
> ListTopics projects/p ?pageSize=9223372036854775808 {}
> ListSubscriptions projects/p ?pageSize=-9223372036854775808 {}
> ListTopicSubscriptions projects/p/topics/abc ?pageSize=- {}
< 400 pageSize
> ListTopics projects/P ?pageSize=x {}
> ListTopics projects/ {}
> ListSubscriptions projects/1 ?pageSize=x {}
> ListTopicSubscriptions projects/p/topics/ab ?pageSize=x {}
< 400 name
"#;

#[test]
fn lists_are_read(rt: HostRuntime) -> Result<(), Fail> {
    expect_all(&rt, rt.alloc(), &[LISTS, REFUSED_LISTS])
}
