// Topics and snapshots, with the durations and the moments that they show.
use super::words::{number_or_none, text};
use super::{expect_each, line_of};
use ps_base::{Labels, Octets, OutOfMemory};
use ps_model::{Reply, SnapShown, TopicConfig, TopicShown};
use ps_transcript::number;
use std::alloc::Global;
use std::test::Fail;

/// A topic of this name and retention in milliseconds.
pub fn topic_shown(
    alloc: Global,
    name: &str,
    retention: Option<u64>,
) -> Result<TopicShown, OutOfMemory> {
    let mut config = TopicConfig::new(alloc);
    config.retention = retention;
    Ok(TopicShown {
        name: text(alloc, name)?,
        config,
    })
}

/// A name, and a retention in milliseconds or `-` for none.
pub fn topic(alloc: Global, words: &str) -> Result<Octets, Fail> {
    let (name, retention) = words.split_once(' ').ok_or("no retention")?;
    let retention = number_or_none(retention)?;
    let topic = topic_shown(alloc, name, retention)?;
    Ok(line_of(alloc, Reply::Topic(topic))?)
}

fn snapshot_shown(
    alloc: Global,
    name: &str,
    topic: &str,
    expiry: u64,
) -> Result<SnapShown, OutOfMemory> {
    let name = text(alloc, name)?;
    let topic = text(alloc, topic)?;
    Ok(SnapShown {
        name,
        topic: Some(topic),
        labels: Labels::new(alloc),
        expiry,
    })
}

/// A name, a topic, and the moment of its end.
pub fn snapshot(alloc: Global, words: &str) -> Result<Octets, Fail> {
    let (name, rest) = words.split_once(' ').ok_or("no topic")?;
    let (topic, expiry) = rest.split_once(' ').ok_or("no end")?;
    let expiry = number(expiry)?;
    let snapshot = snapshot_shown(alloc, name, topic, expiry)?;
    Ok(line_of(alloc, Reply::Snapshot(snapshot))?)
}

const DURATIONS: &str = r#"
> Topic projects/p/topics/abc 600000
< {"body":{"messageRetentionDuration":"600s","name":"projects/p/topics/abc"},"code":200}
> Topic projects/p/topics/abc 1500
< {"body":{"messageRetentionDuration":"1.500s","name":"projects/p/topics/abc"},"code":200}
> Topic projects/p/topics/abc 1007
< {"body":{"messageRetentionDuration":"1.007s","name":"projects/p/topics/abc"},"code":200}
> Topic projects/p/topics/abc 0
< {"body":{"messageRetentionDuration":"0s","name":"projects/p/topics/abc"},"code":200}
"#;

const MOMENTS: &str = r#"
> Snapshot projects/p/snapshots/snap projects/p/topics/abc 604801000
< {"body":{"expireTime":"1970-01-08T00:00:01.000Z","name":"projects/p/snapshots/snap","topic":"projects/p/topics/abc"},"code":200}
> Snapshot projects/p/snapshots/snap projects/p/topics/abc 951782400000
< {"body":{"expireTime":"2000-02-29T00:00:00.000Z","name":"projects/p/snapshots/snap","topic":"projects/p/topics/abc"},"code":200}
> Snapshot projects/p/snapshots/snap projects/p/topics/abc 1700000001234
< {"body":{"expireTime":"2023-11-14T22:13:21.234Z","name":"projects/p/snapshots/snap","topic":"projects/p/topics/abc"},"code":200}
# No moment behind the last one of the year 9999 is shown.
> Snapshot projects/p/snapshots/snap projects/p/topics/abc 253402300799999
> Snapshot projects/p/snapshots/snap projects/p/topics/abc 253402905599999
< {"body":{"expireTime":"9999-12-31T23:59:59.999Z","name":"projects/p/snapshots/snap","topic":"projects/p/topics/abc"},"code":200}
"#;

#[test]
fn durations_and_moments_are_told(rt: HostRuntime) -> Result<(), Fail> {
    let alloc = rt.alloc();
    expect_each(&rt, alloc, DURATIONS)?;
    expect_each(&rt, alloc, MOMENTS)
}
