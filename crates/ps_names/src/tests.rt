use super::*;
use ps_base::Duplicate;
use std::alloc::Global;
use std::test::Fail;

/// A name whose project and id have so many letters.
fn name_of(alloc: Global, project: usize, id: usize) -> Result<String, Fail> {
    let mut name = String::from_str(alloc, "projects/")?;
    for _ in 0..project {
        name.push('p')?;
    }
    name.push_str("/topics/")?;
    for _ in 0..id {
        name.push('t')?;
    }
    Ok(name)
}

#[test]
fn topic_names_follow_the_grammar(rt: HostRuntime) -> Result<(), Fail> {
    let alloc = rt.alloc();
    let table = [
        ("projects/p/topics/abc", true),
        ("projects/p-1:x.y/topics/a-_.~+%9", true),
        ("projects/p/topics/google-x", false),
        ("projects/p/topics/goog", false),
        ("projects/p/topics/goo", true),
        ("projects/Pp/topics/abc", false),
        ("projects/pP/topics/abc", false),
        ("projects/1p/topics/abc", false),
        ("projects/p/topics/1bc", false),
        ("projects/p/topics/abc/", false),
        ("/projects/p/topics/abc", false),
        ("projects//topics/abc", false),
        ("projects/p/topics/", false),
        ("projects/p//abc", false),
        ("projects/p/subscriptions/abc", false),
        ("", false),
    ];
    for (text, is_name) in table {
        assert_eq!(rt; TopicName::read(alloc, text)?.is_some(), is_name, "{text}");
    }
    Ok(())
}

#[test]
fn topic_names_have_their_lengths(rt: HostRuntime) -> Result<(), Fail> {
    let alloc = rt.alloc();
    let table = [
        (1, 2, false),
        (1, 3, true),
        (1, 255, true),
        (1, 256, false),
        (63, 3, true),
        (64, 3, false),
    ];
    for (project, id, is_name) in table {
        let text = name_of(alloc, project, id)?;
        assert_eq!(rt;
            TopicName::read(alloc, text.as_str())?.is_some(),
            is_name,
            "{project} {id}"
        );
    }
    Ok(())
}

#[test]
fn names_of_subscriptions_and_snapshots_have_their_own_kind(rt: HostRuntime) -> Result<(), Fail> {
    let alloc = rt.alloc();
    let table = [
        ("projects/p/topics/abc", (false, false)),
        ("projects/p/subscriptions/abc", (true, false)),
        ("projects/p/subscriptions/ab", (false, false)),
        ("projects/p/subscriptions/goog", (false, false)),
        ("projects/p/snapshots/abc", (false, true)),
        ("projects/p/snapshots/1bc", (false, false)),
        ("projects/P/snapshots/abc", (false, false)),
        ("projects/p/snapshots/abc/x", (false, false)),
    ];
    for (text, (is_sub, is_snap)) in table {
        assert_eq!(rt; SubName::read(alloc, text)?.is_some(), is_sub, "{text}");
        assert_eq!(rt; SnapName::read(alloc, text)?.is_some(), is_snap, "{text}");
    }
    assert!(rt; ProjectName::read(alloc, "shop-prod")?.is_some());
    assert!(rt; ProjectName::read(alloc, "")?.is_none());
    assert!(rt; ProjectName::read(alloc, "9shop")?.is_none());
    Ok(())
}

#[test]
fn topics_tell_their_parts(rt: HostRuntime) -> Result<(), Fail> {
    let topic = topic(rt.alloc())?;
    assert_eq!(rt; topic.project(), "p");
    assert_eq!(rt; topic.id(), "abc");
    Ok(())
}

#[test]
fn subscriptions_tell_their_parts(rt: HostRuntime) -> Result<(), Fail> {
    let sub = sub(rt.alloc())?;
    assert_eq!(rt; sub.project(), "p");
    assert_eq!(rt; sub.id(), "sub");
    Ok(())
}

#[test]
fn snapshots_tell_their_parts(rt: HostRuntime) -> Result<(), Fail> {
    let snap = snap(rt.alloc())?;
    assert_eq!(rt; snap.project(), "p");
    assert_eq!(rt; snap.id(), "snap");
    Ok(())
}

fn topic(alloc: Global) -> Result<TopicName, Fail> {
    Ok(TopicName::read(alloc, "projects/p/topics/abc")?.ok_or("no topic")?)
}

fn sub(alloc: Global) -> Result<SubName, Fail> {
    Ok(SubName::read(alloc, "projects/p/subscriptions/sub")?.ok_or("no subscription")?)
}

fn snap(alloc: Global) -> Result<SnapName, Fail> {
    Ok(SnapName::read(alloc, "projects/p/snapshots/snap")?.ok_or("no snapshot")?)
}

fn project(alloc: Global) -> Result<ProjectName, Fail> {
    Ok(ProjectName::read(alloc, "p")?.ok_or("no project")?)
}

#[test]
fn names_are_copied(rt: HostRuntime) -> Result<(), Fail> {
    let alloc = rt.alloc();
    assert!(rt; topic(alloc)?.copy(alloc).is_ok());
    assert!(rt; sub(alloc)?.copy(alloc).is_ok());
    assert!(rt; snap(alloc)?.copy(alloc).is_ok());
    assert!(rt; project(alloc)?.copy(alloc).is_ok());
    Ok(())
}
