// Transcripts of calls.
use super::play;
use std::test::Fail;

/// A topic, its subscription, a message and a lease of it.
const LEASED: &str = r#"
> 1000 topic
< 200, recorded at 1000, 1 in all
> 1000 subscription
< 200, recorded at 1000, 2 in all
> 1000 publish-one
< 200, 1 published from 1, recorded at 1000, 3 in all
> 2000 pull-one
< 200, 1 received up to lease 1, recorded at 2000, 4 in all
"#;

/// A message is out again at its deadline, not a millisecond before.
const OUT_AGAIN: &str = r#"
> 11999 pull-one
< 200, nothing received, not recorded, 4 in all
> 12000 pull-one
< 200, 1 received up to lease 2, recorded at 12000, 5 in all
"#;

/// Its last lease acknowledges it when it is over, too.
const ACKNOWLEDGED_LATE: &str = r#"
> 12000 acknowledge
< 200, recorded at 12000, 5 in all
> 12000 pull-one
< 200, nothing received, not recorded, 5 in all
"#;

/// A second acknowledgement does nothing.
const ACKNOWLEDGED_TWICE: &str = r#"
> 3000 acknowledge
< 200, recorded at 3000, 5 in all
> 3000 acknowledge
< 200, not recorded, 5 in all
"#;

/// A message has a payload or an attribute.
const MESSAGES: &str = r#"
> 3000 publish-nothing
< 400, not recorded, 4 in all
> 3000 publish-attribute
< 200, 1 published from 2, recorded at 3000, 5 in all
"#;

/// At most 1,000 messages are published at once.
const WIDE: &str = r#"
> 2000 publish 1001
< 400, not recorded, 4 in all
> 2000 publish 1000
< 200, 1000 published from 2, recorded at 2000, 5 in all
"#;

/// Each kind of call, refused and not.
const SESSION: &str = r#"
# An argument that is refused goes before a subscription that isn't there.
> 1000 pull-none
< 400, not recorded, 0 in all
> 1000 subscription
< 404, not recorded, 0 in all
> 1000 retained-topic
< 501, not recorded, 0 in all
> 1000 topic
< 200, recorded at 1000, 1 in all
> 1000 topic
< 409, not recorded, 1 in all
> 1000 subscription
< 200, recorded at 1000, 2 in all
> 1000 subscription
< 409, not recorded, 2 in all
> 2000 publish-two
< 200, 2 published from 1, recorded at 2000, 3 in all
> 3000 pull-ten
< 200, 2 received up to lease 2, recorded at 3000, 4 in all
> 3000 pull-ten
< 200, nothing received, not recorded, 4 in all
> 4000 acknowledge
< 200, recorded at 4000, 5 in all
> 4000 acknowledge
< 200, not recorded, 5 in all
> 12999 pull-ten
< 200, nothing received, not recorded, 5 in all
> 13000 pull-ten
< 200, 1 received up to lease 3, recorded at 13000, 6 in all
> 22999 tick
< 200, not recorded, 6 in all
> 23000 tick
< 200, recorded at 23000, 7 in all
> 23000 pull-none
< 400, not recorded, 7 in all
> 23000 acknowledge-none
< 400, not recorded, 7 in all
# The moment never goes back. The lease ends at 33000, and that is recorded of a refused call, too.
> 500 pull-many
< 200, 1 received up to lease 4, recorded at 23000, 8 in all
> 32999 pull-none
< 400, not recorded, 8 in all
> 33000 pull-none
< 400, recorded at 33000, 9 in all
> 33000 pull-ten
< 200, 1 received up to lease 5, recorded at 33000, 10 in all
> 43000 retained-topic
< 501, recorded at 43000, 11 in all
"#;

/// Each call that changes a topic or a subscription, refused and not.
const RESOURCES: &str = r#"
> 1000 update-topic
> 1000 delete-topic
> 1000 update-subscription
> 1000 delete-subscription
> 1000 detach
< 404, not recorded, 0 in all
> 1000 topic
< 200, recorded at 1000, 1 in all
> 1000 update-topic
< 200, recorded at 1000, 2 in all
> 1000 update-topic
< 200, not recorded, 2 in all
> 1000 subscription
< 200, recorded at 1000, 3 in all
> 1000 update-subscription
< 200, recorded at 1000, 4 in all
> 1000 update-subscription
< 200, not recorded, 4 in all
> 1000 publish-two
< 200, 2 published from 1, recorded at 1000, 5 in all
# A lease lasts 20 seconds now.
> 2000 pull-one
< 200, 1 received up to lease 1, recorded at 2000, 6 in all
> 21999 tick
< 200, not recorded, 6 in all
> 22000 pull-one
< 200, 1 received up to lease 2, recorded at 22000, 7 in all
> 22000 detach
< 200, recorded at 22000, 8 in all
> 22000 detach
< 200, not recorded, 8 in all
> 22000 pull-ten
< 400, not recorded, 8 in all
> 22000 acknowledge
< 200, not recorded, 8 in all
> due 18446744073709551615
< no
> 22000 publish-one
< 200, 1 published from 3, recorded at 22000, 9 in all
> stat
< entries 9, now 22000, topics 1, subscriptions 1, snapshots 0, messages 0, backlog 0, leased 0, acknowledged 0, dead lettered 0
> 22000 delete-subscription
< 200, recorded at 22000, 10 in all
> 22000 delete-subscription
> 22000 update-subscription
> 22000 detach
< 404, not recorded, 10 in all
# The leases of a new subscription begin at 1.
> 22000 subscription
< 200, recorded at 22000, 11 in all
> 22000 publish-one
< 200, 1 published from 4, recorded at 22000, 12 in all
> 23000 pull-ten
< 200, 1 received up to lease 1, recorded at 23000, 13 in all
> 23000 delete-topic
< 200, recorded at 23000, 14 in all
> 23000 delete-topic
> 23000 publish-one
< 404, not recorded, 14 in all
> 23000 topic
< 200, recorded at 23000, 15 in all
> 23000 publish-two
< 200, 2 published from 5, recorded at 23000, 16 in all
> stat
< entries 16, now 23000, topics 1, subscriptions 1, snapshots 0, messages 1, backlog 0, leased 1, acknowledged 0, dead lettered 0
> due 32999
< no
> due 33000
< yes
> 33000 delete-subscription
< 200, recorded at 33000, 17 in all
> stat
< entries 17, now 33000, topics 1, subscriptions 0, snapshots 0, messages 0, backlog 0, leased 0, acknowledged 0, dead lettered 0
"#;

/// A topic is created with labels, and an update to the same ones changes nothing.
const LABELLED: &str = r#"
> 1000 labelled-topic
< 200, recorded at 1000, 1 in all
> 1000 update-topic
< 200, not recorded, 1 in all
> 1000 topic
< 409, not recorded, 1 in all
"#;

/// Only messages that meet the filter enter.
const FILTERED: &str = r#"
> 1000 mixed-subscription
< 400, not recorded, 0 in all
> 1000 topic
< 200, recorded at 1000, 1 in all
> 1000 filtered-subscription
< 200, recorded at 1000, 2 in all
> 1000 publish-two
< 200, 2 published from 1, recorded at 1000, 3 in all
> 2000 pull-ten
< 200, nothing received, not recorded, 3 in all
> 2000 publish-attribute
< 200, 1 published from 3, recorded at 2000, 4 in all
> 2000 pull-ten
< 200, 1 received up to lease 1, recorded at 2000, 5 in all
> stat
< entries 5, now 2000, topics 1, subscriptions 1, snapshots 0, messages 1, backlog 0, leased 1, acknowledged 0, dead lettered 0
"#;

/// An entry is taken if it changes something, is in the form in which it is recorded, and isn't before the last one.
const REPLAYED: &str = r#"
> replay update-topic
> replay delete-topic
> replay update-subscription
> replay delete-subscription
> replay detach
< refused
> 1000 topic
< 200, recorded at 1000, 1 in all
> 1500 subscription
< 200, recorded at 1500, 2 in all
> replay topic
> replay subscription
> replay update-topic-unmasked
> replay update-topic-no-mask
> replay update-topic-wide-mask
> replay update-subscription-unmasked
> replay update-subscription-filter
< refused
> replay update-topic
< recorded at 2000
> replay update-topic
< refused
> replay update-subscription
< recorded at 2000
> replay update-subscription
< refused
> replay detach
< recorded at 2000
> replay detach
< refused
> replay delete-subscription
< recorded at 2000
> replay delete-subscription
> replay detach
> replay update-subscription
< refused
> replay delete-topic
< recorded at 2000
> replay delete-topic
> replay update-topic
< refused
"#;

/// The same entries, after a later one.
const LATE: &str = r#"
> 1000 topic
< 200, recorded at 1000, 1 in all
> 2001 subscription
< 200, recorded at 2001, 2 in all
> replay update-topic
> replay update-subscription
> replay detach
> replay delete-subscription
> replay delete-topic
< refused
"#;

/// No log begins with a Tick.
const FIRST_TICK: &str = r#"
> replay tick-at-1000
< refused
"#;

/// Nothing is due of a core before its first entry.
const NOT_DUE: &str = r#"
> due 18446744073709551615
< no
"#;

/// A lease is due at its deadline.
const DUE: &str = r#"
> due 0
> due 11999
< no
> due 12000
> due 18446744073709551615
< yes
> 12000 tick
< 200, recorded at 12000, 5 in all
> due 12000
> due 18446744073709551615
< no
# The moment never goes back, so the lease ends at 22000.
> 3000 pull-one
< 200, 1 received up to lease 2, recorded at 12000, 6 in all
> due 3000
> due 13000
> due 21999
< no
> due 22000
< yes
"#;

/// A message is counted by its mark.
const COUNTED: &str = r#"
> stat
< entries 0, now 0, topics 0, subscriptions 0, snapshots 0, messages 0, backlog 0, leased 0, acknowledged 0, dead lettered 0
> 1000 topic
< 200, recorded at 1000, 1 in all
> 1000 subscription
< 200, recorded at 1000, 2 in all
> 1000 publish-one
< 200, 1 published from 1, recorded at 1000, 3 in all
> stat
< entries 3, now 1000, topics 1, subscriptions 1, snapshots 0, messages 1, backlog 1, leased 0, acknowledged 0, dead lettered 0
> 2000 pull-one
< 200, 1 received up to lease 1, recorded at 2000, 4 in all
> stat
< entries 4, now 2000, topics 1, subscriptions 1, snapshots 0, messages 1, backlog 0, leased 1, acknowledged 0, dead lettered 0
> 3000 acknowledge
< 200, recorded at 3000, 5 in all
> stat
< entries 5, now 3000, topics 1, subscriptions 1, snapshots 0, messages 1, backlog 0, leased 0, acknowledged 1, dead lettered 0
"#;

/// Messages that nothing wants aren't counted.
const UNWANTED: &str = r#"
> 1000 topic
< 200, recorded at 1000, 1 in all
> 1000 publish-two
< 200, 2 published from 1, recorded at 1000, 2 in all
> stat
< entries 2, now 1000, topics 1, subscriptions 0, snapshots 0, messages 0, backlog 0, leased 0, acknowledged 0, dead lettered 0
"#;

#[test]
fn leases_end_and_are_acknowledged(rt: HostRuntime) -> Result<(), Fail> {
    let alloc = rt.alloc();
    play(&rt, alloc, (LEASED, OUT_AGAIN))?;
    play(&rt, alloc, (LEASED, ACKNOWLEDGED_LATE))?;
    play(&rt, alloc, (LEASED, ACKNOWLEDGED_TWICE))
}

#[test]
fn messages_are_published(rt: HostRuntime) -> Result<(), Fail> {
    let alloc = rt.alloc();
    play(&rt, alloc, (LEASED, MESSAGES))?;
    play(&rt, alloc, (LEASED, WIDE))
}

#[test]
fn a_session_is_answered_and_replayed(rt: HostRuntime) -> Result<(), Fail> {
    play(&rt, rt.alloc(), (SESSION, ""))
}

#[test]
fn topics_and_subscriptions_change(rt: HostRuntime) -> Result<(), Fail> {
    let alloc = rt.alloc();
    play(&rt, alloc, (RESOURCES, ""))?;
    play(&rt, alloc, (LABELLED, ""))?;
    play(&rt, alloc, (FILTERED, ""))
}

#[test]
fn entries_that_change_nothing_are_refused(rt: HostRuntime) -> Result<(), Fail> {
    let alloc = rt.alloc();
    play(&rt, alloc, (REPLAYED, ""))?;
    play(&rt, alloc, (LATE, ""))
}

#[test]
fn no_log_begins_with_a_tick(rt: HostRuntime) -> Result<(), Fail> {
    play(&rt, rt.alloc(), (FIRST_TICK, ""))
}

#[test]
fn a_lease_is_due_at_its_deadline(rt: HostRuntime) -> Result<(), Fail> {
    let alloc = rt.alloc();
    play(&rt, alloc, (NOT_DUE, ""))?;
    play(&rt, alloc, (LEASED, DUE))
}

#[test]
fn messages_are_counted_by_their_marks(rt: HostRuntime) -> Result<(), Fail> {
    let alloc = rt.alloc();
    play(&rt, alloc, (COUNTED, ""))?;
    play(&rt, alloc, (UNWANTED, ""))
}
