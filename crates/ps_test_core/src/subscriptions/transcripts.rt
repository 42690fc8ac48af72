// Transcripts of what is done with a subscription.
ghost use Rattle.std.specs.Prelude.{◌≡◌, ◌≤◌, None, length};
ghost use Rattle.ps_model.specs.Checks.{new_sub_fault};

use super::begun::{filled, settings};
use super::playing::{play, play_alone, pulled};
use ps_base::OutOfMemory;
use ps_model::SubConfig;
use ps_sub::Sub;
use std::alloc::Global;
use std::test::Fail;

/// A lease lives for 10 seconds to the millisecond, and a late acknowledgement counts for the last one alone.
const LEASES: &str = r#"
> 2000 pull 1
< given 1.1.0
> 11999 pull 1
< given
> 12000 pull 1
< given 1.2.1
> 12000 acknowledge 1.1
> 22000 acknowledge 1.1
< same
> 22000 acknowledge 1.2
< changed
> 22000 acknowledge 1.2
< same
> 22000 pull 1
< given
"#;

/// In exactly-once mode a living lease alone acknowledges, and a ticket that is given twice counts once.
const EXACTLY_ONCE: &str = r#"
> 2000 pull 1
< given 1.1.0
> 12000 acknowledge 1.1
< same, invalid 1.1
> 12000 pull 1
< given 1.2.1
> 21999 acknowledge 9.2 1.2 9.2 1.2
< changed, invalid 9.2
> 21999 acknowledge 1.2 1.2
< same, invalid 1.2
> 32000 pull 1
< given
"#;

/// A message rests for 10 seconds after its first failure and 20 after the second, from when they are met.
const DELAYS: &str = r#"
> 2000 pull 1
< given 1.1.0
> 12000 pull 1
> 21999 pull 1
< given
> 22000 pull 1
< given 1.2.1
> 32000 pull 1
> 51999 pull 1
< given
> 52000 pull 1
< given 1.3.2
"#;

/// A lease that is given up fails at once, and the rest counts from there.
const GIVEN_UP: &str = r#"
> 2000 pull 1
< given 1.1.0
> 3000 modify 1.1=0
< changed
> 12999 pull 1
< given
> 13000 pull 1
< given 1.2.1
> 23000 pull 1
> 42999 pull 1
< given
> 43000 pull 1
< given 1.3.2
"#;

/// The most is the rest, even if the least is above it.
const BACKWARDS: &str = r#"
> 2000 pull 1
< given 1.1.0
> 12000 pull 1
> 21999 pull 1
< given
> 22000 pull 1
< given 1.2.1
> 22000 modify 1.2=0
< changed
> 31999 pull 1
< given
> 32000 pull 1
< given 1.3.2
"#;

/// Failures are counted up to the greatest number, and the rest is the most then.
const WORN: &str = r#"
> 2000 pull 1
< given 1.1.4294967295
> 3000 modify 1.1=0
< changed
> 62999 pull 1
< given
> 63000 pull 1
< given 1.2.4294967295
> 73000 pull 1
> 132999 pull 1
< given
> 133000 pull 1
< given 1.3.4294967295
"#;

/// Of several items for one lease the last counts. A deadline is put off or brought forward, and one that was the same before
/// changes nothing.
const MODIFIED: &str = r#"
> 2000 pull 2
< given 1.1.0 2.2.0
> 3000 modify 1.1=0 2.2=60 1.1=60 2.2=0
< changed
> 3000 pull 10
< given 2.3.1
> 3000 modify 2.2=0 9.9=0
< same
> 3000 acknowledge 2.3
< changed
> 3000 modify 2.3=0
< same
> 62999 pull 10
< given
> 63000 pull 10
< given 1.4.1
> 63000 modify 1.4=10
< same
> 63000 modify 1.4=1
< changed
> 63999 pull 10
< given
> 64000 pull 10
< given 1.5.2
"#;

/// In exactly-once mode the tickets without a living lease are told, each once, whatever their seconds.
const MODIFIED_ONCE: &str = r#"
> 2000 pull 2
< given 1.1.0 2.2.0
> 3000 modify 1.1=60 9.9=60 1.9=0 9.9=0
< changed, invalid 9.9 1.9
> 12000 modify 2.2=60 1.1=60
< changed, invalid 2.2
> 12000 acknowledge 2.2
< same, invalid 2.2
"#;

/// The fifth failure makes a dead letter when the lease is given up, too.
const GIVEN_UP_DEAD: &str = r#"
> 2000 pull 1
< given 1.1.0
> 2000 modify 1.1=0
< changed
> 2000 pull 1
< given 1.2.1
> 2000 modify 1.2=0
< changed
> 2000 pull 1
< given 1.3.2
> 2000 modify 1.3=0
< changed
> 2000 pull 1
< given 1.4.3
> 2000 modify 1.4=0
< changed
> 2000 pull 1
< given 1.5.4
> 2000 modify 1.5=0
< dead 1.5, changed
> 2000 pull 1
< given
"#;

/// Of three messages of one key the second is given up: the third, which was acknowledged ahead of it, comes again too. The
/// first stays out.
const IN_THE_MIDDLE: &str = r#"
> 2000 pull 3
< given 1.1.0 2.2.0 3.3.0
> 2500 acknowledge 3.3
< changed
> 3000 modify 2.2=0
< changed
> 3000 pull 10
< given 2.4.1 3.5.0
> 3000 counts
< 0 in the backlog, 3 leased, 0 acknowledged, 0 dead
"#;

/// The first is given up, so the others lose their leases without a failure. An old ticket is the last one of its message and
/// acknowledges it ahead of the first.
const LOST: &str = r#"
> 2000 pull 3
< given 1.1.0 2.2.0 3.3.0
> 3000 modify 1.1=0
< changed
> 3000 counts
< 3 in the backlog, 0 leased, 0 acknowledged, 0 dead
> 3000 modify 2.2=60
< same
> 3000 acknowledge 2.2
< changed
> 3000 pull 10
< given 1.4.1 3.5.0
> 3000 acknowledge 3.3
< same
"#;

/// In exactly-once mode the old tickets are good for nothing.
const LOST_ONCE: &str = r#"
> 2000 pull 3
< given 1.1.0 2.2.0 3.3.0
> 3000 modify 1.1=0
< changed
> 3000 acknowledge 2.2 3.3
< same, invalid 2.2 3.3
> 3000 modify 2.2=60
< same, invalid 2.2
> 3000 pull 10
< given 1.4.1 2.5.0 3.6.0
"#;

/// Of three messages of one key the last is acknowledged first, and falls back as the others fail.
const FALLING_BACK: &str = r#"
> 2000 pull 3
< given 1.1.0 2.2.0 3.3.0
> 2500 acknowledge 3.3
< changed
> 2500 acknowledge 3.3
< same
> 11999 pull 10
< given
> 12000 pull 10
< given 1.4.1 2.5.1 3.6.0
> 12000 acknowledge 1.4 2.5 3.6
< changed
"#;

/// The same in exactly-once mode, where it changes nothing before its turn.
const UNORDERED: &str = r#"
> 2000 pull 3
< given 1.1.0 2.2.0 3.3.0
> 2500 acknowledge 3.3 1.9
< same, invalid 1.9, unordered 3.3
> 2500 acknowledge 3.3 1.1 2.2
< changed
"#;

/// The fifth end of a lease makes a dead letter, where the policy's topic exists.
const DEAD: &str = r#"
> 2000 pull 1
< given 1.1.0
> 12000 pull 1
< given 1.2.1
> 22000 pull 1
< given 1.3.2
> 32000 pull 1
< given 1.4.3
> 42000 pull 1
< given 1.5.4
> 51999 pull 1
< given
> 52000 pull 1
< dead 1.5, given
"#;

/// Where it doesn't, the message goes out again.
const RETURNED: &str = r#"
> 2000 pull 1
< given 1.1.0
> 12000 pull 1
< given 1.2.1
> 22000 pull 1
< given 1.3.2
> 32000 pull 1
< given 1.4.3
> 42000 pull 1
< given 1.5.4
> 52000 pull 1
< given 1.6.5
"#;

/// Pulls from messages of 3, 4, the most, 0 and 5 bytes.
const BUDGETS: &str = r#"
> 2000 pull 10 within 0
< given
> 2000 pull 10 within 1
> 2000 pull 10 within 3
< given 1.1.0
> 2000 pull 10 within 4
> 2000 pull 10 within 7
< given 1.1.0 2.2.0
> 2000 pull 10 within 8
> 2000 pull 10 within 1099511627783
< given 1.1.0 2.2.0 3.3.0
> 2000 pull 10 within 1099511627784
< given 1.1.0 2.2.0 3.3.0 4.4.0 5.5.0
> 2000 pull 4 within 1099511627784
< given 1.1.0 2.2.0 3.3.0 4.4.0
> 2000 pull 1 within 18446744073709551615
< given 1.1.0
> 2000 pull 0 within 18446744073709551615
< given
"#;

/// Two messages of one key are out, and the second is acknowledged before the first. The subscription is due at the
/// very end of a lease, and if the message that is ahead has caught up.
const DUE: &str = r#"
> 2000 pull 2
< given 1.1.0 2.2.0
> 3000 acknowledge 2.2
< changed
> 11999 due
< no
> 12000 due
< yes
> 3000 acknowledge 1.1
< changed
> 3000 due
< yes
> 253402300799999 expunge
< expunged
> 253402300799999 due
< no
"#;

/// One message is out, and one ahead.
const SHOWN: &str = r#"
> 2000 pull 2
< given 1.1.0 2.2.0
> 3000 acknowledge 2.2
< changed
> 3000 next-lease
< 3
> 3000 has 2
< yes
> 3000 counts
< 0 in the backlog, 1 leased, 1 acknowledged, 0 dead
> 3000 unacknowledged
< 1
> 3000 marks
< 1 leased until 12000, 2 ahead after 0 failures
"#;

/// A subscription can be emptied.
const DROPPED: &str = r#"
> 2000 pull 2
< given 1.1.0 2.2.0
> 3000 acknowledge 2.2
< changed
> 3000 drop-all
< yes
> 3000 has 1
< no
> 3000 drop-all
< no
"#;

#[test]
fn leases_end_and_are_acknowledged(rt: HostRuntime) -> Result<(), Fail> {
    let alloc = rt.alloc();
    play(&rt, alloc, "plain", "1", LEASES)?;
    play(&rt, alloc, "exactly once", "1", EXACTLY_ONCE)?;
    play(&rt, alloc, "resting", "1", DELAYS)
}

#[test]
fn deadlines_are_changed(rt: HostRuntime) -> Result<(), Fail> {
    let alloc = rt.alloc();
    play(&rt, alloc, "plain", "1 1", MODIFIED)?;
    play(&rt, alloc, "exactly once", "1 1", MODIFIED_ONCE)?;
    play(&rt, alloc, "forwarding", "1", GIVEN_UP_DEAD)
}

#[test]
fn messages_rest_after_failures(rt: HostRuntime) -> Result<(), Fail> {
    let alloc = rt.alloc();
    play(&rt, alloc, "resting", "1", GIVEN_UP)?;
    play(&rt, alloc, "resting backwards", "1", BACKWARDS)?;
    play(&rt, alloc, "worn", "1", WORN)
}

#[test]
fn later_messages_of_a_key_fall_back(rt: HostRuntime) -> Result<(), Fail> {
    let alloc = rt.alloc();
    play(&rt, alloc, "ordered", "1 1 1", IN_THE_MIDDLE)?;
    play(&rt, alloc, "ordered", "1 1 1", LOST)?;
    play(&rt, alloc, "ordered exactly once", "1 1 1", LOST_ONCE)
}

#[test]
fn messages_of_a_key_stay_in_order(rt: HostRuntime) -> Result<(), Fail> {
    let alloc = rt.alloc();
    play(&rt, alloc, "ordered", "1 1 1", FALLING_BACK)?;
    play(&rt, alloc, "ordered exactly once", "1 1 1", UNORDERED)
}

#[test]
fn dead_letters_are_made(rt: HostRuntime) -> Result<(), Fail> {
    let alloc = rt.alloc();
    play(&rt, alloc, "forwarding", "1", DEAD)?;
    play(&rt, alloc, "lettering", "1", RETURNED)
}

#[test]
fn budgets_are_reached_exactly(rt: HostRuntime) -> Result<(), Fail> {
    play_alone(&rt, rt.alloc(), "plain", "3 4 1099511627776 0 5", BUDGETS)
}

/// How many a pull of 1,000 hands out of so many messages.
fn most_given(alloc: Global, sizes: &[u64]) -> Result<usize, Fail>
    requires { length sizes.now ≤ 10000 }
{
    let config = settings(alloc, false, false);
    let mut sub = filled(alloc, &config, 0, sizes)?;
    Ok(pulled(alloc, &mut sub, 2000, 1000, 10000000)?.len())
}

#[test]
fn at_most_a_thousand_are_handed_out(rt: HostRuntime) -> Result<(), Fail> {
    let alloc = rt.alloc();
    assert_eq!(rt; most_given(alloc, &[1; 999])?, 999);
    assert_eq!(rt; most_given(alloc, &[1; 1001])?, 1000);
    Ok(())
}

#[test]
fn what_is_due_is_settled(rt: HostRuntime) -> Result<(), Fail> {
    play(&rt, rt.alloc(), "ordered", "1 1", DUE)
}

#[test]
fn a_subscription_is_shown(rt: HostRuntime) -> Result<(), Fail> {
    play(&rt, rt.alloc(), "ordered", "1 1", SHOWN)
}

/// Gives a subscription without messages its settings once more.
fn is_configured(alloc: Global, config: &SubConfig) -> Result<bool, OutOfMemory>
    requires { new_sub_fault config.now ≡ None }
{
    let mut sub = Sub::new(alloc, config, 1)?;
    sub.configure(alloc, config)?;
    Ok(!sub.drop_all())
}

#[test]
fn a_subscription_is_changed(rt: HostRuntime) -> Result<(), Fail> {
    let alloc = rt.alloc();
    assert!(rt; is_configured(alloc, &settings(alloc, false, false))?);
    play(&rt, alloc, "ordered", "1 1", DROPPED)
}
