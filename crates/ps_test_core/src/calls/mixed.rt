// Many calls that follow a fixed recurrence.
use super::row;
use super::texts::call;
use ps_base::OutOfMemory;
use ps_book::Machine;
use ps_core::Core;
use std::alloc::Global;
use std::process::Abort;
use std::test::Fail;

/// The next number of a fixed recurrence.
fn following(number: u64) -> u64 {
    number
        .wrapping_mul(6_364_136_223_846_793_005)
        .wrapping_add(1_442_695_040_888_963_407)
}

/// The row that a number says.
fn chosen(number: u64) -> &'static str {
    match number % 16 {
        0 => "tick",
        1..=3 => "subscription",
        4 => "acknowledge",
        5 => "pull-none",
        6 | 7 => "pull-many",
        8 | 9 => "publish-two",
        10 => "update-topic",
        11 => "update-subscription",
        12 => "detach",
        13 => "delete-subscription",
        _ => "pull-ten",
    }
}

/// What is told of a call. What one core records is given to the other one.
fn reply(
    core: &mut Core,
    copy: &mut Core,
    alloc: Global,
    now: u64,
    row: &[u8],
) -> Result<Option<String>, OutOfMemory> {
    Ok(call(core, copy, alloc, now, row)?.map(|answer| answer.reply))
}

fn call_by_name(
    core: &mut Core,
    copy: &mut Core,
    alloc: Global,
    now: u64,
    name: &str,
) -> Result<(), Fail> {
    let row = row(alloc, name)?;
    reply(core, copy, alloc, now, row.as_slice())?.ok_or("no row")?;
    Ok(())
}

fn call_many(rt: &impl Abort, core: &mut Core, copy: &mut Core, alloc: Global) -> Result<(), Fail> {
    call_by_name(core, copy, alloc, 0, "topic")?;
    let mut number = 1;
    for _ in 0..10_000 {
        number = following(number);
        // The moments go forth and back, within 131 seconds.
        call_by_name(core, copy, alloc, number >> 47, chosen(number >> 33))?;
        assert_eq!(rt; copy.count(), core.count());
    }
    assert!(rt; core.count() > 1000);
    assert!(rt; copy.stat() == core.stat());
    Ok(())
}

fn is_same(told: Option<String>, again: Option<String>) -> bool {
    match (&told, &again) {
        (Some(told), Some(again)) => told.as_str() == again.as_str(),
        _ => false,
    }
}

/// Whether both cores tell the same of a call. What they record is given to a third one.
fn is_alike(
    core: &mut Core,
    copy: &mut Core,
    alloc: Global,
    row: &[u8],
) -> Result<bool, OutOfMemory> {
    let mut other = Core::new(alloc);
    let told = reply(core, &mut other, alloc, 200_000, row);
    let again = reply(copy, &mut other, alloc, 200_000, row);
    drop(other);
    Ok(is_same(told?, again?))
}

fn go_on_alike(
    rt: &impl Abort,
    core: &mut Core,
    copy: &mut Core,
    alloc: Global,
) -> Result<(), Fail> {
    for name in [
        "pull-ten",
        "publish-two",
        "pull-many",
        "acknowledge",
        "tick",
    ] {
        let row = row(alloc, name)?;
        assert!(rt; is_alike(core, copy, alloc, row.as_slice())?, "{name}");
    }
    Ok(())
}

fn call_and_go_on(
    rt: &impl Abort,
    core: &mut Core,
    copy: &mut Core,
    alloc: Global,
) -> Result<(), Fail> {
    call_many(rt, core, copy, alloc)?;
    go_on_alike(rt, core, copy, alloc)
}

#[test]
fn mixed_calls_are_replayed(rt: HostRuntime) -> Result<(), Fail> {
    let alloc = rt.alloc();
    let mut core = Core::new(alloc);
    let mut copy = Core::new(alloc);
    let result = call_and_go_on(&rt, &mut core, &mut copy, alloc);
    drop(core);
    drop(copy);
    result
}
