ghost use Rattle.std.specs.Prelude.{◌≡◌, ◌+◌, ◌-◌, ◌*◌, ◌^◌, ◌≤◌, min, map, true, false, IfOk, if◌then◌else◌};
ghost use Rattle.std.specs.List.{list_any};
ghost use Rattle.ps_base.specs.Moments.{last_moment};
ghost use Rattle.ps_config.specs.Limits.{has_bad_delays};
ghost use Rattle.ps_model.specs.Failing.{one_more, retry_at, is_dead, failed, fallen, mark_after_failing, dead_letter, dead_letters, is_due};
ghost use Rattle.ps_sub.specs.Steady.{HasShortDelays, IsAscending};

use crate::keys::KeysSoFar;
use crate::standing::is_due;
use ps_base::OutOfMemory;
use ps_model::{DeadLetter, DeadLetterPolicy, DoneCause, Mark, RetryPolicy, Slot, SubConfig};
use std::alloc::Global;

/// Whether a lease is over.
pub fn any_due(now: u64, slots: &[Slot]) -> bool
    ensures { result ≡ list_any (is_due now) slots.now }
{
    slots.iter().any(|slot| is_due(now, slot))
}

fn one_more(failures: u32) -> u32
    ensures { result ≡ one_more failures }
{
    failures.saturating_add(1)
}

/// The delay after so many failures, in milliseconds. It doubles with each failure after the first, from the least up
/// to the greatest.
fn delay(retry: RetryPolicy, failures: u32) -> u64
    requires least { retry.least ≤ 600000 }
    requires most { retry.most ≤ 600000 }
    ensures value { result ≡ min retry.most (retry.least * 2 ^ (failures - 1)) }
    ensures short { result ≤ 600000 }
{
    let doublings = failures.saturating_sub(1);
    if retry.least == 0 {
        0
    } else if doublings >= 20 {
        retry.most
    } else {
        retry.most.min(retry.least << doublings)
    }
}

fn retry_at(retry: Option<RetryPolicy>, now: u64, failures: u32) -> u64
    requires delays { has_bad_delays retry ≡ false }
    requires moment { now ≤ last_moment }
    ensures { result ≡ retry_at retry now failures }
{
    match retry {
        None => 0,
        Some(policy) => now + delay(policy, failures),
    }
}

fn is_dead(policy: &Option<DeadLetterPolicy>, forward: bool, failures: u32) -> bool
    ensures { result ≡ is_dead policy.now forward failures }
{
    match policy {
        None => false,
        Some(policy) => forward && policy.attempts <= failures,
    }
}

fn failed(now: u64, forward: bool, config: &SubConfig, mark: Mark) -> Mark
    requires delays { HasShortDelays config.now }
    requires moment { now ≤ last_moment }
    ensures { result ≡ failed now forward config.now mark }
{
    match mark {
        Mark::Leased {
            failures,
            lease,
            ..
        } => {
            let failures = one_more(failures);
            if is_dead(&config.dead_letter, forward, failures) {
                Mark::Done {
                    cause: DoneCause::Dead,
                }
            } else {
                Mark::Backlog {
                    failures,
                    until: retry_at(config.retry, now, failures),
                    last: Some(lease),
                }
            }
        }
        other => other,
    }
}

fn fallen(mark: Mark) -> Mark
    ensures { result ≡ fallen mark }
{
    match mark {
        Mark::Leased {
            failures,
            lease,
            ..
        } => Mark::Backlog {
            failures,
            until: 0,
            last: Some(lease),
        },
        Mark::Ahead { failures } => Mark::Backlog {
            failures,
            until: 0,
            last: None,
        },
        other => other,
    }
}

/// The mark after its message failed, or an earlier one of its key.
pub fn mark_after(
    now: u64,
    forward: bool,
    config: &SubConfig,
    fails: bool,
    behind: bool,
    mark: Mark,
) -> Mark
    requires delays { HasShortDelays config.now }
    requires moment { now ≤ last_moment }
    ensures { result ≡ (if fails then failed now forward config.now mark else (if behind then fallen mark else mark)) }
{
    if fails {
        failed(now, forward, config, mark)
    } else if behind {
        fallen(mark)
    } else {
        mark
    }
}

/// The marks after the leases that are over have failed together, found on one walk.
pub fn marks_after(
    alloc: Global,
    now: u64,
    forward: bool,
    config: &SubConfig,
    slots: &[Slot],
) -> Result<Vec<Mark>, OutOfMemory>
    requires ascending { IsAscending slots.now }
    requires delays { HasShortDelays config.now }
    requires moment { now ≤ last_moment }
    ensures { IfOk result (λ marks. marks.items ≡ map (mark_after_failing (is_due now) now forward config.now slots.now) slots.now) }
{
    let mut keys = KeysSoFar::new(alloc);
    let mut marks = Vec::with_capacity(alloc, slots.len())?;
    for slot in slots {
        let fails = is_due(now, slot);
        let behind = keys.pass(alloc, config.ordering, slot, fails)?;
        marks.push(mark_after(now, forward, config, fails, behind, slot.mark))?;
    }
    Ok(marks)
}

/// The dead letter of a message that fails, if it has failed as often as the policy allows.
pub fn letter_of(forward: bool, config: &SubConfig, slot: &Slot) -> Option<DeadLetter>
    ensures { result ≡ dead_letter (λ _. true) forward config.now slot.now.mark slot.now }
{
    match slot.mark {
        Mark::Leased { failures, .. } => {
            let failures = one_more(failures);
            is_dead(&config.dead_letter, forward, failures).then_some(DeadLetter {
                number: slot.item.number,
                failures,
            })
        }
        _ => None,
    }
}

fn dead_letter(now: u64, forward: bool, config: &SubConfig, slot: &Slot) -> Option<DeadLetter>
    ensures { result ≡ dead_letter (is_due now) forward config.now slot.now.mark slot.now }
{
    if is_due(now, slot) {
        letter_of(forward, config, slot)
    } else {
        None
    }
}

/// The messages whose lease is over and that have failed as often as the dead-letter policy allows.
pub fn dead_letters(
    alloc: Global,
    now: u64,
    forward: bool,
    config: &SubConfig,
    slots: &[Slot],
) -> Result<Vec<DeadLetter>, OutOfMemory>
    ensures { IfOk result (λ dead. dead.items ≡ dead_letters (is_due now) forward config.now slots.now) }
{
    let letters = slots
        .iter()
        .filter_map(|slot| dead_letter(now, forward, config, slot))
        .collect(alloc)?;
    Ok(letters)
}
