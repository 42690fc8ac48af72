// A subscription with messages in its backlog.
ghost use Rattle.std.specs.Prelude.{◌≡◌, ◌≤◌, None, IfOk, length};
ghost use Rattle.ps_model.specs.Checks.{new_sub_fault};
ghost use Rattle.ps_config.specs.Masks.{default_sub};

use ps_base::Text;
use ps_model::{DeadLetterPolicy, Item, Mark, RetryPolicy, SubConfig, TopicName};
use ps_sub::Sub;
use ps_transcript::number;
use std::alloc::Global;
use std::test::Fail;

const MOST_BYTES: u64 = 1 << 40;

/// Settings of a subscription, and for the rest what absent fields mean.
pub fn settings(alloc: Global, ordering: bool, exactly_once: bool) -> SubConfig
    ensures { result ≡ record default_sub { ordering = ordering; exactly_once = exactly_once } }
{
    let mut config = SubConfig::new(alloc);
    config.ordering = ordering;
    config.exactly_once = exactly_once;
    config
}

/// Settings with a rest after a failure.
fn resting(alloc: Global, least: u32, most: u32) -> SubConfig
    requires least { least ≤ 600 }
    requires most { most ≤ 600 }
    ensures { new_sub_fault result ≡ None }
{
    let mut config = settings(alloc, false, false);
    config.retry = Some(RetryPolicy {
        least: 1000 * u64::from(least),
        most: 1000 * u64::from(most),
    });
    config
}

/// Settings with a dead-letter topic for five failures.
fn lettering(alloc: Global) -> Result<SubConfig, Fail>
    ensures { IfOk result (λ config. new_sub_fault config ≡ None) }
{
    let topic = TopicName::read(alloc, "projects/p/topics/dead")?.ok_or("no topic name")?;
    let mut config = settings(alloc, false, false);
    config.dead_letter = Some(DeadLetterPolicy { topic, attempts: 5 });
    Ok(config)
}

/// A subscription with one message of each size in its backlog, all of one key, published at 1000, each with so many failures.
pub fn filled(alloc: Global, config: &SubConfig, failures: u32, sizes: &[u64]) -> Result<Sub, Fail>
    requires settings { new_sub_fault config.now ≡ None }
    requires few { length sizes.now ≤ 10000 }
{
    let mut sub = Sub::new(alloc, config, 1)?;
    for (i, size) in sizes.iter().enumerate() {
        let item = Item {
            number: i as u64 + 1,
            publish: 1000,
            key: Text::from_str(alloc, "k")?,
            size: (*size).min(MOST_BYTES),
        };
        let mark = Mark::Backlog {
            failures,
            until: 0,
            last: None,
        };
        sub.enter(item, mark)?;
    }
    Ok(sub)
}

fn filled_with(alloc: Global, config: SubConfig, failures: u32, sizes: &[u64]) -> Result<Sub, Fail>
    requires settings { new_sub_fault config ≡ None }
    requires few { length sizes.now ≤ 10000 }
{
    let sub = filled(alloc, &config, failures, sizes);
    drop(config);
    sub
}

fn filled_by(alloc: Global, kind: &str, sizes: &[u64]) -> Result<Sub, Fail>
    requires few { length sizes.now ≤ 10000 }
{
    match kind {
        "plain" => filled_with(alloc, settings(alloc, false, false), 0, sizes),
        "ordered" => filled_with(alloc, settings(alloc, true, false), 0, sizes),
        "exactly once" => filled_with(alloc, settings(alloc, false, true), 0, sizes),
        "ordered exactly once" => filled_with(alloc, settings(alloc, true, true), 0, sizes),
        "resting" => filled_with(alloc, resting(alloc, 10, 60), 0, sizes),
        "resting backwards" => filled_with(alloc, resting(alloc, 60, 10), 0, sizes),
        "worn" => filled_with(alloc, resting(alloc, 10, 60), u32::MAX, sizes),
        "lettering" => filled_with(alloc, lettering(alloc)?, 0, sizes),
        _ => Err(Fail::new("no kind of subscription")),
    }
}

fn numbers(alloc: Global, words: &str) -> Result<Vec<u64>, Fail> {
    let mut numbers = Vec::new(alloc);
    for word in words.split_whitespace() {
        numbers.push(number(word)?)?;
    }
    Ok(numbers)
}

/// A subscription of a kind with messages of these sizes.
pub fn begun(alloc: Global, kind: &str, sizes: &str) -> Result<Sub, Fail> {
    let sizes = numbers(alloc, sizes)?;
    if sizes.len() > 10000 {
        return Err(Fail::new("too many messages"));
    }
    filled_by(alloc, kind, sizes.as_slice())
}
