// Whether settings are the same.
ghost use Rattle.std.specs.Prelude.{◌≡◌};
ghost use Rattle.std.specs.List.{list_all, zip};
ghost use Rattle.std.specs.Str.{bytes_eq};
ghost use Rattle.ps_model.specs.Same.{same_labels, same_option, same_pair, same_policy, same_retry, same_topic_config, same_sub_config};
ghost use Rattle.ps_tables.specs.Sameness.{same_numbers};

use ps_base::{Labels, Text};
use ps_config::{DeadLetterPolicy, RetryPolicy, SubConfig, TopicConfig};

#[tactic(auto, using(crate::proofs::comparing::Same::labels_together))]
fn same_labels(one: &Labels, other: &Labels) -> bool
    ensures { result ≡ same_labels one.now other.now }
{
    let (one, other) = (one.as_slice(), other.as_slice());
    one.len() == other.len() && same_pairs(one, other)
}

/// Whether the pairs of two lists are the same as far as both go.
fn same_pairs(one: &[(Text, Text)], other: &[(Text, Text)]) -> bool
    ensures { result ≡ list_all (λ p. same_pair bytes_eq bytes_eq p.0 p.1) (zip one.now other.now) }
{
    one.iter().zip(other).all(|(a, b)| same_pair(a, b))
}

fn same_pair(one: &(Text, Text), other: &(Text, Text)) -> bool
    ensures { result ≡ same_pair bytes_eq bytes_eq one.now other.now }
{
    one.0.as_str() == other.0.as_str() && one.1.as_str() == other.1.as_str()
}

/// Whether two topics have the same settings.
pub fn same_topic_config(one: &TopicConfig, other: &TopicConfig) -> bool
    ensures same { result ≡ same_topic_config one.now other.now }
{
    same_labels(&one.labels, &other.labels) && one.retention == other.retention
}

/// Whether two subscriptions have the same settings.
#[tactic(auto, using(crate::proofs::comparing::Same::sub_config_together))]
pub fn same_sub_config(one: &SubConfig, other: &SubConfig) -> bool
    ensures same { result ≡ same_sub_config one.now other.now }
{
    same_numbers(one, other)
        && same_labels(&one.labels, &other.labels)
        && one.filter.as_str() == other.filter.as_str()
        && same_policy(&one.dead_letter, &other.dead_letter)
}

/// The settings that are numbers and flags.
fn same_numbers(one: &SubConfig, other: &SubConfig) -> bool
    ensures { result ≡ same_numbers one.now other.now }
{
    one.ack_seconds == other.ack_seconds
        && one.retain_acked == other.retain_acked
        && one.retention == other.retention
        && one.ordering == other.ordering
        && one.expiration == other.expiration
        && same_retry(one.retry, other.retry)
        && one.exactly_once == other.exactly_once
}

fn same_retry(one: Option<RetryPolicy>, other: Option<RetryPolicy>) -> bool
    ensures { result ≡ same_option same_retry one other }
{
    match (one, other) {
        (None, None) => true,
        (Some(one), Some(other)) => one.least == other.least && one.most == other.most,
        _ => false,
    }
}

fn same_policy(one: &Option<DeadLetterPolicy>, other: &Option<DeadLetterPolicy>) -> bool
    ensures { result ≡ same_option same_policy one.now other.now }
{
    match (one, other) {
        (None, None) => true,
        (Some(one), Some(other)) => {
            one.topic.text() == other.topic.text() && one.attempts == other.attempts
        }
        _ => false,
    }
}
