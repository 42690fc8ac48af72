//! Worked examples of the rules: runs of calls with the answers, entries and counts that they give, as theorems that compute.
#![tactic(auto)]

mod examples;

pub use examples::{
    acknowledge_examples, dead_letter_examples, dead_standing_examples, deadline_examples,
    detach_examples, falling_back_examples, filter_examples, filter_fault_examples,
    filter_key_examples, filter_place_examples, filtered_examples, forwarded_examples,
    lease_examples, list_examples, load_examples, modify_once_examples, moment_examples,
    ordered_once_examples, ordering_examples, policy_examples, publish_examples,
    publish_limit_examples, pull_examples, refusal_examples, remade_examples,
    request_size_examples, retention_examples, retry_examples, session_examples, setting_examples,
    snapshot_examples, snapshot_seek_examples, standing_examples, subscription_examples,
    time_seek_examples, timestamp_examples, topic_examples,
};
