use crate::forms::Form;
use ps_base::{Labels, OutOfMemory, Text};
use ps_codec::{FieldReader, FieldWriter};
use ps_config::{DeadLetterPolicy, RetryPolicy, TopicConfig};
use ps_names::TopicName;
use std::alloc::Global;

impl Form for TopicConfig {
    ghost use Rattle.ps_model.specs.Forms.{topic_config_form, topic_config_at, TopicConfigFits};

    ghost form = { topic_config_form };

    ghost at = { topic_config_at };

    ghost fits = { TopicConfigFits };

    fn write_to(&self, writer: &mut FieldWriter) -> Result<(), OutOfMemory> {
        self.labels.write_to(writer)?;
        self.retention.write_to(writer)
    }

    fn read_from(
        alloc: Global,
        reader: &mut FieldReader<'_>,
    ) -> Result<Option<TopicConfig>, OutOfMemory> {
        let Some((labels, retention)) = <(Labels, Option<u64>)>::read_from(alloc, reader)? else {
            return Ok(None);
        };
        Ok(Some(TopicConfig { labels, retention }))
    }
}

impl Form for DeadLetterPolicy {
    ghost use Rattle.ps_model.specs.Forms.{dead_letter_policy_form, dead_letter_policy_at, DeadLetterPolicyFits};

    ghost form = { dead_letter_policy_form };

    ghost at = { dead_letter_policy_at };

    ghost fits = { DeadLetterPolicyFits };

    fn write_to(&self, writer: &mut FieldWriter) -> Result<(), OutOfMemory> {
        self.topic.write_to(writer)?;
        self.attempts.write_to(writer)
    }

    fn read_from(
        alloc: Global,
        reader: &mut FieldReader<'_>,
    ) -> Result<Option<DeadLetterPolicy>, OutOfMemory> {
        let Some((topic, attempts)) = <(TopicName, u32)>::read_from(alloc, reader)? else {
            return Ok(None);
        };
        Ok(Some(DeadLetterPolicy { topic, attempts }))
    }
}

impl Form for RetryPolicy {
    ghost use Rattle.ps_model.specs.Forms.{retry_policy_form, retry_policy_at, RetryPolicyFits};

    ghost form = { retry_policy_form };

    ghost at = { retry_policy_at };

    ghost fits = { RetryPolicyFits };

    fn write_to(&self, writer: &mut FieldWriter) -> Result<(), OutOfMemory> {
        self.least.write_to(writer)?;
        self.most.write_to(writer)
    }

    fn read_from(
        alloc: Global,
        reader: &mut FieldReader<'_>,
    ) -> Result<Option<RetryPolicy>, OutOfMemory> {
        let Some((least, most)) = <(u64, u64)>::read_from(alloc, reader)? else {
            return Ok(None);
        };
        Ok(Some(RetryPolicy { least, most }))
    }
}
