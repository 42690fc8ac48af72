ghost use Rattle.std.specs.Prelude.{◌≡◌, ◌++◌, OnOk};
ghost use Rattle.ps_model.specs.Forms.{lives_form, LivesFit, entering_form, EnteringFits, failing_form, FailingFits};

use crate::forms::Form;
use ps_base::{Labels, OutOfMemory, Text};
use ps_codec::{FieldReader, FieldWriter};
use ps_config::{DeadLetterPolicy, RetryPolicy, SubConfig};
use std::alloc::Global;

/// How long leases and messages live, and the labels.
type Lives = (u32, (bool, (u64, Labels)));

/// Which messages enter and in which order they are delivered, and when the subscription expires.
type Entering = (bool, (Option<u64>, Text));

/// What happens to a message whose lease ended.
type Failing = (Option<DeadLetterPolicy>, (Option<RetryPolicy>, bool));

impl Form for SubConfig {
    ghost use Rattle.ps_model.specs.Forms.{sub_config_form, sub_config_at, SubConfigFits};

    ghost form = { sub_config_form };

    ghost at = { sub_config_at };

    ghost fits = { SubConfigFits };

    fn write_to(&self, writer: &mut FieldWriter) -> Result<(), OutOfMemory> {
        write_lives(self, writer)?;
        write_entering(self, writer)?;
        write_failing(self, writer)
    }

    fn read_from(
        alloc: Global,
        reader: &mut FieldReader<'_>,
    ) -> Result<Option<SubConfig>, OutOfMemory> {
        let parts = <(Lives, (Entering, Failing))>::read_from(alloc, reader)?;
        let Some((lives, (entering, failing))) = parts else {
            return Ok(None);
        };
        let (ack_seconds, (retain_acked, (retention, labels))) = lives;
        let (ordering, (expiration, filter)) = entering;
        let (dead_letter, (retry, exactly_once)) = failing;
        Ok(Some(SubConfig {
            ack_seconds,
            retain_acked,
            retention,
            labels,
            ordering,
            expiration,
            filter,
            dead_letter,
            retry,
            exactly_once,
        }))
    }
}

fn write_lives(config: &SubConfig, writer: &mut FieldWriter) -> Result<(), OutOfMemory>
    ensures ok { OnOk result (writer.new ≡ writer.old ++ lives_form config.now) }
    ensures fits { OnOk result (LivesFit config.now) }
{
    config.ack_seconds.write_to(writer)?;
    config.retain_acked.write_to(writer)?;
    config.retention.write_to(writer)?;
    config.labels.write_to(writer)
}

fn write_entering(config: &SubConfig, writer: &mut FieldWriter) -> Result<(), OutOfMemory>
    ensures ok { OnOk result (writer.new ≡ writer.old ++ entering_form config.now) }
    ensures fits { OnOk result (EnteringFits config.now) }
{
    config.ordering.write_to(writer)?;
    config.expiration.write_to(writer)?;
    config.filter.write_to(writer)
}

fn write_failing(config: &SubConfig, writer: &mut FieldWriter) -> Result<(), OutOfMemory>
    ensures ok { OnOk result (writer.new ≡ writer.old ++ failing_form config.now) }
    ensures fits { OnOk result (FailingFits config.now) }
{
    config.dead_letter.write_to(writer)?;
    config.retry.write_to(writer)?;
    config.exactly_once.write_to(writer)
}
