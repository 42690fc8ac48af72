// Commands on subscriptions.
ghost use Rattle.std.specs.Prelude.{◌≡◌, Some, None, IfOk, MatchOption};
ghost use Rattle.ps_entry.specs.Fields.{create_subscription_at, update_subscription_at, delete_subscription_at, detach_at};

use ps_base::OutOfMemory;
use ps_codec::FieldReader;
use ps_model::{Command, Form, Mask, SubConfig};
use ps_names::{SubName, TopicName};
use std::alloc::Global;

pub fn read_create_subscription(
    alloc: Global,
    reader: &mut FieldReader<'_>,
) -> Result<Option<Command>, OutOfMemory>
    ensures { IfOk result (λ command. MatchOption command (create_subscription_at reader.old ≡ None) (λ c. create_subscription_at reader.old ≡ Some (c, reader.new))) }
{
    let parts = <(SubName, (TopicName, SubConfig))>::read_from(alloc, reader)?;
    let Some((subscription, (topic, config))) = parts else {
        return Ok(None);
    };
    Ok(Some(Command::CreateSubscription {
        subscription,
        topic,
        config,
    }))
}

pub fn read_update_subscription(
    alloc: Global,
    reader: &mut FieldReader<'_>,
) -> Result<Option<Command>, OutOfMemory>
    ensures { IfOk result (λ command. MatchOption command (update_subscription_at reader.old ≡ None) (λ c. update_subscription_at reader.old ≡ Some (c, reader.new))) }
{
    let parts = <(SubName, (u32, SubConfig))>::read_from(alloc, reader)?;
    let Some((subscription, (mask, config))) = parts else {
        return Ok(None);
    };
    Ok(Some(Command::UpdateSubscription {
        subscription,
        mask: Mask(mask),
        config,
    }))
}

pub fn read_delete_subscription(
    alloc: Global,
    reader: &mut FieldReader<'_>,
) -> Result<Option<Command>, OutOfMemory>
    ensures { IfOk result (λ command. MatchOption command (delete_subscription_at reader.old ≡ None) (λ c. delete_subscription_at reader.old ≡ Some (c, reader.new))) }
{
    let Some(subscription) = SubName::read_from(alloc, reader)? else {
        return Ok(None);
    };
    Ok(Some(Command::DeleteSubscription { subscription }))
}

pub fn read_detach(
    alloc: Global,
    reader: &mut FieldReader<'_>,
) -> Result<Option<Command>, OutOfMemory>
    ensures { IfOk result (λ command. MatchOption command (detach_at reader.old ≡ None) (λ c. detach_at reader.old ≡ Some (c, reader.new))) }
{
    let Some(subscription) = SubName::read_from(alloc, reader)? else {
        return Ok(None);
    };
    Ok(Some(Command::Detach { subscription }))
}
