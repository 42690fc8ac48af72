// Commands on topics.
ghost use Rattle.std.specs.Prelude.{◌≡◌, Some, None, IfOk, MatchOption};
ghost use Rattle.ps_entry.specs.Fields.{create_topic_at, update_topic_at, delete_topic_at, publish_at};

use ps_base::{List, OutOfMemory};
use ps_codec::FieldReader;
use ps_message::Message;
use ps_model::{Command, Form, Mask, TopicConfig};
use ps_names::TopicName;
use std::alloc::Global;

pub fn read_create_topic(
    alloc: Global,
    reader: &mut FieldReader<'_>,
) -> Result<Option<Command>, OutOfMemory>
    ensures { IfOk result (λ command. MatchOption command (create_topic_at reader.old ≡ None) (λ c. create_topic_at reader.old ≡ Some (c, reader.new))) }
{
    let parts = <(TopicName, TopicConfig)>::read_from(alloc, reader)?;
    let Some((topic, config)) = parts else {
        return Ok(None);
    };
    Ok(Some(Command::CreateTopic { topic, config }))
}

pub fn read_update_topic(
    alloc: Global,
    reader: &mut FieldReader<'_>,
) -> Result<Option<Command>, OutOfMemory>
    ensures { IfOk result (λ command. MatchOption command (update_topic_at reader.old ≡ None) (λ c. update_topic_at reader.old ≡ Some (c, reader.new))) }
{
    let parts = <(TopicName, (u32, TopicConfig))>::read_from(alloc, reader)?;
    let Some((topic, (mask, config))) = parts else {
        return Ok(None);
    };
    Ok(Some(Command::UpdateTopic {
        topic,
        mask: Mask(mask),
        config,
    }))
}

pub fn read_delete_topic(
    alloc: Global,
    reader: &mut FieldReader<'_>,
) -> Result<Option<Command>, OutOfMemory>
    ensures { IfOk result (λ command. MatchOption command (delete_topic_at reader.old ≡ None) (λ c. delete_topic_at reader.old ≡ Some (c, reader.new))) }
{
    let Some(topic) = TopicName::read_from(alloc, reader)? else {
        return Ok(None);
    };
    Ok(Some(Command::DeleteTopic { topic }))
}

pub fn read_publish(
    alloc: Global,
    reader: &mut FieldReader<'_>,
) -> Result<Option<Command>, OutOfMemory>
    ensures { IfOk result (λ command. MatchOption command (publish_at reader.old ≡ None) (λ c. publish_at reader.old ≡ Some (c, reader.new))) }
{
    let parts = <(TopicName, List<Message>)>::read_from(alloc, reader)?;
    let Some((topic, messages)) = parts else {
        return Ok(None);
    };
    Ok(Some(Command::Publish { topic, messages }))
}
