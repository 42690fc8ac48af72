// Commands on topics.
ghost use Rattle.std.specs.Prelude.{◌≡◌, ◌++◌, OnOk, true};
ghost use Rattle.ps_model.specs.declared.command.Command.TheVariants.{CreateTopic, UpdateTopic, DeleteTopic, Publish};
ghost use Rattle.ps_model.specs.Families.{is_topic_command};
ghost use Rattle.ps_entry.specs.Commands.{has_tag, command_form, FieldsFit};

use ps_base::{List, OutOfMemory};
use ps_codec::FieldWriter;
use ps_message::Message;
use ps_model::{Command, Form, Mask, TopicConfig};
use ps_names::TopicName;

/// Writes a command on topics: its tag and its fields.
pub fn write_topic_command(command: &Command, writer: &mut FieldWriter) -> Result<(), OutOfMemory>
    requires family { is_topic_command command.now ≡ true }
    requires tag { has_tag command.now ≡ true }
    ensures bytes { OnOk result (writer.new ≡ writer.old ++ command_form command.now) }
    ensures fits { OnOk result (FieldsFit command.now) }
{
    match command {
        Command::CreateTopic { topic, config } => write_create_topic(topic, config, writer),
        Command::UpdateTopic {
            topic,
            mask,
            config,
        } => write_update_topic(topic, *mask, config, writer),
        Command::DeleteTopic { topic } => write_delete_topic(topic, writer),
        Command::Publish { topic, messages } => write_publish(topic, messages, writer),
        _ => Ok(()),
    }
}

fn write_create_topic(
    topic: &TopicName,
    config: &TopicConfig,
    writer: &mut FieldWriter,
) -> Result<(), OutOfMemory>
    ensures bytes { OnOk result (writer.new ≡ writer.old ++ command_form (CreateTopic topic.now config.now)) }
    ensures fits { OnOk result (FieldsFit (CreateTopic topic.now config.now)) }
{
    writer.u8(0x02)?;
    topic.write_to(writer)?;
    config.write_to(writer)
}

fn write_update_topic(
    topic: &TopicName,
    mask: Mask,
    config: &TopicConfig,
    writer: &mut FieldWriter,
) -> Result<(), OutOfMemory>
    ensures bytes { OnOk result (writer.new ≡ writer.old ++ command_form (UpdateTopic topic.now mask config.now)) }
    ensures fits { OnOk result (FieldsFit (UpdateTopic topic.now mask config.now)) }
{
    writer.u8(0x03)?;
    topic.write_to(writer)?;
    mask.0.write_to(writer)?;
    config.write_to(writer)
}

fn write_delete_topic(topic: &TopicName, writer: &mut FieldWriter) -> Result<(), OutOfMemory>
    ensures bytes { OnOk result (writer.new ≡ writer.old ++ command_form (DeleteTopic topic.now)) }
    ensures fits { OnOk result (FieldsFit (DeleteTopic topic.now)) }
{
    writer.u8(0x04)?;
    topic.write_to(writer)
}

fn write_publish(
    topic: &TopicName,
    messages: &List<Message>,
    writer: &mut FieldWriter,
) -> Result<(), OutOfMemory>
    ensures bytes { OnOk result (writer.new ≡ writer.old ++ command_form (Publish topic.now messages.now)) }
    ensures fits { OnOk result (FieldsFit (Publish topic.now messages.now)) }
{
    writer.u8(0x0c)?;
    topic.write_to(writer)?;
    messages.write_to(writer)
}
