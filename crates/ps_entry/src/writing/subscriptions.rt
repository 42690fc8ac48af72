// Commands on subscriptions.
ghost use Rattle.std.specs.Prelude.{◌≡◌, ◌++◌, OnOk, true};
ghost use Rattle.ps_model.specs.declared.command.Command.TheVariants.{CreateSubscription, UpdateSubscription, DeleteSubscription, Detach};
ghost use Rattle.ps_model.specs.Families.{is_subscription_command};
ghost use Rattle.ps_entry.specs.Commands.{has_tag, command_form, FieldsFit};

use ps_base::OutOfMemory;
use ps_codec::FieldWriter;
use ps_model::{Command, Form, Mask, SubConfig};
use ps_names::{SubName, TopicName};

/// Writes a command on subscriptions: its tag and its fields.
pub fn write_subscription_command(
    command: &Command,
    writer: &mut FieldWriter,
) -> Result<(), OutOfMemory>
    requires family { is_subscription_command command.now ≡ true }
    requires tag { has_tag command.now ≡ true }
    ensures bytes { OnOk result (writer.new ≡ writer.old ++ command_form command.now) }
    ensures fits { OnOk result (FieldsFit command.now) }
{
    match command {
        Command::CreateSubscription {
            subscription,
            topic,
            config,
        } => write_create_subscription(subscription, topic, config, writer),
        Command::UpdateSubscription {
            subscription,
            mask,
            config,
        } => write_update_subscription(subscription, *mask, config, writer),
        Command::DeleteSubscription { subscription } => write_delete_subscription(
            subscription,
            writer,
        ),
        Command::Detach { subscription } => write_detach(subscription, writer),
        _ => Ok(()),
    }
}

fn write_create_subscription(
    subscription: &SubName,
    topic: &TopicName,
    config: &SubConfig,
    writer: &mut FieldWriter,
) -> Result<(), OutOfMemory>
    ensures bytes { OnOk result (writer.new ≡ writer.old ++ command_form (CreateSubscription subscription.now topic.now config.now)) }
    ensures fits { OnOk result (FieldsFit (CreateSubscription subscription.now topic.now config.now)) }
{
    writer.u8(0x05)?;
    subscription.write_to(writer)?;
    topic.write_to(writer)?;
    config.write_to(writer)
}

fn write_update_subscription(
    subscription: &SubName,
    mask: Mask,
    config: &SubConfig,
    writer: &mut FieldWriter,
) -> Result<(), OutOfMemory>
    ensures bytes { OnOk result (writer.new ≡ writer.old ++ command_form (UpdateSubscription subscription.now mask config.now)) }
    ensures fits { OnOk result (FieldsFit (UpdateSubscription subscription.now mask config.now)) }
{
    writer.u8(0x06)?;
    subscription.write_to(writer)?;
    mask.0.write_to(writer)?;
    config.write_to(writer)
}

fn write_delete_subscription(
    subscription: &SubName,
    writer: &mut FieldWriter,
) -> Result<(), OutOfMemory>
    ensures bytes { OnOk result (writer.new ≡ writer.old ++ command_form (DeleteSubscription subscription.now)) }
    ensures fits { OnOk result (FieldsFit (DeleteSubscription subscription.now)) }
{
    writer.u8(0x07)?;
    subscription.write_to(writer)
}

fn write_detach(subscription: &SubName, writer: &mut FieldWriter) -> Result<(), OutOfMemory>
    ensures bytes { OnOk result (writer.new ≡ writer.old ++ command_form (Detach subscription.now)) }
    ensures fits { OnOk result (FieldsFit (Detach subscription.now)) }
{
    writer.u8(0x08)?;
    subscription.write_to(writer)
}
