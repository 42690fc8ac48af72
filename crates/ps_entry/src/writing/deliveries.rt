// Commands on messages of a subscription.
ghost use Rattle.std.specs.Prelude.{◌≡◌, ◌++◌, OnOk, true};
ghost use Rattle.ps_model.specs.declared.command.Command.TheVariants.{Pull, Acknowledge, ModifyAckDeadline, SeekTime, SeekSnapshot};
ghost use Rattle.ps_model.specs.Families.{is_delivery_command};
ghost use Rattle.ps_entry.specs.Commands.{has_tag, command_form, FieldsFit};

use ps_base::{AckId, List, OutOfMemory};
use ps_codec::FieldWriter;
use ps_model::{Command, Form};
use ps_names::{SnapName, SubName};

/// Writes a command on messages of a subscription: its tag and its fields.
pub fn write_delivery_command(
    command: &Command,
    writer: &mut FieldWriter,
) -> Result<(), OutOfMemory>
    requires family { is_delivery_command command.now ≡ true }
    requires tag { has_tag command.now ≡ true }
    ensures bytes { OnOk result (writer.new ≡ writer.old ++ command_form command.now) }
    ensures fits { OnOk result (FieldsFit command.now) }
{
    match command {
        Command::Pull {
            subscription,
            max,
            budget,
            seconds,
        } => write_pull(subscription, *max, *budget, seconds, writer),
        Command::Acknowledge { subscription, ids } => write_acknowledge(subscription, ids, writer),
        Command::ModifyAckDeadline {
            subscription,
            items,
        } => write_modify_ack_deadline(subscription, items, writer),
        Command::SeekTime { subscription, time } => write_seek_time(subscription, *time, writer),
        Command::SeekSnapshot {
            subscription,
            snapshot,
        } => write_seek_snapshot(subscription, snapshot, writer),
        _ => Ok(()),
    }
}

fn write_pull(
    subscription: &SubName,
    max: u32,
    budget: u64,
    seconds: &Option<u32>,
    writer: &mut FieldWriter,
) -> Result<(), OutOfMemory>
    ensures bytes { OnOk result (writer.new ≡ writer.old ++ command_form (Pull subscription.now max budget seconds.now)) }
    ensures fits { OnOk result (FieldsFit (Pull subscription.now max budget seconds.now)) }
{
    writer.u8(0x0d)?;
    subscription.write_to(writer)?;
    max.write_to(writer)?;
    budget.write_to(writer)?;
    seconds.write_to(writer)
}

fn write_acknowledge(
    subscription: &SubName,
    ids: &List<AckId>,
    writer: &mut FieldWriter,
) -> Result<(), OutOfMemory>
    ensures bytes { OnOk result (writer.new ≡ writer.old ++ command_form (Acknowledge subscription.now ids.now)) }
    ensures fits { OnOk result (FieldsFit (Acknowledge subscription.now ids.now)) }
{
    writer.u8(0x0e)?;
    subscription.write_to(writer)?;
    ids.write_to(writer)
}

fn write_modify_ack_deadline(
    subscription: &SubName,
    items: &List<(AckId, u32)>,
    writer: &mut FieldWriter,
) -> Result<(), OutOfMemory>
    ensures bytes { OnOk result (writer.new ≡ writer.old ++ command_form (ModifyAckDeadline subscription.now items.now)) }
    ensures fits { OnOk result (FieldsFit (ModifyAckDeadline subscription.now items.now)) }
{
    writer.u8(0x0f)?;
    subscription.write_to(writer)?;
    items.write_to(writer)
}

fn write_seek_time(
    subscription: &SubName,
    time: u64,
    writer: &mut FieldWriter,
) -> Result<(), OutOfMemory>
    ensures bytes { OnOk result (writer.new ≡ writer.old ++ command_form (SeekTime subscription.now time)) }
    ensures fits { OnOk result (FieldsFit (SeekTime subscription.now time)) }
{
    writer.u8(0x10)?;
    subscription.write_to(writer)?;
    time.write_to(writer)
}

fn write_seek_snapshot(
    subscription: &SubName,
    snapshot: &SnapName,
    writer: &mut FieldWriter,
) -> Result<(), OutOfMemory>
    ensures bytes { OnOk result (writer.new ≡ writer.old ++ command_form (SeekSnapshot subscription.now snapshot.now)) }
    ensures fits { OnOk result (FieldsFit (SeekSnapshot subscription.now snapshot.now)) }
{
    writer.u8(0x11)?;
    subscription.write_to(writer)?;
    snapshot.write_to(writer)
}
