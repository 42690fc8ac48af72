ghost use Rattle.std.specs.Prelude.{◌≡◌, ◌++◌, Some, IfOk, OnOk, true};
ghost use Rattle.ps_entry.specs.Commands.{has_tag, has_spelling, command_form, FieldsFit};
ghost use Rattle.ps_entry.specs.Entries.{entry_form, entry_in, EntryFits};

mod deliveries;
mod snapshots;
mod subscriptions;
mod topics;

use deliveries::write_delivery_command;
use ps_base::{Octets, OutOfMemory};
use ps_codec::FieldWriter;
use ps_model::{Command, Entry};
use snapshots::write_snapshot_command;
use std::alloc::Global;
use subscriptions::write_subscription_command;
use topics::write_topic_command;

/// The first byte of every entry.
const FORMAT: u8 = 0x01;

/// The bytes of an entry: the format, the moment, the command's tag and its fields. Fails if out of memory, or if a
/// length or a count is 2^32 or more.
pub fn write(alloc: Global, entry: &Entry) -> Result<Octets, OutOfMemory>
    requires { has_spelling entry.now.command ≡ true }
    ensures bytes { IfOk result (λ row. row ≡ entry_form entry.entry.now) }
    ensures fits { OnOk result (EntryFits entry.entry.now) }
    ensures read { IfOk result (λ row. entry_in row ≡ Some entry.entry.now) }
{
    let mut writer = FieldWriter::new(alloc);
    writer.u8(FORMAT)?;
    writer.u64(entry.now)?;
    write_command(&entry.command, &mut writer)?;
    Ok(writer.finish())
}

fn write_command(command: &Command, writer: &mut FieldWriter) -> Result<(), OutOfMemory>
    requires { has_tag command.now ≡ true }
    ensures bytes { OnOk result (writer.new ≡ writer.old ++ command_form command.now) }
    ensures fits { OnOk result (FieldsFit command.now) }
{
    match command {
        Command::CreateTopic { .. }
        | Command::UpdateTopic { .. }
        | Command::DeleteTopic { .. }
        | Command::Publish { .. } => write_topic_command(command, writer),
        Command::CreateSubscription { .. }
        | Command::UpdateSubscription { .. }
        | Command::DeleteSubscription { .. }
        | Command::Detach { .. } => write_subscription_command(command, writer),
        Command::CreateSnapshot { .. }
        | Command::UpdateSnapshot { .. }
        | Command::DeleteSnapshot { .. } => write_snapshot_command(command, writer),
        Command::Pull { .. }
        | Command::Acknowledge { .. }
        | Command::ModifyAckDeadline { .. }
        | Command::SeekTime { .. }
        | Command::SeekSnapshot { .. } => write_delivery_command(command, writer),
        _ => writer.u8(0x01),
    }
}
