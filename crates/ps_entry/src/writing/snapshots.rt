// Commands on snapshots.
ghost use Rattle.std.specs.Prelude.{◌≡◌, ◌++◌, OnOk, true};
ghost use Rattle.ps_model.specs.declared.command.Command.TheVariants.{CreateSnapshot, UpdateSnapshot, DeleteSnapshot};
ghost use Rattle.ps_model.specs.Families.{is_snapshot_command};
ghost use Rattle.ps_entry.specs.Commands.{has_tag, command_form, FieldsFit};

use ps_base::{Labels, OutOfMemory};
use ps_codec::FieldWriter;
use ps_model::{Command, Form};
use ps_names::{SnapName, SubName};

/// Writes a command on snapshots: its tag and its fields.
pub fn write_snapshot_command(
    command: &Command,
    writer: &mut FieldWriter,
) -> Result<(), OutOfMemory>
    requires family { is_snapshot_command command.now ≡ true }
    requires tag { has_tag command.now ≡ true }
    ensures bytes { OnOk result (writer.new ≡ writer.old ++ command_form command.now) }
    ensures fits { OnOk result (FieldsFit command.now) }
{
    match command {
        Command::CreateSnapshot {
            snapshot,
            subscription,
            labels,
        } => write_create_snapshot(snapshot, subscription, labels, writer),
        Command::UpdateSnapshot { snapshot, labels } => write_update_snapshot(
            snapshot, labels, writer,
        ),
        Command::DeleteSnapshot { snapshot } => write_delete_snapshot(snapshot, writer),
        _ => Ok(()),
    }
}

fn write_create_snapshot(
    snapshot: &SnapName,
    subscription: &SubName,
    labels: &Labels,
    writer: &mut FieldWriter,
) -> Result<(), OutOfMemory>
    ensures bytes { OnOk result (writer.new ≡ writer.old ++ command_form (CreateSnapshot snapshot.now subscription.now labels.now)) }
    ensures fits { OnOk result (FieldsFit (CreateSnapshot snapshot.now subscription.now labels.now)) }
{
    writer.u8(0x09)?;
    snapshot.write_to(writer)?;
    subscription.write_to(writer)?;
    labels.write_to(writer)
}

fn write_update_snapshot(
    snapshot: &SnapName,
    labels: &Labels,
    writer: &mut FieldWriter,
) -> Result<(), OutOfMemory>
    ensures bytes { OnOk result (writer.new ≡ writer.old ++ command_form (UpdateSnapshot snapshot.now labels.now)) }
    ensures fits { OnOk result (FieldsFit (UpdateSnapshot snapshot.now labels.now)) }
{
    writer.u8(0x0a)?;
    snapshot.write_to(writer)?;
    labels.write_to(writer)
}

fn write_delete_snapshot(snapshot: &SnapName, writer: &mut FieldWriter) -> Result<(), OutOfMemory>
    ensures bytes { OnOk result (writer.new ≡ writer.old ++ command_form (DeleteSnapshot snapshot.now)) }
    ensures fits { OnOk result (FieldsFit (DeleteSnapshot snapshot.now)) }
{
    writer.u8(0x0b)?;
    snapshot.write_to(writer)
}
