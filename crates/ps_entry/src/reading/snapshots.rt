// Commands on snapshots.
ghost use Rattle.std.specs.Prelude.{◌≡◌, Some, None, IfOk, MatchOption};
ghost use Rattle.ps_entry.specs.Fields.{create_snapshot_at, update_snapshot_at, delete_snapshot_at};

use ps_base::{Labels, OutOfMemory};
use ps_codec::FieldReader;
use ps_model::{Command, Form};
use ps_names::{SnapName, SubName};
use std::alloc::Global;

pub fn read_create_snapshot(
    alloc: Global,
    reader: &mut FieldReader<'_>,
) -> Result<Option<Command>, OutOfMemory>
    ensures { IfOk result (λ command. MatchOption command (create_snapshot_at reader.old ≡ None) (λ c. create_snapshot_at reader.old ≡ Some (c, reader.new))) }
{
    let parts = <(SnapName, (SubName, Labels))>::read_from(alloc, reader)?;
    let Some((snapshot, (subscription, labels))) = parts else {
        return Ok(None);
    };
    Ok(Some(Command::CreateSnapshot {
        snapshot,
        subscription,
        labels,
    }))
}

pub fn read_update_snapshot(
    alloc: Global,
    reader: &mut FieldReader<'_>,
) -> Result<Option<Command>, OutOfMemory>
    ensures { IfOk result (λ command. MatchOption command (update_snapshot_at reader.old ≡ None) (λ c. update_snapshot_at reader.old ≡ Some (c, reader.new))) }
{
    let parts = <(SnapName, Labels)>::read_from(alloc, reader)?;
    let Some((snapshot, labels)) = parts else {
        return Ok(None);
    };
    Ok(Some(Command::UpdateSnapshot { snapshot, labels }))
}

pub fn read_delete_snapshot(
    alloc: Global,
    reader: &mut FieldReader<'_>,
) -> Result<Option<Command>, OutOfMemory>
    ensures { IfOk result (λ command. MatchOption command (delete_snapshot_at reader.old ≡ None) (λ c. delete_snapshot_at reader.old ≡ Some (c, reader.new))) }
{
    let Some(snapshot) = SnapName::read_from(alloc, reader)? else {
        return Ok(None);
    };
    Ok(Some(Command::DeleteSnapshot { snapshot }))
}
