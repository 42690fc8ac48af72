// Commands on messages of a subscription.
ghost use Rattle.std.specs.Prelude.{◌≡◌, Some, None, IfOk, MatchOption};
ghost use Rattle.ps_entry.specs.Fields.{pull_at, acknowledge_at, modify_ack_deadline_at, seek_time_at, seek_snapshot_at};

use ps_base::{AckId, List, OutOfMemory};
use ps_codec::FieldReader;
use ps_model::{Command, Form};
use ps_names::{SnapName, SubName};
use std::alloc::Global;

pub fn read_pull(
    alloc: Global,
    reader: &mut FieldReader<'_>,
) -> Result<Option<Command>, OutOfMemory>
    ensures { IfOk result (λ command. MatchOption command (pull_at reader.old ≡ None) (λ c. pull_at reader.old ≡ Some (c, reader.new))) }
{
    let parts = <(SubName, (u32, (u64, Option<u32>)))>::read_from(alloc, reader)?;
    let Some((subscription, (max, (budget, seconds)))) = parts else {
        return Ok(None);
    };
    Ok(Some(Command::Pull {
        subscription,
        max,
        budget,
        seconds,
    }))
}

pub fn read_acknowledge(
    alloc: Global,
    reader: &mut FieldReader<'_>,
) -> Result<Option<Command>, OutOfMemory>
    ensures { IfOk result (λ command. MatchOption command (acknowledge_at reader.old ≡ None) (λ c. acknowledge_at reader.old ≡ Some (c, reader.new))) }
{
    let parts = <(SubName, List<AckId>)>::read_from(alloc, reader)?;
    let Some((subscription, ids)) = parts else {
        return Ok(None);
    };
    Ok(Some(Command::Acknowledge { subscription, ids }))
}

pub fn read_modify_ack_deadline(
    alloc: Global,
    reader: &mut FieldReader<'_>,
) -> Result<Option<Command>, OutOfMemory>
    ensures { IfOk result (λ command. MatchOption command (modify_ack_deadline_at reader.old ≡ None) (λ c. modify_ack_deadline_at reader.old ≡ Some (c, reader.new))) }
{
    let parts = <(SubName, List<(AckId, u32)>)>::read_from(alloc, reader)?;
    let Some((subscription, items)) = parts else {
        return Ok(None);
    };
    Ok(Some(Command::ModifyAckDeadline {
        subscription,
        items,
    }))
}

pub fn read_seek_time(
    alloc: Global,
    reader: &mut FieldReader<'_>,
) -> Result<Option<Command>, OutOfMemory>
    ensures { IfOk result (λ command. MatchOption command (seek_time_at reader.old ≡ None) (λ c. seek_time_at reader.old ≡ Some (c, reader.new))) }
{
    let parts = <(SubName, u64)>::read_from(alloc, reader)?;
    let Some((subscription, time)) = parts else {
        return Ok(None);
    };
    Ok(Some(Command::SeekTime { subscription, time }))
}

pub fn read_seek_snapshot(
    alloc: Global,
    reader: &mut FieldReader<'_>,
) -> Result<Option<Command>, OutOfMemory>
    ensures { IfOk result (λ command. MatchOption command (seek_snapshot_at reader.old ≡ None) (λ c. seek_snapshot_at reader.old ≡ Some (c, reader.new))) }
{
    let parts = <(SubName, SnapName)>::read_from(alloc, reader)?;
    let Some((subscription, snapshot)) = parts else {
        return Ok(None);
    };
    Ok(Some(Command::SeekSnapshot {
        subscription,
        snapshot,
    }))
}
