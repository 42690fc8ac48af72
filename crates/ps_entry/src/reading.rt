ghost use Rattle.std.specs.Prelude.{◌≡◌, Some, None, IfOk, MatchOption};
ghost use Rattle.ps_entry.specs.Commands.{has_spelling, tagged_at, command_at};
ghost use Rattle.ps_entry.specs.Entries.{entry_at, entry_in};

mod deliveries;
mod snapshots;
mod subscriptions;
mod topics;

use crate::recorded::is_recorded;
use deliveries::{
    read_acknowledge, read_modify_ack_deadline, read_pull, read_seek_snapshot, read_seek_time,
};
use ps_base::OutOfMemory;
use ps_codec::FieldReader;
use ps_model::{Command, Entry};
use snapshots::{read_create_snapshot, read_delete_snapshot, read_update_snapshot};
use std::alloc::Global;
use subscriptions::{
    read_create_subscription, read_delete_subscription, read_detach, read_update_subscription,
};
use topics::{read_create_topic, read_delete_topic, read_publish, read_update_topic};

/// The entry that these bytes encode, or `None` if and only if they encode none: a byte too many or too few, an unknown
/// tag or format, a name outside its grammar, keys out of order, a command that isn't in its recorded form. Fails only
/// if out of memory, and never allocates in proportion to a length that isn't there.
pub fn read(alloc: Global, bytes: &[u8]) -> Result<Option<Entry>, OutOfMemory>
    ensures { IfOk result (λ entry. entry ≡ entry_in bytes.now) }
{
    let mut reader = FieldReader::new(bytes);
    let entry = read_entry(alloc, &mut reader)?;
    let ends = reader.left() == 0;
    Ok(entry.filter(|_| ends))
}

fn read_entry(alloc: Global, reader: &mut FieldReader<'_>) -> Result<Option<Entry>, OutOfMemory>
    ensures { IfOk result (λ entry. MatchOption entry (entry_at reader.old ≡ None) (λ e. entry_at reader.old ≡ Some (e, reader.new))) }
{
    let Ok(0x01) = reader.u8() else {
        return Ok(None);
    };
    let Ok(now) = reader.u64() else {
        return Ok(None);
    };
    match read_command(alloc, reader)? {
        Some(command) => Ok(Some(Entry { now, command })),
        None => Ok(None),
    }
}

/// Reads a command that is recorded.
fn read_command(alloc: Global, reader: &mut FieldReader<'_>) -> Result<Option<Command>, OutOfMemory>
    ensures { IfOk result (λ command. MatchOption command (command_at reader.old ≡ None) (λ c. command_at reader.old ≡ Some (c, reader.new))) }
{
    let command = read_tagged(alloc, reader)?;
    Ok(command.filter(is_recorded))
}

/// Reads a tag and the fields of its command.
fn read_tagged(alloc: Global, reader: &mut FieldReader<'_>) -> Result<Option<Command>, OutOfMemory>
    ensures { IfOk result (λ command. MatchOption command (tagged_at reader.old ≡ None) (λ c. tagged_at reader.old ≡ Some (c, reader.new))) }
{
    match reader.u8() {
        Ok(0x01) => Ok(Some(Command::Tick)),
        Ok(0x02) => read_create_topic(alloc, reader),
        Ok(0x03) => read_update_topic(alloc, reader),
        Ok(0x04) => read_delete_topic(alloc, reader),
        Ok(0x05) => read_create_subscription(alloc, reader),
        Ok(0x06) => read_update_subscription(alloc, reader),
        Ok(0x07) => read_delete_subscription(alloc, reader),
        Ok(0x08) => read_detach(alloc, reader),
        Ok(0x09) => read_create_snapshot(alloc, reader),
        Ok(0x0a) => read_update_snapshot(alloc, reader),
        Ok(0x0b) => read_delete_snapshot(alloc, reader),
        Ok(0x0c) => read_publish(alloc, reader),
        Ok(0x0d) => read_pull(alloc, reader),
        Ok(0x0e) => read_acknowledge(alloc, reader),
        Ok(0x0f) => read_modify_ack_deadline(alloc, reader),
        Ok(0x10) => read_seek_time(alloc, reader),
        Ok(0x11) => read_seek_snapshot(alloc, reader),
        _ => Ok(None),
    }
}
