// Reading from a link into a buffer.
ghost use Rattle.std.specs.Prelude.{◌≡◌, ◌<◌, ◌≤◌, length, OnOk, IfErr};
ghost use Rattle.ps_http.specs.Reading.{HasPaused, OnPause, Reads};

use ps_base::OutOfMemory;
use ps_edge::{Link, LinkGot};
use std::alloc::AllocError;

/// Why no more is read: the end, nothing so far, a fault, or no memory left.
#[derive(Clone, Copy, PartialEq, Eq)]
pub(crate) enum Pause {
    Ended,
    NotYet,
    ReadFault,
    OutOfMemory,
}

impl From<OutOfMemory> for Pause {
    ghost use Rattle.std.specs.Prelude.{◌≡◌};
    ghost use Rattle.ps_http.specs.declared.reading.Pause.TheVariants.{OutOfMemory as Wanting};

    ghost from_gives = { λ _ pause. pause ≡ Wanting };

    fn from(_e: OutOfMemory) -> Pause {
        Pause::OutOfMemory
    }
}

impl From<AllocError> for Pause {
    ghost use Rattle.std.specs.Prelude.{◌≡◌};
    ghost use Rattle.ps_http.specs.declared.reading.Pause.TheVariants.{OutOfMemory as Wanting};

    ghost from_gives = { λ _ pause. pause ≡ Wanting };

    fn from(_e: AllocError) -> Pause {
        Pause::OutOfMemory
    }
}

/// Reads once, and adds what came to the buffer.
pub(crate) fn read_more<L: Link>(link: &mut L, bytes: &mut Vec<u8>) -> Result<(), Pause>
    ensures reads { Reads L.Link link.old link.new bytes.old.items bytes.new.items result }
    ensures paused { IfErr result (HasPaused L.Link link.old link.new) }
    ensures more { OnOk result (length bytes.old.items < length bytes.new.items) }
    ensures same { OnPause result (bytes.new.items ≡ bytes.old.items) }
{
    let mut room = [0u8; 4096];
    match link.read(&mut room) {
        LinkGot::Bytes(count) => {
            bytes.extend_from_slice(&room[..count])?;
            Ok(())
        }
        LinkGot::End => Err(Pause::Ended),
        LinkGot::NotYet => Err(Pause::NotYet),
        LinkGot::Failed => Err(Pause::ReadFault),
    }
}

/// Reads until the buffer has so many bytes.
pub(crate) fn fill_to<L: Link>(link: &mut L, bytes: &mut Vec<u8>, need: usize) -> Result<(), Pause>
    ensures reads { Reads L.Link link.old link.new bytes.old.items bytes.new.items result }
    ensures paused { IfErr result (HasPaused L.Link link.old link.new) }
    ensures enough { OnOk result (need ≤ length bytes.new.items) }
    ensures short { OnPause result (length bytes.new.items < need) }
{
    while bytes.len() < need {
        read_more(link, bytes)?;
    }
    Ok(())
}
