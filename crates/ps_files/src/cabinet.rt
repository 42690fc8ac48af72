ghost use Rattle.std.specs.Prelude.{◌≡◌, ◌≢◌, ◌+◌, ◌-◌, ◌^◌, ℕ, List, min, [], Err, Ok, IsTrue, Some, None, false, IfOk, OnOk, OnErr, IfSome};
ghost use Rattle.std.specs.Str.{bytes_eq};
ghost use Rattle.ps_edge.specs.Files.{HasAsked, dash};
ghost use Rattle.ps_edge.specs.PathLogs.{is_out_of, kept, slot_at, stored};
ghost use Rattle.ps_files.specs.Cabinets.{IsHandedOut};
ghost use Rattle.ps_keeper.specs.Cause.{HasCause};
ghost use Rattle.ps_keeper.specs.Memory.{faults_after};
ghost use Rattle.ps_files.specs.Keepers.{faults_of, unfailed};

use crate::keeper::FileKeeper;
use crate::opening::{close_log, open_log};
use ps_base::{List, Text};
use ps_edge::{Cabinet, PathLog, is_kept, is_out, noted, put_back, take_out};
use ps_keeper::{KeeperError, MemoryKeeper};

/// A directory of logs in files. The log under `-` is in memory. A file stays open while its keeper is out and after it
/// came back, until the cabinet is closed.
#[derive(Drop)]
pub struct FileCabinet {
    rt: HostRuntime,
    slots: Vec<PathLog<FileKeeper>>,
    asked: Option<List<Text>>,
    faults: u64,
}

/// The keeper for a path: the one that came back, or else a new one. Its slot is empty then. A path whose keeper is out
/// is refused.
fn hand_out(
    rt: &HostRuntime,
    slots: &mut Vec<PathLog<FileKeeper>>,
    path: &str,
) -> Result<FileKeeper, KeeperError>
    ensures ok { OnOk result (slots.new.items ≡ stored path.now None slots.old.items) }
    ensures err { OnErr result (slots.new.items ≡ slots.old.items) }
    ensures given { IfOk result (IsHandedOut (bytes_eq path.now dash) (kept path.now slots.old.items)) }
    ensures dash { path.now ≡ dash → result ≢ Err KeeperError.Failed }
{
    let alloc = rt.alloc();
    if path == "-" {
        take_out(alloc, slots, path)?;
        return Ok(FileKeeper::Memory(MemoryKeeper::new(alloc)));
    }
    if is_out(slots.as_slice(), path) {
        return Err(KeeperError::Failed);
    }
    if !is_kept(slots.as_slice(), path) {
        let keeper = open_log(rt, path)?;
        take_out(alloc, slots, path)?;
        return Ok(FileKeeper::Sql(keeper));
    }
    match take_out(alloc, slots, path)? {
        Some(keeper) => Ok(keeper.reopened()),
        None => unreachable!(),
    }
}

impl FileCabinet {
    /// A cabinet that nobody has asked for a log.
    pub fn new(rt: HostRuntime) -> FileCabinet
        ensures { (result.slots.items ≡ []) × (result.asked ≡ Some []) × (result.faults ≡ 0) }
    {
        FileCabinet {
            rt,
            slots: Vec::new(rt.alloc()),
            asked: Some(List::new(rt.alloc())),
            faults: 0,
        }
    }

    /// Closes the files whose keepers came back, and says whether that went well. Each of them has its log in itself
    /// alone then; a file that can't be closed keeps a part of it beside itself, and loses nothing.
    pub fn close(self) -> bool {
        let FileCabinet { rt, slots, .. } = self;
        let mut closed = true;
        for slot in slots {
            let PathLog { path, keeper } = slot;
            if let Some(keeper) = keeper {
                closed = close_log(&rt, path.as_str(), keeper) && closed;
            }
        }
        closed
    }
}

impl Cabinet for FileCabinet {
    type K = FileKeeper;

    ghost use Rattle.ps_edge.specs.PathLogs.{is_out_of};
    ghost use Rattle.ps_files.specs.Cabinets.{is_known, leaves, log_of};

    ghost known = { λ c. is_known c.slots.items };

    ghost log = { λ c. log_of c.slots.items };

    ghost may_leave = { λ c. leaves c.slots.items };

    ghost is_out = { λ c path. is_out_of path c.slots.items };

    ghost asked = { λ c. c.asked };

    ghost faults = { λ c. c.faults };

    fn keeper(&mut self, path: &str) -> Result<FileKeeper, KeeperError>
        ensures taken { OnOk result (slot_at path.now self.new.slots.items ≡ Some None) }
        ensures refused { OnErr result (self.new.slots.items ≡ self.old.slots.items) }
        ensures given { IfOk result (IsHandedOut (bytes_eq path.now dash) (kept path.now self.old.slots.items)) }
        ensures others { (other : List ℕ) → other ≢ path.now → slot_at other self.new.slots.items ≡ slot_at other self.old.slots.items }
        ensures dash { path.now ≡ dash → result ≢ Err KeeperError.Failed }
        ensures asked { HasAsked path.now self.old.asked self.new.asked }
        ensures counted { self.new.faults ≡ faults_after self.old.faults result }
        ensures cause { HasCause self.old.faults self.new.faults result }
    {
        self.asked = noted(self.rt.alloc(), self.asked.take(), path);
        match hand_out(&self.rt, &mut self.slots, path) {
            Ok(keeper) => Ok(keeper),
            Err(KeeperError::Failed) => {
                self.faults = self.faults.saturating_add(1);
                Err(KeeperError::Failed)
            }
            Err(KeeperError::OutOfMemory) => Err(KeeperError::OutOfMemory),
        }
    }

    fn back(&mut self, path: &str, keeper: FileKeeper)
        ensures out { is_out_of path.now self.new.slots.items ≡ false }
        ensures kept { IsTrue (is_out_of path.now self.old.slots.items) → slot_at path.now self.new.slots.items ≡ Some (Some (unfailed keeper)) }
        ensures dropped { is_out_of path.now self.old.slots.items ≡ false → self.new.slots.items ≡ self.old.slots.items }
        ensures others { (other : List ℕ) → other ≢ path.now → slot_at other self.new.slots.items ≡ slot_at other self.old.slots.items }
        ensures asked { self.new.asked ≡ self.old.asked }
        ensures counted { self.new.faults ≡ min (self.old.faults + faults_of keeper) (2 ^ 64 - 1) }
    {
        self.faults = self.faults.saturating_add(keeper.faults());
        put_back(&mut self.slots, path, keeper.reopened());
    }
}
