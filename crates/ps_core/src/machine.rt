use crate::service::Core;
use ps_base::{Octets, OutOfMemory};
use ps_book::{Machine, Verdict};
use ps_model::{Command, Entry, Reply};
use std::alloc::Global;

impl Machine for Core {
    ghost use Rattle.std.specs.Prelude.{refl};
    ghost use Rattle.ps_entry.specs.Entries.{entry_in};
    ghost use Rattle.ps_model.specs.declared.command.Command.TheVariants.{Tick};
    ghost use Rattle.ps_model.specs.declared.world.World.{World};
    ghost use Rattle.ps_model.specs.Step.{empty_world};
    ghost use Rattle.ps_core.specs.State.{seen};
    ghost use Rattle.ps_core.specs.Calls.{next, reply, entry_of, CanWrite};
    ghost use Rattle.ps_core.specs.Counts.{counts_entries};

    type Command = Command;

    type Entry = Entry;

    type Reply = Reply;

    ghost World = { World };

    ghost world = { λ it. seen it };

    ghost first = { empty_world };

    ghost next = { next };

    ghost reply = { reply };

    ghost entry_of = { entry_of };

    ghost number = { λ w. w.count };

    ghost spelled = { entry_in };

    ghost can_write = { CanWrite };

    ghost due = { Tick };

    ghost starts = { refl };

    ghost counts = { counts_entries };

    fn fresh(alloc: Global) -> Result<Core, OutOfMemory> {
        Ok(Core::new(alloc))
    }

    fn tick() -> Command {
        Command::Tick
    }

    fn count(&self) -> u64 {
        self.entries()
    }

    fn judge(
        &mut self,
        alloc: Global,
        now: u64,
        command: &Command,
    ) -> Result<Verdict<Reply, Entry>, OutOfMemory> {
        self.judge_command(alloc, now, command)
    }

    fn apply(&mut self, alloc: Global, entry: &Entry) -> Result<bool, OutOfMemory> {
        self.apply_entry(alloc, entry)
    }

    fn read_row(alloc: Global, body: &[u8]) -> Result<Option<Entry>, OutOfMemory> {
        ps_entry::read(alloc, body)
    }

    fn write_row(alloc: Global, entry: &Entry) -> Result<Octets, OutOfMemory> {
        ps_entry::write(alloc, entry)
    }
}
