// The service that the program runs.
use crate::line::read_line;
use crate::numbers::{check_text, stat_text};
use ps_base::{Octets, OutOfMemory};
use ps_book::{Machine, Verdict};
use ps_core::Core;
use ps_json::print_reply;
use ps_model::{Command, Entry, Reply};
use ps_run::{Protocol, Reading, Report};
use std::alloc::Global;

/// The core, as a machine with a protocol of its own: calls and replies as lines of JSON.
#[derive(Drop)]
pub struct Service {
    core: Core,
}

/// The machine is the core's.
impl Machine for Service {
    ghost use Rattle.std.specs.Prelude.{refl};
    ghost use Rattle.ps_entry.specs.Entries.{entry_in};
    ghost use Rattle.ps_model.specs.declared.command.Command.TheVariants.{Tick};
    ghost use Rattle.ps_model.specs.declared.world.World.{World};
    ghost use Rattle.ps_model.specs.Step.{empty_world};
    ghost use Rattle.ps_core.specs.State.{seen};
    ghost use Rattle.ps_core.specs.Calls.{next, reply, entry_of, CanWrite};
    ghost use Rattle.ps_core.specs.Counts.{counts_entries};

    type Command = Command;

    type Entry = Entry;

    type Reply = Reply;

    ghost World = { World };

    ghost world = { λ it. seen it.core };

    ghost first = { empty_world };

    ghost next = { next };

    ghost reply = { reply };

    ghost entry_of = { entry_of };

    ghost number = { λ w. w.count };

    ghost spelled = { entry_in };

    ghost can_write = { CanWrite };

    ghost due = { Tick };

    ghost starts = { refl };

    ghost counts = { counts_entries };

    fn fresh(alloc: Global) -> Result<Service, OutOfMemory> {
        Ok(Service {
            core: Core::fresh(alloc)?,
        })
    }

    fn tick() -> Command {
        Core::tick()
    }

    fn count(&self) -> u64 {
        self.core.count()
    }

    fn judge(
        &mut self,
        alloc: Global,
        now: u64,
        command: &Command,
    ) -> Result<Verdict<Reply, Entry>, OutOfMemory> {
        self.core.judge(alloc, now, command)
    }

    fn apply(&mut self, alloc: Global, entry: &Entry) -> Result<bool, OutOfMemory> {
        self.core.apply(alloc, entry)
    }

    fn read_row(alloc: Global, body: &[u8]) -> Result<Option<Entry>, OutOfMemory> {
        Core::read_row(alloc, body)
    }

    fn write_row(alloc: Global, entry: &Entry) -> Result<Octets, OutOfMemory> {
        Core::write_row(alloc, entry)
    }
}

impl Protocol for Service {
    ghost use Rattle.pubsub.specs.Reading as spec;
    ghost use Rattle.pubsub.specs.Service.{text_of_report};
    ghost use Rattle.ps_core.specs.State.{seen};
    ghost use Rattle.ps_json.specs.Replies.{reply_text};

    ghost reading_of = { spec.reading_of };

    ghost reply_text = { reply_text };

    ghost report_text = { λ report it. text_of_report report (seen it.core) };

    fn read_line(alloc: Global, line: &[u8]) -> Result<Reading<Command>, OutOfMemory> {
        read_line(alloc, line)
    }

    fn print_reply(alloc: Global, reply: &Reply) -> Result<Octets, OutOfMemory> {
        print_reply(alloc, reply)
    }

    fn print_report(&self, alloc: Global, report: Report) -> Result<Octets, OutOfMemory> {
        match report {
            Report::Check => check_text(alloc, self.count()),
            Report::Stat => stat_text(alloc, self.core.stat()),
        }
    }
}
