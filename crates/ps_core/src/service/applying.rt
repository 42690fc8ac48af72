ghost use Rattle.std.specs.Prelude.{◌≡◌, ◌&&◌, None, IfOk, is_some, true};
ghost use Rattle.ps_core.specs.Calls.{is_tick};
ghost use Rattle.ps_model.specs.Checks.{argument_fault, as_read, is_normal};
ghost use Rattle.ps_model.specs.declared.reply.Reply.{Reply};
ghost use Rattle.ps_core.specs.Built.{unbuilt};

use crate::built::is_tick;
use crate::service::Core;
use crate::service::outcome::Outcome;
use ps_base::{Moment, OutOfMemory};
use ps_model::{Command, Entry, is_normal};
use std::alloc::Global;

impl Core {
    ghost use Rattle.ps_core.specs.Applying.{Applies};
    ghost use Rattle.ps_core.specs.Calls.{refusal_of};
    ghost use Rattle.ps_core.specs.Carrying.{CanRecord, IsCarried};
    ghost use Rattle.ps_core.specs.State.{seen};
    ghost use Rattle.ps_core.specs.Steady.{IsSteady};

    /// Whether a command is refused before the state is looked at.
    fn is_refused(&self, alloc: Global, command: &Command) -> Result<bool, OutOfMemory>
        ensures refused { IfOk result (λ refused. refused ≡ is_some (refusal_of (seen self.now) command.now)) }
        ensures steady { IsSteady self.now }
    {
        Ok(self.refusal(alloc, command)?.is_some())
    }

    /// Carries out a command like `carry`, and returns only whether it changed the world.
    fn carry_alone(
        &mut self,
        alloc: Global,
        at: Moment,
        command: &Command,
    ) -> Result<bool, OutOfMemory>
        requires can { CanRecord at self.old }
        requires built { unbuilt command.now ≡ None }
        requires normal { is_normal command.now ≡ true }
        requires good { argument_fault command.now ≡ None }
        ensures { IfOk result (λ changed. (told : Reply) × IsCarried at command.now self.old self.new told changed) }
    {
        let outcome = self.carry(alloc, at, command)?;
        Ok(is_changed(outcome))
    }

    /// Makes the step of an entry if it is accepted, and returns whether it was.
    pub(crate) fn apply_entry(
        &mut self,
        alloc: Global,
        recorded: &Entry,
    ) -> Result<bool, OutOfMemory>
        ensures { IfOk result (λ taken. Applies (seen self.old) recorded.entry.now taken (seen self.new)) }
    {
        let command = &recorded.command;
        let refused = self.is_refused(alloc, command)?;
        if refused {
            return Ok(false);
        }
        if !is_normal(command) {
            return Ok(false);
        }
        let at = self.moment(recorded.now);
        if at.milliseconds() != recorded.now {
            return Ok(false);
        }
        let moved = self.settle(alloc, at)?;
        if self.carry_alone(alloc, at, command)? {
            return Ok(true);
        }
        if !is_due_tick(command, moved) {
            return Ok(false);
        }
        self.record(at);
        Ok(true)
    }
}

/// Drops the answer.
fn is_changed(outcome: Outcome) -> bool
    ensures { result ≡ outcome.changed }
{
    outcome.changed
}

/// Whether the command only asks to settle, and settling did something.
fn is_due_tick(command: &Command, moved: bool) -> bool
    ensures { result ≡ (is_tick command.now && moved) }
{
    is_tick(command) && moved
}
