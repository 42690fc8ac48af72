ghost use Rattle.std.specs.Prelude.{◌≡◌, Some, None, IfOk, true, false};
ghost use Rattle.ps_model.specs.Checks.{argument_fault, as_read, is_normal};
ghost use Rattle.ps_model.specs.Families.{is_topic_command, is_subscription_command, is_delivery_command, is_list_command};
ghost use Rattle.ps_core.specs.Built.{unbuilt};

use crate::built::{argument_fault, as_read, unbuilt};
use crate::service::outcome::Outcome;
use crate::service::{Core, MOST_ENTRIES};
use ps_base::{Moment, OutOfMemory, Refusal, Text};
use ps_book::Verdict;
use ps_model::{Command, Entry, Reply};
use std::alloc::Global;

impl Core {
    ghost use Rattle.ps_core.specs.Carrying.{CanRecord, IsCarried, IsEntryFor};
    ghost use Rattle.ps_core.specs.State.{seen};
    ghost use Rattle.ps_core.specs.Steady.{IsSteady};
    ghost use Rattle.ps_core.specs.Calls.{refusal_of, IsTicked, IsJudged};
    ghost use Rattle.ps_core.specs.Effects.{recorded_at};
    ghost use Rattle.ps_model.specs.declared.command.Command.TheVariants.{Tick};
    ghost use Rattle.ps_model.specs.declared.reply.Reply.TheVariants.{Refused};

    /// Carries out a command that isn't refused, in the form in which it is recorded and in the settled world.
    pub(super) fn carry(
        &mut self,
        alloc: Global,
        at: Moment,
        command: &Command,
    ) -> Result<Outcome, OutOfMemory>
        requires can { CanRecord at self.old }
        requires built { unbuilt command.now ≡ None }
        requires normal { is_normal command.now ≡ true }
        requires good { argument_fault command.now ≡ None }
        ensures { IfOk result (λ outcome. IsCarried at command.now self.old self.new outcome.reply outcome.changed) }
    {
        match command {
            Command::Tick => Ok(Outcome::nothing()),
            Command::CreateTopic { .. }
            | Command::UpdateTopic { .. }
            | Command::GetTopic { .. }
            | Command::DeleteTopic { .. }
            | Command::Publish { .. } => self.carry_topic(alloc, at, command),
            Command::CreateSubscription { .. }
            | Command::UpdateSubscription { .. }
            | Command::GetSubscription { .. }
            | Command::DeleteSubscription { .. }
            | Command::Detach { .. } => self.carry_subscription(alloc, at, command),
            Command::Pull { .. }
            | Command::Acknowledge { .. }
            | Command::ModifyAckDeadline { .. } => self.carry_delivery(alloc, at, command),
            Command::ListTopics { .. }
            | Command::ListTopicSubscriptions { .. }
            | Command::ListSubscriptions { .. } => self.carry_list(alloc, at, command),
            // Not built, so refused before.
            Command::ListTopicSnapshots { .. }
            | Command::SeekTime { .. }
            | Command::SeekSnapshot { .. }
            | Command::CreateSnapshot { .. }
            | Command::UpdateSnapshot { .. }
            | Command::GetSnapshot { .. }
            | Command::DeleteSnapshot { .. }
            | Command::ListSnapshots { .. } => Ok(Outcome::nothing()),
        }
    }

    /// Carries out a command on a topic like `carry`.
    fn carry_topic(
        &mut self,
        alloc: Global,
        at: Moment,
        command: &Command,
    ) -> Result<Outcome, OutOfMemory>
        requires can { CanRecord at self.old }
        requires family { is_topic_command command.now ≡ true }
        requires built { unbuilt command.now ≡ None }
        requires good { argument_fault command.now ≡ None }
        ensures { IfOk result (λ outcome. IsCarried at command.now self.old self.new outcome.reply outcome.changed) }
    {
        match command {
            Command::CreateTopic { topic, config } => self.create_topic(alloc, at, topic, config),
            Command::UpdateTopic {
                topic,
                mask,
                config,
            } => self.update_topic(alloc, at, topic, *mask, config),
            Command::GetTopic { topic } => self.get_topic(alloc, at, topic),
            Command::DeleteTopic { topic } => self.delete_topic(alloc, at, topic),
            Command::Publish { topic, messages } => {
                self.publish(alloc, at, topic, messages.as_slice())
            }
            _ => Ok(Outcome::nothing()),
        }
    }

    /// Carries out a command on a subscription as a resource like `carry`.
    fn carry_subscription(
        &mut self,
        alloc: Global,
        at: Moment,
        command: &Command,
    ) -> Result<Outcome, OutOfMemory>
        requires can { CanRecord at self.old }
        requires family { is_subscription_command command.now ≡ true }
        requires built { unbuilt command.now ≡ None }
        requires good { argument_fault command.now ≡ None }
        ensures { IfOk result (λ outcome. IsCarried at command.now self.old self.new outcome.reply outcome.changed) }
    {
        match command {
            Command::CreateSubscription {
                subscription,
                topic,
                config,
            } => self.create_subscription(alloc, at, subscription, topic, config),
            Command::UpdateSubscription {
                subscription,
                mask,
                config,
            } => self.update_subscription(alloc, at, subscription, *mask, config),
            Command::GetSubscription { subscription } => {
                self.get_subscription(alloc, at, subscription)
            }
            Command::DeleteSubscription { subscription } => {
                self.delete_subscription(alloc, at, subscription)
            }
            Command::Detach { subscription } => self.detach(alloc, at, subscription),
            _ => Ok(Outcome::nothing()),
        }
    }

    /// Carries out a pull, an acknowledgement or a change of deadlines like `carry`.
    fn carry_delivery(
        &mut self,
        alloc: Global,
        at: Moment,
        command: &Command,
    ) -> Result<Outcome, OutOfMemory>
        requires can { CanRecord at self.old }
        requires family { is_delivery_command command.now ≡ true }
        requires built { unbuilt command.now ≡ None }
        requires normal { is_normal command.now ≡ true }
        requires good { argument_fault command.now ≡ None }
        ensures { IfOk result (λ outcome. IsCarried at command.now self.old self.new outcome.reply outcome.changed) }
    {
        match command {
            Command::Pull {
                subscription,
                max,
                budget,
                seconds,
            } => self.pull(alloc, at, subscription, *max, *budget, *seconds),
            Command::Acknowledge { subscription, ids } => {
                self.acknowledge(alloc, at, subscription, ids.as_slice())
            }
            Command::ModifyAckDeadline {
                subscription,
                items,
            } => self.modify(alloc, at, subscription, items.as_slice()),
            _ => Ok(Outcome::nothing()),
        }
    }

    /// Shows a list like `carry`.
    fn carry_list(
        &self,
        alloc: Global,
        at: Moment,
        command: &Command,
    ) -> Result<Outcome, OutOfMemory>
        requires can { CanRecord at self.now }
        requires family { is_list_command command.now ≡ true }
        requires built { unbuilt command.now ≡ None }
        ensures { IfOk result (λ outcome. IsCarried at command.now self.now self.now outcome.reply outcome.changed) }
    {
        match command {
            Command::ListTopics { project, paging } => {
                self.list_topics(alloc, at, project, paging)
            }
            Command::ListTopicSubscriptions { topic, paging } => {
                self.list_topic_subscriptions(alloc, at, topic, paging)
            }
            Command::ListSubscriptions { project, paging } => {
                self.list_subscriptions(alloc, at, project, paging)
            }
            _ => Ok(Outcome::nothing()),
        }
    }

    /// Why a command is refused before the state is looked at.
    pub(super) fn refusal(
        &self,
        alloc: Global,
        command: &Command,
    ) -> Result<Option<Refusal>, OutOfMemory>
        ensures refusal { IfOk result (λ refusal. refusal ≡ refusal_of (seen self.now) command.now) }
        ensures steady { IsSteady self.now }
    {
        let full = self.count == MOST_ENTRIES;
        if let Some(missing) = unbuilt(command) {
            let missing = Text::from_str(alloc, missing)?;
            return Ok(Some(Refusal::Unimplemented(missing)));
        }
        if let Some(reason) = argument_fault(alloc, command)? {
            return Ok(Some(Refusal::InvalidArgument(reason)));
        }
        Ok(if full { Some(Refusal::Exhausted) } else { None })
    }

    /// The Tick that records what settling did, if it did something.
    fn tick_if(&mut self, at: Moment, moved: bool) -> Option<Entry>
        requires can { CanRecord at self.old }
        ensures moved { moved ≡ true → (result ≡ Some (record { now = at; command = Tick })) × (self.new ≡ recorded_at at self.old) }
        ensures still { moved ≡ false → (result ≡ None) × (self.new ≡ self.old) }
    {
        if !moved {
            return None;
        }
        self.record(at);
        Some(Entry {
            now: at.milliseconds(),
            command: Command::Tick,
        })
    }

    /// Settles what is due if the command itself is refused, and gives the Tick that records it.
    fn settle_alone(&mut self, alloc: Global, now: u64) -> Result<Option<Entry>, OutOfMemory>
        ensures { IfOk result (λ entry. IsTicked (seen self.old) now entry (seen self.new)) }
    {
        if self.is_full() {
            return Ok(None);
        }
        let at = self.moment(now);
        let due = self.settle(alloc, at)?;
        Ok(self.tick_if(at, due))
    }

    /// The entry of a command that was carried out: the command itself if it changed the world, and else a Tick if
    /// settling did.
    fn entry_for(&mut self, at: Moment, moved: bool, changed: bool, read: Command) -> Option<Entry>
        requires can { changed ≡ false → CanRecord at self.old }
        ensures { IsEntryFor at read moved changed self.old self.new result }
    {
        if changed {
            entry_of(at, read)
        } else {
            drop(read);
            self.tick_if(at, moved)
        }
    }

    /// The answer to a command that was carried out, with its entry.
    fn verdict(
        &mut self,
        at: Moment,
        moved: bool,
        outcome: Outcome,
        read: Command,
    ) -> Verdict<Reply, Entry>
        requires can { outcome.changed ≡ false → CanRecord at self.old }
        ensures reply { result.reply ≡ outcome.reply }
        ensures entry { IsEntryFor at read moved outcome.changed self.old self.new result.entry }
    {
        let Outcome { reply, changed } = outcome;
        Verdict {
            reply,
            entry: self.entry_for(at, moved, changed, read),
        }
    }

    /// Answers a command that isn't refused, and makes its step.
    fn judge_good(
        &mut self,
        alloc: Global,
        now: u64,
        command: &Command,
    ) -> Result<Verdict<Reply, Entry>, OutOfMemory>
        requires { refusal_of (seen self.old) command.now ≡ None }
        ensures { IfOk result (λ v. IsJudged (seen self.old) now command.now v.reply v.entry (seen self.new)) }
    {
        let at = self.moment(now);
        let moved = self.settle(alloc, at)?;
        let read = as_read(alloc, command)?;
        match self.carry(alloc, at, &read) {
            Ok(outcome) => Ok(self.verdict(at, moved, outcome, read)),
            Err(error) => Err(without_command(read, error)),
        }
    }

    /// Answers a command that is refused.
    fn refuse(
        &mut self,
        alloc: Global,
        now: u64,
        refusal: Refusal,
    ) -> Result<Verdict<Reply, Entry>, OutOfMemory>
        ensures ticked { IfOk result (λ v. IsTicked (seen self.old) now v.entry (seen self.new)) }
        ensures reply { IfOk result (λ v. v.reply ≡ Refused refusal) }
    {
        let reply = Reply::Refused(refusal);
        match self.settle_alone(alloc, now) {
            Ok(entry) => Ok(Verdict { reply, entry }),
            Err(error) => Err(without_reply(reply, error)),
        }
    }

    /// Answers a command that comes `now` milliseconds after 1970 began, and makes its step.
    pub(crate) fn judge_command(
        &mut self,
        alloc: Global,
        now: u64,
        command: &Command,
    ) -> Result<Verdict<Reply, Entry>, OutOfMemory>
        ensures { IfOk result (λ v. IsJudged (seen self.old) now command.now v.reply v.entry (seen self.new)) }
    {
        match self.refusal(alloc, command)? {
            None => self.judge_good(alloc, now, command),
            Some(refusal) => self.refuse(alloc, now, refusal),
        }
    }
}

fn entry_of(at: Moment, command: Command) -> Option<Entry>
    ensures { result ≡ Some (record { now = at; command = command }) }
{
    Some(Entry {
        now: at.milliseconds(),
        command,
    })
}

/// Drops a command when there was no memory to carry it out.
fn without_command(_read: Command, error: OutOfMemory) -> OutOfMemory {
    error
}

/// Drops an answer when there was no memory to settle.
fn without_reply(_reply: Reply, error: OutOfMemory) -> OutOfMemory {
    error
}
