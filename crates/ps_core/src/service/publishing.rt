ghost use Rattle.std.specs.Prelude.{◌≡◌, ◌≤◌, ◌<◌, ◌^◌, None, IfOk};
ghost use Rattle.ps_message.specs.Messages.{publish_fault};
ghost use Rattle.ps_model.specs.declared.command.Command.TheVariants.{Publish};

use crate::service::outcome::Outcome;
use crate::service::{Core, give_up};
use ps_base::{Moment, OutOfMemory};
use ps_message::Message;
use ps_model::Reply;
use ps_names::TopicName;
use std::alloc::Global;

impl Core {
    ghost use Rattle.ps_core.specs.Carrying.{CanRecord, IsCarried};

    /// Publishes messages to a topic (API reference, Publisher.Publish).
    pub(super) fn publish(
        &mut self,
        alloc: Global,
        at: Moment,
        topic: &TopicName,
        messages: &[Message],
    ) -> Result<Outcome, OutOfMemory>
        requires can { CanRecord at self.old }
        requires fits { publish_fault messages.now ≡ None }
        ensures { IfOk result (λ outcome. IsCarried at (Publish topic.now messages.now) self.old self.new outcome.reply outcome.changed) }
    {
        let Some(kept) = self.topic_named(topic.text()) else {
            return Outcome::missing(alloc, topic.text());
        };
        let first = self.next_message;
        let number = kept.row.number;
        // Counted first: there are never more messages than a thousand for each entry.
        self.record(at);
        if let Err(error) = self.tables.publish(alloc, number, first, at, messages) {
            return Err(give_up(&mut self.tables, alloc, error));
        }
        self.next_message += messages.len() as u64;
        Ok(Outcome::changes(Reply::Published {
            first,
            number: messages.len() as u32,
        }))
    }
}
