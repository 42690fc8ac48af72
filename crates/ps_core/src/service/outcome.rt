ghost use Rattle.std.specs.Prelude.{◌≡◌, false, true, IfOk};
ghost use Rattle.ps_base.specs.declared.refusal.Refusal.TheVariants.{AlreadyExists, FailedPrecondition, NotFound};
ghost use Rattle.ps_model.specs.declared.reply.Reply.TheVariants.{Empty, Refused};

use ps_base::{OutOfMemory, Reason, Refusal, Text};
use ps_model::Reply;
use std::alloc::Global;

/// The outcome of a command that was carried out.
#[derive(Drop)]
pub struct Outcome {
    pub reply: Reply,
    /// Whether it changed the world, which makes it an entry.
    pub changed: bool,
}

impl Outcome {
    /// Nothing changed, and the answer is empty.
    pub fn nothing() -> Outcome
        ensures reply { result.reply ≡ Empty }
        ensures same { result.changed ≡ false }
    {
        Outcome {
            reply: Reply::Empty,
            changed: false,
        }
    }

    /// Nothing changed, and the answer shows something.
    pub fn shows(reply: Reply) -> Outcome
        ensures reply { result.reply ≡ reply }
        ensures same { result.changed ≡ false }
    {
        Outcome {
            reply,
            changed: false,
        }
    }

    /// The command changed the world.
    pub fn changes(reply: Reply) -> Outcome
        ensures reply { result.reply ≡ reply }
        ensures changed { result.changed ≡ true }
    {
        Outcome {
            reply,
            changed: true,
        }
    }

    /// A resource has this name already.
    pub fn taken(alloc: Global, name: &str) -> Result<Outcome, OutOfMemory>
        ensures reply { IfOk result (λ outcome. outcome.reply ≡ Refused (AlreadyExists name.now)) }
        ensures same { IfOk result (λ outcome. outcome.changed ≡ false) }
    {
        Ok(Outcome {
            reply: Reply::Refused(Refusal::AlreadyExists(Text::from_str(alloc, name)?)),
            changed: false,
        })
    }

    /// The state doesn't allow the command.
    pub fn not_allowed(reason: Reason) -> Outcome
        ensures reply { result.reply ≡ Refused (FailedPrecondition reason) }
        ensures same { result.changed ≡ false }
    {
        Outcome {
            reply: Reply::Refused(Refusal::FailedPrecondition(reason)),
            changed: false,
        }
    }

    /// There is no resource with this name.
    pub fn missing(alloc: Global, name: &str) -> Result<Outcome, OutOfMemory>
        ensures reply { IfOk result (λ outcome. outcome.reply ≡ Refused (NotFound name.now)) }
        ensures same { IfOk result (λ outcome. outcome.changed ≡ false) }
    {
        Ok(Outcome {
            reply: Reply::Refused(Refusal::NotFound(Text::from_str(alloc, name)?)),
            changed: false,
        })
    }
}
