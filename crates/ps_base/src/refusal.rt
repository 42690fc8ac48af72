ghost use Rattle.std.specs.Prelude.{◌≡◌, IfOk};
ghost use Rattle.ps_base.specs.Refusals.{code_of, status_of, message_of};

use crate::memory::{Duplicate, OutOfMemory};
use crate::reason::Reason;
use crate::text::Text;
use std::alloc::Global;

/// Why the service refused a command.
#[derive(Clone, Debug, Drop)]
pub enum Refusal {
    /// An argument breaks a check.
    InvalidArgument(Reason),
    /// Nothing has this name.
    NotFound(Text),
    /// Something already has this name.
    AlreadyExists(Text),
    /// The current state doesn't allow the command.
    FailedPrecondition(Reason),
    /// The record has as many entries as it can number.
    Exhausted,
    /// The field at this path, or the call of this name, isn't built.
    Unimplemented(Text),
}

impl Refusal {
    /// The HTTP status code of this refusal, as `google.rpc.Code` maps to it.
    pub fn code(&self) -> u16
        ensures { result ≡ code_of self.now }
    {
        match self {
            Refusal::InvalidArgument(_) | Refusal::FailedPrecondition(_) => 400,
            Refusal::NotFound(_) => 404,
            Refusal::AlreadyExists(_) => 409,
            Refusal::Exhausted => 429,
            Refusal::Unimplemented(_) => 501,
        }
    }

    /// The name of this refusal in `google.rpc.Code`.
    pub fn status(&self) -> &'static str
        ensures { result.now ≡ status_of self.now }
    {
        match self {
            Refusal::InvalidArgument(_) => "INVALID_ARGUMENT",
            Refusal::NotFound(_) => "NOT_FOUND",
            Refusal::AlreadyExists(_) => "ALREADY_EXISTS",
            Refusal::FailedPrecondition(_) => "FAILED_PRECONDITION",
            Refusal::Exhausted => "RESOURCE_EXHAUSTED",
            Refusal::Unimplemented(_) => "UNIMPLEMENTED",
        }
    }

    /// What a caller reads beside the code: a reason, a name or the path of a field. Fails only if out of memory.
    pub fn message(&self, alloc: Global) -> Result<Text, OutOfMemory>
        ensures { IfOk result (λ text. text ≡ message_of self.now) }
    {
        match self {
            Refusal::InvalidArgument(reason) | Refusal::FailedPrecondition(reason) => {
                reason.text(alloc)
            }
            Refusal::NotFound(name) | Refusal::AlreadyExists(name) => name.copy(alloc),
            Refusal::Exhausted => Text::from_str(alloc, "entries"),
            Refusal::Unimplemented(field) => field.copy(alloc),
        }
    }
}
