// Why a call has no command.
ghost use Rattle.std.specs.Prelude.{◌≡◌, IfOk};
ghost use Rattle.ps_base.specs.declared.refusal.Refusal.TheVariants.{InvalidArgument};
ghost use Rattle.ps_base.specs.declared.reason.Reason.TheVariants as reason;
ghost use Rattle.ps_json.specs.declared.read_error.ReadError.TheVariants as error;

use ps_base::{OutOfMemory, Reason, Refusal, Text};
use std::alloc::Global;

/// Why a call has no command.
#[derive(Debug, Drop)]
pub enum ReadError {
    /// A check is broken.
    Refused(Refusal),
    OutOfMemory,
}

impl From<OutOfMemory> for ReadError {
    ghost use Rattle.std.specs.Prelude.{◌≡◌};
    ghost use Rattle.ps_json.specs.declared.read_error.ReadError.TheVariants as error;

    ghost from_gives = { λ _ e. e ≡ error.OutOfMemory };

    fn from(_e: OutOfMemory) -> ReadError {
        ReadError::OutOfMemory
    }
}

/// The error of a call whose argument breaks this check.
pub fn refused(reason: Reason) -> ReadError
    ensures { result ≡ error.Refused (InvalidArgument reason) }
{
    ReadError::Refused(Refusal::InvalidArgument(reason))
}

/// The error of a body with another kind of value in this field. Fails only if out of memory.
pub fn shape(alloc: Global, name: &str) -> Result<ReadError, OutOfMemory>
    ensures { IfOk result (λ e. e ≡ error.Refused (InvalidArgument (reason.Shape name.now))) }
{
    let name = Text::from_str(alloc, name)?;
    Ok(refused(Reason::Shape(name)))
}
