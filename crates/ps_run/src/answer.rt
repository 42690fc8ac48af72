// The text that answers a line.
ghost use Rattle.std.specs.Prelude.{◌≡◌, ◌⊎◌, ℕ, IfOk};
ghost use Rattle.ps_book.specs.Books.{MeansSome, GoesOn};
ghost use Rattle.ps_run.specs.FaultTexts.{fault_text};
ghost use Rattle.ps_run.specs.Leading.{printed_bytes};
ghost use Rattle.ps_run.specs.Runs.{GivesText, GivesTextFor};

use crate::pending::Pending;
use crate::protocol::{Protocol, Reading};
use ps_base as base;
use ps_book::{Book, CallError};
use ps_keeper::Keeper;
use std::alloc::Global;

/// The text for a line. Those for most faults take no memory.
#[derive(Drop)]
pub enum Printed {
    Text(base::Octets),
    TooLong,
    StoreFault,
    OutOfMemory,
}

impl Printed {
    pub fn as_slice(&self) -> &[u8]
        ensures { result.now ≡ printed_bytes self.now }
    {
        match self {
            Printed::Text(text) => text.as_slice(),
            Printed::TooLong =>
                b"{\"body\":{\"error\":{\"code\":413,\"message\":\"line\",\"status\":\"TOO_LARGE\"}},\"code\":413}\n",
            Printed::StoreFault =>
                b"{\"body\":{\"error\":{\"code\":503,\"message\":\"store fault\",\"status\":\"UNAVAILABLE\"}},\"code\":503}\n",
            Printed::OutOfMemory =>
                b"{\"body\":{\"error\":{\"code\":507,\"message\":\"out of memory\",\"status\":\"OUT_OF_MEMORY\"}},\"code\":507}\n",
        }
    }
}

/// The text for a bad row of this number.
fn bad_row_text(alloc: Global, seq: u64) -> Result<base::Octets, base::OutOfMemory>
    ensures { IfOk result (λ text. text ≡ fault_text (CallError.BadRow seq)) }
{
    let text = format!(in alloc;
        "{{\"body\":{{\"error\":{{\"code\":500,\"message\":\"bad row {seq}\",\"status\":\"INTERNAL\"}}}},\"code\":500}}\n"
    )?;
    Ok(base::Octets::from_vec(text.into_bytes()))
}

/// The text for a line whose call was refused.
fn print_fault(alloc: Global, error: CallError) -> Printed
    ensures text { (printed_bytes result ≡ fault_text error) ⊎ (printed_bytes result ≡ fault_text CallError.OutOfMemory) }
    ensures own { ((seq : ℕ) → error ≡ CallError.BadRow seq → ⊥) → printed_bytes result ≡ fault_text error }
{
    match error {
        CallError::StoreFault => Printed::StoreFault,
        CallError::BadRow { seq } => match bad_row_text(alloc, seq) {
            Ok(text) => Printed::Text(text),
            Err(_) => Printed::OutOfMemory,
        },
        CallError::OutOfMemory => Printed::OutOfMemory,
    }
}

/// Carries a command out, and gives the text of its reply or of its fault.
fn answer_call<M: Protocol, K: Keeper>(
    alloc: Global,
    book: &mut Book<M, K>,
    now: u64,
    command: &M::Command,
) -> Printed
    requires { MeansSome M.Machine K.Keeper book.old }
    ensures fate { GivesText M.Machine M.Protocol.own K.Keeper book.old book.new (Reading.Call now command.now) (printed_bytes result) }
    ensures goes { GoesOn M.Machine K.Keeper book.old book.new }
{
    match book.call(now, command) {
        Ok(answer) => match M::print_reply(alloc, &answer.reply) {
            Ok(text) => Printed::Text(text),
            Err(_) => Printed::OutOfMemory,
        },
        Err(error) => print_fault(alloc, error),
    }
}

/// The text for a line that has ended: of its reply, its refusal or its fault.
pub fn answer_line<M: Protocol, K: Keeper>(
    alloc: Global,
    book: &mut Book<M, K>,
    pending: &Pending,
) -> Printed
    requires { MeansSome M.Machine K.Keeper book.old }
    ensures fate { GivesTextFor M.Machine M.Protocol.own K.Keeper book.old book.new pending.now (printed_bytes result) }
    ensures goes { GoesOn M.Machine K.Keeper book.old book.new }
{
    let Some(line) = pending.line() else {
        return Printed::TooLong;
    };
    match M::read_line(alloc, line) {
        Ok(Reading::Call { now, command }) => answer_call(alloc, book, now, &command),
        Ok(Reading::Refused { text }) => Printed::Text(text),
        Err(_) => Printed::OutOfMemory,
    }
}
