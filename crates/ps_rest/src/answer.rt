// The code and the body that answer a call.
ghost use Rattle.std.specs.Prelude.{◌≡◌, ℕ, IfOk};
ghost use Rattle.ps_rest.specs.Answers as spec;

use ps_base::{Octets, OutOfMemory, Refusal};
use ps_book::{Answer, CallError};
use ps_json::{code, print_body, refusal_body};
use ps_model::Reply;
use std::alloc::Global;

/// The code and the body that answer a call of a book. Fails only if out of memory: `memory_text` is the body of the
/// answer 507 then.
pub fn answer_text(
    alloc: Global,
    answer: &Result<Answer<Reply>, CallError>,
) -> Result<(u16, Octets), OutOfMemory>
    ensures { IfOk result (λ it. it ≡ spec.answer_of answer.now) }
{
    match answer {
        Ok(answer) => reply_answer(alloc, &answer.reply),
        Err(error) => fault_answer(alloc, *error),
    }
}

fn reply_answer(alloc: Global, reply: &Reply) -> Result<(u16, Octets), OutOfMemory>
    ensures { IfOk result (λ it. it ≡ spec.reply_answer reply.now) }
{
    let body = print_body(alloc, reply)?;
    Ok((code(reply), body))
}

/// The code and the body of a call that was refused before it was judged.
pub fn refusal_answer(alloc: Global, refusal: &Refusal) -> Result<(u16, Octets), OutOfMemory>
    ensures { IfOk result (λ it. it ≡ spec.refusal_answer refusal.now) }
{
    let body = refusal_body(alloc, refusal)?;
    Ok((refusal.code(), body))
}

fn fault_answer(alloc: Global, error: CallError) -> Result<(u16, Octets), OutOfMemory>
    ensures { IfOk result (λ it. it ≡ spec.fault_answer error) }
{
    match error {
        CallError::StoreFault => {
            let body =
                b"{\"error\":{\"code\":503,\"message\":\"store fault\",\"status\":\"UNAVAILABLE\"}}";
            Ok((503, Octets::from_slice(alloc, body)?))
        }
        CallError::BadRow { seq } => Ok((500, bad_row_body(alloc, seq)?)),
        CallError::OutOfMemory => Ok((507, Octets::from_slice(alloc, memory_text())?)),
    }
}

fn bad_row_body(alloc: Global, seq: u64) -> Result<Octets, OutOfMemory>
    ensures { IfOk result (λ body. body ≡ spec.fault_body (CallError.BadRow seq)) }
{
    let body = format!(in alloc;
        "{{\"error\":{{\"code\":500,\"message\":\"bad row {seq}\",\"status\":\"INTERNAL\"}}}}"
    )?;
    Ok(Octets::from_vec(body.into_bytes()))
}

/// The body of the answer 507, for a call that ran out of memory. Takes no memory.
pub fn memory_text() -> &'static [u8]
    ensures { result.now ≡ spec.memory_body }
{
    b"{\"error\":{\"code\":507,\"message\":\"out of memory\",\"status\":\"OUT_OF_MEMORY\"}}"
}

/// The body of the answer with this code to bytes that are no request, as if it were 501 if no such answer has it. Takes no
/// memory.
pub fn framing_text(code: u16) -> &'static [u8]
    ensures { result.now ≡ spec.framing_body code }
{
    match code {
        400 => b"{\"error\":{\"code\":400,\"message\":\"http\",\"status\":\"INVALID_ARGUMENT\"}}",
        413 => b"{\"error\":{\"code\":413,\"message\":\"http\",\"status\":\"TOO_LARGE\"}}",
        415 =>
            b"{\"error\":{\"code\":415,\"message\":\"http\",\"status\":\"UNSUPPORTED_MEDIA_TYPE\"}}",
        431 => b"{\"error\":{\"code\":431,\"message\":\"http\",\"status\":\"HEADERS_TOO_LARGE\"}}",
        _ => b"{\"error\":{\"code\":501,\"message\":\"http\",\"status\":\"UNIMPLEMENTED\"}}",
    }
}
