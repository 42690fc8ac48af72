ghost use Rattle.std.specs.Prelude.{◌≡◌, ℕ, List, Result, IfOk, true};
ghost use Rattle.ps_book.specs.declared.error.CallError.{CallError};
ghost use Rattle.ps_book.specs.declared.error.CallError.TheVariants as Fault;
ghost use Rattle.ps_http.specs.Answers.{has_phrase};
ghost use Rattle.ps_server.specs.Asking.{asked_is, answer_told, text_with};

use ps_base::{Octets, OutOfMemory};
use ps_book::{Answer, CallError, Machine};
use std::alloc::Global;

/// What a request asks: a command, or nothing but the code and the body of its refusal.
#[derive(Drop)]
pub enum Asked<C> {
    Command(C),
    Refused(u16, Octets),
}

/// How requests spell a machine's commands, and the codes and bodies that answer them.
pub trait HttpProtocol: Machine {
    /// What a method, a target and a body ask: a command, or the code and the body of the refusal.
    ghost asked: { List ℕ → List ℕ → List ℕ → Result Self.Command (ℕ × List ℕ) };

    /// The code and the body that tell a reply.
    ghost reply_answer: { Self.Reply → ℕ × List ℕ };

    /// The code and the body that tell why a call has no reply.
    ghost fault_answer: { CallError → ℕ × List ℕ };

    /// The body of the answer to bytes that are no request, by its code.
    ghost refusal_body: { ℕ → List ℕ };

    /// Reads what a request asks. Fails only if out of memory.
    fn read_request(
        alloc: Global,
        method: &str,
        target: &str,
        body: &[u8],
    ) -> Result<Asked<Self::Command>, OutOfMemory>
        ensures read { IfOk result (asked_is (asked method.now target.now body.now)) };

    /// The code and the body that tell how a call ended. Fails only if out of memory.
    fn print_answer(
        alloc: Global,
        answer: &Result<Answer<Self::Reply>, CallError>,
    ) -> Result<(u16, Octets), OutOfMemory>
        ensures told { IfOk result (λ it. it ≡ answer_told reply_answer fault_answer answer.now) }
        ensures phrase { IfOk result (λ it. has_phrase it.0 ≡ true) };

    /// The text of the answer that tells that there is no memory left. It takes none.
    fn memory_answer(close: bool) -> &'static [u8]
        ensures { result.now ≡ text_with close (fault_answer Fault.OutOfMemory) };

    /// The body of the answer to bytes that are no request, by its code.
    fn refusal_body(code: u16) -> &'static [u8]
        ensures { result.now ≡ refusal_body code };
}
