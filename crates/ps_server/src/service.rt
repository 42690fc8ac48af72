// The service over HTTP: its calls are asked by requests.
use crate::protocol::{Asked, HttpProtocol};
use ps_base::{Octets, OutOfMemory};
use ps_book::{Answer, CallError};
use ps_core::Core;
use ps_json::ReadError;
use ps_model::{Command, Reply};
use ps_rest::{answer_text, framing_text, refusal_answer, route};
use std::alloc::Global;

impl HttpProtocol for Core {
    ghost use Rattle.ps_rest.specs.Answers as spec;
    ghost use Rattle.ps_server.specs.Service.{asked};

    ghost asked = { asked };

    ghost reply_answer = { spec.reply_answer };

    ghost fault_answer = { spec.fault_answer };

    ghost refusal_body = { spec.framing_body };

    fn read_request(
        alloc: Global,
        method: &str,
        target: &str,
        body: &[u8],
    ) -> Result<Asked<Command>, OutOfMemory> {
        match route(alloc, method, target, body) {
            Ok(command) => Ok(Asked::Command(command)),
            Err(ReadError::Refused(refusal)) => {
                let (code, body) = refusal_answer(alloc, &refusal)?;
                Ok(Asked::Refused(code, body))
            }
            Err(ReadError::OutOfMemory) => Err(OutOfMemory),
        }
    }

    fn print_answer(
        alloc: Global,
        answer: &Result<Answer<Reply>, CallError>,
    ) -> Result<(u16, Octets), OutOfMemory> {
        answer_text(alloc, answer)
    }

    fn memory_answer(close: bool) -> &'static [u8] {
        if close {
            b"HTTP/1.1 507 Insufficient Storage\r\ncontent-type: application/json\r\ncontent-length: 73\r\nconnection: close\r\n\r\n{\"error\":{\"code\":507,\"message\":\"out of memory\",\"status\":\"OUT_OF_MEMORY\"}}"
        } else {
            b"HTTP/1.1 507 Insufficient Storage\r\ncontent-type: application/json\r\ncontent-length: 73\r\n\r\n{\"error\":{\"code\":507,\"message\":\"out of memory\",\"status\":\"OUT_OF_MEMORY\"}}"
        }
    }

    fn refusal_body(code: u16) -> &'static [u8] {
        framing_text(code)
    }
}
