// The answer to a request.
ghost use Rattle.ps_book.specs.Books.{MeansSome, GoesOn};
ghost use Rattle.ps_edge.specs.Edge.{HasWriteCause};
ghost use Rattle.ps_server.specs.Serving.{GivesCall, GivesRequest, ServesRequest};

use crate::protocol::{Asked, HttpProtocol};
use ps_base::{Octets, OutOfMemory, Text};
use ps_book::Book;
use ps_edge::{Failed, Link, send_all};
use ps_http::answer;
use ps_keeper::Keeper;
use std::alloc::Global;

/// A request of a connection. If `close`, the connection closes after its answer.
#[derive(Drop)]
pub struct Request {
    pub method: Text,
    pub target: Text,
    pub body: Octets,
    pub close: bool,
}

/// Carries a command out, and gives the text that answers it. Fails only if there is no memory for the text.
fn answer_call<M: HttpProtocol, K: Keeper>(
    alloc: Global,
    book: &mut Book<M, K>,
    at: u64,
    command: &M::Command,
    close: bool,
) -> Result<Octets, OutOfMemory>
    requires { MeansSome M.Machine K.Keeper book.old }
    ensures fate { GivesCall M.Machine M.HttpProtocol.own K.Keeper book.old book.new at command.now close result }
    ensures goes { GoesOn M.Machine K.Keeper book.old book.new }
{
    let told = book.call(at, command);
    match M::print_answer(alloc, &told) {
        Ok((code, body)) => answer(alloc, code, body.as_slice(), close),
        Err(_) => Err(OutOfMemory),
    }
}

/// Carries out what a request asks at a moment, and gives the text that answers it. Fails only if out of memory.
fn answer_request<M: HttpProtocol, K: Keeper>(
    alloc: Global,
    book: &mut Book<M, K>,
    at: u64,
    request: &Request,
) -> Result<Octets, OutOfMemory>
    requires { MeansSome M.Machine K.Keeper book.old }
    ensures fate { GivesRequest M.Machine M.HttpProtocol.own K.Keeper book.old book.new at request.now result }
    ensures goes { GoesOn M.Machine K.Keeper book.old book.new }
{
    let Request {
        method,
        target,
        body,
        close,
    } = request;
    match M::read_request(alloc, method.as_str(), target.as_str(), body.as_slice()) {
        Ok(Asked::Command(command)) => answer_call(alloc, book, at, &command, *close),
        Ok(Asked::Refused(code, body)) => answer(alloc, code, body.as_slice(), *close),
        Err(_) => Err(OutOfMemory),
    }
}

/// Answers a request at a moment, and writes the answer.
pub fn serve_request<M: HttpProtocol, K: Keeper, L: Link>(
    alloc: Global,
    link: &mut L,
    book: &mut Book<M, K>,
    at: u64,
    request: &Request,
) -> Result<(), Failed>
    requires { MeansSome M.Machine K.Keeper book.old }
    ensures served { ServesRequest M.Machine M.HttpProtocol.own K.Keeper L.Link book.old book.new at request.now link.old link.new result }
    ensures cause { HasWriteCause (L.faults link.old) (L.faults link.new) result }
    ensures goes { GoesOn M.Machine K.Keeper book.old book.new }
{
    match answer_request(alloc, book, at, request) {
        Ok(text) => send_all(link, text.as_slice()),
        Err(_) => send_all(link, M::memory_answer(request.close)),
    }
}
