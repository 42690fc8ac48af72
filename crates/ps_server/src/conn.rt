// One connection: its requests are answered one after another.
ghost use Rattle.std.specs.Prelude.{◌≡◌, ◌≤◌, true, MatchOption};
ghost use Rattle.ps_book.specs.Books.{MeansSome, GoesOn};
ghost use Rattle.ps_http.specs.Answers.{has_phrase};
ghost use Rattle.ps_server.specs.Serving.{GoesOnFrom, HasEndCause, Refuses, Serves, end_after};

use crate::answer::{Request, serve_request};
use crate::protocol::HttpProtocol;
use ps_book::Book;
use ps_edge::{Clock, Failed, Link, send_all};
use ps_http::{Exchange, Kept, answer, next};
use ps_keeper::Keeper;
use std::alloc::Global;
use std::sync::Wait;

/// How a connection ended.
#[derive(Clone, Copy, PartialEq, Eq)]
pub enum ConnEnd {
    /// The client ended it between two requests.
    Ended,
    /// The client ended it inside a request, of which so many bytes came.
    Torn { bytes: u64 },
    /// A read failed.
    ReadFault,
    /// A write failed.
    WriteFault,
    /// Bytes that are no request were answered with this code.
    Refused(u16),
    /// A request that asks to close was answered.
    Closed,
    OutOfMemory,
}

/// Milliseconds between two looks at a connection on which nothing came.
const PAUSE: u64 = 1;

/// Answers bytes that are no request, by the code of their refusal.
fn refuse<M: HttpProtocol, L: Link>(alloc: Global, link: &mut L, code: u16) -> ConnEnd
    requires { has_phrase code ≡ true }
    ensures refuses { Refuses M.HttpProtocol.own L.Link code link.old link.new result }
    ensures cause { HasEndCause L.Link link.old link.new result }
{
    match answer(alloc, code, M::refusal_body(code), true) {
        Ok(text) => match send_all(link, text.as_slice()) {
            Ok(()) => ConnEnd::Refused(code),
            Err(_) => ConnEnd::WriteFault,
        },
        Err(_) => ConnEnd::OutOfMemory,
    }
}

/// How the connection ends after an answer that was written or not. None if it goes on.
fn end_after(close: bool, written: Result<(), Failed>) -> Option<ConnEnd>
    ensures { result ≡ end_after close written }
{
    match written {
        Ok(()) if close => Some(ConnEnd::Closed),
        Ok(()) => None,
        Err(_) => Some(ConnEnd::WriteFault),
    }
}

/// Reads once what a connection asks, and answers it. None if the connection goes on.
fn serve_next<M: HttpProtocol, K: Keeper, L: Link, C: Clock>(
    alloc: Global,
    link: &mut L,
    book: &mut Book<M, K>,
    clock: &C,
    kept: &mut Kept,
) -> Option<ConnEnd>
    requires { MeansSome M.Machine K.Keeper book.old }
    ensures steps { GoesOnFrom M.Machine M.HttpProtocol.own K.Keeper L.Link C.Clock clock.now link.old link.new book.old book.new kept.old kept.new result }
    ensures cause { MatchOption result (L.faults link.old ≤ L.faults link.new) (HasEndCause L.Link link.old link.new) }
    ensures goes { GoesOn M.Machine K.Keeper book.old book.new }
{
    match next(alloc, link, kept) {
        Exchange::Request {
            method,
            target,
            body,
            close,
        } => {
            let request = Request {
                method,
                target,
                body,
                close,
            };
            let written = serve_request(alloc, link, book, clock.now(), &request);
            end_after(close, written)
        }
        Exchange::NotYet => {
            clock.nap(PAUSE);
            None
        }
        Exchange::Ended => Some(ConnEnd::Ended),
        Exchange::Torn { bytes } => Some(ConnEnd::Torn { bytes }),
        Exchange::ReadFault => Some(ConnEnd::ReadFault),
        Exchange::WriteFault => Some(ConnEnd::WriteFault),
        Exchange::Refused(code) => Some(refuse::<M, L>(alloc, link, code)),
        Exchange::OutOfMemory => Some(ConnEnd::OutOfMemory),
    }
}

/// Answers the requests of a connection, one after another, until it ends or closes. While nothing comes it waits.
pub fn serve_conn<M: HttpProtocol, K: Keeper, L: Link, C: Clock, R: Wait>(
    rt: &R,
    alloc: Global,
    link: &mut L,
    book: &mut Book<M, K>,
    clock: &C,
) -> ConnEnd
    requires { MeansSome M.Machine K.Keeper book.old }
    ensures served { Serves M.Machine M.HttpProtocol.own K.Keeper L.Link C.Clock clock.now link.old link.new book.old book.new result }
    ensures cause { HasEndCause L.Link link.old link.new result }
    ensures goes { GoesOn M.Machine K.Keeper book.old book.new }
{
    let mut kept = Kept::new(alloc);
    for _ in rt.forever() {
        if let Some(end) = serve_next(alloc, link, book, clock, &mut kept) {
            return end;
        }
    }
    unreachable!()
}
