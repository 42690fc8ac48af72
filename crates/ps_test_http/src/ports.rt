//! Whole ports, as transcripts. A line of a transcript is a mark, a space, and a text. White space around the line doesn't
//! count. Empty lines are skipped, and so are those with the mark `#`.
//!
//!     $ FILE                begins a run: it serves a port over the log under this path, at the moment 1000
//!     > READS               a connection of this port, as in `links`
//!     other READS           a connection of another port
//!     ! N M                 the net's calls from N to M fail: call 1 opens the port, the others take connections
//!     < TEXT                all that the next connection was answered, where `|` is CRLF
//!     = STATUS, DOOR, N left
//!                           ends the run, and compares its answers and its end: the status, what became of the door
//!                           (`no door`, `door open`, `door closed`), and how many connections the net still has
//!
//! The runs of a transcript share one cabinet. Before a run, its log:
//!
//!     store FILE FAULTS     FILE is an empty log with these faults, as in `stores`
//!     row FILE BYTES        FILE is a log of one row with these bytes, in hexadecimal digits

use crate::links::{link_of, written};
use crate::stores::keeper_of;
use ps_base::{List, Octets};
use ps_core::Core;
use ps_edge::{
    Accepted, Cabinet, Door, MemoryCabinet, MemoryClock, MemoryDoor, MemoryLink, MemoryNet, Net,
    NetError, Port,
};
use ps_keeper::{Keeper, KeeperError, MemoryKeeper};
use ps_run::Status;
use ps_server::serve_file;
use ps_transcript::{bytes, number};
use std::alloc::Global;
use std::mem;
use std::sync::Wait;
use std::test::Fail;

/// The port that is served.
const PORT: Port = Port::Http(8085);

/// Another port of the net.
const OTHER: Port = Port::Http(8086);

/// What a run is given, and what it must give.
#[derive(Drop)]
struct Run<'a> {
    /// The number of the line that was read last.
    line: usize,
    /// The path of its log, if it has begun.
    file: Option<&'a str>,
    asked: Vec<(Port, &'a str)>,
    failing: List<u64>,
    answers: Vec<&'a str>,
}

impl<'a> Run<'a> {
    fn new(alloc: Global) -> Run<'a> {
        Run {
            line: 0,
            file: None,
            asked: Vec::new(alloc),
            failing: List::new(alloc),
            answers: Vec::new(alloc),
        }
    }
}

/// Plays a transcript.
fn transcript(rt: &impl Wait, alloc: Global, text: &str) -> Result<(), Fail> {
    let mut cabinet = MemoryCabinet::new(alloc);
    let mut run = Run::new(alloc);
    for (place, line) in text.split('\n').enumerate() {
        run.line = place.saturating_add(1);
        take_line(rt, alloc, &mut cabinet, &mut run, line.trim())?;
    }
    match run.file {
        None => Ok(()),
        Some(_) => Err(Fail::new("the last run has no end")),
    }
}

fn take_line<'a>(
    rt: &impl Wait,
    alloc: Global,
    cabinet: &mut MemoryCabinet,
    run: &mut Run<'a>,
    line: &'a str,
) -> Result<(), Fail> {
    let (mark, text) = line.split_once(' ').unwrap_or((line, ""));
    match mark {
        "" | "#" => Ok(()),
        "store" => lay_store(alloc, cabinet, text),
        "row" => lay_row(alloc, cabinet, text),
        "=" => end(rt, alloc, cabinet, mem::replace(run, Run::new(alloc)), text),
        _ => note(run, mark, text),
    }
}

/// Notes what a line says of a run.
fn note<'a>(run: &mut Run<'a>, mark: &str, text: &'a str) -> Result<(), Fail> {
    match mark {
        "$" => run.file = Some(text),
        ">" => run.asked.push((PORT, text))?,
        "other" => run.asked.push((OTHER, text))?,
        "!" => plan(&mut run.failing, text)?,
        "<" => run.answers.push(text)?,
        _ => {
            let line = run.line;
            return Err(Fail::new(format_args!("line {line}: no such mark: {mark}")));
        }
    }
    Ok(())
}

/// Adds the numbers from the first one to the last one.
fn plan(failing: &mut List<u64>, text: &str) -> Result<(), Fail> {
    let (first, last) = text.split_once(' ').ok_or("a first and a last call")?;
    let last = number(last)?;
    for call in number(first)?..last.saturating_add(1) {
        failing.push(call)?;
    }
    Ok(())
}

/// Lays an empty log that fails at some calls.
fn lay_store(alloc: Global, cabinet: &mut MemoryCabinet, text: &str) -> Result<(), Fail> {
    let (file, faults) = text.split_once(' ').ok_or("a file and its faults")?;
    Ok(cabinet.put(file, keeper_of(alloc, faults)?)?)
}

/// Lays a log of one row.
fn lay_row(alloc: Global, cabinet: &mut MemoryCabinet, text: &str) -> Result<(), Fail> {
    let (file, words) = text.split_once(' ').ok_or("a file and its row")?;
    let mut rows = List::new(alloc);
    rows.push(Octets::from_vec(bytes(alloc, words)?))?;
    let mut keeper = cabinet.keeper(file)?;
    let replaced = keeper.replace(rows.as_slice());
    cabinet.back(file, keeper);
    Ok(replaced?)
}

/// Serves the port of a run, and compares what comes out.
fn end(
    rt: &impl Wait,
    alloc: Global,
    cabinet: &mut MemoryCabinet,
    run: Run<'_>,
    wanted: &str,
) -> Result<(), Fail> {
    let Run {
        line,
        file,
        asked,
        failing,
        answers,
    } = run;
    let file = file.ok_or("no run has begun")?;
    let mut net = net_of(alloc, asked.as_slice(), failing)?;
    let status = serve(rt, alloc, file, &mut net, cabinet);
    expect_answers(alloc, served(&net), answers.as_slice(), line)?;
    expect(end_text(alloc, status, net)?, wanted, line)
}

/// A net with these connections, in which some calls fail.
fn net_of(alloc: Global, asked: &[(Port, &str)], failing: List<u64>) -> Result<MemoryNet, Fail> {
    let mut links = List::new(alloc);
    for one in asked {
        links.push((one.0, link_of(alloc, one.1)?))?;
    }
    Ok(MemoryNet::new(alloc, links, failing)?)
}

/// Serves the port over the log under a path.
fn serve<S: Cabinet, R: Wait>(
    rt: &R,
    alloc: Global,
    file: &str,
    net: &mut MemoryNet,
    cabinet: &mut S,
) -> Status {
    serve_file::<Core, MemoryNet, S, MemoryClock, R>(
        rt,
        alloc,
        file,
        PORT,
        net,
        cabinet,
        &MemoryClock::new(1000),
    )
}

/// The door of the port, if it came back.
fn returned(net: &MemoryNet) -> Option<&MemoryDoor> {
    net.returned().first()?.as_slice().first()
}

/// The connections that came back with their door.
fn served(net: &MemoryNet) -> &[MemoryLink] {
    match returned(net) {
        Some(door) => door.served(),
        None => &[],
    }
}

fn expect_answers(
    alloc: Global,
    links: &[MemoryLink],
    answers: &[&str],
    line: usize,
) -> Result<(), Fail> {
    let number = links.len();
    if number != answers.len() {
        return Err(Fail::new(format_args!("line {line}: {number} connections were served")));
    }
    for (link, answer) in links.iter().zip(answers) {
        expect(written(alloc, link)?, answer, line)?;
    }
    Ok(())
}

/// Compares what came out of the run that this line ends with what had to.
fn expect(text: String, wanted: &str, line: usize) -> Result<(), Fail> {
    if text.as_str() == wanted {
        return Ok(());
    }
    Err(Fail::new(format_args!("line {line}: {text:.400}\nin place of {wanted}")))
}

/// How a run ended.
fn end_text(alloc: Global, status: Status, net: MemoryNet) -> Result<String, Fail> {
    let status = status_text(alloc, status)?;
    let door = door_text(&net);
    let left = links_left(net)?;
    Ok(format!(in alloc; "{status}, {door}, {left} left")?)
}

fn status_text(alloc: Global, status: Status) -> Result<String, Fail> {
    match status {
        Status::Done => Ok(format!(in alloc; "done")?),
        Status::AcceptFault => Ok(format!(in alloc; "accept fault")?),
        Status::StoreFault => Ok(format!(in alloc; "store fault")?),
        Status::BadRow { seq } => Ok(format!(in alloc; "bad row {seq}")?),
        Status::OutOfMemory => Err(Fail::new("no memory")),
        _ => Err(Fail::new("no port ends so")),
    }
}

fn door_text(net: &MemoryNet) -> &'static str {
    match returned(net) {
        Some(door) if door.is_closed() => "door closed",
        Some(_) => "door open",
        None => "no door",
    }
}

/// How many connections a net still has.
fn links_left(mut net: MemoryNet) -> Result<u64, Fail> {
    let number = count_links(open(&mut net, PORT)?)?;
    Ok(number.saturating_add(count_links(open(&mut net, OTHER)?)?))
}

/// Opens a port, as soon as the net doesn't fail.
fn open(net: &mut MemoryNet, port: Port) -> Result<List<MemoryDoor>, Fail> {
    for _ in 0..1000 {
        match net.doors(port, 1) {
            Ok(doors) => return Ok(doors),
            Err(NetError::Failed) => {}
            Err(NetError::OutOfMemory) => return Err(Fail::new("no memory")),
        }
    }
    Err(Fail::new("the net fails too often"))
}

/// How many connections come through the only one of these doors until it closes.
fn count_links(doors: List<MemoryDoor>) -> Result<u64, Fail> {
    let mut door = doors.into_vec().pop().ok_or("no door")?;
    let mut number = 0u64;
    for _ in 0..1000 {
        match door.accept() {
            Accepted::Link(_) => number = number.saturating_add(1),
            Accepted::Closed => return Ok(number),
            Accepted::Failed => {}
        }
    }
    Err(Fail::new("the door doesn't close"))
}

#[test]
fn connections_are_served_in_their_order(rt: HostRuntime) -> Result<(), Fail> {
    transcript(
        &rt,
        rt.alloc(),
        r#"
        # The second connection finds what the first one made. Each of them may ask for more than one thing.
        $ f
        > PUT /v1/projects/p/topics/abc HTTP/1.1|Host: x||
        > PUT /v1/projects/p/topics/abc HTTP/1.1|Host: x||GET /v1/projects/p/topics/abc HTTP/1.1|Host: x||
        > PUT /v1/projects/p/topics/abd HTTP/1.1|Host: x||
        < HTTP/1.1 200 OK|content-type: application/json|content-length: 32||{"name":"projects/p/topics/abc"}
        < HTTP/1.1 409 Conflict|content-type: application/json|content-length: 82||{"error":{"code":409,"message":"projects/p/topics/abc","status":"ALREADY_EXISTS"}}HTTP/1.1 200 OK|content-type: application/json|content-length: 32||{"name":"projects/p/topics/abc"}
        < HTTP/1.1 200 OK|content-type: application/json|content-length: 32||{"name":"projects/p/topics/abd"}
        = done, door closed, 0 left

        $ -
        = done, door closed, 0 left
        "#,
    )
}

#[test]
fn however_a_connection_ended_the_next_one_is_served(rt: HostRuntime) -> Result<(), Fail> {
    transcript(
        &rt,
        rt.alloc(),
        r#"
        # One is torn, one can't be read, one isn't told what it made, and one asks for what isn't there.
        $ f
        > PUT /v1/projects/p/topics/abc HTTP/1.1|Host
        > !^PUT /v1/projects/p/topics/abc HTTP/1.1|Host: x||
        > #1^PUT /v1/projects/p/topics/abc HTTP/1.1|Host: x||
        > OPTIONS /v1/projects/p/topics/abc HTTP/1.1|Host: x||
        > PUT /v1/projects/p/topics/abc HTTP/1.1|Host: x||
        <
        <
        <
        < HTTP/1.1 501 Not Implemented|content-type: application/json|content-length: 64|connection: close||{"error":{"code":501,"message":"http","status":"UNIMPLEMENTED"}}
        < HTTP/1.1 409 Conflict|content-type: application/json|content-length: 82||{"error":{"code":409,"message":"projects/p/topics/abc","status":"ALREADY_EXISTS"}}
        = done, door closed, 0 left
        "#,
    )
}

#[test]
fn connections_of_another_port_stay_with_the_net(rt: HostRuntime) -> Result<(), Fail> {
    transcript(
        &rt,
        rt.alloc(),
        r#"
        $ f
        other PUT /v1/projects/p/topics/abc HTTP/1.1|Host: x||
        > GET /v1/projects/p/topics/abc HTTP/1.1|Host: x||
        other PUT /v1/projects/p/topics/abc HTTP/1.1|Host: x||
        > PUT /v1/projects/p/topics/abc HTTP/1.1|Host: x||
        < HTTP/1.1 404 Not Found|content-type: application/json|content-length: 77||{"error":{"code":404,"message":"projects/p/topics/abc","status":"NOT_FOUND"}}
        < HTTP/1.1 200 OK|content-type: application/json|content-length: 32||{"name":"projects/p/topics/abc"}
        = done, door closed, 2 left
        "#,
    )
}

/// The log under `-` is empty each time.
#[test]
fn a_log_stays_under_its_path(rt: HostRuntime) -> Result<(), Fail> {
    transcript(
        &rt,
        rt.alloc(),
        r#"
        $ f
        > PUT /v1/projects/p/topics/abc HTTP/1.1|Host: x||
        < HTTP/1.1 200 OK|content-type: application/json|content-length: 32||{"name":"projects/p/topics/abc"}
        = done, door closed, 0 left
        $ f
        > GET /v1/projects/p/topics/abc HTTP/1.1|Host: x||
        > PUT /v1/projects/p/topics/abc HTTP/1.1|Host: x||
        < HTTP/1.1 200 OK|content-type: application/json|content-length: 32||{"name":"projects/p/topics/abc"}
        < HTTP/1.1 409 Conflict|content-type: application/json|content-length: 82||{"error":{"code":409,"message":"projects/p/topics/abc","status":"ALREADY_EXISTS"}}
        = done, door closed, 0 left
        $ g
        > PUT /v1/projects/p/topics/abc HTTP/1.1|Host: x||
        < HTTP/1.1 200 OK|content-type: application/json|content-length: 32||{"name":"projects/p/topics/abc"}
        = done, door closed, 0 left

        $ -
        > PUT /v1/projects/p/topics/abc HTTP/1.1|Host: x||
        < HTTP/1.1 200 OK|content-type: application/json|content-length: 32||{"name":"projects/p/topics/abc"}
        = done, door closed, 0 left
        $ -
        > PUT /v1/projects/p/topics/abc HTTP/1.1|Host: x||
        < HTTP/1.1 200 OK|content-type: application/json|content-length: 32||{"name":"projects/p/topics/abc"}
        = done, door closed, 0 left
        "#,
    )
}

#[test]
fn a_port_that_is_not_opened_is_an_accept_fault(rt: HostRuntime) -> Result<(), Fail> {
    transcript(
        &rt,
        rt.alloc(),
        r#"
        $ f
        > PUT /v1/projects/p/topics/abc HTTP/1.1|Host: x||
        < HTTP/1.1 200 OK|content-type: application/json|content-length: 32||{"name":"projects/p/topics/abc"}
        = done, door closed, 0 left

        # The log goes back to its place.
        $ f
        ! 1 1
        > PUT /v1/projects/p/topics/abc HTTP/1.1|Host: x||
        > PUT /v1/projects/p/topics/abd HTTP/1.1|Host: x||
        = accept fault, no door, 2 left
        $ f
        > PUT /v1/projects/p/topics/abc HTTP/1.1|Host: x||
        > PUT /v1/projects/p/topics/abd HTTP/1.1|Host: x||
        < HTTP/1.1 409 Conflict|content-type: application/json|content-length: 82||{"error":{"code":409,"message":"projects/p/topics/abc","status":"ALREADY_EXISTS"}}
        < HTTP/1.1 200 OK|content-type: application/json|content-length: 32||{"name":"projects/p/topics/abd"}
        = done, door closed, 0 left
        "#,
    )
}

/// The call after 100 that failed is the last one.
#[test]
fn an_accept_that_fails_is_made_again(rt: HostRuntime) -> Result<(), Fail> {
    transcript(
        &rt,
        rt.alloc(),
        r#"
        $ -
        ! 2 3
        > PUT /v1/projects/p/topics/abc HTTP/1.1|Host: x||
        > PUT /v1/projects/p/topics/abc HTTP/1.1|Host: x||
        < HTTP/1.1 200 OK|content-type: application/json|content-length: 32||{"name":"projects/p/topics/abc"}
        < HTTP/1.1 409 Conflict|content-type: application/json|content-length: 82||{"error":{"code":409,"message":"projects/p/topics/abc","status":"ALREADY_EXISTS"}}
        = done, door closed, 0 left

        # It may be the one that finds the door closed.
        $ -
        ! 3 4
        > PUT /v1/projects/p/topics/abc HTTP/1.1|Host: x||
        < HTTP/1.1 200 OK|content-type: application/json|content-length: 32||{"name":"projects/p/topics/abc"}
        = done, door closed, 0 left

        # Each connection has as many calls.
        $ -
        ! 2 101
        ! 103 202
        ! 204 303
        > PUT /v1/projects/p/topics/abc HTTP/1.1|Host: x||
        > PUT /v1/projects/p/topics/abc HTTP/1.1|Host: x||
        < HTTP/1.1 200 OK|content-type: application/json|content-length: 32||{"name":"projects/p/topics/abc"}
        < HTTP/1.1 409 Conflict|content-type: application/json|content-length: 82||{"error":{"code":409,"message":"projects/p/topics/abc","status":"ALREADY_EXISTS"}}
        = done, door closed, 0 left
        "#,
    )
}

#[test]
fn an_accept_that_always_fails_is_an_accept_fault(rt: HostRuntime) -> Result<(), Fail> {
    transcript(
        &rt,
        rt.alloc(),
        r#"
        $ f
        ! 2 102
        > PUT /v1/projects/p/topics/abc HTTP/1.1|Host: x||
        = accept fault, door open, 0 left

        # What was answered before stays in the log.
        $ f
        ! 3 103
        > PUT /v1/projects/p/topics/abc HTTP/1.1|Host: x||
        > PUT /v1/projects/p/topics/abd HTTP/1.1|Host: x||
        < HTTP/1.1 200 OK|content-type: application/json|content-length: 32||{"name":"projects/p/topics/abc"}
        = accept fault, door open, 0 left
        $ f
        ! 3 103
        > PUT /v1/projects/p/topics/abc HTTP/1.1|Host: x||
        < HTTP/1.1 409 Conflict|content-type: application/json|content-length: 82||{"error":{"code":409,"message":"projects/p/topics/abc","status":"ALREADY_EXISTS"}}
        = accept fault, door open, 0 left
        "#,
    )
}

#[test]
fn a_log_that_is_not_read_opens_no_port(rt: HostRuntime) -> Result<(), Fail> {
    transcript(
        &rt,
        rt.alloc(),
        r#"
        store f 1:before
        $ f
        > PUT /v1/projects/p/topics/abc HTTP/1.1|Host: x||
        > PUT /v1/projects/p/topics/abc HTTP/1.1|Host: x||
        other PUT /v1/projects/p/topics/abc HTTP/1.1|Host: x||
        = store fault, no door, 3 left

        # The log went back, and can be read now.
        $ f
        > PUT /v1/projects/p/topics/abc HTTP/1.1|Host: x||
        < HTTP/1.1 200 OK|content-type: application/json|content-length: 32||{"name":"projects/p/topics/abc"}
        = done, door closed, 0 left

        # A row that is no entry.
        row f ff
        $ f
        > PUT /v1/projects/p/topics/abc HTTP/1.1|Host: x||
        = bad row 1, no door, 1 left
        $ f
        > PUT /v1/projects/p/topics/abc HTTP/1.1|Host: x||
        = bad row 1, no door, 1 left
        "#,
    )
}

/// Call 1 reads the empty log, and call 2 appends what the first connection asks for.
#[test]
fn a_fault_of_the_store_is_an_answer(rt: HostRuntime) -> Result<(), Fail> {
    transcript(
        &rt,
        rt.alloc(),
        r#"
        store f 2:before
        $ f
        > PUT /v1/projects/p/topics/abc HTTP/1.1|Host: x||
        > PUT /v1/projects/p/topics/abc HTTP/1.1|Host: x||
        < HTTP/1.1 503 Service Unavailable|content-type: application/json|content-length: 69||{"error":{"code":503,"message":"store fault","status":"UNAVAILABLE"}}
        < HTTP/1.1 200 OK|content-type: application/json|content-length: 32||{"name":"projects/p/topics/abc"}
        = done, door closed, 0 left

        # What was stored before the fault is there for the next connection, and for the next run.
        store g 2:after
        $ g
        > PUT /v1/projects/p/topics/abc HTTP/1.1|Host: x||
        > PUT /v1/projects/p/topics/abc HTTP/1.1|Host: x||
        < HTTP/1.1 503 Service Unavailable|content-type: application/json|content-length: 69||{"error":{"code":503,"message":"store fault","status":"UNAVAILABLE"}}
        < HTTP/1.1 409 Conflict|content-type: application/json|content-length: 82||{"error":{"code":409,"message":"projects/p/topics/abc","status":"ALREADY_EXISTS"}}
        = done, door closed, 0 left
        store h 2:after
        $ h
        > PUT /v1/projects/p/topics/abc HTTP/1.1|Host: x||
        < HTTP/1.1 503 Service Unavailable|content-type: application/json|content-length: 69||{"error":{"code":503,"message":"store fault","status":"UNAVAILABLE"}}
        = done, door closed, 0 left
        $ h
        > PUT /v1/projects/p/topics/abc HTTP/1.1|Host: x||
        < HTTP/1.1 409 Conflict|content-type: application/json|content-length: 82||{"error":{"code":409,"message":"projects/p/topics/abc","status":"ALREADY_EXISTS"}}
        = done, door closed, 0 left
        "#,
    )
}

/// A cabinet that gives no keeper. Nothing is known of its logs.
#[derive(Drop)]
struct Shut {
    faults: u64,
}

impl Cabinet for Shut {
    type K = MemoryKeeper;

    ghost use Rattle.std.specs.Prelude.{false, None};

    ghost known = { λ _ _. false };

    ghost log = { λ _ _. None };

    ghost may_leave = { λ _ _ _. Unit {0} };

    ghost is_out = { λ _ _. false };

    ghost asked = { λ _. None };

    ghost faults = { λ c. c.faults };

    fn keeper(&mut self, _path: &str) -> Result<MemoryKeeper, KeeperError> {
        self.faults = self.faults.saturating_add(1);
        Err(KeeperError::Failed)
    }

    fn back(&mut self, _path: &str, keeper: MemoryKeeper) {
        self.faults = self.faults.saturating_add(keeper.faults());
    }
}

#[test]
fn a_cabinet_that_gives_no_keeper_is_a_store_fault(rt: HostRuntime) -> Result<(), Fail> {
    let alloc = rt.alloc();
    let mut asked = Vec::new(alloc);
    asked.push((PORT, "GET /v1/projects/p/topics/abc HTTP/1.1|Host: x||"))?;
    let mut net = net_of(alloc, asked.as_slice(), List::new(alloc))?;
    let mut cabinet = Shut { faults: 0 };
    let status = serve(&rt, alloc, "f", &mut net, &mut cabinet);
    let end = end_text(alloc, status, net)?;
    assert!(rt; end.as_str() == "store fault, no door, 1 left");
    Ok(())
}
