//! A message server with the behaviour of Google Cloud Pub/Sub.
#![tactic(auto)]

mod commands;
mod host;
mod line;
mod numbers;
mod serve;
mod service;
mod streams;
#[cfg(test)]
mod tests;
mod words;

use commands::run_offline;
use host::{HostError, host_address};
use ps_edge::{Cabinet, Sink, write_all};
use ps_files::FileCabinet;
use ps_run::{Status, conclude};
use ps_sockets::{SystemClock, TcpNet};
use ps_words::begins_with_serve;
use serve::run_serve;
use std::io::{Error, ErrorKind};
use std::process::ExitCode;
use std::rt::Env;
use std::sync::Wait;
use std::{env, io};
use streams::{StreamSink, StreamSource};

/// The words after the program's name.
fn words_of(rt: &(impl Env + AllocGlobal)) -> io::Result<Vec<String>> {
    Ok(env::args(rt)?.skip(1).collect(rt.alloc())?)
}

/// The status if the system doesn't hand out the words.
fn status_without_words(error: &Error) -> Status {
    if error.kind() == ErrorKind::OutOfMemory {
        Status::OutOfMemory
    } else {
        Status::Usage
    }
}

/// Tells why there is no address to listen on, and gives the exit status of the process.
fn conclude_without_host<E: Sink>(faults: &mut E, error: HostError) -> u8 {
    match error {
        HostError::NoAddress => {
            // As with the text of a status, a write that fails changes nothing else.
            let _ = write_all(faults, b"PUBSUB_HOST is no IP address\n");
            Status::Usage.code()
        }
        HostError::OutOfMemory => conclude(faults, Status::OutOfMemory),
    }
}

/// Runs `serve` over the net and the clock of the machine. Its waits are those of the handle.
fn online<W: Wait, S: Cabinet, E: Sink>(
    handle: &W,
    rt: HostRuntime,
    words: &[String],
    cabinet: &mut S,
    faults: &mut E,
) -> u8 {
    let address = match host_address(&rt) {
        Ok(address) => address,
        Err(error) => return conclude_without_host(faults, error),
    };
    let output = StreamSink::new(rt.stdout());
    let mut net = TcpNet::new(rt, rt.alloc(), address, output);
    let clock = SystemClock::new(rt);
    run_serve(handle, rt.alloc(), words, &mut net, cabinet, &clock, faults)
}

/// Runs a command that needs no network, over the streams of the process.
fn offline<S: Cabinet, E: Sink>(
    rt: HostRuntime,
    words: &[String],
    cabinet: &mut S,
    faults: &mut E,
) -> u8 {
    let mut input = StreamSource::new(rt.stdin());
    let mut output = StreamSink::new(rt.stdout());
    run_offline(rt.alloc(), words, &mut input, &mut output, faults, cabinet)
}

fn main(rt: HostRuntime) -> ExitCode {
    let mut faults = StreamSink::new(rt.stderr());
    let words = match words_of(&rt) {
        Ok(words) => words,
        Err(error) => return ExitCode::from(conclude(&mut faults, status_without_words(&error))),
    };
    let mut cabinet = FileCabinet::new(rt);
    let code = if begins_with_serve(words.as_slice()) {
        online(&rt, rt, words.as_slice(), &mut cabinet, &mut faults)
    } else {
        offline(rt, words.as_slice(), &mut cabinet, &mut faults)
    };
    // A file that can't be closed keeps its log beside it, and nothing is lost.
    let _ = cabinet.close();
    ExitCode::from(code)
}
