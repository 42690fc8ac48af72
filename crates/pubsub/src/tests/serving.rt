//! `serve` over a net in memory that has no connections, so that its port closes at once.

use crate::serve::run_serve;
use ps_base::List;
use ps_edge::{MemoryCabinet, MemoryClock, MemoryNet, MemorySink};
use std::alloc::Global;
use std::sync::Wait;
use std::test::Fail;

/// Words that ask for a service, and the status of a run with them. `''` is an empty word.
const TAKEN: &[(&str, u8)] = &[
    ("serve --http 8085 f", 0),
    ("serve --http 1 -", 0),
    ("serve --http 65535 f", 0),
    ("serve --http=8085 f", 0),
    ("serve f --http 8085", 0),
    ("serve --tick 10 --http 8085 f", 0),
    ("serve --http 8085 --tick 60000 f", 0),
    ("serve --http 8085 -- -f", 0),
];

/// Words that ask for none.
const REFUSED: &[(&str, u8)] = &[
    ("serve", 2),
    ("serve f", 2),
    ("serve --http 8085", 2),
    ("serve --http 8085 ''", 2),
    ("serve --http 8085 f g", 2),
    ("serve --http 0 f", 2),
    ("serve --http 65536 f", 2),
    ("serve --http ten f", 2),
    ("serve --http 8085 --http 8086 f", 2),
    ("serve --tick 9 --http 8085 f", 2),
    ("serve --tick 60001 --http 8085 f", 2),
    ("serve --http 8085 --workers 2 f", 2),
    ("serve --http 8085 -f", 2),
    ("serve --help", 2),
    ("serves --http 8085 f", 2),
    ("batch f", 2),
];

const USAGE: &str =
    "usage: pubsub batch FILE | check FILE | stat FILE | compact FILE | load N | serve OPTIONS FILE\n";

/// The words of a line.
fn words_of(alloc: Global, line: &str) -> Result<Vec<String>, Fail> {
    let mut words = Vec::new(alloc);
    for word in line.split(' ') {
        let word = if word == "''" { "" } else { word };
        words.push(String::from_str(alloc, word)?)?;
    }
    Ok(words)
}

/// Runs the words of a line, over a net of which some calls fail.
fn run(
    rt: &impl Wait,
    alloc: Global,
    line: &str,
    failing: List<u64>,
    faults: &mut MemorySink,
) -> Result<u8, Fail> {
    let words = words_of(alloc, line)?;
    let mut net = MemoryNet::new(alloc, List::new(alloc), failing)?;
    let mut cabinet = MemoryCabinet::new(alloc);
    let clock = MemoryClock::new(1000);
    Ok(run_serve(
        rt,
        alloc,
        words.as_slice(),
        &mut net,
        &mut cabinet,
        &clock,
        faults,
    ))
}

/// Compares how a run ends, and what it tells.
fn expect(
    rt: &impl Wait,
    alloc: Global,
    row: &(&str, u8),
    failing: List<u64>,
    text: &str,
) -> Result<(), Fail> {
    let (line, status) = *row;
    let mut faults = MemorySink::new(alloc, List::new(alloc));
    let code = run(rt, alloc, line, failing, &mut faults)?;
    if code == status && faults.bytes() == text.as_bytes() {
        return Ok(());
    }
    Err(Fail::new(format_args!("{line}: the status is {code}")))
}

#[test]
fn words_of_a_service_are_taken(rt: HostRuntime) -> Result<(), Fail> {
    let alloc = rt.alloc();
    for row in TAKEN {
        expect(&rt, alloc, row, List::new(alloc), "")?;
    }
    Ok(())
}

#[test]
fn other_words_are_refused(rt: HostRuntime) -> Result<(), Fail> {
    let alloc = rt.alloc();
    for row in REFUSED {
        expect(&rt, alloc, row, List::new(alloc), USAGE)?;
    }
    Ok(())
}

#[test]
fn a_port_that_is_not_opened_is_an_accept_fault(rt: HostRuntime) -> Result<(), Fail> {
    let alloc = rt.alloc();
    let mut failing = List::new(alloc);
    failing.push(1)?;
    expect(
        &rt,
        alloc,
        &("serve --http 8085 f", 9),
        failing,
        "accept fault\n",
    )
}
