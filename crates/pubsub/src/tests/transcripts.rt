//! Reads transcripts: texts of runs of the program, with what each run is given and what it must give.
//!
//! A line of a transcript is a mark, a space, and a text. White space before the mark doesn't count. Empty lines are
//! skipped, and so are those with the mark `#`.
//!
//!     $ WORDS           begins a run with these words; `""` is an empty word
//!     > TEXT            a line of its input
//!     < TEXT            a line of its output
//!     2 TEXT            a line of its standard error
//!     = STATUS          ends the run, and compares its output, its standard error and its status
//!     $$ WORDS          as `$`, but each line of the input has a run of its own; all but the last have status 0
//!
//! The runs of a transcript share one cabinet. Calls and answers have a short form:
//!
//!     call AT VERB PATH BODY      > {"at":AT,"verb":"VERB","path":"PATH","body":BODY}
//!     gives BODY                  < {"body":BODY,"code":200}
//!     refuses CODE STATUS TEXT    < {"body":{"error":{"code":CODE,"message":"TEXT","status":"STATUS"}},"code":CODE}
//!
//! A part of a line has no line feed. These are parts of the input; with `<` they are parts of the output:
//!
//!     >- TEXT           this text
//!     >x TEXT           this text, in which `\xNN` is the byte with these two hexadecimal digits
//!     >* A..B TEXT      as `>x`, once for each number from A to B, both included
//!     >* A..B TEXT@TEXT     the same without `\xNN`, with the number in place of `@`
//!
//! Before a run, its faults and its logs:
//!
//!     ! read N          read number N of the input fails, counted from 1
//!     ! write N         write number N of the output fails
//!     ! error N         write number N of standard error fails
//!     ! read-size N     each read gives at most N bytes
//!     ! write-size N    each write of the output takes at most N bytes
//!     store FILE N:before M:after ..      FILE is an empty log; its calls N and M fail, before or after they store
//!     rows FILE ROW ROW ..                FILE is the log of these rows, with bytes as in `>x`
//!
//! After a run:
//!
//!     log FILE N        FILE has N rows

use crate::commands::run_offline;
use crate::tests::pieces::{PiecedSink, PiecedSource};
use ps_base::{List, Octets};
use ps_edge::{Cabinet, MemoryCabinet, MemorySink, MemorySource};
use ps_keeper::{Keeper, MemoryKeeper, When};
use std::alloc::Global;
use std::mem;
use std::ops::Range;
use std::test::Fail;

/// What a run is given, and what it must give.
#[derive(Drop)]
struct Case {
    input: Vec<u8>,
    output: Vec<u8>,
    error: Vec<u8>,
    failing_reads: List<u64>,
    failing_writes: List<u64>,
    failing_errors: List<u64>,
    read_size: usize,
    write_size: usize,
}

impl Case {
    fn new(alloc: Global) -> Case {
        Case {
            input: Vec::new(alloc),
            output: Vec::new(alloc),
            error: Vec::new(alloc),
            failing_reads: List::new(alloc),
            failing_writes: List::new(alloc),
            failing_errors: List::new(alloc),
            read_size: usize::MAX,
            write_size: usize::MAX,
        }
    }
}

/// Where a transcript stands.
#[derive(Drop)]
struct Stage<'a> {
    /// The number of the line that was read last.
    line: usize,
    /// The words of the run that has begun.
    words: Option<&'a str>,
    /// Whether each line of its input has a run of its own.
    alone: bool,
    case: Case,
}

impl<'a> Stage<'a> {
    fn new(alloc: Global) -> Stage<'a> {
        Stage {
            line: 0,
            words: None,
            alone: false,
            case: Case::new(alloc),
        }
    }
}

/// Plays a transcript.
pub fn transcript(alloc: Global, text: &str) -> Result<(), Fail> {
    let mut cabinet = MemoryCabinet::new(alloc);
    let mut stage = Stage::new(alloc);
    play(alloc, &mut cabinet, &mut stage, text)?;
    match stage.words {
        None => Ok(()),
        Some(_) => Err(Fail::new("the last run has no status")),
    }
}

/// Plays calls with their answers, those of `before` first: in one run, and then each call in a run of its own on one
/// file. What a run answers doesn't depend on where the one before it ended.
pub fn session<'a>(alloc: Global, before: &'a str, calls: &'a str) -> Result<(), Fail> {
    let mut cabinet = MemoryCabinet::new(alloc);
    let mut stage = Stage::new(alloc);
    play_run(alloc, &mut cabinet, &mut stage, "$ batch -", before, calls)?;
    play_run(alloc, &mut cabinet, &mut stage, "$$ batch f", before, calls)
}

fn play_run<'a>(
    alloc: Global,
    cabinet: &mut MemoryCabinet,
    stage: &mut Stage<'a>,
    begin: &'a str,
    before: &'a str,
    calls: &'a str,
) -> Result<(), Fail> {
    play(alloc, cabinet, stage, begin)?;
    play(alloc, cabinet, stage, before)?;
    play(alloc, cabinet, stage, calls)?;
    play(alloc, cabinet, stage, "= 0")
}

/// Plays each line of a text.
fn play<'a>(
    alloc: Global,
    cabinet: &mut MemoryCabinet,
    stage: &mut Stage<'a>,
    text: &'a str,
) -> Result<(), Fail> {
    stage.line = 0;
    for line in text.lines() {
        stage.line = stage.line.saturating_add(1);
        step(alloc, cabinet, stage, line.trim_start())?;
    }
    Ok(())
}

/// Plays a line.
fn step<'a>(
    alloc: Global,
    cabinet: &mut MemoryCabinet,
    stage: &mut Stage<'a>,
    line: &'a str,
) -> Result<(), Fail> {
    let (mark, text) = line.split_once(' ').unwrap_or((line, ""));
    match mark {
        "" | "#" => Ok(()),
        "$" => begin(stage, text, false),
        "$$" => begin(stage, text, true),
        "=" => close(alloc, cabinet, stage, text),
        "store" => lay_store(alloc, cabinet, text),
        "rows" => lay_rows(alloc, cabinet, text),
        "log" => count_rows(cabinet, text),
        _ => {
            if stage.alone && begins_line(mark, stage.case.input.as_slice()) {
                end(alloc, cabinet, stage, 0)?;
            }
            note(alloc, &mut stage.case, mark, text)
        }
    }
}

fn begin<'a>(stage: &mut Stage<'a>, words: &'a str, alone: bool) -> Result<(), Fail> {
    if stage.words.is_some() {
        return Err(Fail::new("a run begins before the last one has its status"));
    }
    stage.words = Some(words);
    stage.alone = alone;
    Ok(())
}

/// Whether this mark begins one more line of an input.
fn begins_line(mark: &str, input: &[u8]) -> bool {
    (mark == "call" || mark.starts_with('>')) && matches!(input.last(), Some(b'\n'))
}

/// Ends the run, with this status.
fn close(
    alloc: Global,
    cabinet: &mut MemoryCabinet,
    stage: &mut Stage,
    status: &str,
) -> Result<(), Fail> {
    end(alloc, cabinet, stage, status.parse()?)?;
    stage.words = None;
    stage.alone = false;
    Ok(())
}

/// Runs the program on the case so far.
fn end(
    alloc: Global,
    cabinet: &mut MemoryCabinet,
    stage: &mut Stage,
    status: u8,
) -> Result<(), Fail> {
    let words = words_of(alloc, stage.words.ok_or("no run has begun")?)?;
    let case = mem::replace(&mut stage.case, Case::new(alloc));
    run_case(alloc, cabinet, words.as_slice(), case, status, stage.line)
}

fn words_of(alloc: Global, text: &str) -> Result<Vec<String>, Fail> {
    let mut words = Vec::new(alloc);
    for word in text.split_whitespace() {
        let word = if word == "\"\"" { "" } else { word };
        words.push(String::from_str(alloc, word)?)?;
    }
    Ok(words)
}

/// Runs the program, and compares what comes out.
fn run_case(
    alloc: Global,
    cabinet: &mut MemoryCabinet,
    words: &[String],
    case: Case,
    status: u8,
    line: usize,
) -> Result<(), Fail> {
    let Case {
        input,
        output,
        error,
        failing_reads,
        failing_writes,
        failing_errors,
        read_size,
        write_size,
    } = case;
    let inner = MemorySource::new(Octets::from_vec(input), failing_reads);
    let mut source = PiecedSource {
        inner,
        most: read_size,
    };
    let inner = MemorySink::new(alloc, failing_writes);
    let mut sink = PiecedSink {
        inner,
        most: write_size,
    };
    let mut faults = MemorySink::new(alloc, failing_errors);
    let code = run(alloc, words, &mut source, &mut sink, &mut faults, cabinet);
    expect("standard error", faults.bytes(), error.as_slice(), line)?;
    expect("output", sink.inner.bytes(), output.as_slice(), line)?;
    if code == status {
        Ok(())
    } else {
        Err(Fail::new(format_args!("line {line}: the status is {code}")))
    }
}

/// Runs these words, with no clause: the tests look at what comes out.
fn run(
    alloc: Global,
    words: &[String],
    input: &mut PiecedSource,
    output: &mut PiecedSink,
    faults: &mut MemorySink,
    cabinet: &mut MemoryCabinet,
) -> u8 {
    run_offline(alloc, words, input, output, faults, cabinet)
}

/// Compares what came out with what had to.
fn expect(name: &str, found: &[u8], wanted: &[u8], line: usize) -> Result<(), Fail> {
    if found == wanted {
        return Ok(());
    }
    let (found, wanted) = difference(shown(found), shown(wanted));
    Err(Fail::new(format_args!(
        "line {line}: the {name} has\n{found:.200}\nand not\n{wanted:.200}"
    )))
}

fn shown(bytes: &[u8]) -> &str {
    str::from_utf8(bytes).unwrap_or("bytes that are no text")
}

/// The first lines that differ.
fn difference<'a>(found: &'a str, wanted: &'a str) -> (&'a str, &'a str) {
    let mut wanted_lines = wanted.lines();
    for found in found.lines() {
        let wanted = wanted_lines.next().unwrap_or("no line");
        if found != wanted {
            return (found, wanted);
        }
    }
    ("no line", wanted_lines.next().unwrap_or("no line"))
}

/// Notes what the mark says of a run.
fn note(alloc: Global, case: &mut Case, mark: &str, text: &str) -> Result<(), Fail> {
    match mark {
        "call" => add_call(alloc, &mut case.input, text),
        "gives" => add_body(alloc, &mut case.output, text),
        "refuses" => add_refusal(alloc, &mut case.output, text),
        "2" => add_line(&mut case.error, text),
        "!" => plan(case, text),
        _ => match mark.strip_prefix('>') {
            Some(kind) => add(alloc, &mut case.input, kind, text),
            None => match mark.strip_prefix('<') {
                Some(kind) => add(alloc, &mut case.output, kind, text),
                None => Err(Fail::new(format_args!("no such mark: {mark}"))),
            },
        },
    }
}

/// Adds a line, or a part of one.
fn add(alloc: Global, bytes: &mut Vec<u8>, kind: &str, text: &str) -> Result<(), Fail> {
    match kind {
        "" => add_line(bytes, text),
        "-" => Ok(bytes.extend_from_slice(text.as_bytes())?),
        "x" => add_escaped(bytes, text),
        "*" => add_many(alloc, bytes, text),
        _ => Err(Fail::new(format_args!("no such mark: {kind}"))),
    }
}

fn add_line(bytes: &mut Vec<u8>, text: &str) -> Result<(), Fail> {
    bytes.extend_from_slice(text.as_bytes())?;
    Ok(bytes.push(b'\n')?)
}

/// Adds a text in which `\xNN` is a byte.
fn add_escaped(bytes: &mut Vec<u8>, text: &str) -> Result<(), Fail> {
    for (place, piece) in text.split("\\x").enumerate() {
        if place == 0 {
            bytes.extend_from_slice(piece.as_bytes())?;
        } else {
            add_byte(bytes, piece)?;
        }
    }
    Ok(())
}

/// Adds a byte of two digits, and what follows them.
fn add_byte(bytes: &mut Vec<u8>, piece: &str) -> Result<(), Fail> {
    let digits = piece.get(..2).ok_or("two digits follow `\\x`")?;
    let rest = piece.get(2..).ok_or("two digits follow `\\x`")?;
    bytes.push(u8::from_str_radix(digits, 16)?)?;
    Ok(bytes.extend_from_slice(rest.as_bytes())?)
}

/// Adds a text once for each number of a range.
fn add_many(alloc: Global, bytes: &mut Vec<u8>, text: &str) -> Result<(), Fail> {
    let (range, text) = text.split_once(' ').ok_or("a range and a text")?;
    let (first, last) = range.split_once("..").ok_or("a range is `A..B`")?;
    let first: u32 = first.parse()?;
    let end = u64::from(last.parse::<u32>()?) + 1;
    match text.split_once('@') {
        Some((before, after)) => add_numbered(alloc, bytes, u64::from(first)..end, before, after),
        None => add_repeated(alloc, bytes, end.saturating_sub(u64::from(first)), text),
    }
}

fn add_numbered(
    alloc: Global,
    bytes: &mut Vec<u8>,
    numbers: Range<u64>,
    before: &str,
    after: &str,
) -> Result<(), Fail> {
    for number in numbers {
        let text = format!(in alloc; "{before}{number}{after}")?;
        bytes.extend_from_slice(text.as_bytes())?;
    }
    Ok(())
}

/// Adds a text so many times, a thousand at a time as long as it can.
fn add_repeated(alloc: Global, bytes: &mut Vec<u8>, times: u64, text: &str) -> Result<(), Fail> {
    let mut piece = Vec::new(alloc);
    add_escaped(&mut piece, text)?;
    let mut thousand = Vec::new(alloc);
    add_times(&mut thousand, piece.as_slice(), 1000)?;
    add_times(bytes, thousand.as_slice(), times / 1000)?;
    add_times(bytes, piece.as_slice(), times % 1000)
}

fn add_times(bytes: &mut Vec<u8>, piece: &[u8], times: u64) -> Result<(), Fail> {
    for _ in 0..times {
        bytes.extend_from_slice(piece)?;
    }
    Ok(())
}

/// Adds the line that asks for a call.
fn add_call(alloc: Global, bytes: &mut Vec<u8>, text: &str) -> Result<(), Fail> {
    let (at, text) = text.split_once(' ').ok_or("a call has a moment")?;
    let (verb, text) = text.split_once(' ').ok_or("a call has a verb")?;
    let (path, body) = text.split_once(' ').ok_or("a call has a path")?;
    let line = format!(in alloc;
        "{{\"at\":{at},\"verb\":\"{verb}\",\"path\":\"{path}\",\"body\":{body}}}\n"
    )?;
    Ok(bytes.extend_from_slice(line.as_bytes())?)
}

/// Adds the line that answers a call.
fn add_body(alloc: Global, bytes: &mut Vec<u8>, body: &str) -> Result<(), Fail> {
    let line = format!(in alloc; "{{\"body\":{body},\"code\":200}}\n")?;
    Ok(bytes.extend_from_slice(line.as_bytes())?)
}

/// Adds the line that refuses a call.
fn add_refusal(alloc: Global, bytes: &mut Vec<u8>, text: &str) -> Result<(), Fail> {
    let (code, text) = text.split_once(' ').ok_or("a refusal has a code")?;
    let (status, message) = text.split_once(' ').ok_or("a refusal has a status")?;
    let line = format!(in alloc;
        "{{\"body\":{{\"error\":{{\"code\":{code},\"message\":\"{message}\",\"status\":\"{status}\"}}}},\"code\":{code}}}\n"
    )?;
    Ok(bytes.extend_from_slice(line.as_bytes())?)
}

/// Plans a fault of the run, or its pieces.
fn plan(case: &mut Case, text: &str) -> Result<(), Fail> {
    let (what, number) = text.split_once(' ').ok_or("a fault has a number")?;
    let number: u64 = number.parse()?;
    match what {
        "read" => Ok(case.failing_reads.push(number)?),
        "write" => Ok(case.failing_writes.push(number)?),
        "error" => Ok(case.failing_errors.push(number)?),
        "read-size" => {
            case.read_size = number as usize;
            Ok(())
        }
        "write-size" => {
            case.write_size = number as usize;
            Ok(())
        }
        _ => Err(Fail::new("no such fault")),
    }
}

/// Lays an empty log that fails at some calls.
fn lay_store(alloc: Global, cabinet: &mut MemoryCabinet, text: &str) -> Result<(), Fail> {
    let (file, faults) = text.split_once(' ').ok_or("a file and its faults")?;
    let script = script_of(alloc, faults)?;
    Ok(cabinet.put(file, MemoryKeeper::failing(alloc, script))?)
}

fn script_of(alloc: Global, text: &str) -> Result<List<(u64, When)>, Fail> {
    let mut script = List::new(alloc);
    for word in text.split_whitespace() {
        script.push(fault_of(word)?)?;
    }
    Ok(script)
}

fn fault_of(word: &str) -> Result<(u64, When), Fail> {
    let (call, when) = word
        .split_once(':')
        .ok_or("a fault is `N:before` or `N:after`")?;
    let call = call.parse()?;
    match when {
        "before" => Ok((call, When::Before)),
        "after" => Ok((call, When::After)),
        _ => Err(Fail::new("a fault comes before or after the call stores")),
    }
}

/// Lays a log of some rows.
fn lay_rows(alloc: Global, cabinet: &mut MemoryCabinet, text: &str) -> Result<(), Fail> {
    let (file, rows) = text.split_once(' ').ok_or("a file and its rows")?;
    let rows = rows_of(alloc, rows)?;
    let mut keeper = cabinet.keeper(file)?;
    let replaced = keeper.replace(rows.as_slice());
    cabinet.back(file, keeper);
    Ok(replaced?)
}

fn rows_of(alloc: Global, text: &str) -> Result<List<Octets>, Fail> {
    let mut rows = List::new(alloc);
    for word in text.split_whitespace() {
        rows.push(row_of(alloc, word)?)?;
    }
    Ok(rows)
}

fn row_of(alloc: Global, word: &str) -> Result<Octets, Fail> {
    let mut row = Vec::new(alloc);
    add_escaped(&mut row, word)?;
    Ok(Octets::from_vec(row))
}

/// Compares how many rows a log has.
fn count_rows(cabinet: &mut MemoryCabinet, text: &str) -> Result<(), Fail> {
    let (file, wanted) = text.split_once(' ').ok_or("a file and a number of rows")?;
    let wanted: usize = wanted.parse()?;
    let keeper = cabinet.keeper(file)?;
    let found = keeper.log().len();
    cabinet.back(file, keeper);
    if found == wanted {
        Ok(())
    } else {
        Err(Fail::new(format_args!("{file} has {found} rows")))
    }
}
