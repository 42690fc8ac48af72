// The loop: bytes to lines, lines to answers, answers to the output.
ghost use Rattle.std.specs.Prelude.{◌≡◌, ◌≤◌, ◌<◌, ◌++◌, [], ◌∷◌, ℕ, length, OnOk, OnErr, Err, is_ok};
ghost use Rattle.ps_keeper.specs.Cause.{Rose};
ghost use Rattle.ps_book.specs.Books.{MeansSome, GoesOn};
ghost use Rattle.ps_edge.specs.Edge.{HasWriteCause};
ghost use Rattle.ps_run.specs.Pending.{IsPending};
ghost use Rattle.ps_run.specs.Runs.{ServesLine, GoesOver, StopsWithin, FinishesWhole, FinishesCut, RunsLines};

use crate::answer::answer_line;
use crate::pending::Pending;
use crate::protocol::Protocol;
use crate::status::Status;
use ps_book::Book;
use ps_edge::{Failed, Got, Sink, Source, write_all};
use ps_keeper::Keeper;
use std::alloc::Global;

/// The byte that ends a line.
const FEED: u8 = 10;

/// How many bytes of an input are read at most.
const MOST_BYTES: u64 = 1 << 60;

/// How many bytes are asked for at a time.
const ROOM: usize = 65536;

/// Why a run stops among the bytes that it read.
#[derive(Clone, Copy)]
enum Stop {
    Write,
    Memory,
}

/// Answers a line that has ended, and writes the answer.
fn serve_line<M: Protocol, K: Keeper, O: Sink>(
    alloc: Global,
    book: &mut Book<M, K>,
    pending: &Pending,
    output: &mut O,
) -> Result<(), Failed>
    requires { MeansSome M.Machine K.Keeper book.old }
    ensures served { ServesLine M.Machine M.Protocol.own K.Keeper O.Sink book.old book.new pending.now output.old output.new (is_ok result) }
    ensures goes { GoesOn M.Machine K.Keeper book.old book.new }
    ensures sink { HasWriteCause (O.faults output.old) (O.faults output.new) result }
{
    let printed = answer_line(alloc, book, pending);
    write_all(output, printed.as_slice())
}

/// Takes a byte in: a line feed ends the line so far.
fn take_byte<M: Protocol, K: Keeper, O: Sink>(
    alloc: Global,
    book: &mut Book<M, K>,
    pending: &mut Pending,
    byte: u8,
    output: &mut O,
) -> Result<(), Stop>
    requires { MeansSome M.Machine K.Keeper book.old }
    ensures reaches { OnOk result (GoesOver M.Machine M.Protocol.own K.Keeper O.Sink book.old book.new pending.old pending.new (byte ∷ []) output.old output.new) }
    ensures stopped { OnErr result (StopsWithin M.Machine M.Protocol.own K.Keeper O.Sink book.old book.new pending.old (λ rest. byte ∷ rest) output.old output.new) }
    ensures goes { GoesOn M.Machine K.Keeper book.old book.new }
    ensures sink_later { O.faults output.old ≤ O.faults output.new }
    ensures write { result ≡ Err Stop.Write → Rose (O.faults output.old) (O.faults output.new) }
{
    if byte == FEED {
        return match serve_line(alloc, book, pending, output) {
            Ok(()) => {
                pending.clear();
                Ok(())
            }
            Err(_) => Err(Stop::Write),
        };
    }
    match pending.push(byte) {
        Ok(()) => Ok(()),
        Err(_) => Err(Stop::Memory),
    }
}

/// Takes bytes in, and answers each line that ends among them.
fn feed<M: Protocol, K: Keeper, O: Sink>(
    alloc: Global,
    book: &mut Book<M, K>,
    pending: &mut Pending,
    piece: &[u8],
    output: &mut O,
) -> Result<(), Stop>
    requires { MeansSome M.Machine K.Keeper book.old }
    ensures reaches { OnOk result (GoesOver M.Machine M.Protocol.own K.Keeper O.Sink book.old book.new pending.old pending.new piece.now output.old output.new) }
    ensures stopped { OnErr result (StopsWithin M.Machine M.Protocol.own K.Keeper O.Sink book.old book.new pending.old (λ rest. piece.now ++ rest) output.old output.new) }
    ensures goes { GoesOn M.Machine K.Keeper book.old book.new }
    ensures sink_later { O.faults output.old ≤ O.faults output.new }
    ensures write { result ≡ Err Stop.Write → Rose (O.faults output.old) (O.faults output.new) }
{
    for byte in piece {
        take_byte(alloc, book, pending, *byte, output)?;
    }
    Ok(())
}

/// Answers the last line, unless a line feed ended it.
fn finish<M: Protocol, K: Keeper, O: Sink>(
    alloc: Global,
    book: &mut Book<M, K>,
    pending: &Pending,
    output: &mut O,
) -> Result<(), Failed>
    requires { MeansSome M.Machine K.Keeper book.old }
    ensures done { OnOk result (FinishesWhole M.Machine M.Protocol.own K.Keeper O.Sink book.old book.new pending.now output.old output.new) }
    ensures stopped { OnErr result (FinishesCut M.Machine M.Protocol.own K.Keeper O.Sink book.old book.new pending.now output.old output.new) }
    ensures goes { GoesOn M.Machine K.Keeper book.old book.new }
    ensures sink { HasWriteCause (O.faults output.old) (O.faults output.new) result }
{
    if pending.is_empty() {
        return Ok(());
    }
    serve_line(alloc, book, pending, output)?;
    Ok(())
}

/// Reads to the end, and answers each line.
fn read_all<M: Protocol, K: Keeper, I: Source, O: Sink>(
    alloc: Global,
    book: &mut Book<M, K>,
    pending: &mut Pending,
    input: &mut I,
    room: &mut [u8],
    output: &mut O,
) -> Status
    requires means { MeansSome M.Machine K.Keeper book.old }
    requires pends { IsPending [] pending.old }
    requires room { 0 < length room.old }
    ensures runs { RunsLines M.Machine M.Protocol.own K.Keeper I.Source O.Sink book.old book.new input.old input.new output.old output.new result }
    ensures goes { GoesOn M.Machine K.Keeper book.old book.new }
    ensures source_later { I.faults input.old ≤ I.faults input.new }
    ensures sink_later { O.faults output.old ≤ O.faults output.new }
{
    let mut taken: u64 = 0;
    while taken < MOST_BYTES {
        let most = (MOST_BYTES - taken).min(room.len() as u64) as usize;
        let part = &mut room[..most];
        match input.read(part) {
            Got::Bytes(count) => match feed(alloc, book, pending, &part[..count], output) {
                Ok(()) => taken += count as u64,
                Err(Stop::Write) => return Status::WriteFault,
                Err(Stop::Memory) => return Status::OutOfMemory,
            },
            Got::End => {
                return match finish(alloc, book, pending, output) {
                    Ok(()) => Status::Done,
                    Err(_) => Status::WriteFault,
                };
            }
            Got::Failed => return Status::ReadFault,
        }
    }
    Status::TooLong
}

/// Answers each line of the input through the book, until the input ends or a fault stops the run.
pub fn run_lines<M: Protocol, K: Keeper, I: Source, O: Sink>(
    alloc: Global,
    book: &mut Book<M, K>,
    input: &mut I,
    output: &mut O,
) -> Status
    requires { MeansSome M.Machine K.Keeper book.old }
    ensures runs { RunsLines M.Machine M.Protocol.own K.Keeper I.Source O.Sink book.old book.new input.old input.new output.old output.new result }
    ensures goes { GoesOn M.Machine K.Keeper book.old book.new }
    ensures source_later { I.faults input.old ≤ I.faults input.new }
    ensures sink_later { O.faults output.old ≤ O.faults output.new }
{
    let mut pending = Pending::new(alloc);
    match vec![in alloc; 0u8; ROOM] {
        Ok(mut room) => read_all(
            alloc,
            book,
            &mut pending,
            input,
            room.as_mut_slice(),
            output,
        ),
        Err(_) => Status::OutOfMemory,
    }
}
