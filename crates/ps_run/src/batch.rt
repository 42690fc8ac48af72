// `batch`: each line of the input is answered over a log.
ghost use Rattle.std.specs.Prelude.{◌≤◌};
ghost use Rattle.ps_book.specs.Books.{StaysKnown};
ghost use Rattle.ps_run.specs.Files.{AsksOnlyFor};
ghost use Rattle.ps_run.specs.Batches.{BatchesKeeper, BatchesFile};

use crate::lines::run_lines;
use crate::protocol::Protocol;
use crate::status::{Ended, Status, status_of_begin};
use ps_book::{Book, Unbegun};
use ps_edge::{Cabinet, Sink, Source};
use ps_keeper::{Keeper, KeeperError};
use std::alloc::Global;

/// Opens a keeper's log, answers each line of the input, and gives the keeper back.
pub fn batch_keeper<M: Protocol, K: Keeper, I: Source, O: Sink>(
    alloc: Global,
    keeper: K,
    input: &mut I,
    output: &mut O,
) -> Ended<K>
    ensures batched { BatchesKeeper M.Machine M.Protocol.own I.Source O.Sink K.Keeper keeper result input.old input.new output.old output.new }
    ensures still_known { StaysKnown K.Keeper keeper result.keeper }
    ensures later { K.faults keeper ≤ K.faults result.keeper }
{
    let Ok(machine) = M::fresh(alloc) else {
        return Ended {
            status: Status::OutOfMemory,
            keeper,
        };
    };
    match Book::begin(alloc, machine, keeper) {
        Ok(mut book) => {
            let status = run_lines(alloc, &mut book, input, output);
            Ended {
                status,
                keeper: book.close(),
            }
        }
        Err(Unbegun { keeper, error }) => Ended {
            status: status_of_begin(error),
            keeper,
        },
    }
}

/// Answers each line of the input over the log under a path.
pub fn batch_file<M: Protocol, I: Source, O: Sink, S: Cabinet>(
    alloc: Global,
    file: &str,
    input: &mut I,
    output: &mut O,
    cabinet: &mut S,
) -> Status
    ensures batched { BatchesFile M.Machine M.Protocol.own I.Source O.Sink S.Cabinet file.now input.old input.new output.old output.new cabinet.old cabinet.new result }
    ensures asked { AsksOnlyFor S.Cabinet file.now cabinet.old cabinet.new }
{
    match cabinet.keeper(file) {
        Ok(keeper) => {
            let Ended { status, keeper } = batch_keeper::<M, S::K, I, O>(
                alloc, keeper, input, output,
            );
            cabinet.back(file, keeper);
            status
        }
        Err(KeeperError::Failed) => Status::StoreFault,
        Err(KeeperError::OutOfMemory) => Status::OutOfMemory,
    }
}
