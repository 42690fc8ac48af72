// Reports: a log is read, its text is printed, and nothing is changed.
ghost use Rattle.std.specs.Prelude.{◌≡◌, ◌≤◌, ℕ, Some, IsSome, IfOk, IfSome};
ghost use Rattle.ps_book.specs.Books.{StaysKnown};
ghost use Rattle.ps_run.specs.Files.{AsksOnlyFor};
ghost use Rattle.ps_run.specs.Reports.{WritesReport, ReportsKeeper, ReportsFile};

use crate::protocol::{Protocol, Report};
use crate::status::{Ended, Status, status_of_begin};
use ps_base::{Octets, OutOfMemory};
use ps_book::{Book, Unbegun};
use ps_edge::{Cabinet, Sink, write_all};
use ps_keeper::{Keeper, KeeperError};
use std::alloc::Global;

/// The text of a report on the machine of a book.
fn print_report<M: Protocol, K: Keeper>(
    alloc: Global,
    report: Report,
    book: &Book<M, K>,
) -> Result<Octets, OutOfMemory>
    requires { IsSome book.now.machine }
    ensures { IfOk result (λ text. IfSome book.now.machine (λ it. text ≡ M.report_text report it)) }
{
    let Some(machine) = book.machine() else {
        unreachable!()
    };
    machine.print_report(alloc, report)
}

/// Writes a report on the machine of a book.
fn write_report<M: Protocol, K: Keeper, O: Sink>(
    alloc: Global,
    report: Report,
    book: &Book<M, K>,
    output: &mut O,
) -> Status
    requires { IsSome book.now.machine }
    ensures { IfSome book.now.machine (λ it. WritesReport O.Sink (M.report_text report it) output.old output.new result) }
{
    let Ok(text) = print_report(alloc, report, book) else {
        return Status::OutOfMemory;
    };
    match write_all(output, text.as_slice()) {
        Ok(()) => Status::Done,
        Err(_) => Status::WriteFault,
    }
}

/// Opens a keeper's log, writes a report of its world, and gives the keeper back.
pub fn report_keeper<M: Protocol, K: Keeper, O: Sink>(
    alloc: Global,
    report: Report,
    keeper: K,
    output: &mut O,
) -> Ended<K>
    ensures reported { ReportsKeeper M.Machine M.Protocol.own O.Sink K.Keeper report keeper result output.old output.new }
    ensures still_known { StaysKnown K.Keeper keeper result.keeper }
    ensures later { K.faults keeper ≤ K.faults result.keeper }
{
    let Ok(machine) = M::fresh(alloc) else {
        return Ended {
            status: Status::OutOfMemory,
            keeper,
        };
    };
    match Book::begin(alloc, machine, keeper) {
        Ok(book) => {
            let status = write_report(alloc, report, &book, output);
            Ended {
                status,
                keeper: book.close(),
            }
        }
        Err(Unbegun { keeper, error }) => Ended {
            status: status_of_begin(error),
            keeper,
        },
    }
}

/// Writes a report of the world that the log under a path means.
pub fn report_file<M: Protocol, O: Sink, S: Cabinet>(
    alloc: Global,
    report: Report,
    file: &str,
    output: &mut O,
    cabinet: &mut S,
) -> Status
    ensures reported { ReportsFile M.Machine M.Protocol.own O.Sink S.Cabinet report file.now output.old output.new cabinet.old cabinet.new result }
    ensures asked { AsksOnlyFor S.Cabinet file.now cabinet.old cabinet.new }
{
    match cabinet.keeper(file) {
        Ok(keeper) => {
            let Ended { status, keeper } = report_keeper::<M, S::K, O>(
                alloc, report, keeper, output,
            );
            cabinet.back(file, keeper);
            status
        }
        Err(KeeperError::Failed) => Status::StoreFault,
        Err(KeeperError::OutOfMemory) => Status::OutOfMemory,
    }
}
