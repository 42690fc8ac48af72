ghost use Rattle.std.specs.Prelude.{◌≡◌, ◌↔◌, None};
ghost use Rattle.ps_run.specs.Files.{AsksOnlyFor};
ghost use Rattle.ps_run.specs.Statuses.{status_text, Writes, EndsWith, IsUnopened};
ghost use Rattle.pubsub.specs.Words.{texts, request_in, OnFile};
ghost use Rattle.pubsub.specs.Commands.{Batches, Reports, CompletesBatch, CompletesReport};

use crate::service::Service;
use crate::words::{Task, request_of};
use ps_edge::{Cabinet, Sink, Source};
use ps_run::{Status, batch_file, conclude, report_file};
use std::alloc::Global;

/// Runs a command that needs no network, over the log under FILE: `batch FILE` answers each line of the input, `check
/// FILE` prints how many entries the log has, `stat FILE` the numbers of its world.
///
/// The words are those after the program's name. The result is the code of a `Status`, whose text goes to `faults`: 0
/// all lines answered or the report printed, 2 other words, 3 a read, 4 a write, 5 the opening failed, 6 a row at the
/// opening is no entry in its place, 7 out of memory, 8 the input is too long.
pub fn run_offline<I: Source, O: Sink, E: Sink, S: Cabinet>(
    alloc: Global,
    words: &[String],
    input: &mut I,
    output: &mut O,
    faults: &mut E,
    cabinet: &mut S,
) -> u8
    // How it ended, which is told.
    ensures usage { (result ≡ 2) ↔ (request_in (texts words.now) ≡ None) }
    ensures told { EndsWith result (λ status. Writes E.Sink faults.old faults.new (status_text status)) }

    // What was asked, and what stays.
    ensures unasked { result ≡ 2 → cabinet.new ≡ cabinet.old }
    ensures unopened { IsUnopened result → (input.new ≡ input.old) × (output.new ≡ output.old) }
    ensures asked { OnFile words.now (λ file. AsksOnlyFor S.Cabinet file cabinet.old cabinet.new) }

    // What was done, by the status: the tables `Batched` and `Reported`.
    ensures batch { Batches I.Source O.Sink E.Sink S.Cabinet words.now input.old input.new output.old output.new faults.old faults.new cabinet.old cabinet.new result }
    ensures report { Reports I.Source O.Sink E.Sink S.Cabinet words.now input.old input.new output.old output.new faults.old faults.new cabinet.old cabinet.new result }

    // If nothing failed, the status is 0, or 7.
    ensures complete { CompletesBatch I.Source O.Sink S.Cabinet words.now input.old input.new output.old output.new cabinet.old cabinet.new result }
    ensures complete_report { CompletesReport I.Source O.Sink S.Cabinet words.now input.old input.new output.old output.new cabinet.old cabinet.new result }
{
    match request_of(words) {
        Some((Task::Batch, file)) => {
            let status = batch_file::<Service, I, O, S>(alloc, file, input, output, cabinet);
            conclude(faults, status)
        }
        Some((Task::Print(report), file)) => {
            let status = report_file::<Service, O, S>(alloc, report, file, output, cabinet);
            conclude(faults, status)
        }
        None => conclude(faults, Status::Usage),
    }
}
