ghost use Rattle.std.specs.Prelude.{◌≡◌, ◌⊎◌, ℕ, List};
ghost use Rattle.ps_run.specs.Files.{AsksOnlyFor};
ghost use Rattle.ps_run.specs.Statuses.{EndsWith, Writes, status_text};
ghost use Rattle.ps_server.specs.Ports.{UsesNet};
ghost use Rattle.ps_words.specs.Serve.{IsPlain, texts};
ghost use Rattle.pubsub.specs.Serving.{AsksNoService, OnServe, Serves};

use ps_book::Machine;
use ps_core::Core;
use ps_edge::{Cabinet, Clock, Net, Port, Sink};
use ps_run::{Status, conclude};
use ps_server::serve_file;
use ps_words::{ServeWords, WordsError, serve_words};
use std::alloc::Global;
use std::sync::Wait;

/// Runs `serve --http PORT [--tick MS] FILE`: the connections of PORT are served over the log under FILE, one after another.
///
/// The words are those after the program's name. The log is opened before the port. The result is the code of a `Status`,
/// whose text goes to `faults`: 0 the port has closed, 2 other words, 5 the opening failed, 6 a row at the opening is no
/// entry in its place, 7 out of memory, 9 the port couldn't be opened or gave no connections any more.
pub fn run_serve<N: Net, S: Cabinet, C: Clock, E: Sink, R: Wait>(
    rt: &R,
    alloc: Global,
    words: &[String],
    net: &mut N,
    cabinet: &mut S,
    clock: &C,
    faults: &mut E,
) -> u8
    // How it ended, which is told.
    ensures usage { result ≡ 2 → AsksNoService words.now }
    ensures plain { (port : ℕ) (file : List ℕ) → IsPlain (texts words.now) port file → result ≡ 2 → ⊥ }
    ensures told { EndsWith result (λ status. Writes E.Sink faults.old faults.new (status_text status)) }

    // What was asked, and what stays.
    ensures unasked { result ≡ 2 → (cabinet.new ≡ cabinet.old) × (net.new ≡ net.old) }
    ensures asked { OnServe words.now (λ _ file. (cabinet.new ≡ cabinet.old) ⊎ AsksOnlyFor S.Cabinet file cabinet.old cabinet.new) }

    // What was done to the log and asked of the net, by the status: the tables `Served` and `UsesNet`.
    ensures served { Serves ⟦<Core as Machine>⟧ S.Cabinet C.Clock E.Sink words.now clock.now cabinet.old cabinet.new faults.old faults.new result }
    ensures net { OnServe words.now (λ port _. EndsWith result (UsesNet N.Net (Port.Http port) net.old net.new)) }
{
    match serve_words(alloc, words) {
        Ok(ServeWords { http, file }) => {
            let port = Port::Http(http);
            let status = serve_file::<Core, N, S, C, R>(
                rt,
                alloc,
                file.as_str(),
                port,
                net,
                cabinet,
                clock,
            );
            conclude(faults, status)
        }
        Err(WordsError::Usage) => conclude(faults, Status::Usage),
        Err(WordsError::OutOfMemory) => conclude(faults, Status::OutOfMemory),
    }
}
