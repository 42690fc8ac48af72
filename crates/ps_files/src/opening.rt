//! From a path to the keeper of its log, and back.

ghost use Rattle.std.specs.Prelude.{IfOk};
ghost use Rattle.sqlite.specs.Files.{over_files};
ghost use Rattle.ps_files.specs.Opened.{IsOpened};

use crate::beside::{SHORTEST_LOG, is_stray_byte, remove_log_below};
use crate::keeper::{FileKeeper, Store};
use ps_keeper::KeeperError;
use ps_sqlkeep::{InOrder, SqlKeeper, cause_of, is_unclaimed};
use sqlite::{Connection, File, Leftover, Unknown};

/// Makes a keeper of an open database.
fn adopted<S: InOrder + Drop>(connection: Connection<S>) -> Result<SqlKeeper<S>, KeeperError>
    ensures opened { IfOk result (IsOpened S.Store) }
{
    match SqlKeeper::adopt(connection) {
        Ok(keeper) => Ok(keeper),
        Err(unadopted) => Err(unadopted.error),
    }
}

/// Lets go of a database that belongs to somebody else, and leaves nothing beside it.
fn let_go(rt: &HostRuntime, path: &str, connection: Connection<Store>) {
    let files = connection.into_store().close();
    let _ = remove_log_below(rt, path, SHORTEST_LOG);
    drop(files);
}

/// Lets go of what wasn't opened, and leaves no empty log beside it.
fn give_up(rt: &HostRuntime, path: &str, left: Leftover<File>) {
    let files = left.into_files();
    let _ = remove_log_below(rt, path, 1);
    drop(files);
}

/// Opens the log in a file. A file that is missing or empty gets an empty log. A file that is no database, or has
/// anything but a log in it, is refused and left as it is.
pub(crate) fn open_log(rt: &HostRuntime, path: &str) -> Result<SqlKeeper<Store>, KeeperError>
    ensures opened { IfOk result (IsOpened over_files) }
{
    if is_stray_byte(rt, path) {
        return Err(KeeperError::Failed);
    }
    match Connection::open_from(rt, path, false, Unknown) {
        Ok(connection) => {
            if is_unclaimed(&connection) {
                return adopted(connection);
            }
            let_go(rt, path, connection);
            Err(KeeperError::Failed)
        }
        Err((error, left)) => {
            if let Some(left) = left {
                give_up(rt, path, left);
            }
            Err(cause_of(error))
        }
    }
}

/// Closes the file of a keeper, and says whether that went well. What was committed stands in the file alone then.
pub(crate) fn close_log(rt: &HostRuntime, path: &str, keeper: FileKeeper) -> bool {
    let FileKeeper::Sql(keeper) = keeper else {
        return true;
    };
    match keeper.release().close_files() {
        Ok(files) => {
            let _ = remove_log_below(rt, path, SHORTEST_LOG);
            drop(files);
            true
        }
        Err((_, store)) => {
            drop(store.close());
            false
        }
    }
}
