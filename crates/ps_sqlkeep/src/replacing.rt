//! The statements of a replacement, within its transaction.

ghost use Rattle.std.specs.Prelude.{IsTrue, ◌≤◌, ◌≡◌, [], map, OnOk};
ghost use Rattle.sqlite.specs.declared.types.Value.TheVariants.{Blob};
ghost use Rattle.sqlite.specs.State.{HasCleanDisk, KeepsCommit, Survives};
ghost use Rattle.sqlite.specs.Held.{state};
ghost use Rattle.sqlite.specs.View.{doubt};
ghost use Rattle.ps_keeper.specs.Log.{replaced};
ghost use Rattle.ps_sqlkeep.specs.Calls.{Makes};
ghost use Rattle.ps_sqlkeep.specs.Filling.{AddsRow, Fills, Refills};

use crate::statements::INSERT;
use ps_base as base;
use sqlite::types::ToSql;
use sqlite::{Alter, Connection, Error, ErrorCode, Transaction};

const DELETE: &str = "DELETE FROM entries";

/// Adds a row under this number.
fn put<S: Alter>(tx: &mut Transaction<'_, S>, seq: i64, body: &[u8]) -> Result<usize, Error>
    ensures same_reference { tx.new.conn.ghost_name ≡ tx.old.conn.ghost_name }
    ensures survives { Survives (state S.Store tx.old.conn.now) (state S.Store tx.new.conn.now) (λ _. ⊥) }
    ensures kept { HasCleanDisk (state S.Store tx.new.conn.now) → KeepsCommit (state S.Store tx.old.conn.now) (state S.Store tx.new.conn.now) }
    ensures ok { AddsRow seq (Blob body.now) (state S.Store tx.old.conn.now) (state S.Store tx.new.conn.now) result }
{
    let number = seq.to_sql();
    let blob = body.to_sql();
    tx.execute(INSERT, &[number, blob])
}

/// Writes the rows into a table that is empty.
fn fill<S: Alter>(tx: &mut Transaction<'_, S>, rows: &[base::Octets]) -> Result<(), Error>
    ensures same_reference { tx.new.conn.ghost_name ≡ tx.old.conn.ghost_name }
    ensures survives { Survives (state S.Store tx.old.conn.now) (state S.Store tx.new.conn.now) (λ _. ⊥) }
    ensures kept { HasCleanDisk (state S.Store tx.new.conn.now) → KeepsCommit (state S.Store tx.old.conn.now) (state S.Store tx.new.conn.now) }
    ensures ok { Fills (map Blob rows.now) (state S.Store tx.old.conn.now) (state S.Store tx.new.conn.now) result }
{
    let mut seq = 0i64;
    'rows: for row in rows {
        seq += 1;
        match put(tx, seq, row.as_slice()) {
            Ok(_) => {}
            Err(error) => return Err(error),
        }
    }
    Ok(())
}

/// Empties the table.
fn clear<S: Alter>(tx: &mut Transaction<'_, S>) -> Result<usize, Error>
    ensures same_reference { tx.new.conn.ghost_name ≡ tx.old.conn.ghost_name }
    ensures survives { Survives (state S.Store tx.old.conn.now) (state S.Store tx.new.conn.now) (λ _. ⊥) }
    ensures kept { HasCleanDisk (state S.Store tx.new.conn.now) → KeepsCommit (state S.Store tx.old.conn.now) (state S.Store tx.new.conn.now) }
    ensures ok { Refills [] (state S.Store tx.old.conn.now) (state S.Store tx.new.conn.now) result }
{
    tx.execute(DELETE, &[])
}

/// Empties the table and writes the rows.
fn write_all<S: Alter>(tx: &mut Transaction<'_, S>, rows: &[base::Octets]) -> Result<(), Error>
    ensures same_reference { tx.new.conn.ghost_name ≡ tx.old.conn.ghost_name }
    ensures survives { Survives (state S.Store tx.old.conn.now) (state S.Store tx.new.conn.now) (λ _. ⊥) }
    ensures kept { HasCleanDisk (state S.Store tx.new.conn.now) → KeepsCommit (state S.Store tx.old.conn.now) (state S.Store tx.new.conn.now) }
    ensures ok { Refills (map Blob rows.now) (state S.Store tx.old.conn.now) (state S.Store tx.new.conn.now) result }
{
    match clear(tx) {
        Ok(_) => fill(tx, rows),
        Err(error) => Err(error),
    }
}

/// All of it in one transaction, on a connection that was found open.
fn replace_all<S: Alter>(conn: &mut Connection<S>, rows: &[base::Octets]) -> Result<(), Error>
    ensures clean { doubt (state S.Store conn.old).is_clean ≤ doubt (state S.Store conn.new).is_clean }
    ensures change { IsTrue (state S.Store conn.old).is_open → Makes (replaced rows.now) (state S.Store conn.old) (state S.Store conn.new) result }
{
    if !conn.is_autocommit() {
        return Err(Error::SqliteFailure(ErrorCode::TransactionState));
    }
    let mut tx = conn.transaction();
    match write_all(&mut tx, rows) {
        Ok(()) => tx.commit(),
        Err(error) => {
            tx.rollback();
            Err(error)
        }
    }
}

/// Puts the rows in place of the table's. After an error the table is as it was.
pub(crate) fn replace<S: Alter>(
    conn: &mut Connection<S>,
    rows: &[base::Octets],
) -> Result<(), Error>
    ensures clean { doubt (state S.Store conn.old).is_clean ≤ doubt (state S.Store conn.new).is_clean }
    ensures change { Makes (replaced rows.now) (state S.Store conn.old) (state S.Store conn.new) result }
{
    let _prepared = match conn.prepare(DELETE) {
        Ok(statement) => statement,
        Err(error) => return Err(error),
    };
    replace_all(conn, rows)
}
