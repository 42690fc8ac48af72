//! The statements of the keeper. Each is prepared before it runs: a connection that a fault has shut refuses that, so that
//! nothing runs on it.

ghost use Rattle.std.specs.Prelude.{◌≤◌, ◌^◌};
ghost use Rattle.sqlite.specs.Held.{state};
ghost use Rattle.sqlite.specs.View.{doubt};
ghost use Rattle.ps_keeper.specs.Log.{appended};
ghost use Rattle.ps_sqlkeep.specs.Kept.{IsNext};
ghost use Rattle.ps_sqlkeep.specs.Calls.{Makes, Shows};

use sqlite::types::ToSql;
use sqlite::{Alter, Connection, Error, Row};

pub(crate) const INSERT: &str = "INSERT INTO entries(seq, body) VALUES (?1, ?2)";

const PAGE: &str = "SELECT seq, body FROM entries WHERE seq > ?1 ORDER BY seq LIMIT ?2";

/// Adds a row under this number.
pub(crate) fn insert<S: Alter>(
    conn: &mut Connection<S>,
    seq: i64,
    body: &[u8],
) -> Result<usize, Error>
    ensures clean { doubt (state S.Store conn.old).is_clean ≤ doubt (state S.Store conn.new).is_clean }
    ensures change { IsNext (state S.Store conn.old) seq → Makes (appended body.now) (state S.Store conn.old) (state S.Store conn.new) result }
{
    let statement = match conn.prepare(INSERT) {
        Ok(statement) => statement,
        Err(error) => return Err(error),
    };
    let number = seq.to_sql();
    let blob = body.to_sql();
    statement.execute(conn, &[number, blob])
}

/// At most `most` rows after a number, in order.
pub(crate) fn page<S: Alter>(
    conn: &mut Connection<S>,
    after: u64,
    most: u32,
) -> Result<Vec<Row>, Error>
    requires number { after ≤ 2 ^ 62 }
    ensures clean { doubt (state S.Store conn.old).is_clean ≤ doubt (state S.Store conn.new).is_clean }
    ensures page { Shows after most (λ rows. rows.items) (state S.Store conn.old) (state S.Store conn.new) result }
{
    let statement = match conn.prepare(PAGE) {
        Ok(statement) => statement,
        Err(error) => return Err(error),
    };
    let from = (after as i64).to_sql();
    let count = most.to_sql();
    statement.query_all(conn, &[from, count])
}
