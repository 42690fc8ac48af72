ghost use Rattle.std.specs.Prelude.{◌<◌, ◌≤◌, ◌^◌};

use super::*;
use ps_base as base;
use ps_keeper::{Keeper, KeeperError};
use sqlite::{Connection, MemStore};
use std::alloc::Global;
use std::test::Fail;

/// A database in memory after these statements.
fn database(alloc: Global, sql: &str) -> Result<Connection<MemStore>, Fail> {
    let mut conn = Connection::open_in_memory(alloc)?;
    conn.execute_batch(sql)?;
    Ok(conn)
}

fn adopted(conn: Connection<MemStore>) -> Result<SqlKeeper<MemStore>, KeeperError> {
    match SqlKeeper::adopt(conn) {
        Ok(keeper) => Ok(keeper),
        Err(
            Unadopted {
                connection: _,
                error,
            },
        ) => Err(error),
    }
}

/// Adds a body under the number after the last one.
fn append_next<K: Keeper>(alloc: Global, keeper: &mut K, body: &[u8]) -> Result<(), KeeperError> {
    let count = keeper.rows(alloc, 0, 100)?.len();
    if count >= 100 {
        return Err(KeeperError::Failed);
    }
    keeper.append(count as u64 + 1, body)
}

fn replace_by<K: Keeper>(alloc: Global, keeper: &mut K, body: &[u8]) -> Result<(), KeeperError> {
    let mut rows = base::List::new(alloc);
    rows.push(base::Octets::from_slice(alloc, body)?)?;
    keeper.replace(rows.as_slice())
}

/// The rows of a page: for each its number as a digit, and its body.
fn page<K: Keeper>(
    alloc: Global,
    keeper: &mut K,
    after: u64,
    most: u32,
) -> Result<Vec<u8>, KeeperError>
    requires number { after ≤ 2 ^ 62 }
    requires some { 0 < most }
{
    let mut text = Vec::new(alloc);
    for row in keeper.rows(alloc, after, most)?.as_slice() {
        let digit = b'0' + (row.seq % 10) as u8;
        if text.push(digit).is_err() || text.extend_from_slice(row.body.as_slice()).is_err() {
            return Err(KeeperError::OutOfMemory);
        }
    }
    Ok(text)
}

#[test]
fn rows_are_appended_and_replaced(rt: HostRuntime) -> Result<(), Fail> {
    let alloc = rt.alloc();
    let mut keeper = adopted(database(alloc, "")?)?;
    append_next(alloc, &mut keeper, b"x")?;
    assert_eq!(rt;
        page(alloc, &mut keeper, 0, 10)?.as_slice(),
        b"1x".as_slice()
    );
    append_next(alloc, &mut keeper, b"")?;
    append_next(alloc, &mut keeper, b"z")?;
    assert_eq!(rt;
        page(alloc, &mut keeper, 0, 2)?.as_slice(),
        b"1x2".as_slice()
    );
    assert_eq!(rt;
        page(alloc, &mut keeper, 2, 2)?.as_slice(),
        b"3z".as_slice()
    );
    assert_eq!(rt; page(alloc, &mut keeper, 3, 2)?.len(), 0);
    replace_by(alloc, &mut keeper, b"y")?;
    assert_eq!(rt;
        page(alloc, &mut keeper, 0, 10)?.as_slice(),
        b"1y".as_slice()
    );
    let mut again = adopted(keeper.release())?;
    assert_eq!(rt;
        page(alloc, &mut again, 0, 10)?.as_slice(),
        b"1y".as_slice()
    );
    Ok(())
}

#[test]
fn other_tables_are_left(rt: HostRuntime) -> Result<(), Fail> {
    let alloc = rt.alloc();
    let mut keeper = adopted(database(
        alloc,
        "CREATE TABLE note(text); INSERT INTO note VALUES ('n')",
    )?)?;
    append_next(alloc, &mut keeper, b"x")?;
    replace_by(alloc, &mut keeper, b"y")?;
    assert_eq!(rt;
        page(alloc, &mut keeper, 0, 10)?.as_slice(),
        b"1y".as_slice()
    );
    let mut conn = keeper.release();
    assert_eq!(rt; conn.query_all("SELECT text FROM note", &[])?.len(), 1);
    Ok(())
}

#[test]
fn a_table_of_another_make_is_refused(rt: HostRuntime) -> Result<(), Fail> {
    let alloc = rt.alloc();
    let conn = database(
        alloc,
        "CREATE TABLE entries(id TEXT); INSERT INTO entries VALUES ('n')",
    )?;
    match SqlKeeper::adopt(conn) {
        Ok(_keeper) => return Err(Fail::new("the table was taken for a log")),
        Err(left) => {
            let Unadopted {
                mut connection,
                error,
            } = left;
            assert_eq!(rt; error, KeeperError::Failed);
            assert_eq!(rt;
                connection.query_all("SELECT id FROM entries", &[])?.len(),
                1
            );
        }
    }
    Ok(())
}

#[test]
fn a_body_of_text_is_refused(rt: HostRuntime) -> Result<(), Fail> {
    let alloc = rt.alloc();
    let mut keeper = adopted(database(alloc, "")?)?;
    append_next(alloc, &mut keeper, b"x")?;
    let mut conn = keeper.release();
    conn.execute("INSERT INTO entries(seq, body) VALUES (2, 'text')", &[])?;
    let mut again = adopted(conn)?;
    assert_eq!(rt; page(alloc, &mut again, 0, 1)?.as_slice(), b"1x".as_slice());
    assert_eq!(rt;
        page(alloc, &mut again, 0, 2).err(),
        Some(KeeperError::Failed)
    );
    Ok(())
}

#[test]
fn numbers_below_one_are_not_read(rt: HostRuntime) -> Result<(), Fail> {
    let alloc = rt.alloc();
    let mut keeper = adopted(database(alloc, "")?)?;
    append_next(alloc, &mut keeper, b"x")?;
    let mut conn = keeper.release();
    conn.execute(
        "INSERT INTO entries(seq, body) VALUES (-1, x'61'), (0, x'62'), (3, x'63')",
        &[],
    )?;
    let mut again = adopted(conn)?;
    assert_eq!(rt;
        page(alloc, &mut again, 0, 10)?.as_slice(),
        b"1x3c".as_slice()
    );
    Ok(())
}
