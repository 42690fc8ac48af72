//! The rows that a query shows, read as rows of the log.

ghost use Rattle.std.specs.Prelude.{◌≡◌, ◌≤◌, length, map, take, min, IfOk};
ghost use Rattle.ps_sqlkeep.specs.Shown.{log_row};

use ps_base as base;
use ps_keeper::Row;
use sqlite::{Error, ErrorCode};
use std::alloc::Global;

/// Reads one row. A body that isn't bytes is refused.
fn read_row(row: &sqlite::Row) -> Result<Row, Error>
    ensures { IfOk result (λ read. read ≡ log_row row.now) }
{
    let seq: u64 = row.get(0)?;
    let bytes: Vec<u8> = row.get(1)?;
    Ok(Row {
        seq,
        body: base::Octets::from_vec(bytes),
    })
}

/// Reads at most this many of them.
pub(crate) fn read_rows(
    alloc: Global,
    rows: &[sqlite::Row],
    most: u32,
) -> Result<base::List<Row>, Error>
    ensures rows { IfOk result (λ read. read ≡ map log_row (take (min (length rows.now) most) rows.now)) }
    ensures most { IfOk result (λ read. length read ≤ most) }
{
    let mut read = base::List::new(alloc);
    let part = &rows[..rows.len().min(most as usize)];
    for row in part {
        if read.push(read_row(row)?).is_err() {
            return Err(Error::SqliteFailure(ErrorCode::OutOfMemory));
        }
    }
    Ok(read)
}
