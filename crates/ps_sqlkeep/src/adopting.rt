//! What is found in a database as it is adopted.

ghost use Rattle.std.specs.Prelude.{◌≡◌, ◌≢◌, ◌↔◌, ◌≤◌, ◌∷◌, [], false, IsTrue, IfOk, IfErr, OnOk, OnErr, MatchOption, ℤ, List, FitsSigned};
ghost use Rattle.std.specs.Int.{w64};
ghost use Rattle.sqlite.specs.declared.types.Value.TheVariants.{Int};
ghost use Rattle.sqlite.specs.Order.{Row as Values, column};
ghost use Rattle.sqlite.specs.State.{Executes, FailsToQuery, HasCleanDisk, IsLive, IsUnchanged};
ghost use Rattle.sqlite.specs.Held.{state};
ghost use Rattle.sqlite.specs.View.{doubt};
ghost use Rattle.ps_sqlkeep.specs.Entries.{count_text, create_text};
ghost use Rattle.ps_sqlkeep.specs.Adopting.{IsEntriesAlone, IsFound, IsFresh, IsLeft, IsMade, IsSame, IsSettled, LeavesEntries, Refuses};
ghost use Rattle.ps_sqlkeep.specs.Summary.{CountsUp, Fits, SumsUp};

use crate::in_order::InOrder;
use crate::schema::is_entries;
use sqlite::types::ValueRef;
use sqlite::{Alter, Connection, Error, Row};

const CREATE: &str =
    "CREATE TABLE IF NOT EXISTS entries(seq INTEGER PRIMARY KEY, body BLOB NOT NULL)";

const COUNT: &str = "SELECT count(*), min(seq), max(seq) FROM entries";

/// Makes the table, unless there is one of that name.
fn create<S: Alter>(conn: &mut Connection<S>) -> Result<usize, Error>
    ensures clean { doubt (state S.Store conn.old).is_clean ≤ doubt (state S.Store conn.new).is_clean }
    ensures runs { HasCleanDisk (state S.Store conn.new) → Executes create_text [] (state S.Store conn.old) (state S.Store conn.new) result }
    ensures made { HasCleanDisk (state S.Store conn.new) → OnOk result (IsMade (state S.Store conn.old) (state S.Store conn.new)) }
    ensures left { HasCleanDisk (state S.Store conn.new) → OnErr result (IsLeft (state S.Store conn.old) (state S.Store conn.new)) }
{
    conn.execute(CREATE, &[])
}

/// Asks for the count of the rows, their least number and their greatest.
fn count<S: Alter>(conn: &mut Connection<S>) -> Result<Vec<Row>, Error>
    ensures clean { doubt (state S.Store conn.old).is_clean ≤ doubt (state S.Store conn.new).is_clean }
    ensures fails { HasCleanDisk (state S.Store conn.new) → IfErr result (FailsToQuery count_text [] (state S.Store conn.old) (state S.Store conn.new)) }
    ensures same { HasCleanDisk (state S.Store conn.new) → OnOk result (IsUnchanged (state S.Store conn.old) (state S.Store conn.new)) }
    ensures left { HasCleanDisk (state S.Store conn.new) → OnErr result (IsLeft (state S.Store conn.old) (state S.Store conn.new)) }
    ensures rows { HasCleanDisk (state S.Store conn.new) → IfOk result (λ rows. SumsUp (state S.Store conn.old) rows.items) }
{
    conn.query_all(COUNT, &[])
}

/// The integer at this place, if there is one.
fn number_at(row: &Row, at: usize) -> Option<i64>
    ensures value { MatchOption result ((n : ℤ) → column row.now at ≢ Int n) (λ n. column row.now at ≡ Int n) }
    ensures fits { (n : ℤ) → column row.now at ≡ Int n → FitsSigned w64 n }
{
    match row.get_ref(at) {
        Ok(ValueRef::Int(number)) => Some(number),
        _ => None,
    }
}

/// Whether the numbers are 1 to their count.
fn counts_up(row: &Row) -> bool
    ensures value { IsTrue result ↔ CountsUp row.now }
    ensures fits { Fits row.now }
{
    let greatest = number_at(row, 2);
    match number_at(row, 0) {
        Some(0) => true,
        Some(count) => number_at(row, 1) == Some(1) && greatest == Some(count),
        None => false,
    }
}

/// The same of the answer to `count`.
fn has_numbers(rows: &[Row]) -> bool
    ensures value { (row : Values) → rows.now ≡ row ∷ [] → IsTrue result ↔ CountsUp row }
    ensures fits { (row : Values) → rows.now ≡ row ∷ [] → Fits row }
{
    match rows {
        [row] => counts_up(row),
        _ => false,
    }
}

/// Whether the database holds a log, by the answer to `count`.
fn holds_log<S: Alter>(conn: &Connection<S>, counted: &[Row]) -> bool
    ensures entries { IsTrue result → IsEntriesAlone (state S.Store conn.now) }
    ensures counts { IsTrue result → (row : Values) → counted.now ≡ row ∷ [] → CountsUp row }
    ensures all { IsEntriesAlone (state S.Store conn.now) → (row : Values) → counted.now ≡ row ∷ [] → CountsUp row → IsTrue result }
    ensures fits { (row : Values) → counted.now ≡ row ∷ [] → Fits row }
    ensures settled { IsSettled (state S.Store conn.now) }
    ensures live { IsLive (state S.Store conn.now) }
{
    let outside = conn.is_autocommit();
    let only_entries = is_entries(conn.schema());
    let numbered = has_numbers(counted);
    outside && only_entries && numbered
}

/// Makes the table if there is none, and says whether the database holds a log.
pub(crate) fn examine<S: InOrder>(conn: &mut Connection<S>) -> Result<bool, Error>
    ensures clean { doubt (state S.Store conn.old).is_clean ≤ doubt (state S.Store conn.new).is_clean }
    ensures found { HasCleanDisk (state S.Store conn.new) → IfOk result (λ found. IsFound (state S.Store conn.new) found) }
    ensures same { HasCleanDisk (state S.Store conn.new) → OnOk result (IsSame (state S.Store conn.old) (state S.Store conn.new)) }
    ensures fresh { HasCleanDisk (state S.Store conn.new) → OnOk result (IsFresh (state S.Store conn.old) (state S.Store conn.new)) }
    ensures cause { HasCleanDisk (state S.Store conn.new) → IfErr result (Refuses S.Store conn.old conn.new) }
    ensures left { HasCleanDisk (state S.Store conn.new) → OnErr result (LeavesEntries (state S.Store conn.old) (state S.Store conn.new)) }
{
    match create(conn) {
        Ok(_) => {}
        Err(error) => return Err(error),
    }
    let counted = match count(conn) {
        Ok(counted) => counted,
        Err(error) => return Err(error),
    };
    Ok(holds_log(conn, counted.as_slice()))
}
