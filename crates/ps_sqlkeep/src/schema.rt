//! Whether a database holds the keeper's table and nothing else.

ghost use Rattle.std.specs.Prelude.{◌↔◌, ◌≡◌, ◌∷◌, [], codes, Some, None, true, false, IsTrue, length};
ghost use Rattle.sqlite.specs.declared.types.Value.TheVariants.{Null};
ghost use Rattle.ps_sqlkeep.specs.Entries.{body_column, entries, entries_schema, no_schema, seq_column};
ghost use Rattle.ps_sqlkeep.specs.Adopting.{IsUnclaimed};
ghost use Rattle.sqlite.specs.Held.{state};

use sqlite::types::Value;
use sqlite::{Alter, Connection};
use sqlite_schema::schema::{Column, Kind, Schema, Table};
use sqlite_value::keys::Collation;

/// The column `seq INTEGER`.
fn is_seq(column: &Column) -> bool
    ensures { IsTrue result ↔ (column.now ≡ seq_column) }
{
    match column {
        Column {
            name,
            kind: Kind::Integer,
            is_strict: false,
            not_null: false,
            default: Value::Null,
            collation: Collation::Binary,
        } => name.as_slice() == b"seq".as_slice(),
        _ => false,
    }
}

/// The column `body BLOB NOT NULL`.
fn is_body(column: &Column) -> bool
    ensures { IsTrue result ↔ (column.now ≡ body_column) }
{
    match column {
        Column {
            name,
            kind: Kind::Any,
            is_strict: false,
            not_null: true,
            default: Value::Null,
            collation: Collation::Binary,
        } => name.as_slice() == b"body".as_slice(),
        _ => false,
    }
}

/// Both columns, and no other.
fn has_columns(table: &Table) -> bool
    ensures { IsTrue result ↔ (table.now.columns ≡ seq_column ∷ body_column ∷ []) }
{
    match table.columns.as_slice() {
        [seq, body] => is_seq(seq) && is_body(body),
        _ => false,
    }
}

/// The number is the primary key, and stands for the rowid.
fn has_key(table: &Table) -> bool
    ensures { IsTrue result ↔ ((table.now.key ≡ Some 0) × (table.now.primary ≡ 0 ∷ [])) }
{
    match table.primary.as_slice() {
        [0] => table.key == Some(0),
        _ => false,
    }
}

/// There are no further keys.
fn has_no_other_key(table: &Table) -> bool
    ensures { IsTrue result ↔ ((table.now.uniques ≡ []) × (table.now.orders ≡ []) × (table.now.references ≡ [])) }
{
    table.uniques.is_empty() && table.orders.is_empty() && table.references.is_empty()
}

/// There are no checks.
fn has_no_check(table: &Table) -> bool
    ensures { IsTrue result ↔ (table.now.checks ≡ []) }
{
    table.checks.roots.is_empty()
}

/// There are no defaults but literals.
fn has_no_computed(table: &Table) -> bool
    ensures { IsTrue result ↔ ((table.now.computed ≡ []) × (table.now.stamps ≡ record { places = []; terms = []; formats = [] })) }
{
    table.computed.is_empty()
        && table.stamps.places.is_empty()
        && table.stamps.terms.roots.is_empty()
        && table.stamps.formats.is_empty()
}

/// The table `entries`, in the first tree.
fn is_entries_table(table: &Table) -> bool
    ensures { IsTrue result ↔ (table.now ≡ entries) }
{
    table.name.as_slice() == b"entries".as_slice()
        && table.tree == 0
        && !table.is_counted
        && has_columns(table)
        && has_key(table)
        && has_no_other_key(table)
        && has_no_check(table)
        && has_no_computed(table)
}

/// The schema is that table alone.
pub(crate) fn is_entries(schema: &Schema) -> bool
    ensures { IsTrue result ↔ (schema.now ≡ entries_schema) }
{
    match schema.tables.as_slice() {
        [table] => {
            schema.indexes.is_empty() && schema.views.is_empty() && is_entries_table(table)
        }
        _ => false,
    }
}

/// There are no tables, indexes or views.
fn is_blank(schema: &Schema) -> bool
    ensures { IsTrue result ↔ (schema.now ≡ no_schema) }
{
    schema.tables.is_empty() && schema.indexes.is_empty() && schema.views.is_empty()
}

/// Whether the database belongs to nobody else: its schema is empty, or is the keeper's table alone.
pub fn is_unclaimed<S: Alter>(connection: &Connection<S>) -> bool
    ensures { IsTrue result ↔ IsUnclaimed (state S.Store connection.now).now.schema }
{
    let schema = connection.schema();
    is_blank(schema) || is_entries(schema)
}
