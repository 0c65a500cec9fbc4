// Whole tables, read from a database if only its schema is known.
ghost use Rattle.std.specs.Prelude.{◌≡◌, ◌↔◌, ℕ, List, [], map, IfOk, IfSome, IsTrue};
ghost use Rattle.sqlite.specs.Query.{IsAnswer};
ghost use Rattle.sqlite.specs.Term.{Term};
ghost use Rattle.sqlite_value.specs.declared.keys.Key.{Key};
ghost use Rattle.sqlite_value.specs.Order.{Row as Columns, column};
ghost use Rattle.office_tables.specs.declared.version.Version.{Version};
ghost use Rattle.office_tables.specs.Readings.{IsNext, IsRead, ColumnRises};
ghost use Rattle.office_tables.specs.Finders.{ReadsUnknownFile, ReadsValue, IsFound};
ghost use Rattle.sqlite_schema.specs.declared.schema.Table.{Table};
ghost use Rattle.office_tables.specs.Stored.{shown_by};
ghost use Rattle.office_tables.specs.Listings.{one_table, Lists, ListsKeyed, ListsTable};

use crate::records::Record;
use sqlite::types::ValueRef;
use sqlite::{Alter, Connection, Error, ErrorCode, Row};
use std::alloc::Global;

// A record of a row of one table.
pub(crate) trait Listed: Record {
    ghost table: { Table };

    // Returns the text that lists the whole table.
    fn select_all_text() -> &'static str
        ensures { (version : Version)
            → ListsTable version Self.WIDTH table.tree (shown_by table.key) result.now };
}

// Returns all rows of a table. `None`: a row of the table isn't one of this type.
pub(crate) fn adopt<S: Alter, R: Listed + Drop>(
    alloc: Global,
    conn: &mut Connection<S>,
) -> Result<Option<Vec<R>>, Error>
    ensures { (version : Version) → ReadsUnknownFile version S.Store
        (λ db. IsFound R.fits R.columns_of (shown_by R.table.key) (db.trees R.table.tree))
        conn.old conn.new result }
{
    read_table(alloc, conn, R::select_all_text())
}

// Returns a whole table, by a text that lists it: each row's number comes after its columns, and
// the rows are in the order of these numbers. `None`: a row is not a record, two rows have the same
// number, or a row's number is not an integer.
pub(crate) fn read_table<S: Alter, R: Record + Drop>(
    alloc: Global,
    conn: &mut Connection<S>,
    sql: &str,
) -> Result<Option<Vec<R>>, Error>
    ensures adopts { (version : Version) (tree : ℕ) (show : Columns → Columns)
        → ListsTable version R.WIDTH tree show sql.now
        → ReadsUnknownFile version S.Store (λ db. IsFound R.fits R.columns_of show (db.trees tree))
        conn.old conn.new result }
    // Records come in the order of their rows' numbers.
    ensures rise { (version : Version) (at tree : ℕ) (show : Columns → Columns)
        → ListsKeyed version at R.WIDTH tree show sql.now
        → ReadsValue version S.Store (λ _ found. IfSome found
        (λ records. ColumnRises at (map R.columns_of records.items)))
        conn.old conn.new result }
{
    let rows = list_rows(conn, sql)?;
    if !numbers_rise(&rows, R::WIDTH) {
        return Ok(None);
    }
    read_each(alloc, &rows)
}

// Returns the rows that a text lists.
pub(crate) fn list_rows<S: Alter>(conn: &mut Connection<S>, sql: &str) -> Result<Vec<Row>, Error>
    ensures { (version : Version) (tree : ℕ) (shown : List Term) (order : List (Term × Key))
        → Lists version tree shown order sql.now
        → ReadsUnknownFile version S.Store
        (λ db rows. IsAnswer (one_table tree [] shown order) db.trees [] rows.items)
        conn.old conn.new result }
{
    conn.query_all(sql, &[])
}

// Returns each row as a record. `None`: a row is not a record.
fn read_each<R: Record + Drop>(alloc: Global, rows: &[Row]) -> Result<Option<Vec<R>>, Error>
    ensures { IfOk result (IsRead R.fits R.columns_of R.WIDTH rows.now) }
{
    let mut records = Vec::new(alloc);
    for row in rows {
        match R::read(row) {
            Ok(record) => records.push(record)?,
            Err(error) => {
                if is_out_of_memory(error) {
                    return Err(error);
                }
                return Ok(None);
            }
        }
    }
    Ok(Some(records))
}

pub(crate) fn is_out_of_memory(error: Error) -> bool
    ensures { IsTrue result ↔ (error ≡ Error.SqliteFailure ErrorCode.OutOfMemory) }
{
    match error {
        Error::SqliteFailure(ErrorCode::OutOfMemory) => true,
        _ => false,
    }
}

// Returns whether a column holds numbers, each greater than the one before.
fn numbers_rise(rows: &[Row], at: usize) -> bool
    ensures { IsTrue result ↔ ColumnRises at rows.now }
{
    let mut last: Option<i64> = None;
    for row in rows {
        let Some(number) = next_number(row, at, last) else {
            return false;
        };
        last = Some(number);
    }
    true
}

// Returns the number in a column, if it is greater than the last.
fn next_number(row: &Row, at: usize, last: Option<i64>) -> Option<i64>
    ensures { IsNext (column row.now at) last result }
{
    let Ok(ValueRef::Int(number)) = row.get_ref(at) else {
        return None;
    };
    match last {
        Some(before) if number <= before => None,
        _ => Some(number),
    }
}
