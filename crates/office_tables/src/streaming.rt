// The rows of a query's answer, as records.
ghost use Rattle.std.specs.Prelude.{◌∷◌, ◌++◌, [], List, IfOk};
ghost use Rattle.sqlite.specs.Held.{state};
ghost use Rattle.sqlite.specs.Query.{Query};
ghost use Rattle.sqlite.specs.State.{HasCleanDisk};
ghost use Rattle.sqlite.specs.Values.{bound};
ghost use Rattle.sqlite_value.specs.Order.{Row as Columns};
ghost use Rattle.office_tables.specs.Asking.{IsReadOf, Means};
ghost use Rattle.office_tables.specs.Readings.{IsGathered, IsReadAnswer};
ghost use Rattle.office_tables.specs.Readers.{LeavesIfPlain};

use crate::listing::is_out_of_memory;
use crate::records::Record;
use sqlite::types::ValueRef;
use sqlite::{Alter, Connection, Error, Row};
use std::alloc::Global;

// Returns the records of a query's rows.
pub(crate) fn stream<S: Alter, R: Record + Drop>(
    alloc: Global,
    conn: &mut Connection<S>,
    sql: &str,
    params: &[ValueRef<'_>],
) -> Result<Vec<R>, Error>
    ensures shown { (q : Query) → Means (state S.Store conn.old).now.schema q sql.now
        → HasCleanDisk (state S.Store conn.new)
        → IfOk result (λ records. IsReadOf R.columns_of R.WIDTH (bound params.now) q
        (state S.Store conn.old).now.trees records.items) }
    ensures leaves { LeavesIfPlain sql.now S.Store conn.old conn.new result }
{
    match stream_found(alloc, conn, sql, params)? {
        Some(records) => Ok(records),
        None => Err(Error::InvalidQuery),
    }
}

// Returns the records of a query's rows; only one row at a time is in memory. `None`: a row is not
// a record.
pub(crate) fn stream_found<S: Alter, R: Record + Drop>(
    alloc: Global,
    conn: &mut Connection<S>,
    sql: &str,
    params: &[ValueRef<'_>],
) -> Result<Option<Vec<R>>, Error>
    ensures shown { (q : Query) → Means (state S.Store conn.old).now.schema q sql.now
        → HasCleanDisk (state S.Store conn.new)
        → IfOk result (IsReadAnswer R.fits R.columns_of R.WIDTH (bound params.now) q
        (state S.Store conn.old).now.trees) }
    ensures leaves { LeavesIfPlain sql.now S.Store conn.old conn.new result }
{
    let mut found = Some(Vec::new(alloc));
    let mut rows = conn.query(sql, params)?;
    'rows: for _ in 0..u64::MAX {
        rows.advance()?;
        let Some(row) = rows.get() else {
            return Ok(found);
        };
        found = with_row(found, row)?;
    }
    Err(Error::InvalidQuery)
}

// Adds the record of one more row. `None`: a row is not a record.
fn with_row<R: Record + Drop>(found: Option<Vec<R>>, row: &Row) -> Result<Option<Vec<R>>, Error>
    ensures { (rows : List Columns) → IsGathered R.fits R.columns_of R.WIDTH rows found
        → IfOk result (IsGathered R.fits R.columns_of R.WIDTH (rows ++ row.now ∷ [])) }
{
    let Some(mut records) = found else {
        return Ok(None);
    };
    match R::read(row) {
        Ok(record) => records.push(record)?,
        Err(error) => {
            if is_out_of_memory(error) {
                return Err(error);
            }
            return Ok(None);
        }
    }
    Ok(Some(records))
}
