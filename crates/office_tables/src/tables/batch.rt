// Accepted batches of changes of enrolments.
ghost use Rattle.std.specs.Prelude.{◌≡◌, ◌==◌, filter, map, option_to_list};
ghost use Rattle.office_tables.specs.declared.version.Version.{Version};
ghost use Rattle.office_tables.specs.Tables.Batches.{batch_columns, batch_from, counts_columns, FitsBatch, FitsCounts, IsFoundBatches};
ghost use Rattle.office_tables.specs.Tables.{with_batch};
ghost use Rattle.office_tables.specs.Finders.{ReadsUnknownFile};
ghost use Rattle.office_tables.specs.Readers.{LeavesTablesIn, ReadsIn};

use crate::altering::Alteration;
use crate::listing::read_table;
use crate::query::Query;
use crate::records::Record;
use crate::running::run;
use crate::streaming::stream;
use crate::texts::{insert, record, select};
use sqlite::{Alter, Connection, Error, Row, Transaction, params};
use std::alloc::Global;

// What SQLite keeps of the table.
macro_rules! table {
    (batch $form:ident $($of:tt)*) => {
        $form!(batch 14 Number [
            no INTEGER, bytes BLOB, added INTEGER, dropped INTEGER, unchanged INTEGER
        ] $($of)*)
    };
}

pub(crate) use table;

/// An accepted batch of changes of enrolments, with the counts of what its lines did.
#[derive(Drop)]
pub struct BatchRow {
    pub no: u32,
    pub bytes: Vec<u8>,
    pub added: u32,
    pub dropped: u32,
    pub unchanged: u32,
}

/// A batch without its bytes.
#[derive(Clone, Copy, Debug, PartialEq, Eq)]
pub struct BatchCountsRow {
    pub no: u32,
    pub added: u32,
    pub dropped: u32,
    pub unchanged: u32,
}

impl Record for BatchRow {
    ghost WIDTH = { 5 };

    ghost columns_of = { λ made. batch_columns (batch_from made) };

    ghost fits = { λ made. FitsBatch (batch_from made) };

    const WIDTH: usize = 5;

    fn read(row: &Row) -> Result<BatchRow, Error> {
        Ok(table!(batch record BatchRow row))
    }
}

impl Record for BatchCountsRow {
    ghost WIDTH = { 4 };

    ghost columns_of = { counts_columns };

    ghost fits = { FitsCounts };

    const WIDTH: usize = 4;

    fn read(row: &Row) -> Result<BatchCountsRow, Error> {
        Ok(BatchCountsRow {
            no: row.get(0)?,
            added: row.get(1)?,
            dropped: row.get(2)?,
            unchanged: row.get(3)?,
        })
    }
}

/// Adds a batch, with the counts of what its lines did.
#[derive(Clone, Copy)]
pub struct InsertBatch<'a> {
    pub no: u32,
    pub bytes: &'a [u8],
    pub added: u32,
    pub dropped: u32,
    pub unchanged: u32,
}

impl Alteration for InsertBatch<'_> {
    ghost alteration = { λ it t. with_batch (record {
      no = it.no;
      bytes = it.bytes.now;
      added = it.added;
      dropped = it.dropped;
      unchanged = it.unchanged;
    }) t };

    fn apply<S: Alter>(&self, tx: &mut Transaction<'_, S>) -> Result<(), Error> {
        run(
            tx,
            table!(batch insert),
            params![
                self.no,
                self.bytes,
                self.added,
                self.dropped,
                self.unchanged
            ],
        )
    }
}

/// Returns the stored batch of a number, if there is one, in a file of either version.
pub fn batch_of<S: Alter>(
    alloc: Global,
    conn: &mut Connection<S>,
    no: u32,
) -> Result<Option<BatchRow>, Error>
    ensures row { (version : Version) → ReadsIn version S.Store
        (λ t found. filter (λ r. r.no == no) t.batch ≡ map batch_from (option_to_list found))
        conn.old conn.new result }
    ensures leaves { (version : Version)
        → LeavesTablesIn version S.Store conn.old conn.new result }
{
    let mut found: Vec<BatchRow> = stream(
        alloc,
        conn,
        table!(batch select " WHERE no = ?1 ORDER BY no"),
        params![no],
    )?;
    Ok(found.pop())
}

// Returns all batches without their bytes. `None`: the table doesn't hold batches.
pub(crate) fn adopt_batches<S: Alter>(
    alloc: Global,
    conn: &mut Connection<S>,
) -> Result<Option<Vec<BatchCountsRow>>, Error>
    ensures { (version : Version)
        → ReadsUnknownFile version S.Store IsFoundBatches conn.old conn.new result }
{
    read_table(
        alloc,
        conn,
        "SELECT no, added, dropped, unchanged, rowid FROM batch ORDER BY rowid",
    )
}

/// The kept batch of a number, if there is one.
#[derive(Clone, Copy)]
pub struct BatchOf {
    pub no: u32,
}

impl Query for BatchOf {
    type Rows = Option<BatchRow>;

    ghost answers = { λ it t found.
        filter (λ r. r.no == it.no) t.batch ≡ map batch_from (option_to_list found) };

    fn ask<S: Alter>(&self, alloc: Global, conn: &mut Connection<S>) -> Result<Self::Rows, Error> {
        batch_of(alloc, conn, self.no)
    }
}
