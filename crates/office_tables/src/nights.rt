// Amounts over night of drafts and students: in version 2 they have tables of their own.
ghost use Rattle.std.specs.Prelude.{◌≡◌, ℕ, IfOk};
ghost use Rattle.sqlite.specs.Held.{state};
ghost use Rattle.sqlite.specs.Query.{Query};
ghost use Rattle.sqlite_value.specs.Order.{Row as Columns};
ghost use Rattle.office_tables.specs.Tables.{office_schema};
ghost use Rattle.office_tables.specs.Asking.{Means};
ghost use Rattle.office_tables.specs.declared.version.Version.{Version};
ghost use Rattle.office_tables.specs.declared.version.Version.TheVariants.{Two};
ghost use Rattle.office_tables.specs.Finders.{ReadsUnknownFile};
ghost use Rattle.office_tables.specs.Listings.{ListsKeyed};
ghost use Rattle.office_tables.specs.Joining.{AreFound, AreJoined, HaveRows, IsJoined, IsJoinedWith, IsReadWith, NightSplit};
ghost use Rattle.office_tables.specs.Nights.{night_columns, FitsNight};
ghost use Rattle.office_tables.specs.Readers.{LeavesTables, Reads};
ghost use Rattle.office_tables.specs.Stored.{keyed_columns};

use crate::listing::read_table;
use crate::records::Record;
use crate::streaming::stream;
use crate::version::Version;
use sqlite::{Alter, Connection, Error, Row};
use std::alloc::Global;

// The number of a draft or a student, and its amount over night.
#[derive(Clone, Copy)]
pub(crate) struct NightRow {
    pub number: u32,
    pub night: u64,
}

impl Record for NightRow {
    ghost WIDTH = { 2 };

    ghost columns_of = { night_columns };

    ghost fits = { FitsNight };

    const WIDTH: usize = 2;

    fn read(row: &Row) -> Result<NightRow, Error> {
        Ok(NightRow {
            number: row.get(0)?,
            night: row.get(1)?,
        })
    }
}

// A row whose amount over night is in a second table.
pub(crate) trait HasNight: Copy {
    // Its columns in the first table.
    ghost main_columns: { Self → Columns };

    // Its columns in the second table.
    ghost side_columns: { Self → Columns };

    ghost number_in: { Self → ℕ };

    ghost night_in: { Self → ℕ };

    fn number(&self) -> u32
        ensures { result ≡ number_in self.now };

    fn with_night(&self, night: u64) -> Self
        ensures first { main_columns result ≡ main_columns self.now }
        ensures second { side_columns result
            ≡ night_columns (record { number = number_in self.now; night = night }) };
}

// Returns the rows of a table. In version 2 their amounts over night come from the second table; in
// version 1 each amount is 0. `None`: the tables hold no such rows.
pub(crate) fn adopt_with_nights<S: Alter, R: Record + HasNight + Drop>(
    alloc: Global,
    conn: &mut Connection<S>,
    version: Version,
    rows_sql: &str,
    nights_sql: &str,
) -> Result<Option<Vec<R>>, Error>
    ensures { (tree nights_tree : ℕ)
        → ListsKeyed version 0 R.WIDTH tree keyed_columns rows_sql.now
        → ListsKeyed Two 0 2 nights_tree keyed_columns nights_sql.now
        → NightSplit R.fits R.columns_of R.main_columns R.side_columns R.number_in R.night_in
        → ReadsUnknownFile version S.Store (λ db. AreFound R.fits (HaveRows version R.main_columns
        R.side_columns R.night_in (db.trees tree) (db.trees nights_tree)))
        conn.old conn.new result }
{
    let rows = read_table(alloc, conn, rows_sql)?;
    match version {
        Version::One => Ok(rows),
        Version::Two => add_nights(alloc, conn, rows, nights_sql),
    }
}

// Returns the rows that the first text lists, with the amounts over night that the second lists in
// the same order. `InvalidQuery`: their numbers differ.
pub(crate) fn stream_with_nights<S: Alter, R: Record + HasNight + Drop>(
    alloc: Global,
    conn: &mut Connection<S>,
    rows_sql: &str,
    nights_sql: &str,
) -> Result<Vec<R>, Error>
    ensures shown { (q nights_q : Query) → Means office_schema q rows_sql.now
        → Means office_schema nights_q nights_sql.now
        → Reads S.Store (λ _ found. IsReadWith R.columns_of R.main_columns R.side_columns
        R.WIDTH q nights_q (state S.Store conn.old).now.trees found.items)
        conn.old conn.new result }
    ensures leaves { (q nights_q : Query) → Means office_schema q rows_sql.now
        → Means office_schema nights_q nights_sql.now
        → LeavesTables S.Store conn.old conn.new result }
{
    let rows = stream(alloc, conn, rows_sql, &[])?;
    let nights = stream(alloc, conn, nights_sql, &[])?;
    match with_nights(alloc, &rows, &nights)? {
        Some(found) => Ok(found),
        None => Err(Error::InvalidQuery),
    }
}

// Adds to rows of the first table the amounts that this text lists from the second.
fn add_nights<S: Alter, R: HasNight + Drop>(
    alloc: Global,
    conn: &mut Connection<S>,
    rows: Option<Vec<R>>,
    sql: &str,
) -> Result<Option<Vec<R>>, Error>
    ensures { (version : Version) (tree : ℕ) → ListsKeyed version 0 2 tree keyed_columns sql.now
        → ReadsUnknownFile version S.Store (λ db. IsJoinedWith R.main_columns R.side_columns
        R.number_in rows (db.trees tree))
        conn.old conn.new result }
{
    let nights = read_table(alloc, conn, sql)?;
    join_lists(alloc, rows, nights)
}

// Joins both lists. `None`: one of them is `None`, or they have different numbers.
fn join_lists<R: HasNight + Drop>(
    alloc: Global,
    rows: Option<Vec<R>>,
    nights: Option<Vec<NightRow>>,
) -> Result<Option<Vec<R>>, Error>
    ensures { IfOk result
        (IsJoined R.main_columns R.side_columns R.number_in rows nights) }
{
    let Some(rows) = rows else {
        return Ok(None);
    };
    let Some(nights) = nights else {
        return Ok(None);
    };
    with_nights(alloc, &rows, &nights)
}

// Returns the rows with their amounts over night. `None`: the two lists have different numbers.
fn with_nights<R: HasNight + Drop>(
    alloc: Global,
    rows: &[R],
    nights: &[NightRow],
) -> Result<Option<Vec<R>>, Error>
    ensures { IfOk result
        (AreJoined R.main_columns R.side_columns R.number_in rows.now nights.now) }
{
    if rows.len() != nights.len() {
        return Ok(None);
    }
    let mut made = Vec::new(alloc);
    'rows: for (at, row) in rows.iter().enumerate() {
        let night = nights[at];
        if night.number != row.number() {
            return Ok(None);
        }
        made.push(row.with_night(night.night))?;
    }
    Ok(Some(made))
}
