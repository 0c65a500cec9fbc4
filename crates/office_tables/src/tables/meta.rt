// The one row about the office.
ghost use Rattle.std.specs.Prelude.{◌≡◌, ◌↔◌, ◌<◌, length, pos, option_map, IfErr, IfOk, IsTrue};
ghost use Rattle.sqlite_value.specs.declared.value.Value.TheVariants.{Blob, Int};
ghost use Rattle.sqlite_value.specs.Order.{column};
ghost use Rattle.office_tables.specs.Tables.Metadata.{flag, IsFoundMeta, IsReadMeta};
ghost use Rattle.office_tables.specs.Tables.{no_meta, with_meta};
ghost use Rattle.office_tables.specs.Readings.{IsColumn};
ghost use Rattle.office_tables.specs.Finders.{ReadsUnknownFile};

use crate::altering::Alteration;
use crate::listing::{is_out_of_memory, list_rows};
use crate::running::run;
use crate::texts::select;
use crate::version::Version;
use sqlite::{Alter, Connection, Error, ErrorCode, Row, Transaction, params};

// What SQLite keeps of the table.
macro_rules! table {
    (meta $form:ident $($of:tt)*) => {
        $form!(meta 0 Number [
            id INTEGER, version INTEGER, published INTEGER, instance BLOB
        ] $($of)*)
    };
}

pub(crate) use table;

/// The row about the office: whether there is a publication, and the canonical text of the
/// instance, which is empty before a load.
#[derive(Drop)]
pub struct MetaRow {
    pub published: bool,
    pub instance: Vec<u8>,
}

/// Inserts the row.
#[derive(Clone, Copy)]
pub struct InsertMeta<'a> {
    pub published: bool,
    pub instance: &'a [u8],
}

impl Alteration for InsertMeta<'_> {
    ghost alteration = { λ it t. with_meta it.published it.instance.now t };

    fn apply<S: Alter>(&self, tx: &mut Transaction<'_, S>) -> Result<(), Error> {
        run(
            tx,
            "INSERT INTO meta (id, version, published, instance) VALUES (0, 2, ?1, ?2)",
            params![flag_of(self.published), self.instance],
        )
    }
}

// Returns a boolean as a number, because SQLite has no type for it.
fn flag_of(is: bool) -> u32
    ensures { result ≡ flag is }
{
    if is { 1 } else { 0 }
}

/// Deletes the row.
#[derive(Clone, Copy)]
pub struct DeleteMeta;

impl Alteration for DeleteMeta {
    ghost alteration = { λ _ t. no_meta t };

    fn apply<S: Alter>(&self, tx: &mut Transaction<'_, S>) -> Result<(), Error> {
        run(tx, "DELETE FROM meta", &[])
    }
}

// Returns the row about the office, if it is the only row of the table.
pub(crate) fn adopt_meta<S: Alter>(
    conn: &mut Connection<S>,
    version: Version,
) -> Result<Option<MetaRow>, Error>
    ensures { ReadsUnknownFile version S.Store (λ db. IsFoundMeta version (db.trees 0))
        conn.old conn.new result }
{
    let rows = list_rows(conn, table!(meta select ""))?;
    if rows.len() != 1 {
        return Ok(None);
    }
    read_meta(&rows[0], version)
}

// Returns the row, if it has this version and the key 0.
fn read_meta(row: &Row, version: Version) -> Result<Option<MetaRow>, Error>
    ensures ok { IfOk result (IsReadMeta version row.now) }
    ensures memory { IfErr result (λ e. e ≡ Error.SqliteFailure ErrorCode.OutOfMemory) }
{
    if !is_number(row, 0, 0)? || !is_number(row, 1, version.number())? {
        return Ok(None);
    }
    let Some(published) = flag_at(row, 2)? else {
        return Ok(None);
    };
    let Some(instance) = bytes_at(row, 3)? else {
        return Ok(None);
    };
    Ok(Some(MetaRow {
        published,
        instance,
    }))
}

fn is_number(row: &Row, at: usize, number: u64) -> Result<bool, Error>
    ensures ok { IfOk result (λ is. at < length row.now
        → (IsTrue is ↔ (column row.now at ≡ Int (pos number)))) }
    ensures memory { IfErr result (λ e. e ≡ Error.SqliteFailure ErrorCode.OutOfMemory) }
{
    let Some(found) = number_at(row, at)? else {
        return Ok(false);
    };
    Ok(found == number)
}

fn flag_at(row: &Row, at: usize) -> Result<Option<bool>, Error>
    ensures ok { IfOk result (IsColumn (λ b. Int (pos (flag b))) row.now at) }
    ensures memory { IfErr result (λ e. e ≡ Error.SqliteFailure ErrorCode.OutOfMemory) }
{
    let Some(number) = number_at(row, at)? else {
        return Ok(None);
    };
    match number {
        0 => Ok(Some(false)),
        1 => Ok(Some(true)),
        _ => Ok(None),
    }
}

fn number_at(row: &Row, at: usize) -> Result<Option<u64>, Error>
    ensures ok { IfOk result (IsColumn (λ n. Int (pos n)) row.now at) }
    ensures memory { IfErr result (λ e. e ≡ Error.SqliteFailure ErrorCode.OutOfMemory) }
{
    match row.get(at) {
        Ok(number) => Ok(Some(number)),
        Err(error) => {
            if is_out_of_memory(error) {
                return Err(error);
            }
            Ok(None)
        }
    }
}

fn bytes_at(row: &Row, at: usize) -> Result<Option<Vec<u8>>, Error>
    ensures ok { IfOk result
        (λ found. IsColumn Blob row.now at (option_map (λ bytes. bytes.items) found)) }
    ensures memory { IfErr result (λ e. e ≡ Error.SqliteFailure ErrorCode.OutOfMemory) }
{
    match row.get(at) {
        Ok(bytes) => Ok(Some(bytes)),
        Err(error) => {
            if is_out_of_memory(error) {
                return Err(error);
            }
            Ok(None)
        }
    }
}
