// Shares of students in the penalty of the publication. The part over night is in a table of its
// own.
ghost use Rattle.std.specs.Prelude.{◌≡◌, ◌<◌, ◌==◌, filter, length, map, slice_index_or, All, IsPermutation, IsTrue};
ghost use Rattle.sqlite.specs.Held.{state};
ghost use Rattle.sqlite_value.specs.declared.value.Value.TheVariants.{Int};
ghost use Rattle.office_tables.specs.Adopting.{HaveShares};
ghost use Rattle.office_tables.specs.Alterations.{after_all};
ghost use Rattle.office_tables.specs.Finders.{ReadsUnknownFile};
ghost use Rattle.office_tables.specs.Joining.{AreFound};
ghost use Rattle.office_tables.specs.Steps.{Changes, IsUncommitted};
ghost use Rattle.office_tables.specs.Tables.ShareStudent.{bare_share_columns, night_share_columns, share_student_columns, AreStudentAmounts, FitsStudentShare, HaveNoNight, StudentSharesRise};
ghost use Rattle.office_tables.specs.Tables.{with_student_share, without_student_share};
ghost use Rattle.office_tables.specs.Selections.{AreListed};

use crate::altering::{Alteration, Each};
use crate::amounts::signed_amount;
use crate::joined_share::joined_rows;
use crate::nights::{HasNight, adopt_with_nights, stream_with_nights};
use crate::query::Query;
use crate::records::Record;
use crate::running::{run, run_with};
use crate::streaming::stream;
use crate::texts::{insert, listing, record, select};
use crate::version::Version;
use sqlite::{Alter, Connection, Error, Row, Transaction, params};
use std::alloc::Global;
use std::array;

// What SQLite keeps of the table, and of that of the amounts over night.
macro_rules! table {
    (share_student $form:ident $($of:tt)*) => {
        $form!(share_student 11 Number [
            student INTEGER, in_row INTEGER, in_day INTEGER, spread INTEGER
        ] $($of)*)
    };
    (night_share $form:ident $($of:tt)*) => {
        $form!(night_share 16 Number [student INTEGER, night INTEGER] $($of)*)
    };
}

pub(crate) use table;

/// A candidate's share of the penalty.
#[derive(Clone, Copy, Debug, PartialEq, Eq)]
pub struct StudentShareRow {
    pub student: u32,
    pub in_row: u64,
    pub in_day: u64,
    pub spread: u64,
    pub night: u64,
}

impl Record for StudentShareRow {
    ghost WIDTH = { 4 };

    ghost columns_of = { bare_share_columns };

    ghost fits = { FitsStudentShare };

    const WIDTH: usize = 4;

    // Returns the share in a row of the first table, with an amount over night of 0.
    #[inline]
    fn read(row: &Row) -> Result<StudentShareRow, Error> {
        Ok(table!(share_student record StudentShareRow row night: 0))
    }
}

impl HasNight for StudentShareRow {
    ghost main_columns = { share_student_columns };

    ghost side_columns = { night_share_columns };

    ghost number_in = { λ row. row.student };

    ghost night_in = { λ row. row.night };

    fn number(&self) -> u32 {
        self.student
    }

    fn with_night(&self, night: u64) -> StudentShareRow {
        let mut row = *self;
        row.night = night;
        row
    }
}

/// Adds a student's share.
#[derive(Clone, Copy)]
pub struct InsertStudentShare {
    pub row: StudentShareRow,
}

impl Alteration for InsertStudentShare {
    ghost alteration = { λ it t. with_student_share it.row t };

    ghost fits = { λ it. AreStudentAmounts it.row };

    fn apply<S: Alter>(&self, tx: &mut Transaction<'_, S>) -> Result<(), Error> {
        run_with(tx, table!(share_student insert), &student_numbers(self.row))?;
        run_with(tx, table!(night_share insert), &night_numbers(self.row))
    }
}

/// Adds students' shares in their order: sixteen with each two statements, and the rest one by one.
#[derive(Clone, Copy)]
pub struct InsertStudentShares<'a> {
    pub rows: &'a [InsertStudentShare],
}

impl Alteration for InsertStudentShares<'_> {
    ghost alteration = { λ it t. after_all (λ it. with_student_share it.row) it.rows.now t };

    ghost fits = { λ it. All (λ it. AreStudentAmounts it.row) it.rows.now };

    fn apply<S: Alter>(&self, tx: &mut Transaction<'_, S>) -> Result<(), Error> {
        let mut left = self.rows;
        'chunks: while let Some((chunk, rest)) = left.split_at_checked(16) {
            insert_sixteen(tx, chunk)?;
            left = rest;
        }
        Each { alterations: left }.apply(tx)
    }
}

// Adds sixteen shares with one statement for each table.
fn insert_sixteen<S: Alter>(
    tx: &mut Transaction<'_, S>,
    rows: &[InsertStudentShare],
) -> Result<(), Error>
    requires count { length rows.now ≡ 16 }
    requires fits { All (λ it. AreStudentAmounts it.row) rows.now }
    ensures same_reference { tx.new.conn.ghost_name ≡ tx.old.conn.ghost_name }
    ensures makes { Changes S.Store (after_all (λ it. with_student_share it.row) rows.now)
        tx.old.conn.now tx.new.conn.now result }
    ensures within { IsUncommitted (state S.Store tx.old.conn.now) (state S.Store tx.new.conn.now) }
{
    let students = array::from_fn::<_, 16, _>(
        |i| -> [i64; 4]
            requires { (i < length rows.now) × All (λ it. AreStudentAmounts it.row) rows.now }
            ensures { (d : _) → map Int result
                ≡ share_student_columns (slice_index_or rows.entry.now i d).row }
        { student_numbers(rows[i].row) },
    );
    let nights = array::from_fn::<_, 16, _>(
        |i| -> [i64; 2]
            requires { (i < length rows.now) × All (λ it. AreStudentAmounts it.row) rows.now }
            ensures { (d : _) → map Int result
                ≡ night_share_columns (slice_index_or rows.entry.now i d).row }
        { night_numbers(rows[i].row) },
    );
    run_with(tx, table!(share_student insert 16), students.as_flattened())?;
    run_with(tx, table!(night_share insert 16), nights.as_flattened())
}

// Returns the columns of a share in the first table.
fn student_numbers(row: StudentShareRow) -> [i64; 4]
    requires amounts { AreStudentAmounts row }
    ensures { map Int result ≡ share_student_columns row }
{
    [
        i64::from(row.student),
        signed_amount(row.in_row),
        signed_amount(row.in_day),
        signed_amount(row.spread),
    ]
}

// Returns the columns of a share in the second table.
fn night_numbers(row: StudentShareRow) -> [i64; 2]
    requires amounts { AreStudentAmounts row }
    ensures { map Int result ≡ night_share_columns row }
{
    [i64::from(row.student), signed_amount(row.night)]
}

/// Deletes a student's share.
#[derive(Clone, Copy)]
pub struct DeleteStudentShare {
    pub student: u32,
}

impl Alteration for DeleteStudentShare {
    ghost alteration = { λ it t. without_student_share it.student t };

    fn apply<S: Alter>(&self, tx: &mut Transaction<'_, S>) -> Result<(), Error> {
        run(
            tx,
            "DELETE FROM share_student WHERE student = ?1",
            params![self.student],
        )?;
        run(
            tx,
            "DELETE FROM night_share WHERE student = ?1",
            params![self.student],
        )
    }
}

// Returns all shares of students in a file of this version. `None`: its tables don't hold shares.
pub(crate) fn adopt_student_shares<S: Alter>(
    alloc: Global,
    conn: &mut Connection<S>,
    version: Version,
) -> Result<Option<Vec<StudentShareRow>>, Error>
    ensures { ReadsUnknownFile version S.Store
        (λ db. AreFound FitsStudentShare (HaveShares version db)) conn.old conn.new result }
{
    adopt_with_nights(
        alloc,
        conn,
        version,
        table!(share_student listing),
        table!(night_share listing),
    )
}

// Lists all rows of the first table of students' shares, by student.
const BARE_SHARES: &str = table!(share_student select " ORDER BY student");

/// All students' shares, by student.
#[derive(Clone, Copy)]
pub struct StudentShares {
    /// No share has an amount over night, so only the first of the two tables is read.
    pub without_nights: bool,
}

impl Query for StudentShares {
    type Rows = Vec<StudentShareRow>;

    ghost answers = { λ it t rows. (IsTrue it.without_nights → HaveNoNight t.share_student)
        → AreListed StudentSharesRise t.share_student rows.items };

    fn ask<S: Alter>(&self, alloc: Global, conn: &mut Connection<S>) -> Result<Self::Rows, Error> {
        if self.without_nights {
            return stream(alloc, conn, BARE_SHARES, &[]);
        }
        stream_with_nights(
            alloc,
            conn,
            BARE_SHARES,
            table!(night_share select " ORDER BY student"),
        )
    }
}

/// A student's share: one row, or none.
#[derive(Clone, Copy)]
pub struct StudentSharesOf {
    pub student: u32,
}

impl Query for StudentSharesOf {
    type Rows = Vec<StudentShareRow>;

    ghost answers = { λ it t rows.
        IsPermutation (filter (λ r. r.student == it.student) t.share_student) rows.items };

    fn ask<S: Alter>(&self, alloc: Global, conn: &mut Connection<S>) -> Result<Self::Rows, Error> {
        let joined = stream(
            alloc,
            conn,
            "SELECT night, share_student.student, in_row, in_day, spread FROM share_student, \
             night_share WHERE share_student.student = ?1 AND night_share.student = \
             share_student.student ORDER BY share_student.student",
            params![self.student],
        )?;
        Ok(joined_rows(alloc, &joined)?)
    }
}
