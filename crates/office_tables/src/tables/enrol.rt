// Enrolments of students in exams.
ghost use Rattle.std.specs.Prelude.{◌==◌, filter};
ghost use Rattle.office_tables.specs.Tables.Enrol.{enrol_columns, FitsEnrol, StudentEnrolsRise};
ghost use Rattle.office_tables.specs.Tables.{without_enrol};
ghost use Rattle.office_tables.specs.Selections.{AreListed, AreListedIfFit};

use crate::altering::Alteration;
use crate::listing::Listed;
use crate::query::Query;
use crate::records::Record;
use crate::running::run;
use crate::streaming::stream_found;
use crate::table::{Insert, InsertAll, InsertTexts, Table};
use crate::texts::{inserts, listing, record, select, values};
use sqlite::{Alter, Connection, Error, Row, Transaction, params};
use std::alloc::Global;

// What SQLite keeps of the table.
macro_rules! table {
    (enrol $form:ident $($of:tt)*) => {
        $form!(enrol 2 Pair [student INTEGER, exam INTEGER] $($of)*)
    };
}

pub(crate) use table;

/// The enrolment of a student in an exam.
#[derive(Clone, Copy, Debug, PartialEq, Eq)]
pub struct EnrolRow {
    pub student: u32,
    pub exam: u32,
}

impl Record for EnrolRow {
    ghost WIDTH = { 2 };

    ghost columns_of = { enrol_columns };

    ghost fits = { FitsEnrol };

    const WIDTH: usize = 2;

    fn read(row: &Row) -> Result<EnrolRow, Error> {
        Ok(table!(enrol record EnrolRow row))
    }
}

impl Listed for EnrolRow {
    ghost use Rattle.office_tables.specs.Tables.Enrol.{enrol_table};

    ghost table = { enrol_table };

    fn select_all_text() -> &'static str {
        table!(enrol listing)
    }
}

impl Table<2, 32> for EnrolRow {
    ghost use Rattle.std.proofs.Common.{arith};
    ghost use Rattle.office_tables.specs.Tables.Enrol.{enrol_table};

    ghost shape = { record {
      at = 2;
      table = enrol_table;
      columns_of = enrol_columns;
      rows = λ t. t.enrol;
      with_rows = λ rows t. record t { enrol = rows };
    } };

    fn values(&self) -> [i64; 2] {
        table!(enrol values self)
    }

    fn inserts() -> InsertTexts {
        table!(enrol inserts 32)
    }

    ghost narrow = { Prim.omega arith };

    ghost small = { Prim.omega arith };

    ghost some = { Prim.omega arith };
}

/// Adds an enrolment.
pub type InsertEnrol = Insert<EnrolRow, 2, 32>;

/// Adds enrolments in their order: thirty-two with each statement, and the rest one by one.
pub type InsertEnrols<'a> = InsertAll<'a, InsertEnrol>;

/// Deletes the enrolment of a student in an exam.
#[derive(Clone, Copy)]
pub struct DeleteEnrol {
    pub student: u32,
    pub exam: u32,
}

impl Alteration for DeleteEnrol {
    ghost alteration = { λ it t. without_enrol it.student it.exam t };

    fn apply<S: Alter>(&self, tx: &mut Transaction<'_, S>) -> Result<(), Error> {
        run(
            tx,
            "DELETE FROM enrol WHERE student = ?1 AND exam = ?2",
            params![self.student, self.exam],
        )
    }
}

/// A student's enrolments, by exam.
#[derive(Clone, Copy)]
pub struct EnrolsOf {
    pub student: u32,
}

impl Query for EnrolsOf {
    type Rows = Vec<EnrolRow>;

    ghost answers = { λ it t rows.
        AreListed StudentEnrolsRise (filter (λ r. r.student == it.student) t.enrol) rows.items };

    fn ask<S: Alter>(&self, alloc: Global, conn: &mut Connection<S>) -> Result<Self::Rows, Error> {
        let query = FindEnrolsOf {
            student: self.student,
        };
        match query.ask(alloc, conn)? {
            Some(rows) => Ok(rows),
            None => Err(Error::InvalidQuery),
        }
    }
}

/// A student's enrolments, by exam. `None`: an exam's number has more than 32 bits.
#[derive(Clone, Copy)]
pub struct FindEnrolsOf {
    pub student: u32,
}

impl Query for FindEnrolsOf {
    type Rows = Option<Vec<EnrolRow>>;

    ghost answers = { λ it t found. AreListedIfFit FitsEnrol StudentEnrolsRise
        (filter (λ r. r.student == it.student) t.enrol) found };

    fn ask<S: Alter>(&self, alloc: Global, conn: &mut Connection<S>) -> Result<Self::Rows, Error> {
        stream_found(
            alloc,
            conn,
            table!(enrol select " WHERE student = ?1 ORDER BY exam"),
            params![self.student],
        )
    }
}
