// Seats of students.
ghost use Rattle.std.specs.Prelude.{◌==◌, filter};
ghost use Rattle.office_tables.specs.Tables.Seat.{seat_columns, FitsSeat, StudentSeatsRise};
ghost use Rattle.office_tables.specs.Tables.{without_seat};
ghost use Rattle.office_tables.specs.Selections.{AreListed};

use crate::altering::Alteration;
use crate::listing::Listed;
use crate::query::Query;
use crate::records::Record;
use crate::running::run;
use crate::streaming::stream;
use crate::table::{Insert, InsertAll, InsertTexts, Table};
use crate::texts::{inserts, listing, record, select, values};
use sqlite::{Alter, Connection, Error, Row, Transaction, params};
use std::alloc::Global;

// What SQLite keeps of the table.
macro_rules! table {
    (seat $form:ident $($of:tt)*) => {
        $form!(seat 8 PairAndTriple [
            student INTEGER, exam INTEGER, period INTEGER, room INTEGER, seat INTEGER
        ] $($of)*)
    };
}

pub(crate) use table;

/// A published seat; seats are numbered from 1 in each room and period.
#[derive(Clone, Copy, Debug, PartialEq, Eq)]
pub struct SeatRow {
    pub student: u32,
    pub exam: u32,
    pub period: u32,
    pub room: u32,
    pub seat: u32,
}

impl Record for SeatRow {
    ghost WIDTH = { 5 };

    ghost columns_of = { seat_columns };

    ghost fits = { FitsSeat };

    const WIDTH: usize = 5;

    fn read(row: &Row) -> Result<SeatRow, Error> {
        Ok(table!(seat record SeatRow row))
    }
}

impl Listed for SeatRow {
    ghost use Rattle.office_tables.specs.Tables.Seat.{seat_table};

    ghost table = { seat_table };

    fn select_all_text() -> &'static str {
        table!(seat listing)
    }
}

impl Table<5, 16> for SeatRow {
    ghost use Rattle.std.proofs.Common.{arith};
    ghost use Rattle.office_tables.specs.Tables.Seat.{seat_table};

    ghost shape = { record {
      at = 6;
      table = seat_table;
      columns_of = seat_columns;
      rows = λ t. t.seat;
      with_rows = λ rows t. record t { seat = rows };
    } };

    fn values(&self) -> [i64; 5] {
        table!(seat values self)
    }

    fn inserts() -> InsertTexts {
        table!(seat inserts 16)
    }

    ghost narrow = { Prim.omega arith };

    ghost small = { Prim.omega arith };

    ghost some = { Prim.omega arith };
}

/// Adds a seat.
pub type InsertSeat = Insert<SeatRow, 5, 16>;

/// Adds seats in their order: sixteen with each statement, and the rest one by one.
pub type InsertSeats<'a> = InsertAll<'a, InsertSeat>;

/// Deletes the seat of a student in an exam.
#[derive(Clone, Copy)]
pub struct DeleteSeat {
    pub student: u32,
    pub exam: u32,
}

impl Alteration for DeleteSeat {
    ghost alteration = { λ it t. without_seat it.student it.exam t };

    fn apply<S: Alter>(&self, tx: &mut Transaction<'_, S>) -> Result<(), Error> {
        run(
            tx,
            "DELETE FROM seat WHERE student = ?1 AND exam = ?2",
            params![self.student, self.exam],
        )
    }
}

/// A student's seats, by exam.
#[derive(Clone, Copy)]
pub struct SeatsOf {
    pub student: u32,
}

impl Query for SeatsOf {
    type Rows = Vec<SeatRow>;

    ghost answers = { λ it t rows.
        AreListed StudentSeatsRise (filter (λ r. r.student == it.student) t.seat) rows.items };

    fn ask<S: Alter>(&self, alloc: Global, conn: &mut Connection<S>) -> Result<Self::Rows, Error> {
        stream(
            alloc,
            conn,
            table!(seat select " WHERE student = ?1 ORDER BY exam"),
            params![self.student],
        )
    }
}
