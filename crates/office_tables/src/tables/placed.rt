// Placements of exams in the publication.
ghost use Rattle.office_tables.specs.Tables.Placed.{placed_columns, FitsPlacement, PlacementsRise};
ghost use Rattle.office_tables.specs.Tables.{placed_of, without_placement};
ghost use Rattle.office_tables.specs.Selections.{AreListed};

use crate::altering::Alteration;
use crate::listing::Listed;
use crate::query::Query;
use crate::records::Record;
use crate::running::run;
use crate::streaming::stream;
use crate::table::{Insert, InsertAll, InsertTexts, Table};
use crate::texts::{inserts, listing, record, values};
use sqlite::{Alter, Connection, Error, Row, Transaction, params};
use std::alloc::Global;

// What SQLite keeps of the table.
macro_rules! table {
    (placed $form:ident $($of:tt)*) => {
        $form!(placed 7 Number [exam INTEGER, period INTEGER, room INTEGER] $($of)*)
    };
}

pub(crate) use table;

/// The placement of an exam in the publication.
#[derive(Clone, Copy, Debug, PartialEq, Eq)]
pub struct PlacedRow {
    pub exam: u32,
    pub period: u32,
    pub room: u32,
}

impl Record for PlacedRow {
    ghost WIDTH = { 3 };

    ghost columns_of = { placed_columns };

    ghost fits = { FitsPlacement };

    const WIDTH: usize = 3;

    fn read(row: &Row) -> Result<PlacedRow, Error> {
        Ok(table!(placed record PlacedRow row))
    }
}

impl Listed for PlacedRow {
    ghost use Rattle.office_tables.specs.Tables.Placed.{placed_table};

    ghost table = { placed_table };

    fn select_all_text() -> &'static str {
        table!(placed listing)
    }
}

impl Table<3, 16> for PlacedRow {
    ghost use Rattle.std.proofs.Common.{arith};
    ghost use Rattle.office_tables.specs.Tables.Placed.{placed_table};

    ghost shape = { record {
      at = 5;
      table = placed_table;
      columns_of = placed_columns;
      rows = λ t. t.placed;
      with_rows = λ rows t. record t { placed = rows };
    } };

    fn values(&self) -> [i64; 3] {
        table!(placed values self)
    }

    fn inserts() -> InsertTexts {
        table!(placed inserts 16)
    }

    ghost narrow = { Prim.omega arith };

    ghost small = { Prim.omega arith };

    ghost some = { Prim.omega arith };
}

/// Adds a placement.
pub type InsertPlacement = Insert<PlacedRow, 3, 16>;

/// Adds placements in their order: sixteen with each statement, and the rest one by one.
pub type InsertPlacements<'a> = InsertAll<'a, InsertPlacement>;

/// Deletes an exam's placement.
#[derive(Clone, Copy)]
pub struct DeletePlacement {
    pub exam: u32,
}

impl Alteration for DeletePlacement {
    ghost alteration = { λ it t. without_placement it.exam t };

    fn apply<S: Alter>(&self, tx: &mut Transaction<'_, S>) -> Result<(), Error> {
        run(tx, "DELETE FROM placed WHERE exam = ?1", params![self.exam])
    }
}

/// The published placements of the exams that a student is enrolled in, by exam.
#[derive(Clone, Copy)]
pub struct PlacementsOf {
    pub student: u32,
}

impl Query for PlacementsOf {
    type Rows = Vec<PlacedRow>;

    ghost answers = { λ it t rows.
        AreListed PlacementsRise (placed_of it.student t) rows.items };

    fn ask<S: Alter>(&self, alloc: Global, conn: &mut Connection<S>) -> Result<Self::Rows, Error> {
        stream(
            alloc,
            conn,
            "SELECT placed.exam, placed.period, placed.room FROM enrol, placed WHERE enrol.student \
             = ?1 AND placed.exam = enrol.exam ORDER BY placed.exam",
            params![self.student],
        )
    }
}
