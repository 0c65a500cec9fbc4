// Owners of exams.
ghost use Rattle.std.specs.Prelude.{◌==◌, filter, IsPermutation};
ghost use Rattle.office_tables.specs.Tables.Owner.{owner_columns, FitsOwner};
ghost use Rattle.office_tables.specs.Tables.{without_owner};

use crate::altering::Alteration;
use crate::listing::Listed;
use crate::query::Query;
use crate::records::Record;
use crate::running::run;
use crate::streaming::stream;
use crate::table::{Insert, InsertTexts, Table};
use crate::texts::{inserts, listing, record, select, values};
use sqlite::{Alter, Connection, Error, Row, Transaction, params};
use std::alloc::Global;

// What SQLite keeps of the table.
macro_rules! table {
    (owner $form:ident $($of:tt)*) => {
        $form!(owner 1 Number [exam INTEGER, dept INTEGER] $($of)*)
    };
}

pub(crate) use table;

/// The owner of an exam: a department, 1 to 999.
#[derive(Clone, Copy, Debug, PartialEq, Eq)]
pub struct OwnerRow {
    pub exam: u32,
    pub dept: u32,
}

impl Record for OwnerRow {
    ghost WIDTH = { 2 };

    ghost columns_of = { owner_columns };

    ghost fits = { FitsOwner };

    const WIDTH: usize = 2;

    fn read(row: &Row) -> Result<OwnerRow, Error> {
        Ok(table!(owner record OwnerRow row))
    }
}

impl Listed for OwnerRow {
    ghost use Rattle.office_tables.specs.Tables.Owner.{owner_table};

    ghost table = { owner_table };

    fn select_all_text() -> &'static str {
        table!(owner listing)
    }
}

impl Table<2, 1> for OwnerRow {
    ghost use Rattle.std.proofs.Common.{arith};
    ghost use Rattle.office_tables.specs.Tables.Owner.{owner_table};

    ghost shape = { record {
      at = 1;
      table = owner_table;
      columns_of = owner_columns;
      rows = λ t. t.owner;
      with_rows = λ rows t. record t { owner = rows };
    } };

    fn values(&self) -> [i64; 2] {
        table!(owner values self)
    }

    // Owners are added one by one.
    fn inserts() -> InsertTexts {
        table!(owner inserts 1)
    }

    ghost narrow = { Prim.omega arith };

    ghost small = { Prim.omega arith };

    ghost some = { Prim.omega arith };
}

/// Adds an owner.
pub type InsertOwner = Insert<OwnerRow, 2, 1>;

/// Deletes an exam's owner.
#[derive(Clone, Copy)]
pub struct DeleteOwner {
    pub exam: u32,
}

impl Alteration for DeleteOwner {
    ghost alteration = { λ it t. without_owner it.exam t };

    fn apply<S: Alter>(&self, tx: &mut Transaction<'_, S>) -> Result<(), Error> {
        run(tx, "DELETE FROM owner WHERE exam = ?1", params![self.exam])
    }
}

/// An exam's owner: one row, or none.
#[derive(Clone, Copy)]
pub struct OwnersOf {
    pub exam: u32,
}

impl Query for OwnersOf {
    type Rows = Vec<OwnerRow>;

    ghost answers = { λ it t rows.
        IsPermutation (filter (λ r. r.exam == it.exam) t.owner) rows.items };

    fn ask<S: Alter>(&self, alloc: Global, conn: &mut Connection<S>) -> Result<Self::Rows, Error> {
        stream(
            alloc,
            conn,
            table!(owner select " WHERE exam = ?1 ORDER BY exam"),
            params![self.exam],
        )
    }
}
