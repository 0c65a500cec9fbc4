// Shares of exams, periods and rooms in the penalty of the publication.
ghost use Rattle.std.specs.Prelude.{IsPermutation};
ghost use Rattle.office_tables.specs.Tables.{no_part_shares};
ghost use Rattle.office_tables.specs.Tables.SharePart.{share_part_columns, ArePartAmounts, FitsPartShare};

use crate::altering::Alteration;
use crate::amounts::signed_amount;
use crate::listing::Listed;
use crate::query::Query;
use crate::records::Record;
use crate::running::run;
use crate::streaming::stream;
use crate::table::{Insert, InsertAll, InsertTexts, Table};
use crate::texts::{inserts, listing, record, select};
use sqlite::{Alter, Connection, Error, Row, Transaction};
use std::alloc::Global;

// What SQLite keeps of the table.
macro_rules! table {
    (share_part $form:ident $($of:tt)*) => {
        $form!(share_part 12 Pair [
            kind INTEGER, no INTEGER, penalty INTEGER, mixed INTEGER
        ] $($of)*)
    };
}

pub(crate) use table;

/// The share of an exam (kind 0), a period (1) or a room (2); only a room has a mixed part.
#[derive(Clone, Copy, Debug, PartialEq, Eq)]
pub struct PartShareRow {
    pub kind: u32,
    pub no: u32,
    pub penalty: u64,
    pub mixed: u64,
}

impl Record for PartShareRow {
    ghost WIDTH = { 4 };

    ghost columns_of = { share_part_columns };

    ghost fits = { FitsPartShare };

    const WIDTH: usize = 4;

    fn read(row: &Row) -> Result<PartShareRow, Error> {
        Ok(table!(share_part record PartShareRow row))
    }
}

impl Listed for PartShareRow {
    ghost use Rattle.office_tables.specs.Tables.SharePart.{share_part_table};

    ghost table = { share_part_table };

    fn select_all_text() -> &'static str {
        table!(share_part listing)
    }
}

impl Table<4, 16> for PartShareRow {
    ghost use Rattle.std.specs.Prelude.{true};
    ghost use Rattle.std.proofs.Common.{arith};
    ghost use Rattle.office_tables.specs.Tables.SharePart.{share_part_table};

    ghost shape = { record {
      at = 8;
      table = share_part_table;
      columns_of = share_part_columns;
      rows = λ t. t.share_part;
      with_rows = λ rows t. record t { share_part = rows };
    } };

    ghost limited = { true };

    ghost fits = { ArePartAmounts };

    fn values(&self) -> [i64; 4] {
        [
            i64::from(self.kind),
            i64::from(self.no),
            signed_amount(self.penalty),
            signed_amount(self.mixed),
        ]
    }

    fn inserts() -> InsertTexts {
        table!(share_part inserts 16)
    }

    ghost narrow = { Prim.omega arith };

    ghost small = { Prim.omega arith };

    ghost some = { Prim.omega arith };
}

/// Adds the share of an exam, a period or a room.
pub type InsertPartShare = Insert<PartShareRow, 4, 16>;

/// Adds such shares in their order: sixteen with each statement, and the rest one by one.
pub type InsertPartShares<'a> = InsertAll<'a, InsertPartShare>;

/// Deletes all shares of exams, periods and rooms.
#[derive(Clone, Copy)]
pub struct DeletePartShares;

impl Alteration for DeletePartShares {
    ghost alteration = { λ _ t. no_part_shares t };

    fn apply<S: Alter>(&self, tx: &mut Transaction<'_, S>) -> Result<(), Error> {
        run(tx, "DELETE FROM share_part", &[])
    }
}

/// All shares of exams, periods and rooms, in any order.
#[derive(Clone, Copy)]
pub struct PartShares;

impl Query for PartShares {
    type Rows = Vec<PartShareRow>;

    ghost answers = { λ _ t rows. IsPermutation t.share_part rows.items };

    fn ask<S: Alter>(&self, alloc: Global, conn: &mut Connection<S>) -> Result<Self::Rows, Error> {
        stream(alloc, conn, table!(share_part select ""), &[])
    }
}
