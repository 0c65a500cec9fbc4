// Placements of exams in drafts.
ghost use Rattle.office_tables.specs.Tables.Slot.{slot_columns, FitsSlot};
ghost use Rattle.office_tables.specs.Tables.{without_slot, without_slots};

use crate::altering::Alteration;
use crate::listing::Listed;
use crate::records::Record;
use crate::running::run;
use crate::table::{Insert, InsertAll, InsertTexts, Table};
use crate::texts::{inserts, listing, record, values};
use sqlite::{Alter, Connection, Error, Row, Transaction, params};
use std::alloc::Global;

// What SQLite keeps of the table.
macro_rules! table {
    (slot $form:ident $($of:tt)*) => {
        $form!(slot 5 Pair [
            draft INTEGER, exam INTEGER, period INTEGER, room INTEGER
        ] $($of)*)
    };
}

pub(crate) use table;

/// The placement of an exam in a draft.
#[derive(Clone, Copy, Debug, PartialEq, Eq)]
pub struct SlotRow {
    pub draft: u32,
    pub exam: u32,
    pub period: u32,
    pub room: u32,
}

impl Record for SlotRow {
    ghost WIDTH = { 4 };

    ghost columns_of = { slot_columns };

    ghost fits = { FitsSlot };

    const WIDTH: usize = 4;

    fn read(row: &Row) -> Result<SlotRow, Error> {
        Ok(table!(slot record SlotRow row))
    }
}

impl Listed for SlotRow {
    ghost use Rattle.office_tables.specs.Tables.Slot.{slot_table};

    ghost table = { slot_table };

    fn select_all_text() -> &'static str {
        table!(slot listing)
    }
}

impl Table<4, 16> for SlotRow {
    ghost use Rattle.std.proofs.Common.{arith};
    ghost use Rattle.office_tables.specs.Tables.Slot.{slot_table};

    ghost shape = { record {
      at = 4;
      table = slot_table;
      columns_of = slot_columns;
      rows = λ t. t.slot;
      with_rows = λ rows t. record t { slot = rows };
    } };

    fn values(&self) -> [i64; 4] {
        table!(slot values self)
    }

    fn inserts() -> InsertTexts {
        table!(slot inserts 16)
    }

    ghost narrow = { Prim.omega arith };

    ghost small = { Prim.omega arith };

    ghost some = { Prim.omega arith };
}

/// Adds a placement.
pub type InsertSlot = Insert<SlotRow, 4, 16>;

/// Adds placements in their order: sixteen with each statement, and the rest one by one.
pub type InsertSlots<'a> = InsertAll<'a, InsertSlot>;

/// Deletes all placements of a draft.
#[derive(Clone, Copy)]
pub struct DeleteSlots {
    pub draft: u32,
}

impl Alteration for DeleteSlots {
    ghost alteration = { λ it t. without_slots it.draft t };

    fn apply<S: Alter>(&self, tx: &mut Transaction<'_, S>) -> Result<(), Error> {
        run(tx, "DELETE FROM slot WHERE draft = ?1", params![self.draft])
    }
}

/// Deletes an exam's placement in a draft.
#[derive(Clone, Copy)]
pub struct DeleteSlot {
    pub draft: u32,
    pub exam: u32,
}

impl Alteration for DeleteSlot {
    ghost alteration = { λ it t. without_slot it.draft it.exam t };

    fn apply<S: Alter>(&self, tx: &mut Transaction<'_, S>) -> Result<(), Error> {
        run(
            tx,
            "DELETE FROM slot WHERE draft = ?1 AND exam = ?2",
            params![self.draft, self.exam],
        )
    }
}
