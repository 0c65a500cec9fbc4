// Drafts and their penalties. The part over night is in a table of its own.
ghost use Rattle.std.specs.Prelude.{◌≡◌};
ghost use Rattle.sqlite.specs.Values.{bound};
ghost use Rattle.office_tables.specs.Tables.Draft.{bare_draft_columns, draft_columns, night_draft_columns, AreAmounts, FitsDraft};
ghost use Rattle.office_tables.specs.Tables.{no_drafts, with_draft, without_draft};
ghost use Rattle.office_tables.specs.Adopting.{HaveDrafts};
ghost use Rattle.office_tables.specs.Finders.{ReadsUnknownFile};
ghost use Rattle.office_tables.specs.Joining.{AreFound};

use crate::altering::Alteration;
use crate::amounts::signed_amount;
use crate::nights::{HasNight, adopt_with_nights};
use crate::records::Record;
use crate::running::run;
use crate::texts::{insert, listing, record};
use crate::version::Version;
use sqlite::types::ValueRef;
use sqlite::{Alter, Connection, Error, Row, Transaction, params};
use std::alloc::Global;

// What SQLite keeps of the table, and of that of the amounts over night.
macro_rules! table {
    (draft $form:ident $($of:tt)*) => {
        $form!(draft 4 Number [
            no INTEGER, in_row INTEGER, in_day INTEGER, spread INTEGER, mixed INTEGER,
            front INTEGER, period INTEGER, room INTEGER
        ] $($of)*)
    };
    (night_draft $form:ident $($of:tt)*) => {
        $form!(night_draft 15 Number [no INTEGER, night INTEGER] $($of)*)
    };
}

pub(crate) use table;

/// A draft, 1 to 8, with the eight parts of its penalty.
#[derive(Clone, Copy, Debug, PartialEq, Eq)]
pub struct DraftRow {
    pub no: u32,
    pub in_row: u64,
    pub in_day: u64,
    pub spread: u64,
    pub mixed: u64,
    pub front: u64,
    pub period: u64,
    pub room: u64,
    pub night: u64,
}

impl Record for DraftRow {
    ghost WIDTH = { 8 };

    ghost columns_of = { bare_draft_columns };

    ghost fits = { FitsDraft };

    const WIDTH: usize = 8;

    // Returns the draft in a row of the first table, with an amount over night of 0.
    fn read(row: &Row) -> Result<DraftRow, Error> {
        Ok(table!(draft record DraftRow row night: 0))
    }
}

impl HasNight for DraftRow {
    ghost main_columns = { draft_columns };

    ghost side_columns = { night_draft_columns };

    ghost number_in = { λ row. row.no };

    ghost night_in = { λ row. row.night };

    fn number(&self) -> u32 {
        self.no
    }

    fn with_night(&self, night: u64) -> DraftRow {
        let mut row = *self;
        row.night = night;
        row
    }
}

/// Adds a draft.
#[derive(Clone, Copy)]
pub struct InsertDraft {
    pub row: DraftRow,
}

impl Alteration for InsertDraft {
    ghost alteration = { λ it t. with_draft it.row t };

    ghost fits = { λ it. AreAmounts it.row };

    fn apply<S: Alter>(&self, tx: &mut Transaction<'_, S>) -> Result<(), Error> {
        run(tx, table!(draft insert), &stored_columns(self.row))?;
        run(tx, table!(night_draft insert), &night_columns(self.row))
    }
}

// Returns the columns of a draft in the first table.
fn stored_columns(row: DraftRow) -> [ValueRef<'static>; 8]
    requires amounts { AreAmounts row }
    ensures { bound result ≡ draft_columns row }
{
    [
        ValueRef::Int(i64::from(row.no)),
        ValueRef::Int(signed_amount(row.in_row)),
        ValueRef::Int(signed_amount(row.in_day)),
        ValueRef::Int(signed_amount(row.spread)),
        ValueRef::Int(signed_amount(row.mixed)),
        ValueRef::Int(signed_amount(row.front)),
        ValueRef::Int(signed_amount(row.period)),
        ValueRef::Int(signed_amount(row.room)),
    ]
}

// Returns the columns of a draft in the second table.
fn night_columns(row: DraftRow) -> [ValueRef<'static>; 2]
    requires amounts { AreAmounts row }
    ensures { bound result ≡ night_draft_columns row }
{
    [
        ValueRef::Int(i64::from(row.no)),
        ValueRef::Int(signed_amount(row.night)),
    ]
}

/// Deletes a draft.
#[derive(Clone, Copy)]
pub struct DeleteDraft {
    pub no: u32,
}

impl Alteration for DeleteDraft {
    ghost alteration = { λ it t. without_draft it.no t };

    fn apply<S: Alter>(&self, tx: &mut Transaction<'_, S>) -> Result<(), Error> {
        run(tx, "DELETE FROM draft WHERE no = ?1", params![self.no])?;
        run(
            tx,
            "DELETE FROM night_draft WHERE no = ?1",
            params![self.no],
        )
    }
}

/// Deletes all drafts.
#[derive(Clone, Copy)]
pub struct DeleteDrafts;

impl Alteration for DeleteDrafts {
    ghost alteration = { λ _ t. no_drafts t };

    fn apply<S: Alter>(&self, tx: &mut Transaction<'_, S>) -> Result<(), Error> {
        run(tx, "DELETE FROM draft", &[])?;
        run(tx, "DELETE FROM night_draft", &[])
    }
}

// Returns all drafts of a file of this version. `None`: its tables don't hold drafts.
pub(crate) fn adopt_drafts<S: Alter>(
    alloc: Global,
    conn: &mut Connection<S>,
    version: Version,
) -> Result<Option<Vec<DraftRow>>, Error>
    ensures { ReadsUnknownFile version S.Store (λ db. AreFound FitsDraft (HaveDrafts version db))
        conn.old conn.new result }
{
    adopt_with_nights(
        alloc,
        conn,
        version,
        table!(draft listing),
        table!(night_draft listing),
    )
}
