// The tables of an office's file, in the order of version 2: those of version 1, and then those of
// amounts over night. Each has a file of its own. Here are the list of them, the check of a schema,
// and the rows that are found in all of them.
ghost use Rattle.std.specs.Prelude.{◌≡◌, ◌↔◌, drop, IfOk, IsTrue};
ghost use Rattle.office_tables.specs.Tables.{office_schema, schema_before};
ghost use Rattle.office_tables.specs.Adopting.{AdoptsRows};

mod batch;
mod draft;
mod enrol;
mod meta;
mod owner;
mod placed;
mod seat;
mod share_part;
mod share_student;
mod slot;

use crate::adopting::{AdoptFault, found_or_fault};
use crate::listing::adopt;
use crate::texts::{create_text, declared, kind_of};
use crate::version::Version;
pub use batch::{BatchCountsRow, BatchOf, BatchRow, InsertBatch, batch_of};
pub use draft::{DeleteDraft, DeleteDrafts, DraftRow, InsertDraft};
pub use enrol::{DeleteEnrol, EnrolRow, EnrolsOf, FindEnrolsOf, InsertEnrol, InsertEnrols};
pub use meta::{DeleteMeta, InsertMeta, MetaRow};
use office_schema::{Declared, TableKey, are_tables, is_pair_index, is_seat_index};
pub use owner::{DeleteOwner, InsertOwner, OwnerRow, OwnersOf};
pub use placed::{DeletePlacement, InsertPlacement, InsertPlacements, PlacedRow, PlacementsOf};
pub use seat::{DeleteSeat, InsertSeat, InsertSeats, SeatRow, SeatsOf};
pub use share_part::{
    DeletePartShares, InsertPartShare, InsertPartShares, PartShareRow, PartShares,
};
pub use share_student::{
    DeleteStudentShare, InsertStudentShare, InsertStudentShares, StudentShareRow, StudentShares,
    StudentSharesOf,
};
pub use slot::{DeleteSlot, DeleteSlots, InsertSlot, InsertSlots, SlotRow};
use sqlite::{Alter, Connection};
use sqlite_schema::schema::{Index, Kind, Schema};
use std::alloc::{AllocError, Global};

/// The number of tables of version 1.
pub(crate) const TABLES_BEFORE: usize = 10;

// The number of tables of version 2.
const TABLE_COUNT: usize = 12;

// Passes each table to a macro, and makes an array of the values.
macro_rules! tables {
    ($form:ident) => {
        [
            meta::table!(meta $form),
            owner::table!(owner $form),
            enrol::table!(enrol $form),
            draft::table!(draft $form),
            slot::table!(slot $form),
            placed::table!(placed $form),
            seat::table!(seat $form),
            share_student::table!(share_student $form),
            share_part::table!(share_part $form),
            batch::table!(batch $form),
            draft::table!(night_draft $form),
            share_student::table!(night_share $form),
        ]
    };
}

/// The texts that create the tables.
pub(crate) const CREATE_TEXTS: [&str; TABLE_COUNT] = tables!(create_text);

const TABLES: [Declared; TABLE_COUNT] = tables!(declared);

/// Returns whether this is the schema of an office's file, version 2: the twelve tables in their
/// order and trees, their indexes, and no other table, view, index or trigger.
pub fn is_office_schema(alloc: Global, schema: &Schema) -> Result<bool, AllocError>
    ensures { IfOk result (λ is. IsTrue is ↔ (schema.now ≡ office_schema)) }
{
    Ok(
        are_tables(alloc, schema.tables.as_slice(), &TABLES)?
            && has_indexes(schema.indexes.as_slice())
            && schema.views.is_empty(),
    )
}

/// Returns whether this is the schema of version 1: the same without the last two tables.
pub fn is_schema_before(alloc: Global, schema: &Schema) -> Result<bool, AllocError>
    ensures { IfOk result (λ is. IsTrue is ↔ (schema.now ≡ schema_before)) }
{
    Ok(
        are_tables(alloc, schema.tables.as_slice(), &TABLES[..TABLES_BEFORE])?
            && has_indexes(schema.indexes.as_slice())
            && schema.views.is_empty(),
    )
}

fn has_indexes(indexes: &[Index]) -> bool
    ensures { IsTrue result ↔ (indexes.now ≡ office_schema.indexes) }
{
    let [enrol, slot, rest @ ..] = indexes else {
        return false;
    };
    is_pair_index(enrol, b"sqlite_autoindex_enrol_1".as_slice(), 3, 2)
        && is_pair_index(slot, b"sqlite_autoindex_slot_1".as_slice(), 6, 5)
        && has_publication_indexes(rest)
}

fn has_publication_indexes(indexes: &[Index]) -> bool
    ensures { IsTrue result ↔ (indexes.now ≡ drop 2 office_schema.indexes) }
{
    let [seat, room, share_part] = indexes else {
        return false;
    };
    is_pair_index(seat, b"sqlite_autoindex_seat_1".as_slice(), 9, 8)
        && is_seat_index(room, b"sqlite_autoindex_seat_2".as_slice(), 10, 8)
        && is_pair_index(
            share_part,
            b"sqlite_autoindex_share_part_1".as_slice(),
            13,
            12,
        )
}

/// All rows of the tables of a version, in any order; the batches are without their bytes. In
/// version 1 each amount over night is 0.
#[derive(Drop)]
pub struct Found {
    pub version: Version,
    pub meta: MetaRow,
    pub owners: Vec<OwnerRow>,
    pub enrols: Vec<EnrolRow>,
    pub drafts: Vec<DraftRow>,
    pub slots: Vec<SlotRow>,
    pub placements: Vec<PlacedRow>,
    pub seats: Vec<SeatRow>,
    pub student_shares: Vec<StudentShareRow>,
    pub part_shares: Vec<PartShareRow>,
    pub batches: Vec<BatchCountsRow>,
}

// Returns the rows of a file of this version.
pub(crate) fn adopt_rows<S: Alter>(
    alloc: Global,
    conn: &mut Connection<S>,
    version: Version,
) -> Result<Found, AdoptFault>
    ensures { AdoptsRows version S.Store conn.old conn.new result }
{
    let meta = found_or_fault(meta::adopt_meta(conn, version))?;
    let owners = found_or_fault(adopt(alloc, conn))?;
    let enrols = found_or_fault(adopt(alloc, conn))?;
    let drafts = found_or_fault(draft::adopt_drafts(alloc, conn, version))?;
    let slots = found_or_fault(adopt(alloc, conn))?;
    let placements = found_or_fault(adopt(alloc, conn))?;
    let seats = found_or_fault(adopt(alloc, conn))?;
    let student_shares = found_or_fault(share_student::adopt_student_shares(alloc, conn, version))?;
    let part_shares = found_or_fault(adopt(alloc, conn))?;
    let batches = found_or_fault(batch::adopt_batches(alloc, conn))?;
    Ok(Found {
        version,
        meta,
        owners,
        enrols,
        drafts,
        slots,
        placements,
        seats,
        student_shares,
        part_shares,
        batches,
    })
}
