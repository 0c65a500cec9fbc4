// The records that rows represent.
ghost use Rattle.std.specs.Prelude.{◌≡◌, ◌↔◌, IfErr, IfOk, IfSome, IsTrue, List, map, ℕ};
ghost use Rattle.office_tables.specs.Tables.{tables_of};
ghost use Rattle.office_tables.specs.Tables.Batches.{counts_of, Batch};
ghost use Rattle.office_model.specs.Office.{IsOffice, OfficeState};
ghost use Rattle.office_records.specs.Found.{HasNoPublication, IsUnloaded};
ghost use Rattle.office_records.specs.FoundBatches.{AreFoundBatches};
ghost use Rattle.office_records.specs.FoundPublications.{AreFound, publication_from};
ghost use Rattle.office_records.specs.Memory.{AreSuited, AreConsistent, draft_at, memory_of, published_in, scored_draft};
ghost use Rattle.office_records.specs.Representation.{IsSound, TablesRepresentOffice};

use crate::batches::check_batches;
use crate::drafts::{Drafts, drafts_of, no_drafts};
use crate::enrolments::enrolments_of;
use crate::fault::RecordFault;
use crate::owners::check_owners;
use crate::published::published_of;
use crate::session::session_of;
use exam_model::{Enrolments, Instance, Timetable};
use exam_publish::SeatRow;
use office_tables::tables::Found;
use std::alloc::Global;

/// The part of an office that is kept in memory.
#[derive(Drop)]
pub struct Remembered {
    /// The session and its live enrolments, once there is one.
    pub session: Option<(Instance, Enrolments)>,
    /// The drafts, each at its number's index; none before a load.
    pub drafts: Drafts,
    /// The published timetable with its seat rows, by exam and then by student, if there is one.
    pub published: Option<(Timetable, Vec<SeatRow>)>,
}

/// Returns what is kept in memory of the office that the rows represent, in either version of the
/// file, if its batches are no longer than a text may be. `BadRows`: the rows represent no office,
/// whatever the lengths of the batches.
pub fn remembered_of(alloc: Global, found: &Found) -> Result<Remembered, RecordFault>
    ensures are { IfOk result (λ kept. (batches : List Batch)
        → AreFoundBatches found.now.batches.items batches
        → (office : OfficeState) × TablesRepresentOffice (tables_of found.now batches) office
        × IsSound (tables_of found.now batches) office × IsOffice office
        × (memory_of office ≡ kept.session)
        × (published_in office ≡ publication_from kept.published)
        × ((d : ℕ) → draft_at kept.drafts d ≡ scored_draft d office)) }
    ensures together { IfOk result (λ kept. AreConsistent kept.session) }
    ensures suited { IfOk result (λ kept. IfSome kept.session
        (λ session. AreSuited session.0 kept.drafts)) }
    ensures published { IfOk result (λ kept. IfSome kept.session
        (λ session. AreFound session.0 (publication_from kept.published))) }
    ensures none { IfErr result (λ e. e ≡ RecordFault.BadRows → (batches : List Batch)
        → map counts_of batches ≡ found.now.batches.items → (office : OfficeState)
        → TablesRepresentOffice (tables_of found.now batches) office
        → IsSound (tables_of found.now batches) office → IsOffice office → ⊥) }
{
    if is_unloaded(found) {
        return Ok(Remembered {
            session: None,
            drafts: no_drafts(),
            published: None,
        });
    }
    let instance = session_of(alloc, &found.meta)?;
    check_owners(alloc, &instance, &found.owners)?;
    let enrolments = enrolments_of(alloc, &instance, &found.enrols)?;
    let drafts = drafts_of(alloc, &instance, &enrolments, &found.drafts, &found.slots)?;
    let published = published_of(alloc, &instance, found)?;
    check_batches(&found.batches)?;
    Ok(Remembered {
        session: Some((instance, enrolments)),
        drafts,
        published,
    })
}

// Returns whether the tables are those before a load.
fn is_unloaded(found: &Found) -> bool
    ensures { IsTrue result ↔ IsUnloaded found.now }
{
    !found.meta.published
        && found.meta.instance.is_empty()
        && found.owners.is_empty()
        && found.enrols.is_empty()
        && found.drafts.is_empty()
        && found.slots.is_empty()
        && has_no_publication(found)
        && found.batches.is_empty()
}

// Returns whether there is no row of a publication or its shares.
fn has_no_publication(found: &Found) -> bool
    ensures { IsTrue result ↔ HasNoPublication found.now }
{
    found.placements.is_empty()
        && found.seats.is_empty()
        && found.student_shares.is_empty()
        && found.part_shares.is_empty()
}
