// Opening a database that already holds an office.
ghost use Rattle.std.specs.Prelude.{◌≡◌, ◌⊎◌, false, IfErr, IfOk, IfSome, IsTrue, OnErr, OnOk};
ghost use Rattle.sqlite.specs.Held.{state};
ghost use Rattle.sqlite.specs.State.{HasCleanDisk, IsUnchanged};
ghost use Rattle.office_tables.specs.Tables.{office_schema};
ghost use Rattle.office_tables.specs.Readers.{LeavesFile};
ghost use Rattle.office_model.specs.Office.{OfficeState};
ghost use Rattle.office_store.specs.Faults.{IsOfDatabase};
ghost use Rattle.office_store.specs.Leaving.{LeavesOpened, MayMigrate};
ghost use Rattle.office_records.specs.FoundPublications.{AreFound, publication_from};
ghost use Rattle.office_records.specs.Memory.{memory_of, published_in};
ghost use Rattle.office_store.specs.Memory.{IsConsistent, priced_as, priced_in};
ghost use Rattle.office_store.specs.Opening.{HoldsOffice, IsFoundOffice, DatabaseUpgraded, HasNoNightWeightIn};
ghost use Rattle.office_store.specs.Transactions.{Migrated};

use crate::fault::StatementFailed;
use crate::kept_bytes::check_bytes;
use crate::memory::{OfficeMemory, no_breaches};
use crate::office::Office;
use crate::transactions::migrate_tables;
use exam_model::{Enrolments, Instance, Timetable};
use exam_publish::{SeatRow, shares};
use exam_score::Parts;
use office_model::StoreFault;
use office_records::{Remembered, remembered_of};
use office_tables::tables::Found;
use office_tables::{AdoptFault, Version, adopt_tables};
use sqlite::{Alter, Connection};
use std::alloc::Global;

impl<S: Alter> Office<S> {
    /// Opens a database that holds an office, and migrates tables of version 1 to version 2, with
    /// weight 0 for exams over night. `BadSchema`: the tables are not those of an office, or their
    /// rows are invalid. `Store`: a statement failed, memory ran out, or a transaction is open. A
    /// refusal returns the connection; nothing changes.
    pub fn adopt(
        alloc: Global,
        conn: Connection<S>,
    ) -> Result<Office<S>, (StoreFault, Connection<S>)>
        // The tables represented an office, and now they represent it in version 2.
        ensures adopted { IfOk result (λ office. HasCleanDisk (state S.Store office)
            → DatabaseUpgraded (state S.Store conn).now (state S.Store office).now) }
        // If they were of version 2, nothing has changed.
        ensures same { IfOk result (λ office. HasCleanDisk (state S.Store office)
            → (state S.Store conn).now.schema ≡ office_schema
            → (office ≡ conn) ⊎ IsUnchanged (state S.Store conn) (state S.Store office)) }
        // On `BadSchema` they represent no office, in either version.
        ensures no_office { IfErr result (λ e. e.0 ≡ StoreFault.BadSchema
            → HasCleanDisk (state S.Store e.1)
            → (o : OfficeState) → HoldsOffice (state S.Store conn).now o → ⊥) }
        // Only `Store` or `BadSchema`.
        ensures fault { IfErr result (λ e. IsOfDatabase e.0) }
        // On `Ok` the database is open, and all is committed; on `Err` the tables are as they were.
        // A later opening may find what it might have found before, or, if that was of version 1,
        // the same office in version 2.
        ensures leaves { LeavesOpened S.Store MayMigrate conn result }
    {
        if !conn.is_autocommit() {
            return Err((StoreFault::Store, conn));
        }
        let mut conn = conn;
        let (found, memory) = match found_office(alloc, &mut conn) {
            Ok(kept) => kept,
            Err(fault) => return Err((fault, conn)),
        };
        match migrate_if_old(&mut conn, &found) {
            Ok(()) => Ok(Office { conn, memory }),
            Err(_) => Err((StoreFault::Store, conn)),
        }
    }
}

// Returns the tables, and what is kept in memory of the office that they represent. `BadSchema`:
// they represent no office.
fn found_office<S: Alter>(
    alloc: Global,
    conn: &mut Connection<S>,
) -> Result<(Found, OfficeMemory), StoreFault>
    ensures kept { HasCleanDisk (state S.Store conn.new)
        → IfOk result (λ kept. IsFoundOffice (state S.Store conn.old).now kept.0 kept.1) }
    ensures together { IfOk result (λ kept. IsConsistent kept.1) }
    ensures open { HasCleanDisk (state S.Store conn.new)
        → OnOk result (IsTrue (state S.Store conn.new).is_open) }
    ensures none { HasCleanDisk (state S.Store conn.new)
        → IfErr result (λ e. e ≡ StoreFault.BadSchema
        → (o : OfficeState) → HoldsOffice (state S.Store conn.old).now o → ⊥) }
    ensures fault { IfErr result IsOfDatabase }
    ensures leaves { LeavesFile (Unit {0}) S.Store conn.old conn.new result }
{
    let found = match adopt_tables(alloc, conn) {
        Ok(found) => found,
        Err(AdoptFault::Foreign) => return Err(StoreFault::BadSchema),
        Err(AdoptFault::Failed) => return Err(StoreFault::Store),
    };
    let kept = remembered_of(alloc, &found)?;
    check_weight(found.version, &kept.session)?;
    check_bytes(alloc, conn, &found.batches)?;
    let priced = penalty_of(alloc, &kept)?;
    let memory = OfficeMemory {
        kept: kept.session,
        batches: found.batches.len(),
        drafts: kept.drafts,
        published: kept.published,
        priced,
        judged: no_breaches(),
    };
    Ok((found, memory))
}

// Returns the penalty of the publication that is kept in memory, if there is one.
fn penalty_of(alloc: Global, kept: &Remembered) -> Result<Option<Parts>, StoreFault>
    requires found { IfSome kept.now.session
        (λ session. AreFound session.0 (publication_from kept.now.published)) }
    ensures priced { IfOk result (λ priced. (o : OfficeState) → memory_of o ≡ kept.now.session
        → published_in o ≡ publication_from kept.now.published → priced_in o ≡ priced) }
    ensures fault { IfErr result (λ e. e ≡ StoreFault.Store) }
{
    match &kept.session {
        Some((instance, _)) => published_penalty(alloc, instance, &kept.published),
        None => Ok(None),
    }
}

// Returns the penalty of a publication of this session, if there is one, with the enrolments at that
// time.
fn published_penalty(
    alloc: Global,
    instance: &Instance,
    published: &Option<(Timetable, Vec<SeatRow>)>,
) -> Result<Option<Parts>, StoreFault>
    requires found { AreFound instance.now (publication_from published.now) }
    ensures priced { IfOk result
        (λ priced. priced ≡ priced_as instance.now (publication_from published.now)) }
    ensures fault { IfErr result (λ e. e ≡ StoreFault.Store) }
{
    let Some((timetable, rows)) = published else {
        return Ok(None);
    };
    let shares = shares(alloc, instance, rows, timetable)?;
    let Some(parts) = shares.parts() else {
        return Err(StoreFault::Store);
    };
    Ok(Some(parts))
}

// Checks that tables of version 1 have weight 0 for exams over night. `BadSchema`: they have
// another.
fn check_weight(version: Version, kept: &Option<(Instance, Enrolments)>) -> Result<(), StoreFault>
    ensures are { OnOk result (HasNoNightWeightIn version kept.now) }
    ensures none { OnErr result (HasNoNightWeightIn version kept.now → ⊥) }
    ensures fault { IfErr result (λ e. e ≡ StoreFault.BadSchema) }
{
    match (version, kept) {
        (Version::One, Some((instance, _))) if instance.weights().night > 0 => {
            Err(StoreFault::BadSchema)
        }
        _ => Ok(()),
    }
}

// Migrates the tables to version 2 if they are of version 1.
fn migrate_if_old<S: Alter>(conn: &mut Connection<S>, found: &Found) -> Result<(), StatementFailed>
    requires rests { conn.old.in_transaction ≡ false }
    ensures { Migrated found.now.version S.Store found.now conn.old conn.new result }
{
    match found.version {
        Version::One => migrate_tables(conn, found.meta.published, &found.meta.instance),
        Version::Two => Ok(()),
    }
}
