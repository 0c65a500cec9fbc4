// Opening a database that holds an office or nothing.
ghost use Rattle.std.specs.Prelude.{◌≡◌, ◌⊎◌, ◌↔◌, IfErr, IfOk, IsTrue};
ghost use Rattle.sqlite.specs.Held.{state};
ghost use Rattle.sqlite.specs.State.{HasCleanDisk};
ghost use Rattle.office_tables.specs.Tables.{schema_before};
ghost use Rattle.office_model.specs.Office.{OfficeState};
ghost use Rattle.office_store.specs.Faults.{IsOfDatabase};
ghost use Rattle.office_store.specs.Leaving.{LeavesOpened, MayOpen};
ghost use Rattle.office_store.specs.Opening.{IsOfficeOf};
ghost use Rattle.office_store.specs.Running.{Represents};

use crate::office::Office;
use office_model::StoreFault;
use office_tables::is_bare;
use office_tables::tables::is_schema_before;
use sqlite::{Alter, Connection};
use std::alloc::{AllocError, Global};

impl<S: Alter> Office<S> {
    /// Opens the office of a database: a new one if there is no table, index or view; tables of
    /// version 1 are migrated to version 2. `BadSchema`: there are tables, but not those of an
    /// office. `Store`: a statement failed, memory ran out, or a transaction is open. A refusal
    /// returns the connection.
    pub fn open(
        alloc: Global,
        conn: Connection<S>,
    ) -> Result<Office<S>, (StoreFault, Connection<S>)>
        // The tables represent the office that the database represented before, in version 2.
        ensures found { IfOk result (λ office. HasCleanDisk (state S.Store office)
            → (there : OfficeState) → IsOfficeOf (state S.Store conn).now there
            → Represents (state S.Store office) there) }
        // The database represented an office.
        ensures stood { IfOk result (λ office. HasCleanDisk (state S.Store office)
            → (there : OfficeState) × IsOfficeOf (state S.Store conn).now there) }
        // Only `Store` or `BadSchema`.
        ensures fault { IfErr result (λ e. IsOfDatabase e.0) }
        // On `BadSchema` the database represents no office.
        ensures refused { IfErr result (λ e. HasCleanDisk (state S.Store e.1)
            → (e.0 ≡ StoreFault.Store) ⊎ ((there : OfficeState)
            → IsOfficeOf (state S.Store conn).now there → ⊥)) }
        // On `Ok` the database is open, and all is committed; on `Err` the tables are as they were.
        // A later opening may find what it might have found before, or what `create` or `adopt`
        // makes.
        ensures leaves { LeavesOpened S.Store MayOpen conn result }
    {
        if is_bare(&conn) {
            Office::create(conn)
        } else {
            Office::adopt(alloc, conn)
        }
    }
}

/// Returns whether the tables of a database are of version 1, which opening migrates to version 2.
pub fn is_of_version_1<S: Alter>(alloc: Global, conn: &Connection<S>) -> Result<bool, AllocError>
    ensures { IfOk result
        (λ is. IsTrue is ↔ ((state S.Store conn.now).now.schema ≡ schema_before)) }
{
    is_schema_before(alloc, conn.schema())
}
