// The tables of an office, read from a database with any contents.
ghost use Rattle.std.specs.Prelude.{◌≡◌, ◌⊎◌, IfErr, IsTrue, OnOk};
ghost use Rattle.sqlite.specs.Held.{state};
ghost use Rattle.sqlite.specs.State.{HasCleanDisk, IsUnchanged};
ghost use Rattle.office_tables.specs.Adopting.{IsAdopted, found_or_fault};
ghost use Rattle.office_tables.specs.Readers.{LeavesFile};

use crate::tables::{Found, adopt_rows};
use crate::version::version_of;
use sqlite::{Alter, Connection, Error};
use std::alloc::{AllocError, Global};

/// Why no rows of an office were found.
#[derive(Clone, Copy, Debug, PartialEq, Eq)]
pub enum AdoptFault {
    /// The database doesn't hold the rows of an office.
    Foreign,
    /// A statement failed, or memory ran out.
    Failed,
}

impl From<AllocError> for AdoptFault {
    ghost use Rattle.std.specs.Prelude.{◌≡◌};
    ghost use Rattle.office_tables.specs.declared.adopting.AdoptFault.TheVariants.{Failed};

    ghost from_gives = { λ _ e. e ≡ Failed };

    fn from(_error: AllocError) -> AdoptFault {
        AdoptFault::Failed
    }
}

/// Returns the rows of an office and the version of its file; the batches are without their bytes,
/// which `batch_of` reads. `Foreign`: the database doesn't hold the rows of an office. `Failed`: a
/// statement failed, or memory ran out.
pub fn adopt_tables<S: Alter>(alloc: Global, conn: &mut Connection<S>) -> Result<Found, AdoptFault>
    ensures found { HasCleanDisk (state S.Store conn.new)
        → IsAdopted (state S.Store conn.old).now result }
    // If rows are found, the database is open.
    ensures open { HasCleanDisk (state S.Store conn.new)
        → OnOk result (IsTrue (state S.Store conn.new).is_open) }
    ensures leaves { LeavesFile (Unit {0}) S.Store conn.old conn.new result }
    // `Foreign` leaves everything as it was, too.
    ensures same { HasCleanDisk (state S.Store conn.new)
        → IfErr result (λ e. e ≡ AdoptFault.Foreign → (conn.new ≡ conn.old)
        ⊎ IsUnchanged (state S.Store conn.old) (state S.Store conn.new)) }
{
    let Some(version) = version_of(alloc, conn.schema())? else {
        return Err(AdoptFault::Foreign);
    };
    adopt_rows(alloc, conn, version)
}

// Returns what a reader found. `Foreign`: it found no such rows. `Failed`: it failed.
pub(crate) fn found_or_fault<X: Drop>(read: Result<Option<X>, Error>) -> Result<X, AdoptFault>
    ensures { result ≡ found_or_fault read }
{
    match read {
        Ok(Some(found)) => Ok(found),
        Ok(None) => Err(AdoptFault::Foreign),
        Err(_) => Err(AdoptFault::Failed),
    }
}
