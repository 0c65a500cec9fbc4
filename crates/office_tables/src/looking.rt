// Whether the file can be read.
ghost use Rattle.office_tables.specs.Readers.{LeavesLooked};

use sqlite::{Alter, Connection, Error};

/// Checks that the file can still be read: a store that a fault has closed answers nothing. The
/// query is for draft 0, which doesn't exist, so no row is read.
pub fn check_open<S: Alter>(conn: &mut Connection<S>) -> Result<(), Error>
    ensures { LeavesLooked S.Store conn.old conn.new result }
{
    let _rows = conn.query_all("SELECT no FROM draft WHERE no = 0", &[])?;
    Ok(())
}
