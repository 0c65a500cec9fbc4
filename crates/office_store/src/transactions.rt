// Whole transactions: all of it is done, or nothing.
ghost use Rattle.std.specs.Prelude.{◌≡◌, [], ◌∷◌, false};
ghost use Rattle.office_tables.specs.Alterations.{IsWritten, TablesChanged, TransactionRan};
ghost use Rattle.office_tables.specs.Schema.{no_schema, IsBlank};
ghost use Rattle.office_tables.specs.TablesHeld.{HoldsOldTables};
ghost use Rattle.office_tables.specs.Tables.{Tables, empty_tables};

use crate::fault::StatementFailed;
use office_tables::{Alteration, create_tables, migrate, transact};
use sqlite::{Alter, Connection};

// Makes the tables, which then represent the office without a session.
pub(crate) fn make_tables<S: Alter>(conn: &mut Connection<S>) -> Result<(), StatementFailed>
    requires rests { conn.old.in_transaction ≡ false }
    ensures { TransactionRan S.Store
        (λ old new. IsBlank no_schema old → IsWritten empty_tables old new)
        conn.old conn.new result }
{
    let _ = conn.schema();
    let mut tx = conn.transaction();
    create_tables(&mut tx)?;
    tx.commit()?;
    Ok(())
}

// Migrates tables of version 1, which have this row about the office, to version 2.
pub(crate) fn migrate_tables<S: Alter>(
    conn: &mut Connection<S>,
    published: bool,
    instance: &[u8],
) -> Result<(), StatementFailed>
    requires rests { conn.old.in_transaction ≡ false }
    ensures { TransactionRan S.Store (λ old new. (t : Tables)
        → t.meta ≡ record { published = published; instance = instance.now } ∷ []
        → HoldsOldTables old t → IsWritten t old new) conn.old conn.new result }
{
    let _ = conn.schema();
    let mut tx = conn.transaction();
    migrate(&mut tx, published, instance)?;
    tx.commit()?;
    Ok(())
}

// Makes an alteration of the tables, all of it or nothing.
pub(crate) fn put<S: Alter, A: Alteration>(
    conn: &mut Connection<S>,
    alteration: &A,
) -> Result<(), StatementFailed>
    requires rests { conn.old.in_transaction ≡ false }
    requires fits { A.fits alteration.now }
    ensures { TransactionRan S.Store (TablesChanged (A.alteration alteration.now))
        conn.old conn.new result }
{
    transact(conn, alteration)?;
    Ok(())
}
