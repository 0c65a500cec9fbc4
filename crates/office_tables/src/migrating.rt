// The migration of a file from version 1 to version 2.
ghost use Rattle.std.specs.Prelude.{◌≡◌, [], ◌∷◌};
ghost use Rattle.sqlite.specs.Held.{state};
ghost use Rattle.office_tables.specs.Tables.{no_meta, Tables};
ghost use Rattle.office_tables.specs.Migrating.{IsWidened};
ghost use Rattle.office_tables.specs.TablesHeld.{HoldsTables, HoldsOldTables};
ghost use Rattle.office_tables.specs.Steps.{StepEstablishes, IsUncommitted};

use crate::altering::Alteration;
use crate::creation::create_night_tables;
use crate::running::run;
use crate::tables::InsertMeta;
use sqlite::{Alter, Error, Transaction};

/// Migrates the tables from version 1, with this row about the office, to version 2. The rows stay
/// the same, and each amount over night is 0.
pub fn migrate<S: Alter>(
    tx: &mut Transaction<'_, S>,
    published: bool,
    instance: &[u8],
) -> Result<(), Error>
    ensures same_reference { tx.new.conn.ghost_name ≡ tx.old.conn.ghost_name }
    ensures makes { (t : Tables)
        → t.meta ≡ record { published = published; instance = instance.now } ∷ []
        → StepEstablishes S.Store (λ db. HoldsOldTables db t) (λ db. HoldsTables db t)
        tx.old.conn.now tx.new.conn.now result }
    ensures within { IsUncommitted (state S.Store tx.old.conn.now) (state S.Store tx.new.conn.now) }
{
    create_night_tables(tx)?;
    fill_nights(tx)?;
    let row = InsertMeta {
        published,
        instance,
    };
    row.apply(tx)
}

// Deletes the row of version 1, and inserts an amount of 0 for each draft and each student's share.
fn fill_nights<S: Alter>(tx: &mut Transaction<'_, S>) -> Result<(), Error>
    ensures same_reference { tx.new.conn.ghost_name ≡ tx.old.conn.ghost_name }
    ensures makes { (t : Tables) → StepEstablishes S.Store (IsWidened t)
        (λ db. HoldsTables db (no_meta t)) tx.old.conn.now tx.new.conn.now result }
    ensures within { IsUncommitted (state S.Store tx.old.conn.now) (state S.Store tx.new.conn.now) }
{
    run(tx, "DELETE FROM meta", &[])?;
    run(
        tx,
        "INSERT INTO night_draft (no, night) SELECT no, 0 FROM draft",
        &[],
    )?;
    run(
        tx,
        "INSERT INTO night_share (student, night) SELECT student, 0 FROM share_student",
        &[],
    )
}
