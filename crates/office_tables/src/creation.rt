// All twelve tables, and the row of an office without a session.
ghost use Rattle.std.specs.Prelude.{◌≡◌, ◌↔◌, [], List, IsTrue};
ghost use Rattle.office_tables.specs.Tables.{office_schema, schema_before, empty_tables};
ghost use Rattle.sqlite.specs.Held.{state};
ghost use Rattle.sqlite_schema.specs.declared.schema.Schema.{Schema};
ghost use Rattle.sqlite_schema.specs.declared.schema.Table.{Table};
ghost use Rattle.sqlite_trees.specs.Tree.{Trees};
ghost use Rattle.office_tables.specs.Schema.{created_all, no_schema, CreateAll, HasRows, IsBlank};
ghost use Rattle.office_tables.specs.Steps.{StepEstablishes, IsUncommitted};
ghost use Rattle.office_tables.specs.TablesHeld.{HoldsTables};

use crate::altering::Alteration;
use crate::running::run;
use crate::tables::{CREATE_TEXTS, InsertMeta, TABLES_BEFORE};
use sqlite::{Alter, Connection, Error, Transaction};

/// Returns whether the database has no table, no index and no view.
pub fn is_bare<S: Alter>(conn: &Connection<S>) -> bool
    ensures { IsTrue result ↔ ((state S.Store conn.now).now.schema ≡ no_schema) }
{
    let schema = conn.schema();
    schema.tables.is_empty() && schema.indexes.is_empty() && schema.views.is_empty()
}

/// Creates the tables, with the rows of an office without a session.
pub fn create_tables<S: Alter>(tx: &mut Transaction<'_, S>) -> Result<(), Error>
    ensures same_reference { tx.new.conn.ghost_name ≡ tx.old.conn.ghost_name }
    ensures makes { StepEstablishes S.Store (IsBlank no_schema) (λ db. HoldsTables db empty_tables)
        tx.old.conn.now tx.new.conn.now result }
    ensures within { IsUncommitted (state S.Store tx.old.conn.now) (state S.Store tx.new.conn.now) }
{
    create_old_tables(tx)?;
    create_night_tables(tx)?;
    let row = InsertMeta {
        published: false,
        instance: &[],
    };
    row.apply(tx)
}

// Creates the tables of version 1.
fn create_old_tables<S: Alter>(tx: &mut Transaction<'_, S>) -> Result<(), Error>
    ensures same_reference { tx.new.conn.ghost_name ≡ tx.old.conn.ghost_name }
    ensures makes { StepEstablishes S.Store (IsBlank no_schema) (IsBlank schema_before)
        tx.old.conn.now tx.new.conn.now result }
    ensures within { IsUncommitted (state S.Store tx.old.conn.now) (state S.Store tx.new.conn.now) }
{
    create(tx, &CREATE_TEXTS[..TABLES_BEFORE])
}

// Creates the tables that version 2 adds: the amounts over night of drafts and of candidates'
// shares.
pub(crate) fn create_night_tables<S: Alter>(tx: &mut Transaction<'_, S>) -> Result<(), Error>
    ensures same_reference { tx.new.conn.ghost_name ≡ tx.old.conn.ghost_name }
    ensures makes { (trees : Trees) → trees 15 ≡ [] → trees 16 ≡ []
        → StepEstablishes S.Store (HasRows schema_before trees) (HasRows office_schema trees)
        tx.old.conn.now tx.new.conn.now result }
    ensures within { IsUncommitted (state S.Store tx.old.conn.now) (state S.Store tx.new.conn.now) }
{
    create(tx, &CREATE_TEXTS[TABLES_BEFORE..])
}

// Creates a table by each text; the rows of the tables before them stay.
fn create<S: Alter>(tx: &mut Transaction<'_, S>, texts: &[&str]) -> Result<(), Error>
    ensures same_reference { tx.new.conn.ghost_name ≡ tx.old.conn.ghost_name }
    ensures makes { (schema : Schema) (tables : List Table) (trees : Trees)
        → CreateAll trees schema tables texts.now
        → StepEstablishes S.Store (HasRows schema trees) (HasRows (created_all schema tables) trees)
        tx.old.conn.now tx.new.conn.now result }
    ensures within { IsUncommitted (state S.Store tx.old.conn.now) (state S.Store tx.new.conn.now) }
{
    for text in texts {
        run(tx, text, &[])?;
    }
    Ok(())
}
