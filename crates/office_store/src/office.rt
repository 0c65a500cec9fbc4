// The office, and how its file is created and read.
ghost use Rattle.std.specs.Prelude.{◌≡◌, ◌≢◌, false, IfErr, IfOk, None};
ghost use Rattle.sqlite.specs.Held.{state};
ghost use Rattle.sqlite.specs.State.{HasCleanDisk};
ghost use Rattle.office_tables.specs.Schema.{no_schema};
ghost use Rattle.office_store.specs.Faults.{IsOfDatabase};
ghost use Rattle.office_store.specs.Leaving.{LeavesOpened, LeavesUnchanged, MayMake};
ghost use Rattle.office_store.specs.Running.{IsAtRest};
ghost use Rattle.office_records.specs.Representation.{RepresentsOffice};

use crate::memory::OfficeMemory;
use crate::transactions::make_tables;
use office_model::StoreFault;
use office_tables::{check_open, is_bare};
use sqlite::{Alter, Connection};
use std::marker::Model;

/// An examination office in one SQLite database. Contracts see the connection; if the disk returns
/// what was written, its tables represent an office.
#[derive(Drop)]
pub struct Office<S: Alter> {
    pub(crate) conn: Connection<S>,
    pub(crate) memory: OfficeMemory,
}

impl<S: Alter> Model for Office<S> {
    ghost use Rattle.std.specs.Prelude.{◌≡◌, false};
    ghost use Rattle.sqlite.specs.Held.{Held, held_code, state};
    ghost use Rattle.office_store.specs.Memory.{IsConsistent};
    ghost use Rattle.office_store.specs.Running.{MatchesMemory};

    ghost Value = { Held S };

    ghost coded = { held_code S.code };

    ghost view = { λ o. o.conn };

    // While the store is open, its tables represent an office, and in memory are that office's
    // session, enrolments, drafts with their penalties, publication, and number of kept batches. On
    // any disk the drafts and the publication in memory are of the exams of the session in memory.
    ghost invariant = { λ o. (o.conn.in_transaction ≡ false)
        × MatchesMemory (state S.Store o.conn) o.memory × IsConsistent o.memory };
}

impl<S: Alter> Office<S> {
    /// Makes the tables of an office in a database without tables. `BadSchema`: there are tables,
    /// indexes or views. `Store`: a statement failed, or a transaction is open. A refusal returns
    /// the connection.
    pub fn create(conn: Connection<S>) -> Result<Office<S>, (StoreFault, Connection<S>)>
        // The tables represent the office without a session.
        ensures made { IfOk result (λ office. HasCleanDisk (state S.Store office)
            → RepresentsOffice (state S.Store office).now None) }
        // The database had no tables.
        ensures bare { IfOk result (λ _. (state S.Store conn).now.schema ≡ no_schema) }
        // The database had a table, and the connection is returned as it was.
        ensures not_bare { IfErr result (λ e. e.0 ≡ StoreFault.BadSchema
            → ((state S.Store conn).now.schema ≢ no_schema) × (e.1 ≡ conn)) }
        // Tables that are there are never called a failed statement.
        ensures foreign { IfErr result (λ e. (state S.Store conn).in_transaction ≡ false
            → (state S.Store conn).now.schema ≢ no_schema → e.0 ≡ StoreFault.BadSchema) }
        // Only `Store` or `BadSchema`.
        ensures fault { IfErr result (λ e. IsOfDatabase e.0) }
        // On `Ok` the database is open, and all is committed; on `Err` the tables are as they were.
        // A later opening may find what it might have found before, or, if there were no tables,
        // those of the office without a session.
        ensures leaves { LeavesOpened S.Store MayMake conn result }
    {
        if !conn.is_autocommit() {
            return Err((StoreFault::Store, conn));
        }
        if !is_bare(&conn) {
            return Err((StoreFault::BadSchema, conn));
        }
        let mut conn = conn;
        match make_tables(&mut conn) {
            Ok(()) => Ok(Office {
                conn,
                memory: OfficeMemory::new(),
            }),
            Err(_) => Err((StoreFault::Store, conn)),
        }
    }

    /// Checks that the file can still be read. On `Ok` memory and the file agree.
    pub fn check_open(&mut self) -> Result<(), StoreFault>
        ensures fault { IfErr result (λ e. e ≡ StoreFault.Store) }
        ensures leaves { LeavesUnchanged S.Store self.old self.new result }
    {
        self.lemma_at_rest();
        match check_open(&mut self.conn) {
            Ok(()) => Ok(()),
            Err(_) => Err(StoreFault::Store),
        }
    }

    /// Returns the connection, with its tables.
    pub fn release(self) -> Connection<S>
        ensures { result ≡ self }
    {
        let Office { conn, .. } = self;
        conn
    }

    // States for a proof that between two calls all is committed, if the store is open. It changes
    // nothing.
    pub(crate) fn lemma_at_rest(&self)
        ensures { IsAtRest (state S.Store self.now) }
    {
        let _ = self.conn.is_autocommit();
    }
}
