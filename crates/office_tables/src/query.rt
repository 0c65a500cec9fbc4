// Queries as values.
ghost use Rattle.office_tables.specs.Readers.{LeavesTables, Reads};
ghost use Rattle.office_tables.specs.Tables.{Tables};

use sqlite::{Alter, Connection, Error};
use std::alloc::Global;

/// A question about the tables.
pub trait Query {
    type Rows;

    // The tables have these rows for it.
    ghost answers: { Self → Tables → Self.Rows → Type 0 };

    /// Returns the rows.
    fn ask<S: Alter>(&self, alloc: Global, conn: &mut Connection<S>) -> Result<Self::Rows, Error>
        ensures rows { Reads S.Store (answers self.now) conn.old conn.new result }
        ensures leaves { LeavesTables S.Store conn.old conn.new result };
}
