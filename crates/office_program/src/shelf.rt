// A database in memory.
ghost use Rattle.std.specs.Prelude.{IsTrue, Some};
ghost use Rattle.std.specs.Str.{bytes_eq};
ghost use Rattle.office_program.specs.Databases.{IsAt, KeepsOthers};
ghost use Rattle.office_program.specs.Shelves.{held_at};

use crate::databases::Databases;
use sqlite::{Connection, Error, ErrorCode, MemStore};

/// One database, in memory, for a program that has its office elsewhere. No other path has one.
#[derive(Drop)]
pub struct Shelf<'a> {
    pub path: &'a str,
    pub conn: Option<Connection<MemStore>>,
}

impl Databases for Shelf<'_> {
    ghost use Rattle.std.specs.Prelude.{IsTrue, Some};
    ghost use Rattle.std.specs.Str.{bytes_eq};
    ghost use Rattle.office_program.specs.Shelves.{held_at};

    type Opened = Connection<MemStore>;

    ghost known = { λ shelf path. Some (held_at shelf.path.now shelf.conn path) };

    ghost has_place = { λ shelf path. IsTrue (bytes_eq shelf.path.now path) };

    fn has_database(&self, path: &str) -> Result<bool, Error> {
        if self.path == path && self.conn.is_some() {
            Ok(true)
        } else {
            Err(Error::SqliteFailure(ErrorCode::CannotOpen))
        }
    }

    fn open_database(&mut self, path: &str) -> Result<Connection<MemStore>, Error> {
        if self.path != path {
            return Err(Error::SqliteFailure(ErrorCode::CannotOpen));
        }
        match self.conn.take() {
            Some(conn) => Ok(conn),
            None => Err(Error::SqliteFailure(ErrorCode::CannotOpen)),
        }
    }

    fn take_back(&mut self, path: &str, conn: Connection<MemStore>)
        requires place { IsTrue (bytes_eq self.old.path.now path.now) }
        ensures back { IsAt (Some (held_at self.new.path.now self.new.conn path.now)) conn }
        ensures others { KeepsOthers path.now
            (λ other. Some (held_at self.old.path.now self.old.conn other))
            (λ other. Some (held_at self.new.path.now self.new.conn other)) }
    {
        self.conn = Some(conn);
    }
}
