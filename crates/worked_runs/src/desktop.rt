// A machine in memory.
ghost use Rattle.std.specs.Prelude.{◌≡◌, ◌≤◌, IfSome, IsTrue, false, true};
ghost use Rattle.std.specs.Str.{bytes_eq};

use office_program::{Cause, Found, FoundKind, LongWork, Source, Surroundings};
use std::alloc::Global;
use std::cell::Cell;
use std::io::{Error, ErrorKind, Result, Write};
use std::time::{Clock, Duration};

/// A machine in memory, with a large and a small file. Its clock stands still. Lines about the work
/// of a run are written only if its standard error is a terminal; it has no journal.
#[derive(Clone, Copy)]
pub(crate) struct Desktop<'a> {
    pub(crate) alloc: Global,
    pub(crate) large: &'a str,
    pub(crate) small: &'a str,
    pub(crate) has_terminal: bool,
    pub(crate) lines: &'a Cell<Option<Vec<u8>>>,
}

impl Desktop<'_> {
    /// Takes the lines that were written.
    pub(crate) fn taken(&self) -> Vec<u8> {
        self.lines.take().unwrap_or(Vec::new(self.alloc))
    }
}

impl Surroundings for Desktop<'_> {
    ghost use Rattle.std.specs.Prelude.{◌≡◌, ◌≤◌, IfSome, IsTrue, false, true};
    ghost use Rattle.std.specs.Str.{bytes_eq};

    // Only the large file has 500,000 bytes and more.
    ghost finds = { λ desktop path found.
        IfSome found (λ it. 500000 ≤ it.size → IsTrue (bytes_eq desktop.large.now path)) };

    ghost shows = { λ desktop is_terminal. is_terminal ≡ desktop.has_terminal };

    ghost logs = { λ desktop is_journal. is_journal ≡ false };

    ghost allows = { λ desktop line. desktop.has_terminal };

    fn allocator(&self) -> Global {
        self.alloc
    }

    fn look_at(&self, path: &str) -> Result<Found> {
        let kind = FoundKind::File;
        if self.large == path {
            return Ok(Found {
                kind,
                size: 600_000,
            });
        }
        if self.small == path {
            return Ok(Found { kind, size: 4_096 });
        }
        Err(Error::from(ErrorKind::NotFound))
    }

    fn is_terminal(&self) -> bool {
        self.has_terminal
    }

    fn is_journal(&self) -> bool {
        false
    }

    fn note_work(&self, work: LongWork<'_>)
        requires { IsTrue self.now.has_terminal }
    {
        let mut lines = self.taken();
        let _ = writeln!(lines, "{work}");
        self.lines.set(Some(lines));
    }

    fn note_cause(&self, source: Source<'_>, cause: &Cause<'_>)
        requires { IsTrue self.now.has_terminal }
    {
        let mut lines = self.taken();
        let _ = writeln!(lines, "{source}{cause}");
        self.lines.set(Some(lines));
    }
}

impl Clock for Desktop<'_> {
    fn monotonic(&self) -> Result<Duration> {
        Ok(Duration::ZERO)
    }

    fn since_1970(&self) -> Result<Duration> {
        Ok(Duration::ZERO)
    }
}
