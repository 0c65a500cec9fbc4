// The machine that a run is on: what is at its paths, and where lines about the run's work go.
ghost use Rattle.std.specs.Prelude.{ℕ, Bool, IfErr, IfOk, IsTrue, List, None, Option, Some};
ghost use Rattle.office_program.specs.Causes.{source_name};
ghost use Rattle.office_program.specs.LongWork.{work_line};
ghost use Rattle.office_program.specs.declared.surroundings.Found.{Found};

use crate::cause_lines::{Cause, Source};
use crate::notices::LongWork;
use std::alloc::Global;
use std::io::{IsTerminal, Result, Write};
use std::{env, fs};

/// What is at a path.
#[derive(Clone, Copy)]
pub struct Found {
    pub kind: FoundKind,
    /// In bytes.
    pub size: u64,
}

/// The kind of what is at a path.
#[derive(Clone, Copy, PartialEq, Eq)]
pub enum FoundKind {
    File,
    Folder,
    /// A pipe or a device, say, which may not be opened twice.
    Other,
}

/// The machine that a run is on.
pub trait Surroundings {
    // This may be found at a path; or nothing.
    ghost finds: { Self → List ℕ → Option Found → Type 0 };

    // Standard error may be a terminal, or not.
    ghost shows: { Self → Bool → Type 0 };

    // Standard error may go to a journal, or not.
    ghost logs: { Self → Bool → Type 0 };

    // A line that begins so may be written about a run.
    ghost allows: { Self → List ℕ → Bool };

    /// Returns the allocator of a run.
    fn allocator(&self) -> Global;

    /// Returns what is at a path.
    fn look_at(&self, path: &str) -> Result<Found>
        ensures found { IfOk result (λ found. finds self.now path.now (Some found)) }
        ensures failed { IfErr result (λ _. finds self.now path.now None) };

    /// Returns whether standard error is a terminal.
    fn is_terminal(&self) -> bool
        ensures { shows self.now result };

    /// Returns whether standard error goes to a journal.
    fn is_journal(&self) -> bool
        ensures { logs self.now result };

    /// Tries to write the line of a work that begins.
    fn note_work(&self, work: LongWork<'_>)
        requires { IsTrue (allows self.now (work_line work)) };

    /// Tries to write a line about what a run reads or writes, which begins with its name.
    fn note_cause(&self, source: Source<'_>, cause: &Cause<'_>)
        requires { IsTrue (allows self.now (source_name source)) };
}

// The system; no clause says what its files are, or where its standard error goes.
impl Surroundings for HostRuntime {
    ghost use Rattle.std.specs.Prelude.{true, ⊤};

    ghost finds = { λ host path found. ⊤ };

    ghost shows = { λ host is_terminal. ⊤ };

    ghost logs = { λ host is_journal. ⊤ };

    ghost allows = { λ host line. true };

    fn allocator(&self) -> Global {
        self.alloc()
    }

    fn look_at(&self, path: &str) -> Result<Found> {
        let found = fs::metadata(self, path)?;
        Ok(Found {
            kind: kind_of(found.is_file(), found.is_dir()),
            size: found.len(),
        })
    }

    fn is_terminal(&self) -> bool {
        self.stderr().is_terminal()
    }

    fn is_journal(&self) -> bool {
        env::var(self, "JOURNAL_STREAM").is_ok()
    }

    // The work is done even if its line can't be written.
    fn note_work(&self, work: LongWork<'_>) {
        let _ = writeln!(self.stderr(), "{work}");
    }

    // The fault's own line is written whether or not this one can be.
    fn note_cause(&self, source: Source<'_>, cause: &Cause<'_>) {
        let _ = writeln!(self.stderr(), "{source}{cause}");
    }
}

// Returns the kind of what is a file, a folder or neither.
fn kind_of(is_file: bool, is_folder: bool) -> FoundKind {
    if is_file {
        FoundKind::File
    } else if is_folder {
        FoundKind::Folder
    } else {
        FoundKind::Other
    }
}
