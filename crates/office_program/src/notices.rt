// Lines for a terminal about work that takes long, and about a new or an old file.
ghost use Rattle.std.specs.Prelude.{◌≡◌, IsTrue, false, true};
ghost use Rattle.office_program.specs.LongWork.{making_line, upgrading_line};
ghost use Rattle.office_program.specs.LongWork.{work_line, work_path};
ghost use Rattle.office_program.specs.Surroundings.{IsLarge, IsNotLarge, MayNoteLarge};

use crate::surroundings::Surroundings;
use office_check::FileName;
use office_store::is_of_version_1;
use sqlite::{Alter, Connection};
use std::fmt;

/// Work on a file, which the line names by its path.
#[derive(Clone, Copy)]
pub enum LongWork<'a> {
    /// An instance is read and loaded.
    Loading(&'a str),
    /// The office of a database is found.
    Opening(&'a str),
    /// A draft is published in the office of a database.
    Publishing(&'a str),
    /// An office is created in a new file.
    Making(&'a str),
    /// The tables of version 1 are migrated to version 2.
    Upgrading(&'a str),
}

// It is displayed as its line.
impl fmt::Display for LongWork<'_> {
    ghost use Rattle.std.specs.Prelude.{Some};
    ghost use Rattle.office_program.specs.LongWork.{work_line};

    ghost output = { λ work. Some (work_line work) };

    fn fmt<W: fmt::Write>(&self, f: &mut fmt::Formatter<W>) -> fmt::Result {
        match self {
            LongWork::Loading(path) => {
                let name = FileName(path);
                write!(f, "examoffice: loading {name}, which takes a while")
            }
            LongWork::Opening(path) => {
                let name = FileName(path);
                write!(f, "examoffice: opening {name}, which takes a while")
            }
            LongWork::Publishing(path) => {
                let name = FileName(path);
                write!(f, "examoffice: publishing in {name}, which takes a while")
            }
            LongWork::Making(path) => {
                let name = FileName(path);
                write!(f, "examoffice: {name} is new: an office without a session")
            }
            LongWork::Upgrading(path) => {
                let name = FileName(path);
                write!(
                    f,
                    "examoffice: {name} becomes version 2, which no older program opens"
                )
            }
        }
    }
}

// In bytes. Work on such a file takes a tenth of a second at least, and seconds at the limits.
pub const LARGE: u64 = 500_000;

// Writes which work begins, if the file is large and a terminal shows it.
pub(crate) fn announce<H: Surroundings>(host: &H, work: LongWork<'_>)
    requires { MayNoteLarge (H.finds host.now) (H.shows host.now) (H.allows host.now)
        (work_path work) (work_line work) }
{
    if is_large(host, path_of(work)) {
        say(host, work);
    }
}

// Writes that the office of a file is new, if a terminal shows it.
pub(crate) fn announce_new<H: Surroundings>(host: &H, path: &str)
    requires { H.shows host.now true → IsTrue (H.allows host.now (making_line path.now)) }
{
    say(host, LongWork::Making(path));
}

// Writes that the tables of a database have version 1, if so: opening migrates them.
pub(crate) fn announce_upgrade<H: Surroundings, S: Alter>(
    host: &H,
    path: &str,
    conn: &Connection<S>,
)
    requires { H.shows host.now true → IsTrue (H.allows host.now (upgrading_line path.now)) }
{
    if let Ok(true) = is_of_version_1(host.allocator(), conn) {
        say(host, LongWork::Upgrading(path));
    }
}

// Writes the line of a work, if a terminal shows it.
fn say<H: Surroundings>(host: &H, work: LongWork<'_>)
    requires { H.shows host.now true → IsTrue (H.allows host.now (work_line work)) }
{
    if host.is_terminal() {
        host.note_work(work);
    }
}

// Returns the path of the file that the work is on.
fn path_of(work: LongWork<'_>) -> &str
    ensures { result.now ≡ work_path work.entry }
{
    match work {
        LongWork::Loading(path)
        | LongWork::Opening(path)
        | LongWork::Publishing(path)
        | LongWork::Making(path)
        | LongWork::Upgrading(path) => path,
    }
}

// Returns whether a file exists and is large.
fn is_large<H: Surroundings>(host: &H, path: &str) -> bool
    ensures large { IsTrue result → IsLarge (H.finds host.now) path.now }
    ensures small { result ≡ false → IsNotLarge (H.finds host.now) path.now }
{
    match host.look_at(path) {
        Ok(found) => found.size >= LARGE,
        Err(_) => false,
    }
}
