// Which caller may run which command.
ghost use Rattle.std.specs.Prelude.{◌≡◌};
ghost use Rattle.office_policy.specs.Commands.{plain_command};
ghost use Rattle.office_policy.specs.Policy.{if_owned, is_owner, kind_of, permits};

use crate::callers::Caller;
use crate::command::Command;
use exam_terms::{DeptNo, ExamNo};

/// Why a command is denied.
#[derive(Clone, Copy, Debug, PartialEq, Eq)]
pub enum Denial {
    /// A candidate may only use their own three pages.
    P1,
    /// Only the office may run the command, and a department asks for it.
    P2,
    /// A department edits an exam that it doesn't own, or that doesn't exist, or asks where such an
    /// exam can go.
    P3,
    /// The office or a department asks for a candidate's page.
    P4,
}

/// The kind of a command, by its callers.
#[derive(Clone, Copy)]
pub enum Kind {
    /// A candidate's own pages.
    Personal,
    /// Commands that only the office may run.
    Official,
    /// Reading a draft and its reports.
    Reading,
    /// Placing, moving or clearing an exam of a draft, swapping it with another, or asking where it
    /// can go.
    Editing(ExamNo, Option<ExamNo>),
}

impl Command<'_> {
    /// Returns the command's kind.
    pub fn kind(&self) -> Kind
        ensures { result ≡ kind_of (plain_command self.now) }
    {
        match *self {
            Command::Me | Command::MyExam(_) | Command::MyPenalty => Kind::Personal,
            Command::Draft(_) | Command::DraftPenalty(_) | Command::DraftViolations(_) => {
                Kind::Reading
            }
            Command::DraftPlaces(_, exam)
            | Command::Place(_, exam, _)
            | Command::Move(_, exam, _)
            | Command::Clear(_, exam) => Kind::Editing(exam, None),
            Command::Swap(_, a, b) => Kind::Editing(a, Some(b)),
            _ => Kind::Official,
        }
    }
}

/// Returns whether the caller may run the command. The owners are the departments of the exams that
/// the command edits, in its order, and 0 for an exam that has no owner or doesn't exist.
pub fn allowed(
    caller: Caller,
    command: &Command<'_>,
    owner_a: u32,
    owner_b: u32,
) -> Result<(), Denial>
    ensures { result ≡ permits caller (plain_command command.now) owner_a owner_b }
{
    let kind = command.kind();
    match caller {
        Caller::Office => match kind {
            Kind::Personal => Err(Denial::P4),
            _ => Ok(()),
        },
        Caller::Dept(dept) => match kind {
            Kind::Personal => Err(Denial::P4),
            Kind::Official => Err(Denial::P2),
            Kind::Reading => Ok(()),
            Kind::Editing(..) => deny_unowned(is_owner(dept, kind, owner_a, owner_b)),
        },
        Caller::Cand(_) => match kind {
            Kind::Personal => Ok(()),
            _ => Err(Denial::P1),
        },
    }
}

// Returns whether the department owns each exam that a command of this kind edits.
fn is_owner(dept: DeptNo, kind: Kind, owner_a: u32, owner_b: u32) -> bool
    ensures { result ≡ is_owner (Caller.Dept dept) kind owner_a owner_b }
{
    let owns_first = owner_a == dept.get();
    let owns_second = owner_b == dept.get();
    match kind {
        Kind::Editing(_, None) => owns_first,
        Kind::Editing(_, Some(_)) => owns_first && owns_second,
        _ => false,
    }
}

// Denies an edit of an exam that isn't owned.
fn deny_unowned(is_owned: bool) -> Result<(), Denial>
    ensures { result ≡ if_owned is_owned }
{
    if is_owned { Ok(()) } else { Err(Denial::P3) }
}
