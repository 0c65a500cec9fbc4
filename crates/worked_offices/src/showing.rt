// Commands of an office of the small session, and everything that such an office shows.
use crate::given::{SMALL, SOLUTION};
use exam_model::{ExamNo, PeriodNo, Place, RoomNo, StudentNo};
use office_store::{Edit, Office, StoreFault};
use sqlite::Alter;
use std::alloc::{AllocError, Global};
use std::fmt::Debug;
use std::test::Fail;

/// A command; its draft is number 1.
#[derive(Clone, Copy)]
pub(crate) enum Command {
    Load,
    SetOwner,
    NewDraft,
    DropDraft,
    Move,
    Enrol,
    Publish,
}

// Candidate 3 is enrolled in exam 0 late.
const BATCH: &[u8] = b"student,exam,action\n3,0,add\n";

/// Runs a command. Returns the number in its answer (pairs, a penalty, added pairs), or 0.
pub(crate) fn run<S: Alter>(
    office: &mut Office<S>,
    alloc: Global,
    command: Command,
) -> Result<u64, StoreFault> {
    match command {
        Command::Load => {
            let loaded = office.load(alloc, SMALL)?;
            Ok(u64::from(loaded.pairs))
        }
        Command::SetOwner => {
            office.set_owner(ExamNo::new(0), 3)?;
            Ok(0)
        }
        Command::NewDraft => office.new_draft(alloc, 1, SOLUTION),
        Command::DropDraft => {
            office.drop_draft(1)?;
            Ok(0)
        }
        Command::Move => {
            let to = Place {
                period: PeriodNo::new(3),
                room: RoomNo::new(1),
            };
            office.edit(alloc, 1, Edit::Move(ExamNo::new(3), to))
        }
        Command::Enrol => {
            let counts = office.enrol_batch(alloc, 6, BATCH)?;
            Ok(u64::from(counts.added))
        }
        Command::Publish => {
            let published = office.publish(alloc, 1)?;
            Ok(published.penalty)
        }
    }
}

/// Returns everything that an office of the small session shows, as a text.
pub(crate) fn shown<S: Alter>(office: &mut Office<S>, alloc: Global) -> Result<String, Fail> {
    let mut text = String::new(alloc);
    show_session(office, alloc, &mut text)?;
    show_draft(office, alloc, &mut text)?;
    show_publication(office, alloc, &mut text)?;
    for number in [1, 2, 3] {
        let student = StudentNo::new(number).ok_or("no number of a student")?;
        show_candidate(office, alloc, student, &mut text)?;
    }
    Ok(text)
}

// The session, the owners, and whether a batch is kept: if it is, other bytes under its number are
// refused for that reason, else for an exam that doesn't exist.
fn show_session<S: Alter>(
    office: &mut Office<S>,
    alloc: Global,
    text: &mut String,
) -> Result<(), AllocError> {
    write!(text, "{:?}", office.session())?;
    for exam in 0..4 {
        let owner = office.owner(alloc, ExamNo::new(exam));
        write!(text, "{owner:?}")?;
    }
    let other = b"student,exam,action\n3,4,add\n";
    write!(text, "{:?}", office.enrol_batch(alloc, 6, other))
}

fn show_draft<S: Alter>(
    office: &mut Office<S>,
    alloc: Global,
    text: &mut String,
) -> Result<(), AllocError> {
    let draft = office.draft(alloc, 1);
    let penalty = office.penalty(1);
    let breaches = office.breaches(alloc, 1);
    write!(text, "{draft:?}{penalty:?}{breaches:?}")
}

fn show_publication<S: Alter>(
    office: &mut Office<S>,
    alloc: Global,
    text: &mut String,
) -> Result<(), AllocError> {
    let publication = office.publication(alloc);
    let timetable = office.published_timetable(alloc);
    write!(text, "{publication:?}{timetable:?}")?;
    if let Ok(Some(shares)) = office.shares(alloc) {
        let (students, exams) = (shares.students(), shares.exams());
        let (periods, rooms) = (shares.periods(), shares.rooms());
        write!(text, "{students:?}{exams:?}{periods:?}{rooms:?}")?;
    }
    Ok(())
}

fn show_candidate<S: Alter>(
    office: &mut Office<S>,
    alloc: Global,
    student: StudentNo,
    text: &mut String,
) -> Result<(), AllocError> {
    if let Ok(view) = office.candidate_view(alloc, student) {
        write!(
            text,
            "{:?}{:?}{:?}",
            view.student(),
            view.rows(),
            view.personal()
        )?;
    }
    let exam = office.candidate_exam(alloc, student, ExamNo::new(0));
    let penalty = office.candidate_penalty(alloc, student);
    write!(text, "{exam:?}{penalty:?}")
}
