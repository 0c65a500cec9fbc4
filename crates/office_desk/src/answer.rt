// The answers of the office.
use exam_model::Timetable;
use exam_score::PersonalParts;
use exam_terms::ExamNo;
use office_model::{CandidateView, Counts, Loaded, Published, StoreFault, ViewRow};
use office_policy::{Body, Denial};
use std::alloc::AllocError;

/// The office's answer to a command.
#[derive(Drop)]
pub enum Answer {
    /// A candidate's view: their exams, and their penalty.
    Me(CandidateView),
    /// One of a candidate's exams.
    MyExam(ViewRow),
    /// A candidate's penalty.
    MyPenalty(PersonalParts),
    /// The exam isn't one of the candidate's; the answer doesn't say whether it exists.
    NotMine,
    /// The counts of the loaded exams, pairs, periods and rooms.
    Loaded(Loaded),
    /// An instance file, a solution file or a report.
    Text(Vec<u8>),
    /// An exam and the department that owns it now: at most 999, or 0 for none.
    Owner(ExamNo, u32),
    /// A new draft, and its penalty, below 2^62.
    NewDraft(u32, u64),
    /// An edited draft, and its penalty, below 2^62.
    Edited(u32, u64),
    /// A deleted draft.
    Dropped(u32),
    /// A draft, its timetable and its penalty, below 2^62.
    Draft(u32, Timetable, u64),
    /// A published draft: the counts of what the publication changed.
    Published(u32, Published),
    /// An accepted batch: the counts of its lines when it was first accepted.
    Enrolled(u32, Counts),
    /// Nothing is published.
    Unpublished,
    /// The policy denies the command.
    Denied(Denial),
    /// The body isn't JSON of the required form.
    BadBody,
    /// The body is too long.
    LongBody,
    /// The state of the office refuses the command; never `Store` or `BadSchema`.
    Refused(StoreFault),
    /// A statement failed, or memory ran out: nothing was done.
    Unavailable,
}

impl From<StoreFault> for Answer {
    ghost use Rattle.std.specs.Prelude.{◌≡◌};
    ghost use Rattle.office_desk.specs.Answers.{plain_answer, refusal};

    ghost from_gives = { λ fault answer. plain_answer answer ≡ refusal fault };

    fn from(fault: StoreFault) -> Answer {
        match fault {
            StoreFault::Store | StoreFault::BadSchema => Answer::Unavailable,
            _ => Answer::Refused(fault),
        }
    }
}

impl From<AllocError> for Answer {
    ghost use Rattle.std.specs.Prelude.{◌≡◌};
    ghost use Rattle.office_model.specs.Answers.{unavailable};
    ghost use Rattle.office_desk.specs.Answers.{plain_answer};

    ghost from_gives = { λ _ answer. plain_answer answer ≡ unavailable };

    fn from(_error: AllocError) -> Answer {
        Answer::Unavailable
    }
}
